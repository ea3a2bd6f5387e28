// A machine whose loader has stored some words of RAM.
ghost use Rattle.std.specs.Prelude.{◌≡◌, ◌≤◌, ◌∷◌, [], IfOk, ℕ, true, false};
ghost use Rattle.step_laws.specs.Layout.{IsInLimits};
ghost use Rattle.step_laws.specs.Map.{monitor};
ghost use Rattle.guest_ram.specs.Areas.{IsOfRam};
ghost use Rattle.guest_ram.specs.Ports.{IsBooting, GoesBy};
ghost use Rattle.guest_ram.specs.Shown.{machine_of, seat_shown};
ghost use Rattle.guest_ram_cases.specs.Tours.{IsLeading, fresh_seat};

use guest_ram::{Port, open_machine};
use guest_ram_cases::{Seats, boot_ram, boot_words};
use std::alloc::Global;
use step_laws::{Layout, MONITOR, NoMemory};

/// A word of RAM by its index, and what the loader stores there.
#[derive(Clone, Copy)]
pub struct Loaded {
    pub index: u32,
    pub value: u64,
}

/// Stores a word, where the machine has it.
#[tactic(auto, using(guest_ram::proofs::Moves::goes_none, guest_ram::proofs::Moves::goes_at_most))]
fn boot_there<P: Port>(port: &mut P, word: Loaded)
    requires booting { IsBooting (P.shows port.old) }
    ensures booting { IsBooting (P.shows port.new) }
    ensures goes { GoesBy 1 IsOfRam (P.shows port.old) (P.shows port.new) }
{
    if word.index >= 512 * port.layout().pages {
        return;
    }
    boot_ram(port, word.index, word.value);
}

fn boot_all<P: Port>(port: &mut P, words: &[Loaded])
    requires booting { IsBooting (P.shows port.old) }
    ensures booting { IsBooting (P.shows port.new) }
    ensures goes { (n : ℕ) × GoesBy n IsOfRam (P.shows port.old) (P.shows port.new) }
{
    for word in words {
        boot_there(port, *word);
    }
}

/// Opens a machine with these words, and the seats of hart 0, which runs, of hart 1, which is stopped, and of the monitor.
pub(crate) fn open_loaded(
    alloc: Global,
    layout: Layout,
    words: &[Loaded],
) -> Result<Seats, NoMemory>
    requires limits { IsInLimits layout }
    requires harts { 2 ≤ layout.harts }
    ensures layout { IfOk result (λ seats. (machine_of seats.table).layout ≡ layout) }
    ensures loader { IfOk result (λ seats. IsLeading (machine_of seats.table) (seat_shown seats.loader) (monitor ∷ 1 ∷ 0 ∷ [])) }
    ensures first { IfOk result (λ seats. seat_shown seats.first ≡ fresh_seat (machine_of seats.table) 0 true) }
    ensures second { IfOk result (λ seats. seat_shown seats.second ≡ fresh_seat (machine_of seats.table) 1 false) }
    ensures monitor { IfOk result (λ seats. seat_shown seats.monitor ≡ fresh_seat (machine_of seats.table) monitor false) }
{
    let (table, seat) = open_machine(alloc, layout)?;
    let mut pass = seat.pass(&table);
    boot_all(&mut pass, words);
    boot_words(&mut pass);
    let first = pass.split(0);
    let second = pass.split(1);
    let monitor = pass.split(MONITOR);
    let loader = pass.rest();
    Ok(Seats {
        table,
        loader,
        first,
        second,
        monitor,
    })
}
