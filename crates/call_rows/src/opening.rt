// A machine with the seats of hart 0 and of another actor, whose loader has stored some words of RAM; and its end.
ghost use Rattle.std.specs.Prelude.{◌≡◌, ◌≤◌, ◌∷◌, [], IfOk, length, ℕ, true, false};
ghost use Rattle.step_laws.specs.Discipline.{IsActor};
ghost use Rattle.step_laws.specs.Layout.{IsInLimits};
ghost use Rattle.step_laws.specs.Steps.{words_of};
ghost use Rattle.guest_ram.specs.Areas.{IsOfRam};
ghost use Rattle.guest_ram.specs.Ports.{IsBooting, GoesBy};
ghost use Rattle.guest_ram.specs.Shown.{all_words, machine_of, seat_shown};
ghost use Rattle.guest_ram_cases.specs.Tours.{IsLeading, IsSeatOf, fresh_seat};
ghost use Rattle.call_rows.specs.Opened.{AreOthersStopped};

use guest_ram::{Port, Seat, Table, Words, close, open_machine};
use guest_ram_cases::{boot_ram, boot_words};
use std::alloc::Global;
use step_laws::{Layout, NoMemory};

/// A word of RAM by its index, and what the loader stores there.
#[derive(Clone, Copy)]
pub struct Loaded {
    pub index: u32,
    pub value: u64,
}

/// Stores a word, where the machine has it.
#[tactic(auto, using(guest_ram::proofs::Moves::goes_none, guest_ram::proofs::Moves::goes_at_most))]
fn boot_there<P: Port>(port: &mut P, word: Loaded)
    requires booting { IsBooting (P.shows port.old) }
    ensures booting { IsBooting (P.shows port.new) }
    ensures goes { GoesBy 1 IsOfRam (P.shows port.old) (P.shows port.new) }
{
    if word.index >= 512 * port.layout().pages {
        return;
    }
    boot_ram(port, word.index, word.value);
}

fn boot_all<P: Port>(port: &mut P, words: &[Loaded])
    requires booting { IsBooting (P.shows port.old) }
    ensures booting { IsBooting (P.shows port.new) }
    ensures goes { (n : ℕ) × GoesBy n IsOfRam (P.shows port.old) (P.shows port.new) }
{
    for word in words {
        boot_there(port, *word);
    }
}

/// Two seats, and the loader's.
pub(crate) struct Pair {
    pub(crate) table: Table,
    pub(crate) loader: Seat,
    pub(crate) first: Seat,
    pub(crate) second: Seat,
}

/// Opens a machine with these words, and the seats of hart 0, which runs, and of another hart, which is stopped, or the monitor.
pub(crate) fn open_pair(
    alloc: Global,
    layout: Layout,
    second: u8,
    words: &[Loaded],
) -> Result<Pair, NoMemory>
    requires limits { IsInLimits layout }
    requires actor { IsActor layout second }
    requires other { 1 ≤ second }
    ensures layout { IfOk result (λ pair. (machine_of pair.table).layout ≡ layout) }
    ensures loader { IfOk result (λ pair. IsLeading (machine_of pair.table) (seat_shown pair.loader) (second ∷ 0 ∷ [])) }
    ensures first { IfOk result (λ pair. seat_shown pair.first ≡ fresh_seat (machine_of pair.table) 0 true) }
    ensures second { IfOk result (λ pair. seat_shown pair.second ≡ fresh_seat (machine_of pair.table) second false) }
    ensures others { IfOk result (λ pair. AreOthersStopped layout (seat_shown pair.loader).own.steps) }
{
    let (table, seat) = open_machine(alloc, layout)?;
    let mut pass = seat.pass(&table);
    boot_all(&mut pass, words);
    boot_words(&mut pass);
    let first = pass.split(0);
    let other = pass.split(second);
    let loader = pass.rest();
    Ok(Pair {
        table,
        loader,
        first,
        second: other,
    })
}

/// The words, once the seats are back.
pub(crate) fn close_pair(table: Table, leading: Seat, first: Seat, second: Seat) -> Words
    requires leading { IsLeading (machine_of table) (seat_shown leading) ((seat_shown second).own.actor ∷ 0 ∷ []) }
    requires first { IsSeatOf (machine_of table) 0 (seat_shown first) }
    requires second { (seat_shown second).machine ≡ machine_of table }
    ensures count { length (all_words result) ≡ words_of (machine_of table).layout }
{
    let mut pass = leading.pass(&table);
    pass.join(first);
    pass.join(second);
    let seat = pass.rest();
    close(table, seat)
}
