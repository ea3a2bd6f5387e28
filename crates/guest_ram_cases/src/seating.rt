// A machine with the seats of two harts and the monitor, and its end.
ghost use Rattle.std.specs.Prelude.{◌≡◌, ◌≤◌, ◌∷◌, [], IfOk, List, length, map, true, false};
ghost use Rattle.step_laws.specs.Joined.{IsJoined};
ghost use Rattle.step_laws.specs.Layout.{IsInLimits};
ghost use Rattle.step_laws.specs.Map.{loader, monitor};
ghost use Rattle.step_laws.specs.Steps.{words_of};
ghost use Rattle.step_laws.specs.declared.steps.Record.{Record};
ghost use Rattle.guest_ram.specs.Shown.{all_words, machine_of, seat_shown};
ghost use Rattle.guest_ram_cases.specs.Tours.{IsLeading, IsSeatOf, fresh_seat};

use crate::booting::{boot_ram, boot_words};
use guest_ram::{Seat, Table, Words, close, open_machine};
use std::alloc::Global;
use step_laws::{Layout, MONITOR, NoMemory};

/// A machine whose loader has stored all, with the seats of hart 0, which runs, of hart 1, which is stopped, and of the monitor.
pub struct Seats {
    pub table: Table,
    pub loader: Seat,
    pub first: Seat,
    pub second: Seat,
    pub monitor: Seat,
}

/// Opens a machine and stores a number in a word of its RAM.
pub fn open_seats(alloc: Global, layout: Layout, value: u64) -> Result<Seats, NoMemory>
    requires limits { IsInLimits layout }
    requires harts { 2 ≤ layout.harts }
    ensures layout { IfOk result (λ seats. (machine_of seats.table).layout ≡ layout) }
    ensures loader { IfOk result (λ seats. IsLeading (machine_of seats.table) (seat_shown seats.loader) (monitor ∷ 1 ∷ 0 ∷ [])) }
    ensures first { IfOk result (λ seats. seat_shown seats.first ≡ fresh_seat (machine_of seats.table) 0 true) }
    ensures second { IfOk result (λ seats. seat_shown seats.second ≡ fresh_seat (machine_of seats.table) 1 false) }
    ensures monitor { IfOk result (λ seats. seat_shown seats.monitor ≡ fresh_seat (machine_of seats.table) monitor false) }
{
    let (table, seat) = open_machine(alloc, layout)?;
    let mut pass = seat.pass(&table);
    boot_ram(&mut pass, 16, value);
    boot_words(&mut pass);
    let first = pass.split(0);
    let second = pass.split(1);
    let monitor = pass.split(MONITOR);
    let loader = pass.rest();
    Ok(Seats {
        table,
        loader,
        first,
        second,
        monitor,
    })
}

/// The words, once the seats are back.
pub fn close_seats(table: Table, leading: Seat, first: Seat, second: Seat, third: Seat) -> Words
    requires leading { IsLeading (machine_of table) (seat_shown leading) (monitor ∷ 1 ∷ 0 ∷ []) }
    requires first { IsSeatOf (machine_of table) 0 (seat_shown first) }
    requires second { IsSeatOf (machine_of table) 1 (seat_shown second) }
    requires third { IsSeatOf (machine_of table) monitor (seat_shown third) }
    ensures count { length (all_words result) ≡ words_of (machine_of table).layout }
    ensures joined { (records : List Record) × IsJoined (machine_of table).layout (all_words result) records × (map (λ r. r.actor) records ≡ loader ∷ 0 ∷ 1 ∷ monitor ∷ []) }
{
    let mut pass = leading.pass(&table);
    pass.join(first);
    pass.join(second);
    pass.join(third);
    let seat = pass.rest();
    close(table, seat)
}
