// A machine of two harts that has loaded a guest.
ghost use Rattle.std.specs.Prelude.{◌≡◌, ◌∷◌, [], IfOk, true, false};
ghost use Rattle.step_laws.specs.Map.{monitor};
ghost use Rattle.elf_load.specs.ImageOf.{IsImageOf};
ghost use Rattle.guest_ram.specs.Shown.{machine_of, seat_shown};
ghost use Rattle.guest_ram_cases.specs.Tours.{IsLeading, fresh_seat};

use elf_load::Image;
use guest_ram::open_machine;
use guest_ram_cases::Seats;
use hart_turn::boot;
use std::alloc::Global;
use step_laws::{Layout, MONITOR, NoMemory};

/// The machine of all scenes.
pub(crate) const LAYOUT: Layout = Layout {
    harts: 2,
    pages: 1024,
};

/// Opens a machine that has loaded a guest, and the seats of hart 0, which runs, of hart 1, which is stopped, and of the monitor.
pub(crate) fn open_guest(alloc: Global, image: &Image, file: &[u8]) -> Result<Seats, NoMemory>
    requires image { IsImageOf file.now 1024 image.now }
    ensures layout { IfOk result (λ seats. (machine_of seats.table).layout ≡ record { harts = 2; pages = 1024 }) }
    ensures loader { IfOk result (λ seats. IsLeading (machine_of seats.table) (seat_shown seats.loader) (monitor ∷ 1 ∷ 0 ∷ [])) }
    ensures first { IfOk result (λ seats. seat_shown seats.first ≡ fresh_seat (machine_of seats.table) 0 true) }
    ensures second { IfOk result (λ seats. seat_shown seats.second ≡ fresh_seat (machine_of seats.table) 1 false) }
    ensures monitor { IfOk result (λ seats. seat_shown seats.monitor ≡ fresh_seat (machine_of seats.table) monitor false) }
{
    let (table, seat) = open_machine(alloc, LAYOUT)?;
    let mut pass = seat.pass(&table);
    boot(&mut pass, image, file);
    let first = pass.split(0);
    let second = pass.split(1);
    let monitor = pass.split(MONITOR);
    let loader = pass.rest();
    Ok(Seats {
        table,
        loader,
        first,
        second,
        monitor,
    })
}
