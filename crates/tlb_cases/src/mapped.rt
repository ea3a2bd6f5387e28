// A machine whose loader has stored page tables.
ghost use Rattle.std.specs.Prelude.{◌≡◌, ◌≤◌, ◌<◌, ◌*◌, IfOk, true, false};
ghost use Rattle.step_laws.specs.Layout.{IsInLimits};
ghost use Rattle.step_laws.specs.Map.{monitor};
ghost use Rattle.guest_ram.specs.Areas.{IsOfRam};
ghost use Rattle.guest_ram.specs.Ports.{layout_of, IsBooting, GoesBy};
ghost use Rattle.guest_ram.specs.Shown.{machine_of, seat_shown};
ghost use Rattle.guest_ram_cases.specs.Tours.{fresh_seat};

use guest_ram::{Port, Seat, Table, open_machine};
use guest_ram_cases::{boot_ram, boot_words};
use std::alloc::Global;
use step_laws::{Layout, MONITOR, NoMemory};

/// A machine with page tables whose root is at 0x80010000, and the seats of hart 0 and of the monitor.
#[derive(Drop)]
pub struct Mapped {
    pub table: Table,
    pub hart: Seat,
    pub monitor: Seat,
}

/// The words of the page tables: each with its index in RAM and its value.
fn map_word(number: u8) -> (u32, u64)
    ensures { result.0 < 512 * 1024 }
{
    match number {
        // the root: a table, one outside of RAM, and 1 GiB where it is
        0 => (0x1_0000 / 8, 0x2000_4401),
        1 => (0x1_0008 / 8, 0x1c00_0001),
        2 => (0x1_0010 / 8, 0x2000_00cf),
        // a table, 2 MiB, and 2 MiB that aren't aligned
        3 => (0x1_1000 / 8, 0x2000_4801),
        4 => (0x1_1008 / 8, 0x2008_00c7),
        5 => (0x1_1010 / 8, 0x2008_04c7),
        // a page, one for user mode, one with bit 54
        6 => (0x1_2008 / 8, 0x2000_80c7),
        7 => (0x1_2018 / 8, 0x2000_80d7),
        8 => (0x1_2020 / 8, 0x0040_0000_2000_80c7),
        // without A, without D, W without R, a pointer, X alone, the UART, an address outside of RAM
        9 => (0x1_2028 / 8, 0x2000_8087),
        10 => (0x1_2030 / 8, 0x2000_8047),
        11 => (0x1_2038 / 8, 0x2000_80c5),
        12 => (0x1_2040 / 8, 0x2000_8001),
        13 => (0x1_2048 / 8, 0x2000_80c9),
        14 => (0x1_2050 / 8, 0x0400_00cf),
        _ => (0x1_2058 / 8, 0x3000_00c7),
    }
}

fn boot_map<P: Port>(port: &mut P)
    requires booting { IsBooting (P.shows port.old) }
    requires pages { 1024 ≤ (layout_of (P.shows port.old)).pages }
    ensures booting { IsBooting (P.shows port.new) }
    ensures goes { GoesBy 16 IsOfRam (P.shows port.old) (P.shows port.new) }
{
    for number in 0..16 {
        let (index, value) = map_word(number);
        boot_ram(port, index, value);
    }
}

/// Opens such a machine.
pub fn open_mapped(alloc: Global, layout: Layout) -> Result<Mapped, NoMemory>
    requires limits { IsInLimits layout }
    requires pages { 1024 ≤ layout.pages }
    ensures layout { IfOk result (λ mapped. (machine_of mapped.table).layout ≡ layout) }
    ensures hart { IfOk result (λ mapped. seat_shown mapped.hart ≡ fresh_seat (machine_of mapped.table) 0 true) }
    ensures monitor { IfOk result (λ mapped. seat_shown mapped.monitor ≡ fresh_seat (machine_of mapped.table) monitor false) }
{
    let (table, seat) = open_machine(alloc, layout)?;
    let mut pass = seat.pass(&table);
    boot_map(&mut pass);
    boot_words(&mut pass);
    let hart = pass.split(0);
    let monitor = pass.split(MONITOR);
    let _loader = pass.rest();
    Ok(Mapped {
        table,
        hart,
        monitor,
    })
}
