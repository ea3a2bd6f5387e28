// A console that is filled to its last place.
ghost use Rattle.std.specs.Prelude.{◌≡◌, ◌≤◌, IfOk, length};
ghost use Rattle.step_laws.specs.Layout.{IsInLimits};
ghost use Rattle.step_laws.specs.Sections.{inside, phase};
ghost use Rattle.step_laws.specs.Steps.{words_of};
ghost use Rattle.guest_ram.specs.Ports.{IsActing};
ghost use Rattle.guest_ram.specs.Shown.{all_words};
ghost use Rattle.guest_ram_cases.specs.Tours.{IsFresh, IsSameSeat};

use guest_devices::{device_store, put_byte};
use guest_ram::{Port, Words};
use guest_ram_cases::{Seats, close_seats, enter, open_seats};
use std::alloc::Global;
use step_laws::{CONSOLE_PLACES, Layout, NoMemory};

/// What came of the bytes.
#[derive(Clone, Copy, Debug, PartialEq, Eq)]
pub struct Filled {
    /// How many found a place.
    pub put: u32,
    /// The place that was drawn for the next one where there was none.
    pub beyond: Option<u64>,
    /// Whether the UART took one more behind that.
    pub is_taken: bool,
}

/// Puts a byte in each place of the console, one more, and one more by a store on the UART.
fn put_all<P: Port>(port: &mut P, byte: u8) -> Filled
    requires acting { IsActing (P.shows port.old) }
    requires inside { phase (P.shows port.old).own.steps ≡ inside }
    ensures seat { IsSameSeat (P.shows port.old) (P.shows port.new) }
{
    let mut put: u32 = 0;
    for place in 0..CONSOLE_PLACES {
        if put_byte(port, byte).is_ok() {
            put = place + 1;
        }
    }
    let beyond = put_byte(port, byte).err();
    let is_taken = device_store(port, 0x1000_0000, 1, u64::from(byte)).is_some();
    Filled {
        put,
        beyond,
        is_taken,
    }
}

/// Enters first.
fn enter_and_put<P: Port>(port: &mut P, byte: u8) -> Option<Filled>
    requires fresh { IsFresh (P.shows port.old) }
    ensures seat { IsSameSeat (P.shows port.old) (P.shows port.new) }
{
    if enter(port).is_err() {
        return None;
    }
    Some(put_all(port, byte))
}

/// The same by hart 0 of a machine of two harts, and the machine's words behind it. `None`: the hart was not let in.
pub fn fill_console(
    alloc: Global,
    layout: Layout,
    byte: u8,
) -> Result<(Option<Filled>, Words), NoMemory>
    requires limits { IsInLimits layout }
    requires harts { 2 ≤ layout.harts }
    ensures count { IfOk result (λ made. length (all_words made.1) ≡ words_of layout) }
{
    let Seats {
        table,
        loader,
        first,
        second,
        monitor,
    } = open_seats(alloc, layout, 7)?;
    let mut pass = first.pass(&table);
    let filled = enter_and_put(&mut pass, byte);
    let first = pass.rest();
    Ok((filled, close_seats(table, loader, first, second, monitor)))
}
