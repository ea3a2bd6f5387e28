// What a hart does with devices, compared with what is to come of it.
ghost use Rattle.std.specs.Prelude.{◌≡◌, ◌≤◌, IfOk, length};
ghost use Rattle.step_laws.specs.Layout.{IsInLimits};
ghost use Rattle.step_laws.specs.Sections.{inside, phase};
ghost use Rattle.step_laws.specs.Steps.{words_of};
ghost use Rattle.guest_ram.specs.Ports.{IsActing};
ghost use Rattle.guest_ram.specs.Shown.{all_words};
ghost use Rattle.guest_ram_cases.specs.Tours.{IsFresh, IsSameSeat};

use guest_devices::{device_load, device_store, ipi, put_byte, set_stop};
use guest_ram::{Port, Words};
use guest_ram_cases::{Seats, close_seats, enter, open_seats};
use machine_model::Reason;
use rv64_exec::IpiOp;
use std::alloc::Global;
use step_laws::{Layout, NoMemory};

/// One use of a device, with what it is to answer.
#[derive(Clone, Copy)]
pub enum Deed {
    Load {
        pa: u64,
        width: u8,
        value: Option<u64>,
    },
    Store {
        pa: u64,
        width: u8,
        value: u64,
        is_taken: bool,
    },
    Put(u8),
    Ipi {
        op: IpiOp,
        mask: u64,
        found: u64,
    },
    /// An end with the fail code 9, and the reason that stands then.
    Fail(Reason),
}

/// Does it. `true`: it answered what it was to.
fn is_right<P: Port>(port: &mut P, deed: &Deed) -> bool
    requires acting { IsActing (P.shows port.old) }
    requires inside { phase (P.shows port.old).own.steps ≡ inside }
    ensures inside { phase (P.shows port.new).own.steps ≡ inside }
    ensures acting { IsActing (P.shows port.new) }
    ensures seat { IsSameSeat (P.shows port.old) (P.shows port.new) }
{
    match *deed {
        Deed::Load { pa, width, value } => device_load(port, pa, width) == value,
        Deed::Store {
            pa,
            width,
            value,
            is_taken,
        } => device_store(port, pa, width, value).is_some() == is_taken,
        Deed::Put(byte) => put_byte(port, byte).is_ok(),
        Deed::Ipi { op, mask, found } => ipi(port, op, mask) == found,
        Deed::Fail(stands) => set_stop(port, Reason::Fail(9)) == stands,
    }
}

/// How many rows come out right before the first that doesn't.
fn count_right<P: Port>(port: &mut P, rows: &[Deed]) -> usize
    requires acting { IsActing (P.shows port.old) }
    requires inside { phase (P.shows port.old).own.steps ≡ inside }
    ensures seat { IsSameSeat (P.shows port.old) (P.shows port.new) }
{
    for (number, row) in rows.iter().enumerate() {
        if !is_right(port, row) {
            return number;
        }
    }
    rows.len()
}

/// Enters first.
fn enter_and_count<P: Port>(port: &mut P, rows: &[Deed]) -> usize
    requires fresh { IsFresh (P.shows port.old) }
    ensures seat { IsSameSeat (P.shows port.old) (P.shows port.new) }
{
    if enter(port).is_err() {
        return 0;
    }
    count_right(port, rows)
}

/// The same by hart 0 of a machine of two harts, and the machine's words behind it.
pub fn rows_right(alloc: Global, layout: Layout, rows: &[Deed]) -> Result<(usize, Words), NoMemory>
    requires limits { IsInLimits layout }
    requires harts { 2 ≤ layout.harts }
    ensures count { IfOk result (λ made. length (all_words made.1) ≡ words_of layout) }
{
    let Seats {
        table,
        loader,
        first,
        second,
        monitor,
    } = open_seats(alloc, layout, 7)?;
    let mut pass = first.pass(&table);
    let right = enter_and_count(&mut pass, rows);
    let first = pass.rest();
    Ok((right, close_seats(table, loader, first, second, monitor)))
}
