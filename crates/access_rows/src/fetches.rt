// Fetches by hart 0.
ghost use Rattle.std.specs.Prelude.{◌≡◌, ◌≤◌};
ghost use Rattle.rv64_priv.specs.Csr.{regime};
ghost use Rattle.step_laws.specs.Layout.{IsInLimits};
ghost use Rattle.guest_ram_cases.specs.Tours.{IsSameSeat};
ghost use Rattle.access_rows.specs.Ready.{IsReady};

use crate::opening::{Loaded, open_loaded};
use crate::playing::settle;
use crate::sides::{Side, new_side};
use code_fetch::{Fetched, fetch};
use guest_ram::Port;
use guest_ram_cases::{Seats, close_seats};
use rv64_exec::Arch;
use std::alloc::Global;
use step_laws::{Layout, NoMemory};

/// An address, a multiple of four, and what a fetch there comes to.
pub type FetchRow = (u64, Fetched);

/// The registers with pc at an address, aligned to four.
fn at(arch: &Arch, pc: u64) -> Arch
    ensures { regime result ≡ regime arch.now }
{
    let mut moved = *arch;
    moved.pc = pc / 4 * 4;
    moved
}

fn is_right<P: Port>(port: &mut P, side: &mut Side, row: &FetchRow) -> bool
    requires ready { IsReady side.old.book side.old.arch (P.shows port.old) }
    ensures ready { IsReady side.new.book side.new.arch (P.shows port.new) }
    ensures seat { IsSameSeat (P.shows port.old) (P.shows port.new) }
{
    let arch = at(&side.arch, row.0);
    fetch(&mut side.book, port, &arch) == row.1
}

/// How many fetches come out right before the first that doesn't.
fn count_right<P: Port>(port: &mut P, side: &mut Side, rows: &[FetchRow]) -> usize
    requires ready { IsReady side.old.book side.old.arch (P.shows port.old) }
    ensures ready { IsReady side.new.book side.new.arch (P.shows port.new) }
    ensures seat { IsSameSeat (P.shows port.old) (P.shows port.new) }
{
    for (number, row) in rows.iter().enumerate() {
        if !is_right(port, side, row) {
            return number;
        }
    }
    rows.len()
}

/// How many of these fetches of a hart inside come out right before the first that doesn't, in a machine with these words; by page tables whose
/// root is at 0x80010000, or without translation.
pub fn fetch_scene(
    alloc: Global,
    layout: Layout,
    words: &[Loaded],
    is_paged: bool,
    rows: &[FetchRow],
) -> Result<usize, NoMemory>
    requires limits { IsInLimits layout }
    requires harts { 2 ≤ layout.harts }
{
    let Seats {
        table,
        loader,
        first,
        second,
        monitor,
    } = open_loaded(alloc, layout, words)?;
    let mut pass = first.pass(&table);
    let mut side = new_side(0, is_paged);
    let right = if settle(&mut pass, &side, false) {
        count_right(&mut pass, &mut side, rows)
    } else {
        0
    };
    let first = pass.rest();
    let _words = close_seats(table, loader, first, second, monitor);
    Ok(right)
}
