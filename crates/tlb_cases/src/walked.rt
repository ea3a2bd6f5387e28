// Walks of the page tables, compared with what they are to come to.
ghost use Rattle.std.specs.Prelude.{◌≤◌, ◌<◌};
ghost use Rattle.step_laws.specs.Layout.{IsInLimits};
ghost use Rattle.guest_ram.specs.Ports.{layout_of};
ghost use Rattle.guest_ram_cases.specs.Tours.{IsFresh};

use crate::mapped::{Mapped, open_mapped};
use guest_ram::Port;
use guest_ram_cases::enter;
use rv64_priv::{Kind, Regime};
use std::alloc::Global;
use step_laws::{Layout, NoMemory};
use sv39_walk::{WalkEnd, walk};

/// A walk, and how it is to end.
#[derive(Clone, Copy)]
pub struct Row {
    pub regime: Regime,
    pub va: u64,
    pub kind: Kind,
    pub end: WalkEnd,
}

/// How many rows come out right before the first that doesn't.
fn count_right<P: Port>(port: &mut P, rows: &[Row]) -> usize
    requires fresh { IsFresh (P.shows port.old) }
    requires hart { (P.shows port.old).own.actor < (layout_of (P.shows port.old)).harts }
{
    if enter(port).is_err() {
        return 0;
    }
    for (number, row) in rows.iter().enumerate() {
        if walk(port, &row.regime, row.va, row.kind) != row.end {
            return number;
        }
    }
    rows.len()
}

/// The same, in a machine with the page tables.
pub fn rows_right(alloc: Global, layout: Layout, rows: &[Row]) -> Result<usize, NoMemory>
    requires limits { IsInLimits layout }
    requires pages { 1024 ≤ layout.pages }
{
    let Mapped {
        table,
        hart,
        monitor: _monitor,
    } = open_mapped(alloc, layout)?;
    let mut pass = hart.pass(&table);
    Ok(count_right(&mut pass, rows))
}
