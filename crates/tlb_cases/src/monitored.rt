// A hart beside the monitor.
ghost use Rattle.std.specs.Prelude.{◌≤◌};
ghost use Rattle.step_laws.specs.Layout.{IsInLimits};

use crate::mapped::{Mapped, open_mapped};
use dirty_bitmap::{mark, take_word};
use guest_ram_cases::take_words;
use std::alloc::Global;
use step_laws::{Layout, NoMemory};
use tlb_lock::try_lock;

/// Who holds the lock that a hart wants to take while the monitor passes over its table; 0 where it took it.
pub fn held_lock(alloc: Global, layout: Layout) -> Result<u64, NoMemory>
    requires limits { IsInLimits layout }
    requires pages { 1024 ≤ layout.pages }
{
    let Mapped {
        table,
        hart,
        monitor,
    } = open_mapped(alloc, layout)?;
    let mut passing = monitor.pass(&table);
    take_words(&mut passing);
    let _taken = try_lock(&mut passing, 0);
    let mut pass = hart.pass(&table);
    match try_lock(&mut pass, 0) {
        Ok(()) => Ok(0),
        Err(busy) => Ok(busy.holder),
    }
}

/// The first word of marks, as the monitor takes it behind a hart's marks of pages 5 and 63.
pub fn taken_marks(alloc: Global, layout: Layout) -> Result<u64, NoMemory>
    requires limits { IsInLimits layout }
    requires pages { 1024 ≤ layout.pages }
{
    let Mapped {
        table,
        hart,
        monitor,
    } = open_mapped(alloc, layout)?;
    let mut pass = hart.pass(&table);
    mark(&mut pass, 5);
    mark(&mut pass, 63);
    let mut taking = monitor.pass(&table);
    Ok(take_word(&mut taking, 0))
}
