// Flushes, each in one section of the hart's own lock: the step that frees it is the place of the flush.
ghost use Rattle.std.specs.Prelude.{◌≡◌, ◌<◌, ◌^◌, OnOk, IfErr};
ghost use Rattle.guest_ram.specs.Areas.{IsOfTable};
ghost use Rattle.guest_ram.specs.Ports.{GoesBy};
ghost use Rattle.kept_fills.specs.Beside.{IsBeside};
ghost use Rattle.flush.specs.Flushed.{HasBeenBusy, HasFlushed, HasFlushedAll, full_steps, page_steps};

use crate::sweeps::{empty, sweep};
use guest_ram::Port;
use tlb_entry::Book;
use tlb_lock::{Busy, try_lock, unlock};

/// Flushes the hart's whole table. Where another holds its lock nothing is flushed.
pub fn flush_all<P: Port>(book: &mut Book, port: &mut P) -> Result<(), Busy>
    requires beside { IsBeside book.old (P.shows port.old) }
    ensures flushed { OnOk result (HasFlushedAll (P.shows port.old) (P.shows port.new) book.old book.new) }
    ensures busy { IfErr result (λ busy. HasBeenBusy busy.holder (P.shows port.old) (P.shows port.new) book.old book.new) }
    ensures beside { IsBeside book.new (P.shows port.new) }
    ensures goes { GoesBy (full_steps book.old.size) IsOfTable (P.shows port.old) (P.shows port.new) }
{
    match try_lock(port, book.hart) {
        Err(busy) => return Err(busy),
        Ok(()) => {}
    }
    let hart = book.hart;
    empty(port, book);
    unlock(port, hart);
    Ok(())
}

/// Flushes pages by the number of the first one and their count; the whole table where an entry of a leaf of 2 MiB or 1 GiB was put since
/// the last full flush. Where another holds the lock nothing is flushed.
pub fn flush_pages<P: Port>(
    book: &mut Book,
    port: &mut P,
    page: u64,
    count: u16,
) -> Result<(), Busy>
    requires beside { IsBeside book.old (P.shows port.old) }
    requires page { page < 2 ^ 52 }
    ensures flushed { OnOk result (HasFlushed book.old.large (P.shows port.old) (P.shows port.new) book.old book.new page count) }
    ensures busy { IfErr result (λ busy. HasBeenBusy busy.holder (P.shows port.old) (P.shows port.new) book.old book.new) }
    ensures beside { IsBeside book.new (P.shows port.new) }
    ensures goes { GoesBy (page_steps book.old.large book.old.size count) IsOfTable (P.shows port.old) (P.shows port.new) }
{
    if book.large {
        return flush_all(book, port);
    }
    match try_lock(port, book.hart) {
        Err(busy) => return Err(busy),
        Ok(()) => {}
    }
    sweep(port, book, page, count);
    unlock(port, book.hart);
    Ok(())
}
