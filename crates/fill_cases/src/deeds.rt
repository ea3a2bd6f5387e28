// What a hart does with its TLB, compared with what is to come of it.
ghost use Rattle.std.specs.Prelude.{◌≡◌, ◌≤◌, ◌<◌};
ghost use Rattle.step_laws.specs.Layout.{IsInLimits};
ghost use Rattle.step_laws.specs.Marks.{swapping};
ghost use Rattle.step_laws.specs.Sections.{inside, phase};
ghost use Rattle.guest_ram.specs.Ports.{layout_of};
ghost use Rattle.guest_ram_cases.specs.Sweeps.{IsAtStage};
ghost use Rattle.guest_ram_cases.specs.Tours.{IsFresh};
ghost use Rattle.kept_fills.specs.Beside.{IsBeside};

use flush::{flush_all, flush_pages};
use guest_ram::Port;
use guest_ram_cases::{enter, take_words};
use rv64_priv::{Kind, Regime};
use std::alloc::Global;
use step_laws::{Layout, MONITOR, NoMemory};
use tlb_cases::{Mapped, open_mapped};
use tlb_entry::Book;
use tlb_fill::{Translated, translate};
use tlb_lock::{Busy, try_lock};

/// One use of the TLB, with what it is to answer. `held`: a flush finds the monitor holding the lock.
#[derive(Clone, Copy)]
pub enum Deed {
    Translate {
        regime: Regime,
        va: u64,
        kind: Kind,
        to: Translated,
    },
    FlushAll {
        held: bool,
    },
    /// Pages by the number of the first one.
    FlushPages {
        page: u32,
        count: u16,
        held: bool,
    },
}

/// A use, and how many slots are to be used behind it.
#[derive(Clone, Copy)]
pub struct Row {
    pub deed: Deed,
    pub used: u16,
}

/// Whether a flush came to this.
fn is_flushed(flushed: Result<(), Busy>, held: bool) -> bool {
    match flushed {
        Ok(()) => !held,
        Err(busy) => held && busy.holder == u64::from(MONITOR) + 1,
    }
}

/// Does it. `true`: it answered what it was to.
fn is_right<P: Port>(port: &mut P, book: &mut Book, deed: &Deed) -> bool
    requires beside { IsBeside book.old (P.shows port.old) }
    requires inside { phase (P.shows port.old).own.steps ≡ inside }
    ensures beside { IsBeside book.new (P.shows port.new) }
    ensures inside { phase (P.shows port.new).own.steps ≡ inside }
{
    match *deed {
        Deed::Translate {
            regime,
            va,
            kind,
            to,
        } => translate(book, port, &regime, va, kind) == to,
        Deed::FlushAll { held } => is_flushed(flush_all(book, port), held),
        Deed::FlushPages { page, count, held } => {
            is_flushed(flush_pages(book, port, u64::from(page), count), held)
        }
    }
}

/// How many rows come out right before the first that doesn't.
fn count_right<P: Port>(port: &mut P, book: &mut Book, rows: &[Row]) -> usize
    requires beside { IsBeside book.old (P.shows port.old) }
    requires inside { phase (P.shows port.old).own.steps ≡ inside }
    ensures beside { IsBeside book.new (P.shows port.new) }
    ensures inside { phase (P.shows port.new).own.steps ≡ inside }
{
    for (number, row) in rows.iter().enumerate() {
        if !is_right(port, book, &row.deed) || book.used != row.used {
            return number;
        }
    }
    rows.len()
}

/// Enters first.
fn enter_and_count<P: Port>(port: &mut P, book: &mut Book, rows: &[Row]) -> usize
    requires beside { IsBeside book.old (P.shows port.old) }
    requires fresh { IsFresh (P.shows port.old) }
{
    if enter(port).is_err() {
        return 0;
    }
    count_right(port, book, rows)
}

/// The same by hart 0 of a machine with page tables, whose TLB is empty.
pub fn rows_right(alloc: Global, layout: Layout, rows: &[Row]) -> Result<usize, NoMemory>
    requires limits { IsInLimits layout }
    requires pages { 1024 ≤ layout.pages }
{
    let Mapped {
        table,
        hart,
        monitor: _monitor,
    } = open_mapped(alloc, layout)?;
    let mut pass = hart.pass(&table);
    let mut book = Book::new(0);
    Ok(enter_and_count(&mut pass, &mut book, rows))
}

/// Enters and makes rows, and then, while the monitor holds the lock of the hart's TLB as in its pass over that, further ones. How many of
/// each come out right.
fn count_beside<P: Port>(
    port: &mut P,
    monitor: &mut P,
    book: &mut Book,
    rows: &[Row],
    held: &[Row],
) -> (usize, usize)
    requires beside { IsBeside book.old (P.shows port.old) }
    requires fresh { IsFresh (P.shows port.old) }
    requires stage { IsAtStage (P.shows monitor.old) (swapping 0) }
{
    if enter(port).is_err() {
        return (0, 0);
    }
    let before = count_right(port, book, rows);
    take_words(monitor);
    let _locked = try_lock(monitor, 0);
    (before, count_right(port, book, held))
}

/// The same by hart 0 beside the monitor.
pub fn rows_right_beside(
    alloc: Global,
    layout: Layout,
    rows: &[Row],
    held: &[Row],
) -> Result<(usize, usize), NoMemory>
    requires limits { IsInLimits layout }
    requires pages { 1024 ≤ layout.pages }
{
    let Mapped {
        table,
        hart,
        monitor,
    } = open_mapped(alloc, layout)?;
    let mut pass = hart.pass(&table);
    let mut passing = monitor.pass(&table);
    let mut book = Book::new(0);
    Ok(count_beside(&mut pass, &mut passing, &mut book, rows, held))
}
