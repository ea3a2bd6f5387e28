// Needs of hart 0, which is inside, compared with what is to come of them.
ghost use Rattle.std.specs.Prelude.{◌≡◌, ◌≤◌, IfOk, IsTrue, false, length, true};
ghost use Rattle.rv64_exec.specs.Widths.{IsWellFormedNeed};
ghost use Rattle.step_laws.specs.Layout.{IsInLimits};
ghost use Rattle.step_laws.specs.Steps.{words_of};
ghost use Rattle.guest_ram.specs.Shown.{all_words};
ghost use Rattle.guest_ram_cases.specs.Tours.{IsFresh, IsSameSeat};
ghost use Rattle.kept_fills.specs.Beside.{IsBeside};
ghost use Rattle.need_serving.specs.Ends.{IsPageOf, runs_on};
ghost use Rattle.need_rows.specs.Ready.{IsReady};

use exclusive::enter;
use guest_ram::{Port, Words};
use guest_ram_cases::{Seats, close_seats, open_seats};
use hart_calls::Span;
use need_serving::{NeedEnd, serve_need};
use rv64_exec::{Answer, Arch, FlushOf, Need};
use std::alloc::Global;
use step_laws::{Layout, NoMemory};
use tlb_entry::Book;

/// What came of a need. `Other`: nothing that these rows want.
#[derive(Clone, Copy, Debug, PartialEq, Eq)]
pub enum Came {
    Nothing,
    Value(u64),
    Pair(i64, u64),
    Single(u64),
    Fault(u64, u64),
    Stopped,
    Fence(u64, Span),
    NeedsSection,
    Other,
}

/// A need, and what is to come of it.
#[derive(Clone, Copy)]
pub struct Row {
    pub need: Need,
    pub to: Came,
}

fn came_of(end: &NeedEnd) -> Came {
    match *end {
        NeedEnd::Done(Answer::Nothing) => Came::Nothing,
        NeedEnd::Done(Answer::Value(value)) => Came::Value(value),
        NeedEnd::Done(Answer::Pair { error, value }) => Came::Pair(error, value),
        NeedEnd::Done(Answer::Single(value)) => Came::Single(value),
        NeedEnd::Done(Answer::Fault { cause, tval }) => Came::Fault(cause, tval),
        NeedEnd::Done(_) => Came::Other,
        NeedEnd::Stopped => Came::Stopped,
        NeedEnd::Fence { harts, span } => Came::Fence(harts, span),
        NeedEnd::NeedsSection => Came::NeedsSection,
        NeedEnd::Lost { .. } | NeedEnd::Busy(_) => Came::Other,
    }
}

/// Whether the hart runs behind it.
fn goes_on(end: &NeedEnd) -> bool
    ensures { result ≡ runs_on end.now }
{
    !matches!(*end, NeedEnd::Stopped)
}

/// Whether such a need can come of an instruction.
fn is_formed(need: &Need) -> bool
    ensures form { IsTrue result → IsWellFormedNeed need.now }
    ensures page { IsTrue result → IsPageOf need.now }
{
    match *need {
        Need::Load { width, .. } | Need::Store { width, .. } => matches!(width, 1 | 2 | 4 | 8),
        Need::Flush(FlushOf::Page(page)) => page < 1 << 52,
        _ => true,
    }
}

/// Enters. `false`: another claims the section.
fn settle<P: Port>(port: &mut P, book: &Book, arch: &Arch) -> bool
    requires fresh { IsFresh (P.shows port.old) }
    requires runs { (P.shows port.old).own.runs ≡ true }
    requires beside { IsBeside book.now (P.shows port.old) }
    requires large { book.now.large ≡ false }
    ensures ready { IsTrue result → IsReady book.now arch.now (P.shows port.new) }
    ensures seat { IsSameSeat (P.shows port.old) (P.shows port.new) }
{
    match enter(port) {
        Ok(()) => true,
        Err(_) => false,
    }
}

/// Serves the need of a row; whether it came out right, and whether the hart runs on.
fn serve_row<P: Port>(port: &mut P, book: &mut Book, arch: &Arch, row: &Row) -> (bool, bool)
    requires ready { IsReady book.old arch.now (P.shows port.old) }
    ensures ready { IsTrue result.1 → IsReady book.new arch.now (P.shows port.new) }
    ensures seat { IsSameSeat (P.shows port.old) (P.shows port.new) }
{
    if !is_formed(&row.need) {
        return (false, true);
    }
    let end = serve_need(book, port, arch, &row.need, false);
    (came_of(&end) == row.to, goes_on(&end))
}

/// How many rows come out right before the first that doesn't, or behind which the hart no longer runs.
fn count_right<P: Port>(port: &mut P, book: &mut Book, arch: &Arch, rows: &[Row]) -> usize
    requires ready { IsReady book.old arch.now (P.shows port.old) }
    ensures seat { IsSameSeat (P.shows port.old) (P.shows port.new) }
{
    let mut count = 0;
    for row in rows.iter() {
        let (is_right, runs) = serve_row(port, book, arch, row);
        if !is_right {
            return count;
        }
        count += 1;
        if !runs {
            return count;
        }
    }
    count
}

/// How many of these needs of hart 0, which is inside with these registers, come out right before the first that doesn't, and the machine's
/// words behind them.
pub fn need_scene(
    alloc: Global,
    layout: Layout,
    arch: &Arch,
    rows: &[Row],
) -> Result<(usize, Words), NoMemory>
    requires limits { IsInLimits layout }
    requires harts { 2 ≤ layout.harts }
    ensures count { IfOk result (λ made. length (all_words made.1) ≡ words_of layout) }
{
    let Seats {
        table,
        loader,
        first,
        second,
        monitor,
    } = open_seats(alloc, layout, 0)?;
    let mut pass = first.pass(&table);
    let mut book = Book::new(0);
    let right = if settle(&mut pass, &book, arch) {
        count_right(&mut pass, &mut book, arch, rows)
    } else {
        0
    };
    let first = pass.rest();
    Ok((right, close_seats(table, loader, first, second, monitor)))
}
