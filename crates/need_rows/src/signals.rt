// What a turn begins and ends with, by two harts.
ghost use Rattle.std.specs.Prelude.{◌≡◌, ◌≤◌, ◌%◌, IfOk, IsTrue, false, length, true};
ghost use Rattle.step_laws.specs.Layout.{IsInLimits};
ghost use Rattle.step_laws.specs.Steps.{words_of};
ghost use Rattle.guest_ram.specs.Ports.{layout_of};
ghost use Rattle.guest_ram.specs.Shown.{all_words};
ghost use Rattle.guest_ram_cases.specs.States.{IsAtRest};
ghost use Rattle.guest_ram_cases.specs.Tours.{IsFresh, IsSameSeat};
ghost use Rattle.need_rows.specs.Ready.{IsHalted};

use exclusive::kick;
use guest_devices::set_stop;
use guest_ram::{Port, Words};
use guest_ram_cases::{Seats, close_seats, open_seats, start_hart};
use hart_signals::{Reason, Start, begin_turn, clear_kick, is_kicked, sign_off, take_start};
use std::alloc::Global;
use step_laws::{Layout, NoMemory};
use tlb_entry::Book;

/// What hart 1 saw: why the machine ends, and whether it is called out, before hart 0 called it, behind the call, and once it has taken the call
/// back; and why the machine ends, once hart 0 has ended it.
#[derive(Clone, Copy, Debug, PartialEq, Eq)]
pub struct Signalled {
    pub first_reason: Option<Reason>,
    pub before: bool,
    pub behind: bool,
    pub cleared: bool,
    pub reason: Option<Reason>,
}

/// Whether hart 1 stayed stopped by its look before hart 0 started it, and what its look behind that came to.
#[derive(Clone, Copy, Debug, PartialEq, Eq)]
pub struct Taken {
    pub stayed: bool,
    pub start: Option<Start>,
}

/// The deeds of both harts, in their order.
fn signal_beside<P: Port>(first: &mut P, second: &mut P) -> Signalled
    requires first { IsFresh (P.shows first.old) }
    requires zero { (P.shows first.old).own.actor ≡ 0 }
    requires two { 2 ≤ (layout_of (P.shows first.old)).harts }
    requires second { IsFresh (P.shows second.old) }
    requires one { (P.shows second.old).own.actor ≡ 1 }
    requires other_two { 2 ≤ (layout_of (P.shows second.old)).harts }
    ensures seat { IsSameSeat (P.shows first.old) (P.shows first.new) }
    ensures second_seat { IsSameSeat (P.shows second.old) (P.shows second.new) }
{
    let first_reason = begin_turn(second);
    let before = is_kicked(second);
    kick(first, 1);
    let behind = is_kicked(second);
    clear_kick(second);
    let cleared = is_kicked(second);
    set_stop(first, Reason::Pass);
    let reason = begin_turn(second);
    sign_off(second);
    Signalled {
        first_reason,
        before,
        behind,
        cleared,
        reason,
    }
}

/// The same on a machine, and its words behind it.
pub fn signal_scene(alloc: Global, layout: Layout) -> Result<(Signalled, Words), NoMemory>
    requires limits { IsInLimits layout }
    requires harts { 2 ≤ layout.harts }
    ensures count { IfOk result (λ made. length (all_words made.1) ≡ words_of layout) }
{
    let Seats {
        table,
        loader,
        first,
        second,
        monitor,
    } = open_seats(alloc, layout, 0)?;
    let mut pass = first.pass(&table);
    let mut other = second.pass(&table);
    let signalled = signal_beside(&mut pass, &mut other);
    let first = pass.rest();
    let second = other.rest();
    Ok((
        signalled,
        close_seats(table, loader, first, second, monitor),
    ))
}

/// Looks whether a stopped hart is to begin. `true`: it stays stopped.
fn stays<P: Port>(book: &mut Book, port: &mut P) -> bool
    requires halted { IsHalted book.old (P.shows port.old) }
    ensures halted { IsTrue result → IsHalted book.new (P.shows port.new) }
    ensures seat { IsSameSeat (P.shows port.old) (P.shows port.new) }
{
    match take_start(book, port) {
        Ok(None) => true,
        _ => false,
    }
}

/// What it begins with, where it begins.
fn started<P: Port>(book: &mut Book, port: &mut P) -> Option<Start>
    requires halted { IsHalted book.old (P.shows port.old) }
    ensures seat { IsSameSeat (P.shows port.old) (P.shows port.new) }
{
    match take_start(book, port) {
        Ok(start) => start,
        Err(_) => None,
    }
}

/// Hart 1 looks, hart 0 starts it, and it looks again.
fn start_beside<P: Port>(
    first: &mut P,
    second: &mut P,
    book: &mut Book,
    at: u64,
    opaque: u64,
) -> Taken
    requires rest { IsAtRest (P.shows first.old) true }
    requires zero { (P.shows first.old).own.actor ≡ 0 }
    requires two { 2 ≤ (layout_of (P.shows first.old)).harts }
    requires halted { IsHalted book.old (P.shows second.old) }
    requires place { at % 4 ≡ 0 }
    ensures seat { IsSameSeat (P.shows first.old) (P.shows first.new) }
    ensures second_seat { IsSameSeat (P.shows second.old) (P.shows second.new) }
{
    if !stays(book, second) {
        return Taken {
            stayed: false,
            start: None,
        };
    }
    if !start_hart(first, 1, at, opaque) {
        return Taken {
            stayed: true,
            start: None,
        };
    }
    Taken {
        stayed: true,
        start: started(book, second),
    }
}

/// The same on a machine, and its words behind it.
pub fn start_scene(
    alloc: Global,
    layout: Layout,
    at: u64,
    opaque: u64,
) -> Result<(Taken, Words), NoMemory>
    requires limits { IsInLimits layout }
    requires harts { 2 ≤ layout.harts }
    requires place { at % 4 ≡ 0 }
    ensures count { IfOk result (λ made. length (all_words made.1) ≡ words_of layout) }
{
    let Seats {
        table,
        loader,
        first,
        second,
        monitor,
    } = open_seats(alloc, layout, 0)?;
    let mut pass = first.pass(&table);
    let mut other = second.pass(&table);
    let mut book = Book::new(1);
    let taken = start_beside(&mut pass, &mut other, &mut book, at, opaque);
    let first = pass.rest();
    let second = other.rest();
    Ok((taken, close_seats(table, loader, first, second, monitor)))
}
