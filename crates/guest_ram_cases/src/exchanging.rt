// Two harts and the rings between them: drains until one is refused, and behind them a flush of everything and one of some pages.
ghost use Rattle.std.specs.Prelude.{◌≡◌, ◌≤◌, ◌<◌, ◌+◌, IfOk, length};
ghost use Rattle.step_laws.specs.Layout.{IsInLimits};
ghost use Rattle.step_laws.specs.Places.{acked_requests};
ghost use Rattle.step_laws.specs.Steps.{words_of};
ghost use Rattle.step_laws.specs.Words.{monitor};
ghost use Rattle.guest_ram.specs.Areas.{IsOfPlaces, IsOfService};
ghost use Rattle.guest_ram.specs.Ports.{GoesBy};
ghost use Rattle.guest_ram.specs.Shown.{all_words};
ghost use Rattle.guest_ram_cases.specs.Requests.{IsPosting, IsServing};

use crate::posting::{poll_done, post};
use crate::ringing::{post_drains, serve_drains};
use crate::seating::{Seats, close_seats, open_seats};
use crate::serving::serve_flush;
use guest_ram::{Port, Words};
use std::alloc::Global;
use step_laws::{Layout, NoMemory};

/// What the harts' calls came to.
#[derive(Clone, Copy, Debug, PartialEq, Eq)]
pub struct Rings {
    /// How many drains were posted before one was refused.
    pub drains: u8,
    /// How many of them were acked.
    pub drained: u8,
    /// How many of the two flushes were posted behind them.
    pub flushes: u8,
    /// The requests that were served behind the drains.
    pub served: (u64, u64),
    /// Whether the source then found all flushes done.
    pub done: bool,
}

/// Posts a flush of everything and one of the four pages from 0x80000 on, behind so many requests. Answers how many of the two.
pub fn post_flushes<P: Port>(port: &mut P, target: u8, posted: u8) -> u8
    requires posting { IsPosting (P.shows port.old) target posted }
    requires few { posted ≤ 9 }
    ensures posting { IsPosting (P.shows port.new) target (posted + result) }
    ensures most { result ≤ 2 }
    ensures goes { GoesBy 4 IsOfPlaces (P.shows port.old) (P.shows port.new) }
{
    if post(port, target, posted % 8, 1).is_err() {
        return 0;
    }
    if post(port, target, (posted + 1) % 8, 0x8000_0022).is_err() {
        return 1;
    }
    2
}

/// Serves two requests behind so many. Answers them, and 0 where there was none or the lock was not free.
pub fn serve_flushes<P: Port>(port: &mut P, source: u8, acked: u8) -> (u64, u64)
    requires serving { IsServing (P.shows port.old) source }
    requires source { source ≤ monitor }
    requires acked { length (acked_requests (P.shows port.old).own.actor source (P.shows port.old).own.steps) ≡ acked }
    requires few { acked ≤ 9 }
    ensures serving { IsServing (P.shows port.new) source }
    ensures goes { GoesBy 8 IsOfService (P.shows port.old) (P.shows port.new) }
{
    let Ok(first) = serve_flush(port, source, acked % 8) else {
        return (0, 0);
    };
    if first == 0 {
        return (0, 0);
    }
    let Ok(second) = serve_flush(port, source, (acked + 1) % 8) else {
        return (first, 0);
    };
    (first, second)
}

/// Whether so many requests behind others are done.
pub fn are_done<P: Port>(port: &mut P, target: u8, first: u8, count: u8) -> bool
    requires posting { IsPosting (P.shows port.old) target (first + count) }
    requires few { first + count ≤ 11 }
    ensures posting { IsPosting (P.shows port.new) target (first + count) }
    ensures goes { GoesBy count IsOfPlaces (P.shows port.old) (P.shows port.new) }
{
    for i in 0..count {
        if poll_done(port, target, (first + i) % 8).is_err() {
            return false;
        }
    }
    true
}

/// Hart 0 is the source, hart 1 the target. The words at the end, and what the calls came to.
pub fn ring_tour(alloc: Global, layout: Layout) -> Result<(Words, Rings), NoMemory>
    requires limits { IsInLimits layout }
    requires harts { 2 ≤ layout.harts }
    ensures count { IfOk result (λ made. length (all_words made.0) ≡ words_of layout) }
    ensures few { IfOk result (λ made. made.1.drains ≤ 9) }
{
    let Seats {
        table,
        loader,
        first,
        second,
        monitor,
    } = open_seats(alloc, layout, 7)?;
    let mut source = first.pass(&table);
    let mut target = second.pass(&table);
    let drains = post_drains(&mut source, 1);
    let drained = serve_drains(&mut target, 0);
    let flushes = post_flushes(&mut source, 1, drains);
    let served = serve_flushes(&mut target, 0, drained);
    let done = are_done(&mut source, 1, drains, flushes);
    let source = source.rest();
    let target = target.rest();
    let words = close_seats(table, loader, source, target, monitor);
    Ok((
        words,
        Rings {
            drains,
            drained,
            flushes,
            served,
            done,
        },
    ))
}
