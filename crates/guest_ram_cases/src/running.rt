// Two harts of which one starts the other, and both stop.
ghost use Rattle.std.specs.Prelude.{◌≡◌, ◌≢◌, ◌≤◌, ◌<◌, ◌%◌, IfNone, IfOk, IfSome, length, true, false};
ghost use Rattle.step_laws.specs.Layout.{IsInLimits};
ghost use Rattle.step_laws.specs.Steps.{words_of};
ghost use Rattle.guest_ram.specs.Areas.{IsOfStates};
ghost use Rattle.guest_ram.specs.Ports.{layout_of, GoesBy};
ghost use Rattle.guest_ram.specs.Shown.{all_words};
ghost use Rattle.guest_ram_cases.specs.States.{IsAtRest};

use crate::seating::{Seats, close_seats, open_seats};
use crate::starting::{hart_state, start_hart, stop_self, take_start};
use guest_ram::{Port, Words};
use std::alloc::Global;
use step_laws::{Layout, NoMemory};

/// What the harts' calls came to.
#[derive(Clone, Copy, Debug, PartialEq, Eq)]
pub struct Started {
    /// Whether the first start and a second one right behind it were made.
    pub made: (bool, bool),
    /// Where the started hart began, what it was given, and whether its stop was the last.
    pub ran: Option<(u64, u64, bool)>,
    /// The state in which the starter found it then.
    pub state: u64,
    /// Whether the starter's own stop was the last.
    pub last: bool,
}

/// Started a hart, and tries to start it again at once.
pub fn start_twice<P: Port>(port: &mut P, target: u8, at: u64, opaque: u64) -> (bool, bool)
    requires rests { IsAtRest (P.shows port.old) true }
    requires other { target ≢ (P.shows port.old).own.actor }
    requires target { target < (layout_of (P.shows port.old)).harts }
    requires place { at % 4 ≡ 0 }
    ensures rests { IsAtRest (P.shows port.new) true }
    ensures goes { GoesBy 10 IsOfStates (P.shows port.old) (P.shows port.new) }
{
    let first = start_hart(port, target, at, opaque);
    let second = start_hart(port, target, at, opaque);
    (first, second)
}

/// Runs where it was started, and stops at once.
pub fn run_and_stop<P: Port>(port: &mut P) -> Option<(u64, u64, bool)>
    requires rests { IsAtRest (P.shows port.old) false }
    ensures rests { IsAtRest (P.shows port.new) false }
    ensures goes { GoesBy 6 IsOfStates (P.shows port.old) (P.shows port.new) }
{
    match take_start(port) {
        None => None,
        Some((at, opaque)) => {
            let last = stop_self(port);
            Some((at, opaque, last))
        }
    }
}

/// Looks at the other hart's state and stops too.
pub fn stop_last<P: Port>(port: &mut P, other: u8) -> (u64, bool)
    requires rests { IsAtRest (P.shows port.old) true }
    requires hart { other < (layout_of (P.shows port.old)).harts }
    ensures rests { IsAtRest (P.shows port.new) false }
    ensures few { result.0 ≤ 3 }
    ensures goes { GoesBy 3 IsOfStates (P.shows port.old) (P.shows port.new) }
{
    let state = hart_state(port, other);
    let last = stop_self(port);
    (state, last)
}

/// Hart 0 starts hart 1. The words at the end, and what the calls came to.
pub fn start_tour(alloc: Global, layout: Layout) -> Result<(Words, Started), NoMemory>
    requires limits { IsInLimits layout }
    requires harts { 2 ≤ layout.harts }
    ensures count { IfOk result (λ made. length (all_words made.0) ≡ words_of layout) }
    ensures few { IfOk result (λ made. made.1.state ≤ 3) }
{
    let Seats {
        table,
        loader,
        first,
        second,
        monitor,
    } = open_seats(alloc, layout, 7)?;
    let mut starter = first.pass(&table);
    let mut started = second.pass(&table);
    let made = start_twice(&mut starter, 1, 0x8000_2000, 77);
    let ran = run_and_stop(&mut started);
    let (state, last) = stop_last(&mut starter, 1);
    let starter = starter.rest();
    let started = started.rest();
    let words = close_seats(table, loader, starter, started, monitor);
    Ok((
        words,
        Started {
            made,
            ran,
            state,
            last,
        },
    ))
}
