// Accesses of a hart, compared with what is to come of them.
ghost use Rattle.std.specs.Prelude.{◌≡◌, IsTrue};
ghost use Rattle.rv64_exec.specs.Widths.{IsWellFormedNeed};
ghost use Rattle.guest_access.specs.Accessing.{IsOfMemory};
ghost use Rattle.guest_ram_cases.specs.Tours.{IsSameSeat};
ghost use Rattle.access_rows.specs.Ready.{IsReady};

use crate::sides::{Side, keep_hold};
use guest_access::{Got, access};
use guest_ram::Port;
use rv64_exec::{Answer, Need};

/// What came of an access. `Reserved` has the number that a load-reserved answers. `Other`: nothing that an access comes to.
#[derive(Clone, Copy, Debug, PartialEq, Eq)]
pub enum Outcome {
    Nothing,
    Value(u64),
    Reserved(u64),
    Stored(bool),
    Fault { cause: u64, tval: u64 },
    Lost { word: u32, seen: u64, found: u64 },
    NeedsSection,
    Busy,
    Other,
}

/// An access, whether it is made as in the section, and what is to come of it.
#[derive(Clone, Copy)]
pub struct Row {
    pub need: Need,
    pub section: bool,
    pub to: Outcome,
}

fn is_access(need: &Need) -> bool
    ensures memory { IsTrue result → IsOfMemory need.now }
    ensures form { IsTrue result → IsWellFormedNeed need.now }
{
    match *need {
        Need::Load { width, .. } | Need::Store { width, .. } => matches!(width, 1 | 2 | 4 | 8),
        Need::Amo { .. } | Need::Lr { .. } | Need::Sc { .. } => true,
        _ => false,
    }
}

fn outcome_of(got: &Got) -> Outcome {
    match *got {
        Got::Done(Answer::Nothing) => Outcome::Nothing,
        Got::Done(Answer::Value(value)) => Outcome::Value(value),
        Got::Done(Answer::LrValue { value, hold: _ }) => Outcome::Reserved(value),
        Got::Done(Answer::Sc { stored }) => Outcome::Stored(stored),
        Got::Done(_) => Outcome::Other,
        Got::Fault { cause, tval } => Outcome::Fault { cause, tval },
        Got::Lost { word, seen, found } => Outcome::Lost { word, seen, found },
        Got::NeedsSection => Outcome::NeedsSection,
        Got::Busy(_) => Outcome::Busy,
    }
}

/// Makes it. `true`: it came to what it was to.
pub(crate) fn is_right<P: Port>(port: &mut P, side: &mut Side, row: &Row) -> bool
    requires ready { IsReady side.old.book side.old.arch (P.shows port.old) }
    ensures ready { IsReady side.new.book side.new.arch (P.shows port.new) }
    ensures seat { IsSameSeat (P.shows port.old) (P.shows port.new) }
{
    if !is_access(&row.need) {
        return false;
    }
    let got = access(&mut side.book, port, &side.arch, &row.need, row.section);
    keep_hold(&mut side.arch, &got);
    outcome_of(&got) == row.to
}

/// How many rows come out right before the first that doesn't.
pub(crate) fn count_right<P: Port>(port: &mut P, side: &mut Side, rows: &[Row]) -> usize
    requires ready { IsReady side.old.book side.old.arch (P.shows port.old) }
    ensures ready { IsReady side.new.book side.new.arch (P.shows port.new) }
    ensures seat { IsSameSeat (P.shows port.old) (P.shows port.new) }
{
    for (number, row) in rows.iter().enumerate() {
        if !is_right(port, side, row) {
            return number;
        }
    }
    rows.len()
}
