// What a hart does, and what is to come of it.
ghost use Rattle.std.specs.Prelude.{◌≡◌, IfNone, IfSome, false, true};
ghost use Rattle.guest_ram_cases.specs.Tours.{IsSameSeat};
ghost use Rattle.hart_calls.specs.Ends.{runs_on};
ghost use Rattle.call_rows.specs.Standing.{IsStanding};

use crate::calls::{call_alone, call_inside, goes_on};
use guest_ram::Port;
use guest_ram_cases::take_start;
use hart_calls::SbiEnd;
use sbi_rows::Call;

/// A call, in the section or not; or a stopped hart's look whether it is to begin.
#[derive(Clone, Copy, Debug)]
pub enum Deed {
    Calls { call: Call, section: bool },
    Begins,
}

/// What came of it. `Nothing`: a hart that runs doesn't begin, one that is stopped makes no call, one that isn't started doesn't begin, and
/// another was in the way.
#[derive(Clone, Copy, Debug, PartialEq, Eq)]
pub enum Came {
    End(SbiEnd),
    Began { at: u64, opaque: u64 },
    Nothing,
}

/// A hart does this, and this is to come of it.
#[derive(Clone, Copy, Debug)]
pub struct Row {
    pub hart: u8,
    pub deed: Deed,
    pub to: Came,
}

fn make_call<P: Port>(port: &mut P, hart: u8, call: &Call, section: bool) -> Option<SbiEnd>
    requires standing { IsStanding true (P.shows port.old) }
    requires hart { hart ≡ (P.shows port.old).own.actor }
    ensures made { IfSome result (λ end. IsStanding (runs_on end) (P.shows port.new)) }
    ensures refused { IfNone result (IsStanding true (P.shows port.new)) }
    ensures seat { IsSameSeat (P.shows port.old) (P.shows port.new) }
{
    if section {
        call_alone(port, hart, call)
    } else {
        call_inside(port, hart, call)
    }
}

/// A hart that runs does this. Answers whether it runs then.
fn do_running<P: Port>(port: &mut P, hart: u8, deed: Deed) -> (Came, bool)
    requires standing { IsStanding true (P.shows port.old) }
    requires hart { hart ≡ (P.shows port.old).own.actor }
    ensures standing { IsStanding result.1 (P.shows port.new) }
    ensures seat { IsSameSeat (P.shows port.old) (P.shows port.new) }
{
    match deed {
        Deed::Calls { call, section } => match make_call(port, hart, &call, section) {
            Some(end) => (Came::End(end), goes_on(end)),
            None => (Came::Nothing, true),
        },
        Deed::Begins => (Came::Nothing, true),
    }
}

/// A hart that is stopped does this. Answers whether it runs then.
fn do_stopped<P: Port>(port: &mut P, deed: Deed) -> (Came, bool)
    requires { IsStanding false (P.shows port.old) }
    ensures standing { IsStanding result.1 (P.shows port.new) }
    ensures seat { IsSameSeat (P.shows port.old) (P.shows port.new) }
{
    match deed {
        Deed::Calls { .. } => (Came::Nothing, false),
        Deed::Begins => match take_start(port) {
            Some((at, opaque)) => (Came::Began { at, opaque }, true),
            None => (Came::Nothing, false),
        },
    }
}

/// The same of a hart that runs or doesn't.
pub(crate) fn do_deed<P: Port>(port: &mut P, hart: u8, runs: bool, deed: Deed) -> (Came, bool)
    requires standing { IsStanding runs (P.shows port.old) }
    requires hart { hart ≡ (P.shows port.old).own.actor }
    ensures standing { IsStanding result.1 (P.shows port.new) }
    ensures seat { IsSameSeat (P.shows port.old) (P.shows port.new) }
{
    if runs {
        do_running(port, hart, deed)
    } else {
        do_stopped(port, deed)
    }
}
