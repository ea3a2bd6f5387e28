// What comes of a call.
ghost use Rattle.std.specs.Prelude.{◌≡◌};
ghost use Rattle.hart_calls.specs.Ends.{succeeds};

use crate::spans::Span;
use machine_model::Reason;

/// What comes of a call: a0 gets an error and a1 a value; a0 gets a number and a1 is kept; harts, a bit for each, are to flush a span of pages
/// before the call is a success; the call is to be made anew in the section; the hart has stopped; or the call gave a reason to end the
/// machine, where none stood before.
#[derive(Clone, Copy, Debug, PartialEq, Eq)]
pub enum SbiEnd {
    Pair { error: i64, value: u64 },
    Single(u64),
    Fence { harts: u64, span: Span },
    NeedsSection,
    HartStopped,
    Over(Reason),
}

/// A success: a0 gets 0 and a1 the value.
pub(crate) fn success(value: u64) -> SbiEnd
    ensures { result ≡ succeeds value }
{
    SbiEnd::Pair { error: 0, value }
}
