// What serving a need comes to.
ghost use Rattle.std.specs.Prelude.{◌≡◌};
ghost use Rattle.need_serving.specs.Ends.{end_of_access, end_of_call, end_of_flush};

use guest_access::Got;
use hart_calls::{Reason, SbiEnd, Span};
use rv64_exec::Answer;
use tlb_lock::Busy;

/// What serving a need comes to. `Done` has the answer with which the instruction is finished, a fault's too. `Stopped`: the hart has stopped
/// itself. `Fence`: harts, a bit for each, are to flush a span of pages before the call is a success. Else the instruction is to be made
/// anew: `Lost` has the word, what it was loaded as, and what the exchange then found; `NeedsSection` comes of bytes that lie in two words,
/// and of a console write; `Busy` has the holder of the lock of the hart's TLB.
#[derive(Clone, Copy)]
pub enum NeedEnd {
    Done(Answer),
    Stopped,
    Fence { harts: u64, span: Span },
    Lost { word: u32, seen: u64, found: u64 },
    NeedsSection,
    Busy(Busy),
}

/// What an access comes to.
pub(crate) fn of_access(got: Got) -> NeedEnd
    ensures { result ≡ end_of_access got }
{
    match got {
        Got::Done(answer) => NeedEnd::Done(answer),
        Got::Fault { cause, tval } => NeedEnd::Done(Answer::Fault { cause, tval }),
        Got::Lost { word, seen, found } => NeedEnd::Lost { word, seen, found },
        Got::NeedsSection => NeedEnd::NeedsSection,
        Got::Busy(busy) => NeedEnd::Busy(busy),
    }
}

/// What a flush comes to.
pub(crate) fn of_flush(flushed: Result<(), Busy>) -> NeedEnd
    ensures { result ≡ end_of_flush flushed }
{
    match flushed {
        Ok(()) => NeedEnd::Done(Answer::Nothing),
        Err(busy) => NeedEnd::Busy(busy),
    }
}

/// What a call comes to. One that ends the machine is finished as one without an answer; where the last hart stopped, that ends it too.
pub(crate) fn of_call(end: SbiEnd) -> NeedEnd
    ensures { result ≡ end_of_call end }
{
    match end {
        SbiEnd::Pair { error, value } => NeedEnd::Done(Answer::Pair { error, value }),
        SbiEnd::Single(value) => NeedEnd::Done(Answer::Single(value)),
        SbiEnd::Fence { harts, span } => NeedEnd::Fence { harts, span },
        SbiEnd::NeedsSection => NeedEnd::NeedsSection,
        SbiEnd::HartStopped | SbiEnd::Over(Reason::AllStopped) => NeedEnd::Stopped,
        SbiEnd::Over(_) => NeedEnd::Done(Answer::Nothing),
    }
}
