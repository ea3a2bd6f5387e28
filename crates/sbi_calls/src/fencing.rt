// A turn of a remote fence.
ghost use Rattle.std.specs.Prelude.{◌≡◌, ◌≤◌, ◌<◌, ◌+◌, ℕ, IfNone, IfSome, List, slice_index, true};
ghost use Rattle.step_laws.specs.declared.steps.Step.{Step};
ghost use Rattle.guest_ram.specs.Areas.{IsOfTable};
ghost use Rattle.guest_ram.specs.Ports.{layout_of, GoesBy};
ghost use Rattle.kept_fills.specs.Beside.{IsBeside};
ghost use Rattle.flush.specs.Flushed.{full_steps};
ghost use Rattle.sbi_calls.specs.Done.{IfBusy, IfDone, IfWaiting, UnlessBusy};
ghost use Rattle.sbi_calls.specs.Fences.{GoesWithFence, HasBeenBusyAt, HasBeenHeld, HasFlushedOwn, HasFoundOpen, HaveFlushed, IsAnsweredAt, IsFencing, IsOfFence, IsTarget};
ghost use Rattle.hart_calls.specs.Spans.{IsSpan};
ghost use Rattle.sbi_calls.specs.Spans.{is_named, pieces_of};
ghost use Rattle.work_queue.specs.Rings.{IsSentBy, IsServedBy};
ghost use Rattle.work_queue.specs.declared.rings.Sent.{Sent as TheSent};
ghost use Rattle.work_queue.specs.declared.rings.Served.{Served as TheServed};

use crate::asking::post_all;
use crate::flushing::flush_pieces;
use crate::polling::poll_all;
use crate::spans::{Fence, names};
use guest_ram::{Port, Seen};
use hart_calls::Span;
use tlb_entry::Book;
use tlb_lock::Busy;
use work_queue::Sent;

/// What a turn of a fence came to: it is done; or a place at a hart that it names still holds a request; or the own lock is held by another.
#[derive(Clone, Copy, Debug, PartialEq, Eq)]
pub enum Fencing {
    Done,
    Waiting(Seen),
    Busy(Busy),
}

/// Flushes the own pieces that are left, where the fence names the own hart, until the lock is found held.
fn flush_own<P: Port>(
    book: &mut Book,
    port: &mut P,
    harts: u64,
    span: &Span,
    fence: &mut Fence,
) -> Option<Busy>
    requires beside { IsBeside book.old (P.shows port.old) }
    requires span { IsSpan span.now }
    requires own { slice_index fence.old.acked (P.shows port.old).own.actor ≤ pieces_of span.now }
    ensures flushed { IfNone result (HaveFlushed span.now (slice_index fence.old.acked (P.shows port.old).own.actor) (P.shows port.old) book.old (slice_index fence.new.acked (P.shows port.old).own.actor) (P.shows port.new) book.new) }
    ensures busy { IfSome result (λ busy. HasBeenBusyAt span.now (slice_index fence.old.acked (P.shows port.old).own.actor) (slice_index fence.new.acked (P.shows port.old).own.actor) busy.holder (P.shows port.old) (P.shows port.new) book.old book.new) }
    ensures all { IfNone result (is_named harts (P.shows port.old).own.actor ≡ true → slice_index fence.new.acked (P.shows port.old).own.actor ≡ pieces_of span.now) }
    ensures goes_on { (sent : TheSent) (base : List Step) → GoesWithFence harts span.now sent fence.old base (P.shows port.old) → GoesWithFence harts span.now sent fence.new base (P.shows port.new) }
    ensures posted { fence.new.posted ≡ fence.old.posted }
    ensures beside { IsBeside book.new (P.shows port.new) }
    ensures goes { GoesBy (full_steps book.old.size + 3089) IsOfTable (P.shows port.old) (P.shows port.new) }
{
    let own = port.actor();
    if !names(harts, own) {
        return None;
    }
    let (flushed, busy) = flush_pieces(book, port, span, fence.acked[own as usize]);
    fence.acked[own as usize] = flushed;
    busy
}

/// One turn of a remote fence. It posts the pieces that are left at each other hart that the fence names, hart by hart; flushes the own
/// pieces that are left, where it names the own hart; and then polls what was posted, hart by hart and piece by piece. It ends where a post
/// is refused, the own lock is held, or a piece isn't acked; the next turn goes on there.
pub fn fence_turn<P: Port>(
    book: &mut Book,
    port: &mut P,
    sent: &mut Sent,
    harts: u64,
    span: &Span,
    fence: &mut Fence,
) -> Fencing
    requires beside { IsBeside book.old (P.shows port.old) }
    requires sent { IsSentBy sent.old (P.shows port.old) }
    requires span { IsSpan span.now }
    requires harts { (t : ℕ) → is_named harts t ≡ true → t < (layout_of (P.shows port.old)).harts }
    requires fence { IsFencing harts span.now sent.old fence.old (P.shows port.old) }
    ensures goes_on { (base : List Step) → GoesWithFence harts span.now sent.old fence.old base (P.shows port.old) → GoesWithFence harts span.now sent.new fence.new base (P.shows port.new) }
    ensures done { IfDone result ((base : List Step) → GoesWithFence harts span.now sent.old fence.old base (P.shows port.old) → (t : ℕ) → IsTarget harts (P.shows port.new) t → IsAnsweredAt span.now t base (P.shows port.new)) }
    ensures own_done { IfDone result (is_named harts (P.shows port.old).own.actor ≡ true → slice_index fence.new.acked (P.shows port.old).own.actor ≡ pieces_of span.now) }
    ensures waiting { IfWaiting result (λ seen. HasFoundOpen harts seen (P.shows port.new)) }
    ensures busy { IfBusy result (λ busy. HasBeenHeld span.now (slice_index fence.old.acked (P.shows port.old).own.actor) (slice_index fence.new.acked (P.shows port.old).own.actor) busy.holder (P.shows port.old) (P.shows port.new) book.old book.new) }
    ensures own { UnlessBusy result (HasFlushedOwn span.now (slice_index fence.old.acked (P.shows port.old).own.actor) (slice_index fence.new.acked (P.shows port.old).own.actor) (P.shows port.old) (P.shows port.new) book.old book.new) }
    ensures sent { IsSentBy sent.new (P.shows port.new) }
    ensures served { (served : TheServed) → IsServedBy served (P.shows port.old) → IsServedBy served (P.shows port.new) }
    ensures beside { IsBeside book.new (P.shows port.new) }
    ensures goes { GoesBy (full_steps book.old.size + 3369) IsOfFence (P.shows port.old) (P.shows port.new) }
{
    match post_all(port, sent, harts, span, fence) {
        None => {}
        Some(seen) => return Fencing::Waiting(seen),
    }
    match flush_own(book, port, harts, span, fence) {
        None => {}
        Some(busy) => return Fencing::Busy(busy),
    }
    match poll_all(port, sent, harts, fence) {
        None => Fencing::Done,
        Some(seen) => Fencing::Waiting(seen),
    }
}
