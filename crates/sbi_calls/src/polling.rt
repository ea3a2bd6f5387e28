// Polls of a fence: whether its pieces are acked.
ghost use Rattle.std.specs.Prelude.{◌≡◌, ◌≢◌, ◌<◌, ◌≤◌, ℕ, IfNone, IfSome, List, slice_index};
ghost use Rattle.step_laws.specs.declared.steps.Step.{Step};
ghost use Rattle.guest_ram.specs.Ports.{layout_of, GoesBy, IsActing};
ghost use Rattle.sbi_calls.specs.Fences.{GoesWithFence, HasFoundFull, HasFoundOpen, IsFenceAt, IsOfPolls, IsPolling, IsTarget};
ghost use Rattle.hart_calls.specs.declared.spans.Span.{Span as TheSpan};
ghost use Rattle.work_queue.specs.Rings.{IsSentBy, IsServedBy, next_post};
ghost use Rattle.work_queue.specs.declared.rings.Served.{Served as TheServed};

use crate::spans::{Fence, names};
use guest_ram::{Port, Seen};
use work_queue::{Sent, poll_done};

/// Polls the pieces of a fence at another hart from one number on, of so many that were posted, until one still stands. Answers how many are
/// acked, and what that one's place held.
pub(crate) fn poll_pieces<P: Port>(
    port: &mut P,
    sent: &Sent,
    target: u8,
    posted: u8,
    acked: u8,
) -> (u8, Option<Seen>)
    requires acting { IsActing (P.shows port.old) }
    requires sent { IsSentBy sent.now (P.shows port.old) }
    requires target { target < (layout_of (P.shows port.old)).harts }
    requires other { target ≢ (P.shows port.old).own.actor }
    requires posted { posted ≤ 8 }
    requires acked { acked ≤ posted }
    ensures at { (span : TheSpan) (base : List Step) → IsFenceAt span (next_post sent.now target) target posted acked base (P.shows port.old) → IsFenceAt span (next_post sent.now target) target posted result.0 base (P.shows port.new) }
    ensures all { IfNone result.1 (result.0 ≡ posted) }
    ensures most { result.0 ≤ posted }
    ensures refused { IfSome result.1 (λ seen. HasFoundFull seen target (P.shows port.new)) }
    ensures sent { IsSentBy sent.now (P.shows port.new) }
    ensures served { (served : TheServed) → IsServedBy served (P.shows port.old) → IsServedBy served (P.shows port.new) }
    ensures acting { IsActing (P.shows port.new) }
    ensures goes { GoesBy 8 (IsOfPolls (P.shows port.old).own.actor) (P.shows port.old) (P.shows port.new) }
{
    let next = sent.next[target as usize];
    for number in acked..posted {
        let place = (next + 8 - posted + number) % 8;
        match poll_done(port, target, place) {
            Ok(()) => {}
            Err(seen) => return (number, Some(seen)),
        }
    }
    (posted, None)
}

/// The same at one hart, where the fence names it and it isn't the own one.
fn poll_at<P: Port>(
    port: &mut P,
    sent: &Sent,
    harts: u64,
    fence: &mut Fence,
    hart: u8,
) -> Option<Seen>
    requires acting { IsActing (P.shows port.old) }
    requires sent { IsSentBy sent.now (P.shows port.old) }
    requires hart { hart < (layout_of (P.shows port.old)).harts }
    requires fence { IsPolling harts sent.now fence.old (P.shows port.old) }
    ensures goes_on { (span : TheSpan) (base : List Step) → GoesWithFence harts span sent.now fence.old base (P.shows port.old) → GoesWithFence harts span sent.now fence.new base (P.shows port.new) }
    ensures here { IfNone result (IsTarget harts (P.shows port.new) hart → slice_index fence.new.acked hart ≡ slice_index fence.old.posted hart) }
    ensures others { (t : ℕ) → t ≢ hart → slice_index fence.new.acked t ≡ slice_index fence.old.acked t }
    ensures posted { fence.new.posted ≡ fence.old.posted }
    ensures own { slice_index fence.new.acked (P.shows port.new).own.actor ≡ slice_index fence.old.acked (P.shows port.old).own.actor }
    ensures refused { IfSome result (λ seen. HasFoundOpen harts seen (P.shows port.new)) }
    ensures sent { IsSentBy sent.now (P.shows port.new) }
    ensures served { (served : TheServed) → IsServedBy served (P.shows port.old) → IsServedBy served (P.shows port.new) }
    ensures acting { IsActing (P.shows port.new) }
    ensures goes { GoesBy 8 (IsOfPolls (P.shows port.old).own.actor) (P.shows port.old) (P.shows port.new) }
{
    if hart == port.actor() {
        return None;
    }
    if !names(harts, hart) {
        return None;
    }
    let (acked, seen) = poll_pieces(
        port,
        sent,
        hart,
        fence.posted[hart as usize],
        fence.acked[hart as usize],
    );
    fence.acked[hart as usize] = acked;
    seen
}

/// Polls the pieces at each other hart that the fence names, hart by hart, until one still stands. Answers what that one's place held.
pub(crate) fn poll_all<P: Port>(
    port: &mut P,
    sent: &Sent,
    harts: u64,
    fence: &mut Fence,
) -> Option<Seen>
    requires acting { IsActing (P.shows port.old) }
    requires sent { IsSentBy sent.now (P.shows port.old) }
    requires fence { IsPolling harts sent.now fence.old (P.shows port.old) }
    ensures goes_on { (span : TheSpan) (base : List Step) → GoesWithFence harts span sent.now fence.old base (P.shows port.old) → GoesWithFence harts span sent.now fence.new base (P.shows port.new) }
    ensures all { IfNone result ((t : ℕ) → t < (layout_of (P.shows port.new)).harts → IsTarget harts (P.shows port.new) t → slice_index fence.new.acked t ≡ slice_index fence.old.posted t) }
    ensures posted { fence.new.posted ≡ fence.old.posted }
    ensures own { slice_index fence.new.acked (P.shows port.new).own.actor ≡ slice_index fence.old.acked (P.shows port.old).own.actor }
    ensures refused { IfSome result (λ seen. HasFoundOpen harts seen (P.shows port.new)) }
    ensures sent { IsSentBy sent.now (P.shows port.new) }
    ensures served { (served : TheServed) → IsServedBy served (P.shows port.old) → IsServedBy served (P.shows port.new) }
    ensures acting { IsActing (P.shows port.new) }
    ensures goes { GoesBy 64 (IsOfPolls (P.shows port.old).own.actor) (P.shows port.old) (P.shows port.new) }
{
    for hart in 0..port.layout().harts {
        match poll_at(port, sent, harts, fence, hart) {
            None => {}
            Some(seen) => return Some(seen),
        }
    }
    None
}
