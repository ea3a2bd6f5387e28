// Posts of a fence: each piece at each other hart that it names.
ghost use Rattle.std.specs.Prelude.{◌≡◌, ◌≢◌, ◌<◌, ◌≤◌, ℕ, IfNone, IfSome, List, slice_index};
ghost use Rattle.step_laws.specs.declared.steps.Step.{Step};
ghost use Rattle.guest_ram.specs.Ports.{layout_of, GoesBy, IsActing};
ghost use Rattle.sbi_calls.specs.Fences.{GoesWithFence, HasFoundFull, HasFoundOpen, IsFenceAt, IsFencing, IsOfAsks, IsTarget};
ghost use Rattle.hart_calls.specs.Spans.{IsSpan};
ghost use Rattle.sbi_calls.specs.Spans.{pieces_of};
ghost use Rattle.work_queue.specs.Rings.{IsSentBy, IsServedBy, next_post};
ghost use Rattle.work_queue.specs.declared.rings.Served.{Served as TheServed};

use crate::spans::{Fence, names, piece, pieces};
use guest_ram::{Port, Seen};
use hart_calls::Span;
use work_queue::{Sent, post};

/// Posts the pieces of a span from one number on at another hart, until one is refused. Answers how many are posted, and what the refused
/// one saw.
pub(crate) fn post_pieces<P: Port>(
    port: &mut P,
    sent: &mut Sent,
    target: u8,
    span: &Span,
    posted: u8,
) -> (u8, Option<Seen>)
    requires acting { IsActing (P.shows port.old) }
    requires sent { IsSentBy sent.old (P.shows port.old) }
    requires target { target < (layout_of (P.shows port.old)).harts }
    requires other { target ≢ (P.shows port.old).own.actor }
    requires span { IsSpan span.now }
    requires posted { posted ≤ pieces_of span.now }
    ensures at { (base : List Step) (acked : ℕ) → IsFenceAt span.now (next_post sent.old target) target posted acked base (P.shows port.old) → IsFenceAt span.now (next_post sent.new target) target result.0 acked base (P.shows port.new) }
    ensures others { (t : ℕ) → t ≢ target → next_post sent.new t ≡ next_post sent.old t }
    ensures all { IfNone result.1 (result.0 ≡ pieces_of span.now) }
    ensures most { result.0 ≤ pieces_of span.now }
    ensures refused { IfSome result.1 (λ seen. HasFoundFull seen target (P.shows port.new)) }
    ensures sent { IsSentBy sent.new (P.shows port.new) }
    ensures served { (served : TheServed) → IsServedBy served (P.shows port.old) → IsServedBy served (P.shows port.new) }
    ensures acting { IsActing (P.shows port.new) }
    ensures goes { GoesBy 27 (IsOfAsks (P.shows port.old).own.actor) (P.shows port.old) (P.shows port.new) }
{
    for number in posted..pieces(span) {
        match post(port, sent, target, &piece(span, number)) {
            Ok(_) => {}
            Err(seen) => return (number, Some(seen)),
        }
    }
    (pieces(span), None)
}

/// The same at one hart, where the fence names it and it isn't the own one.
fn post_at<P: Port>(
    port: &mut P,
    sent: &mut Sent,
    harts: u64,
    span: &Span,
    fence: &mut Fence,
    hart: u8,
) -> Option<Seen>
    requires acting { IsActing (P.shows port.old) }
    requires sent { IsSentBy sent.old (P.shows port.old) }
    requires hart { hart < (layout_of (P.shows port.old)).harts }
    requires span { IsSpan span.now }
    requires fence { IsFencing harts span.now sent.old fence.old (P.shows port.old) }
    ensures goes_on { (base : List Step) → GoesWithFence harts span.now sent.old fence.old base (P.shows port.old) → GoesWithFence harts span.now sent.new fence.new base (P.shows port.new) }
    ensures here { IfNone result (IsTarget harts (P.shows port.new) hart → slice_index fence.new.posted hart ≡ pieces_of span.now) }
    ensures others { (t : ℕ) → t ≢ hart → slice_index fence.new.posted t ≡ slice_index fence.old.posted t }
    ensures acked { fence.new.acked ≡ fence.old.acked }
    ensures refused { IfSome result (λ seen. HasFoundOpen harts seen (P.shows port.new)) }
    ensures sent { IsSentBy sent.new (P.shows port.new) }
    ensures served { (served : TheServed) → IsServedBy served (P.shows port.old) → IsServedBy served (P.shows port.new) }
    ensures acting { IsActing (P.shows port.new) }
    ensures goes { GoesBy 27 (IsOfAsks (P.shows port.old).own.actor) (P.shows port.old) (P.shows port.new) }
{
    if hart == port.actor() {
        return None;
    }
    if !names(harts, hart) {
        return None;
    }
    let (posted, seen) = post_pieces(port, sent, hart, span, fence.posted[hart as usize]);
    fence.posted[hart as usize] = posted;
    seen
}

/// Posts the pieces that are left at each other hart that the fence names, hart by hart, until one is refused. Answers what that one saw.
pub(crate) fn post_all<P: Port>(
    port: &mut P,
    sent: &mut Sent,
    harts: u64,
    span: &Span,
    fence: &mut Fence,
) -> Option<Seen>
    requires acting { IsActing (P.shows port.old) }
    requires sent { IsSentBy sent.old (P.shows port.old) }
    requires span { IsSpan span.now }
    requires fence { IsFencing harts span.now sent.old fence.old (P.shows port.old) }
    ensures goes_on { (base : List Step) → GoesWithFence harts span.now sent.old fence.old base (P.shows port.old) → GoesWithFence harts span.now sent.new fence.new base (P.shows port.new) }
    ensures all { IfNone result ((t : ℕ) → t < (layout_of (P.shows port.new)).harts → IsTarget harts (P.shows port.new) t → slice_index fence.new.posted t ≡ pieces_of span.now) }
    ensures acked { fence.new.acked ≡ fence.old.acked }
    ensures refused { IfSome result (λ seen. HasFoundOpen harts seen (P.shows port.new)) }
    ensures sent { IsSentBy sent.new (P.shows port.new) }
    ensures served { (served : TheServed) → IsServedBy served (P.shows port.old) → IsServedBy served (P.shows port.new) }
    ensures acting { IsActing (P.shows port.new) }
    ensures goes { GoesBy 216 (IsOfAsks (P.shows port.old).own.actor) (P.shows port.old) (P.shows port.new) }
{
    for hart in 0..port.layout().harts {
        match post_at(port, sent, harts, span, fence, hart) {
            None => {}
            Some(seen) => return Some(seen),
        }
    }
    None
}
