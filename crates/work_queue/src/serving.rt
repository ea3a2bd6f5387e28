// Requests at their target.
ghost use Rattle.std.specs.Prelude.{◌≡◌, ◌≢◌, ◌<◌, IfNone, IfSome, false};
ghost use Rattle.step_laws.specs.Discipline.{IsActor};
ghost use Rattle.step_laws.specs.Fields.{IsRequest, IsRequestWord, IsWordOf};
ghost use Rattle.step_laws.specs.Output.{has_touched};
ghost use Rattle.guest_ram.specs.Areas.{IsOfPlaces};
ghost use Rattle.guest_ram.specs.Ports.{layout_of, GoesBy, IsActing};
ghost use Rattle.work_queue.specs.Acks.{HasAcked, HasFoundNone, HasFoundRequest, IsLoaded, MayAck};
ghost use Rattle.work_queue.specs.Rings.{IsSentBy, IsServedBy, next_ack, served_on};
ghost use Rattle.work_queue.specs.declared.rings.Sent.{Sent};

use crate::rings::{Sent, Served};
use guest_ram::Port;
use step_laws::{Request, place_word};

/// The request of a source, another hart or the monitor, that stands in the next place of its ring; none where that place was loaded as 0.
pub fn next_request<P: Port>(port: &mut P, served: &Served, source: u8) -> Option<Request>
    requires acting { IsActing (P.shows port.old) }
    requires hart { (P.shows port.old).own.actor < (layout_of (P.shows port.old)).harts }
    requires served { IsServedBy served.now (P.shows port.old) }
    requires source { IsActor (layout_of (P.shows port.old)) source }
    requires other { source ≢ (P.shows port.old).own.actor }
    requires untouched { has_touched (P.shows port.old).own.steps ≡ false }
    ensures none { IfNone result (HasFoundNone source (next_ack served.now source) (P.shows port.old) (P.shows port.new)) }
    ensures found { IfSome result (λ request. HasFoundRequest request source (next_ack served.now source) (P.shows port.old) (P.shows port.new)) }
    ensures request { IfSome result (λ request. IsRequest request) }
    ensures loaded { IfSome result (λ request. IsLoaded request source (next_ack served.now source) (P.shows port.new)) }
    ensures sent { (sent : Sent) → IsSentBy sent (P.shows port.old) → IsSentBy sent (P.shows port.new) }
    ensures served { IsServedBy served.now (P.shows port.new) }
    ensures untouched { has_touched (P.shows port.new).own.steps ≡ false }
    ensures acting { IsActing (P.shows port.new) }
    ensures goes { GoesBy 1 IsOfPlaces (P.shows port.old) (P.shows port.new) }
{
    let place = served.next[source as usize];
    let word = place_word(port.actor(), source, place);
    let found = port.load(word);
    if found == 0 {
        return None;
    }
    Some(request_of(found))
}

/// Acks the request that was loaded from the next place of a source's ring, once it is served: stores 0 there.
pub fn ack<P: Port>(port: &mut P, served: &mut Served, source: u8)
    requires acting { IsActing (P.shows port.old) }
    requires hart { (P.shows port.old).own.actor < (layout_of (P.shows port.old)).harts }
    requires served { IsServedBy served.old (P.shows port.old) }
    requires source { IsActor (layout_of (P.shows port.old)) source }
    requires other { source ≢ (P.shows port.old).own.actor }
    requires untouched { has_touched (P.shows port.old).own.steps ≡ false }
    requires may { MayAck source (next_ack served.old source) (P.shows port.old) }
    ensures acked { HasAcked source (next_ack served.old source) (P.shows port.old) (P.shows port.new) }
    ensures moved { served.new ≡ served_on served.old source }
    ensures sent { (sent : Sent) → IsSentBy sent (P.shows port.old) → IsSentBy sent (P.shows port.new) }
    ensures served { IsServedBy served.new (P.shows port.new) }
    ensures untouched { has_touched (P.shows port.new).own.steps ≡ false }
    ensures acting { IsActing (P.shows port.new) }
    ensures goes { GoesBy 1 IsOfPlaces (P.shows port.old) (P.shows port.new) }
{
    let place = served.next[source as usize];
    port.store(place_word(port.actor(), source, place), 0);
    served.next[source as usize] = (place + 1) % 8;
}

/// The request that a request word carries.
pub(crate) fn request_of(word: u64) -> Request
    requires { IsRequestWord word }
    ensures request { IsRequest result }
    ensures word { IsWordOf result word }
{
    match word % 8 {
        1 => Request::FlushAll,
        2 => Request::FlushPages {
            page: word / 4096,
            count: (word / 8 % 512) as u16,
        },
        _ => Request::Drain,
    }
}
