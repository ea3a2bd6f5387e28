// Requests at their source.
ghost use Rattle.std.specs.Prelude.{◌≡◌, ◌≢◌, ◌<◌, OnOk, IfOk, IfErr};
ghost use Rattle.step_laws.specs.Fields.{IsRequest};
ghost use Rattle.guest_ram.specs.Areas.{IsOfPlaces};
ghost use Rattle.guest_ram.specs.Ports.{layout_of, GoesBy, IsActing};
ghost use Rattle.work_queue.specs.Posts.{HasFoundFree, HasFoundTaken, HasPosted, IsOfPosts};
ghost use Rattle.work_queue.specs.Rings.{IsSentBy, IsServedBy, next_post, sent_on};
ghost use Rattle.work_queue.specs.declared.rings.Sent.{Sent};
ghost use Rattle.work_queue.specs.declared.rings.Served.{Served};

use crate::rings::{Sent, Served};
use exclusive::kick;
use guest_ram::{Port, Seen};
use step_laws::{Request, place_word, request_word};

/// Posts a request at another hart, in the next place of its ring, where that place is free, and calls the hart out. Answers the place.
/// Where the place was loaded as another request that still stands there, nothing is posted and nobody called.
pub fn post<P: Port>(
    port: &mut P,
    sent: &mut Sent,
    target: u8,
    request: &Request,
) -> Result<u8, Seen>
    requires acting { IsActing (P.shows port.old) }
    requires sent { IsSentBy sent.old (P.shows port.old) }
    requires target { target < (layout_of (P.shows port.old)).harts }
    requires other { target ≢ (P.shows port.old).own.actor }
    requires request { IsRequest request.now }
    ensures place { IfOk result (λ place. place ≡ next_post sent.old target) }
    ensures posted { IfOk result (λ place. HasPosted request.now target place (P.shows port.old) (P.shows port.new)) }
    ensures moved { IfOk result (λ place. sent.new ≡ sent_on sent.old target) }
    ensures refused { IfErr result (λ seen. HasFoundTaken seen target (next_post sent.old target) (P.shows port.old) (P.shows port.new)) }
    ensures unmoved { IfErr result (λ seen. sent.new ≡ sent.old) }
    ensures sent { IsSentBy sent.new (P.shows port.new) }
    ensures served { (served : Served) → IsServedBy served (P.shows port.old) → IsServedBy served (P.shows port.new) }
    ensures acting { IsActing (P.shows port.new) }
    ensures goes { GoesBy 3 IsOfPosts (P.shows port.old) (P.shows port.new) }
{
    let place = sent.next[target as usize];
    let word = place_word(target, port.actor(), place);
    let standing = port.load(word);
    if standing != 0 {
        return Err(Seen {
            word,
            value: standing,
        });
    }
    port.store(word, request_word(request));
    kick(port, target);
    sent.next[target as usize] = (place + 1) % 8;
    Ok(place)
}

/// Whether the request in a place of the actor's ring at another hart is acked: whether the place was loaded as 0. Else the answer says what
/// stands there.
pub fn poll_done<P: Port>(port: &mut P, target: u8, place: u8) -> Result<(), Seen>
    requires acting { IsActing (P.shows port.old) }
    requires target { target < (layout_of (P.shows port.old)).harts }
    requires other { target ≢ (P.shows port.old).own.actor }
    requires place { place < 8 }
    ensures done { OnOk result (HasFoundFree target place (P.shows port.old) (P.shows port.new)) }
    ensures refused { IfErr result (λ seen. HasFoundTaken seen target place (P.shows port.old) (P.shows port.new)) }
    ensures sent { (sent : Sent) → IsSentBy sent (P.shows port.old) → IsSentBy sent (P.shows port.new) }
    ensures served { (served : Served) → IsServedBy served (P.shows port.old) → IsServedBy served (P.shows port.new) }
    ensures acting { IsActing (P.shows port.new) }
    ensures goes { GoesBy 1 IsOfPlaces (P.shows port.old) (P.shows port.new) }
{
    let word = place_word(target, port.actor(), place);
    let found = port.load(word);
    if found != 0 {
        return Err(Seen { word, value: found });
    }
    Ok(())
}
