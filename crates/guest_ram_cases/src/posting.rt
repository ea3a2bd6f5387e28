// Requests in rings of eight places, at their source.
ghost use Rattle.std.specs.Prelude.{◌≡◌, ◌≢◌, ◌<◌, ◌∷◌, OnOk, IfErr};
ghost use Rattle.step_laws.specs.Fields.{IsRequestWord};
ghost use Rattle.step_laws.specs.Places.{posts, post_place};
ghost use Rattle.guest_ram.specs.Areas.{IsOfPlaces};
ghost use Rattle.guest_ram.specs.Ports.{layout_of, IsActing, GoesBy};
ghost use Rattle.guest_ram_cases.specs.Requests.{HasPosted, place_loaded};

use guest_ram::{Port, Seen};
use step_laws::place_word;

/// Posts a request in the next place, or answers what stands there.
#[tactic(auto, using(crate::proofs::Posts::may_poll_place, crate::proofs::Posts::may_post_place, crate::proofs::Posts::polled_posts, crate::proofs::Posts::posted_posts, crate::proofs::Posts::acting_place, crate::proofs::Posts::acting_posted, guest_ram::proofs::Moves::actor_few))]
pub fn post<P: Port>(port: &mut P, target: u8, place: u8, request: u64) -> Result<(), Seen>
    requires acting { IsActing (P.shows port.old) }
    requires target { target < (layout_of (P.shows port.old)).harts }
    requires other { target ≢ (P.shows port.old).own.actor }
    requires place { place ≡ post_place target (P.shows port.old).own.actor (P.shows port.old).own.steps }
    requires request { IsRequestWord request }
    ensures steps { OnOk result (HasPosted (P.shows port.old) target place request (P.shows port.new)) }
    ensures found { IfErr result (λ seen. (P.shows port.new) ≡ place_loaded (P.shows port.old) target (P.shows port.old).own.actor place seen.value) }
    ensures posted { OnOk result (posts target (P.shows port.new).own.actor (P.shows port.new).own.steps ≡ request ∷ posts target (P.shows port.old).own.actor (P.shows port.old).own.steps) }
    ensures refused { IfErr result (λ _. posts target (P.shows port.new).own.actor (P.shows port.new).own.steps ≡ posts target (P.shows port.old).own.actor (P.shows port.old).own.steps) }
    ensures acting { IsActing (P.shows port.new) }
    ensures goes { GoesBy 2 IsOfPlaces (P.shows port.old) (P.shows port.new) }
{
    let word = place_word(target, port.actor(), place);
    let standing = port.load(word);
    if standing != 0 {
        return Err(Seen {
            word,
            value: standing,
        });
    }
    port.store(word, request);
    Ok(())
}

/// Whether the request in a place is done, or what stands there.
#[tactic(auto, using(crate::proofs::Posts::may_poll_place, crate::proofs::Posts::polled_posts, crate::proofs::Posts::acting_place, guest_ram::proofs::Moves::actor_few))]
pub fn poll_done<P: Port>(port: &mut P, target: u8, place: u8) -> Result<(), Seen>
    requires acting { IsActing (P.shows port.old) }
    requires target { target < (layout_of (P.shows port.old)).harts }
    requires other { target ≢ (P.shows port.old).own.actor }
    requires place { place < 8 }
    ensures done { OnOk result ((P.shows port.new) ≡ place_loaded (P.shows port.old) target (P.shows port.old).own.actor place 0) }
    ensures found { IfErr result (λ seen. (seen.value ≢ 0) × ((P.shows port.new) ≡ place_loaded (P.shows port.old) target (P.shows port.old).own.actor place seen.value)) }
    ensures posted { posts target (P.shows port.new).own.actor (P.shows port.new).own.steps ≡ posts target (P.shows port.old).own.actor (P.shows port.old).own.steps }
    ensures acting { IsActing (P.shows port.new) }
    ensures goes { GoesBy 1 IsOfPlaces (P.shows port.old) (P.shows port.new) }
{
    let word = place_word(target, port.actor(), place);
    let found = port.load(word);
    if found != 0 {
        return Err(Seen { word, value: found });
    }
    Ok(())
}
