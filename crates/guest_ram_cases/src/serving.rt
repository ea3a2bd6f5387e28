// Requests at their target.
ghost use Rattle.std.specs.Prelude.{◌≡◌, ◌≢◌, ◌≤◌, ◌<◌, ◌∷◌, IfOk, IfErr, false};
ghost use Rattle.step_laws.specs.Output.{has_touched};
ghost use Rattle.step_laws.specs.Places.{ack_place, acked_requests};
ghost use Rattle.step_laws.specs.Words.{monitor};
ghost use Rattle.guest_ram.specs.Areas.{IsOfPlaces, IsOfService};
ghost use Rattle.guest_ram.specs.Ports.{layout_of, GoesBy, IsActing};
ghost use Rattle.guest_ram_cases.specs.Requests.{HasDrained, HasFlushed, HasFoundBoth, IsServing, place_loaded};

use guest_ram::{Port, Seen};
use step_laws::{lock_word, place_word};

/// Acks a drain, where one stands in the next place of a source, at once. Answers what stands there.
#[tactic(auto, using(crate::proofs::Acks::may_fetch_next, crate::proofs::Acks::may_ack_drain, crate::proofs::Acks::next_few, guest_ram::proofs::Moves::actor_few))]
pub fn serve_drain<P: Port>(port: &mut P, source: u8, place: u8) -> u64
    requires acting { IsActing (P.shows port.old) }
    requires hart { (P.shows port.old).own.actor < (layout_of (P.shows port.old)).harts }
    requires source { source ≤ monitor }
    requires other { source ≢ (P.shows port.old).own.actor }
    requires next { place ≡ ack_place (P.shows port.old).own.actor source (P.shows port.old).own.steps }
    requires untouched { has_touched (P.shows port.old).own.steps ≡ false }
    ensures drained { result ≡ 3 → HasDrained (P.shows port.old) source place (P.shows port.new) }
    ensures others { result ≢ 3 → (P.shows port.new) ≡ place_loaded (P.shows port.old) (P.shows port.old).own.actor source place result }
    ensures acked { result ≡ 3 → acked_requests (P.shows port.new).own.actor source (P.shows port.new).own.steps ≡ 3 ∷ acked_requests (P.shows port.old).own.actor source (P.shows port.old).own.steps }
    ensures kept { result ≢ 3 → acked_requests (P.shows port.new).own.actor source (P.shows port.new).own.steps ≡ acked_requests (P.shows port.old).own.actor source (P.shows port.old).own.steps }
    ensures serving { IsServing (P.shows port.old) source → IsServing (P.shows port.new) source }
    ensures goes { GoesBy 2 IsOfPlaces (P.shows port.old) (P.shows port.new) }
{
    let word = place_word(port.actor(), source, place);
    let found = port.load(word);
    if found == 3 {
        port.store(word, 0);
    }
    found
}

/// Acks the request in the next place of a source, where one stands there, behind a section of the lock: the table is empty, so no entry
/// is left on any page. Answers the request, 0 for none, or who holds the lock.
pub fn serve_flush<P: Port>(port: &mut P, source: u8, place: u8) -> Result<u64, Seen>
    requires serving { IsServing (P.shows port.old) source }
    requires source { source ≤ monitor }
    requires next { place ≡ ack_place (P.shows port.old).own.actor source (P.shows port.old).own.steps }
    ensures flushed { IfOk result (λ found. found ≢ 0 → HasFlushed (P.shows port.old) source place found (P.shows port.new)) }
    ensures none { IfOk result (λ found. found ≡ 0 → (P.shows port.new) ≡ place_loaded (P.shows port.old) (P.shows port.old).own.actor source place 0) }
    ensures locked { IfErr result (λ seen. HasFoundBoth (P.shows port.old) source place seen.value (P.shows port.new)) }
    ensures acked { IfOk result (λ found. found ≢ 0 → acked_requests (P.shows port.new).own.actor source (P.shows port.new).own.steps ≡ found ∷ acked_requests (P.shows port.old).own.actor source (P.shows port.old).own.steps) }
    ensures serving { IsServing (P.shows port.new) source }
    ensures goes { GoesBy 4 IsOfService (P.shows port.old) (P.shows port.new) }
{
    let own = port.actor();
    let word = place_word(own, source, place);
    let request = port.load(word);
    if request == 0 {
        return Ok(0);
    }
    let lock = lock_word(own);
    let found = port.compare_exchange(lock, 0, u64::from(own) + 1);
    if found != 0 {
        return Err(Seen {
            word: lock,
            value: found,
        });
    }
    port.store(lock, 0);
    port.store(word, 0);
    Ok(request)
}
