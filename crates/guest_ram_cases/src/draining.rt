// A snapshot's last parts, by the monitor: behind the passes it posts a drain at each hart and waits until each is acked, so that no hart
// is still in a turn in which it might store on a page that was taken.
ghost use Rattle.std.specs.Prelude.{◌≡◌, ◌<◌, ℕ, OnOk, IfErr};
ghost use Rattle.step_laws.specs.Marks.{awaiting, draining, last_place};
ghost use Rattle.step_laws.specs.Places.{post_place};
ghost use Rattle.guest_ram.specs.Areas.{IsOfPlaces};
ghost use Rattle.guest_ram.specs.Ports.{layout_of, GoesBy};
ghost use Rattle.guest_ram_cases.specs.Requests.{HasPosted, place_loaded};
ghost use Rattle.guest_ram_cases.specs.Sweeps.{HasPlaced, IsAtStage, after_drain, after_wait};

use guest_ram::{Port, Seen};
use step_laws::place_word;

/// Posts a drain at the hart that is next, or answers what stands in the place.
pub fn drain<P: Port>(port: &mut P, hart: u8, place: u8) -> Result<(), Seen>
    requires stage { IsAtStage (P.shows port.old) (draining hart) }
    requires hart { hart < (layout_of (P.shows port.old)).harts }
    requires place { place ≡ post_place hart (P.shows port.old).own.actor (P.shows port.old).own.steps }
    ensures posted { OnOk result (HasPosted (P.shows port.old) hart place 3 (P.shows port.new)) }
    ensures found { IfErr result (λ seen. (P.shows port.new) ≡ place_loaded (P.shows port.old) hart (P.shows port.old).own.actor place seen.value) }
    ensures stage { OnOk result (IsAtStage (P.shows port.new) (after_drain (P.shows port.old) hart)) }
    ensures placed { OnOk result (HasPlaced (P.shows port.old) (P.shows port.new) hart place) }
    ensures still { IfErr result (λ _. IsAtStage (P.shows port.new) (draining hart)) }
    ensures goes { GoesBy 2 IsOfPlaces (P.shows port.old) (P.shows port.new) }
{
    let word = place_word(hart, port.actor(), place);
    let found = port.load(word);
    if found != 0 {
        return Err(Seen { word, value: found });
    }
    port.store(word, 3);
    Ok(())
}

/// Whether the hart that is next has acked its drain, which stands in this place, or what stands there.
pub fn await_drain<P: Port>(port: &mut P, hart: u8, place: u8) -> Result<(), Seen>
    requires stage { IsAtStage (P.shows port.old) (awaiting hart) }
    requires hart { hart < (layout_of (P.shows port.old)).harts }
    requires few { place < 8 }
    requires place { place ≡ last_place hart (P.shows port.old).own.steps }
    ensures step { OnOk result ((P.shows port.new) ≡ place_loaded (P.shows port.old) hart (P.shows port.old).own.actor place 0) }
    ensures found { IfErr result (λ seen. (P.shows port.new) ≡ place_loaded (P.shows port.old) hart (P.shows port.old).own.actor place seen.value) }
    ensures stage { OnOk result (IsAtStage (P.shows port.new) (after_wait (P.shows port.old) hart)) }
    ensures still { IfErr result (λ _. IsAtStage (P.shows port.new) (awaiting hart)) }
    ensures loaded { ((t : ℕ) → last_place t (P.shows port.old).own.steps ≡ 0) → (t : ℕ) → last_place t (P.shows port.new).own.steps ≡ 0 }
    ensures goes { GoesBy 1 IsOfPlaces (P.shows port.old) (P.shows port.new) }
{
    let word = place_word(hart, port.actor(), place);
    let found = port.load(word);
    if found != 0 {
        return Err(Seen { word, value: found });
    }
    Ok(())
}
