// Starting another hart, and stopping.
ghost use Rattle.std.specs.Prelude.{◌≡◌, ◌≢◌, ◌≤◌, ◌<◌, ◌%◌, ◌↔◌, ℕ, Bool, IfNone, IfSome, IsTrue, true, false};
ghost use Rattle.step_laws.specs.Harts.{is_running, closed, opening, is_owing};
ghost use Rattle.guest_ram.specs.Areas.{IsOfStates};
ghost use Rattle.guest_ram.specs.Ports.{layout_of, IsActing, GoesBy};
ghost use Rattle.guest_ram_cases.specs.States.{HasBegun, HasFoundState, HasStarted, HasStopped, IsAtRest, state_loaded};

use guest_ram::Port;
use step_laws::{hsm_word, live_word, opaque_word, start_word};

/// The state of a hart as HSM has it: 0 it runs, 1 it is stopped, 2 it is called, 3 a start of it is being made.
#[tactic(auto, using(guest_ram::proofs::MaySteps::may_load_hsm, guest_ram::proofs::Moves::acting_adds))]
pub fn hart_state<P: Port>(port: &mut P, hart: u8) -> u64
    requires acting { IsActing (P.shows port.old) }
    requires hart { hart < (layout_of (P.shows port.old)).harts }
    ensures step { (P.shows port.new) ≡ state_loaded (P.shows port.old) hart result }
    ensures few { result ≤ 3 }
    ensures rests { (runs : Bool) → IsAtRest (P.shows port.old) runs → IsAtRest (P.shows port.new) runs }
    ensures acting { IsActing (P.shows port.new) }
    ensures goes { GoesBy 1 IsOfStates (P.shows port.old) (P.shows port.new) }
{
    let state = hsm_word(hart);
    port.load(state)
}

/// Starts a hart, where it is stopped, and says whether it did.
#[tactic(auto, using(guest_ram::proofs::MaySteps::may_begin_start, guest_ram::proofs::MaySteps::may_set_start, guest_ram::proofs::MaySteps::may_set_opaque, guest_ram::proofs::MaySteps::may_add_live, guest_ram::proofs::MaySteps::may_end_start, crate::proofs::Starts::acting_state, crate::proofs::Starts::starting))]
pub fn start_hart<P: Port>(port: &mut P, target: u8, at: u64, opaque: u64) -> bool
    requires acting { IsActing (P.shows port.old) }
    requires hart { (P.shows port.old).own.actor < (layout_of (P.shows port.old)).harts }
    requires runs { is_running (P.shows port.old).own.actor (P.shows port.old).own.runs (P.shows port.old).own.steps ≡ true }
    requires free { opening (P.shows port.old).own.steps ≡ closed }
    requires other { target ≢ (P.shows port.old).own.actor }
    requires target { target < (layout_of (P.shows port.old)).harts }
    requires place { at % 4 ≡ 0 }
    ensures started { IsTrue result → HasStarted (P.shows port.old) target at opaque (P.shows port.new) }
    ensures refused { result ≡ false → (found : ℕ) × (found ≢ 1) × HasFoundState (P.shows port.old) target found (P.shows port.new) }
    ensures free { opening (P.shows port.new).own.steps ≡ closed }
    ensures rests { IsAtRest (P.shows port.old) true → IsAtRest (P.shows port.new) true }
    ensures acting { IsActing (P.shows port.new) }
    ensures goes { GoesBy 5 IsOfStates (P.shows port.old) (P.shows port.new) }
{
    let state = hsm_word(target);
    let found = port.compare_exchange(state, 1, 3);
    if found != 1 {
        return false;
    }
    port.store(start_word(target), at);
    port.store(opaque_word(target), opaque);
    port.fetch_add(live_word(), 1);
    port.store(state, 2);
    true
}

/// Stops, and says whether this was the last hart.
#[tactic(auto, using(guest_ram::proofs::MaySteps::state_kinds, guest_ram::proofs::Moves::acting_adds, guest_ram::proofs::Moves::actor_few, crate::proofs::Starts::stopping))]
pub fn stop_self<P: Port>(port: &mut P) -> bool
    requires acting { IsActing (P.shows port.old) }
    requires hart { (P.shows port.old).own.actor < (layout_of (P.shows port.old)).harts }
    requires runs { is_running (P.shows port.old).own.actor (P.shows port.old).own.runs (P.shows port.old).own.steps ≡ true }
    requires free { opening (P.shows port.old).own.steps ≡ closed }
    ensures stopped { (left : ℕ) × (IsTrue result ↔ (left ≡ 1)) × HasStopped (P.shows port.old) left (P.shows port.new) }
    ensures paid { is_owing (P.shows port.new).own.actor (P.shows port.new).own.steps ≡ false }
    ensures rests { IsAtRest (P.shows port.old) true → IsAtRest (P.shows port.new) false }
    ensures acting { IsActing (P.shows port.new) }
    ensures goes { GoesBy 2 IsOfStates (P.shows port.old) (P.shows port.new) }
{
    let state = hsm_word(port.actor());
    port.store(state, 1);
    port.fetch_add(live_word(), 18_446_744_073_709_551_615) == 1
}

/// Begins to run, where another hart has started this one. Answers where, and what was handed on.
#[tactic(auto, using(guest_ram::proofs::Moves::actor_few))]
pub fn take_start<P: Port>(port: &mut P) -> Option<(u64, u64)>
    requires acting { IsActing (P.shows port.old) }
    requires stopped { is_running (P.shows port.old).own.actor (P.shows port.old).own.runs (P.shows port.old).own.steps ≡ false }
    requires paid { is_owing (P.shows port.old).own.actor (P.shows port.old).own.steps ≡ false }
    ensures begun { IfSome result (λ given. HasBegun (P.shows port.old) given.0 given.1 (P.shows port.new)) }
    ensures runs { IfSome result (λ given. IsAtRest (P.shows port.old) false → IsAtRest (P.shows port.new) true) }
    ensures still { IfNone result (IsAtRest (P.shows port.old) false → IsAtRest (P.shows port.new) false) }
    ensures goes { GoesBy 4 IsOfStates (P.shows port.old) (P.shows port.new) }
{
    let own = port.actor();
    let state = hsm_word(own);
    if port.load(state) != 2 {
        return None;
    }
    let at = port.load(start_word(own));
    let opaque = port.load(opaque_word(own));
    port.store(state, 0);
    Some((at, opaque))
}
