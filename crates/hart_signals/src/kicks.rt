// Calls to leave, at the hart that is called.
ghost use Rattle.std.specs.Prelude.{◌≡◌, ◌<◌, ◌==◌, ℕ, not};
ghost use Rattle.step_laws.specs.Tables.{held_lock};
ghost use Rattle.guest_ram.specs.Areas.{IsOfCalls};
ghost use Rattle.guest_ram.specs.Ports.{layout_of, GoesBy, IsActing, StandsAs};
ghost use Rattle.hart_signals.specs.Signals.{HasClearedKick, HasFoundKick};

use guest_ram::Port;
use step_laws::kick_word;

/// Looks whether another actor has called the hart out, by a load of its KICK.
#[tactic(auto, using(guest_ram::proofs::MaySteps::kick_kinds, guest_ram::proofs::Moves::acting_adds, guest_ram::proofs::Moves::actor_few))]
pub fn is_kicked<P: Port>(port: &mut P) -> bool
    requires acting { IsActing (P.shows port.old) }
    requires hart { (P.shows port.old).own.actor < (layout_of (P.shows port.old)).harts }
    ensures found { (found : ℕ) × HasFoundKick found (P.shows port.old) (P.shows port.new) × (result ≡ not (found == 0)) }
    ensures stands { StandsAs (P.shows port.old) (P.shows port.new) }
    ensures held { held_lock (P.shows port.new).own.steps ≡ held_lock (P.shows port.old).own.steps }
    ensures acting { IsActing (P.shows port.new) }
    ensures goes { GoesBy 1 IsOfCalls (P.shows port.old) (P.shows port.new) }
{
    let own = kick_word(port.actor());
    port.load(own) != 0
}

/// Takes back what called the hart out: stores 0 in its KICK.
#[tactic(auto, using(guest_ram::proofs::MaySteps::kick_kinds, guest_ram::proofs::Moves::acting_adds, guest_ram::proofs::Moves::actor_few))]
pub fn clear_kick<P: Port>(port: &mut P)
    requires acting { IsActing (P.shows port.old) }
    requires hart { (P.shows port.old).own.actor < (layout_of (P.shows port.old)).harts }
    ensures cleared { HasClearedKick (P.shows port.old) (P.shows port.new) }
    ensures stands { StandsAs (P.shows port.old) (P.shows port.new) }
    ensures held { held_lock (P.shows port.new).own.steps ≡ held_lock (P.shows port.old).own.steps }
    ensures acting { IsActing (P.shows port.new) }
    ensures goes { GoesBy 1 IsOfCalls (P.shows port.old) (P.shows port.new) }
{
    let own = kick_word(port.actor());
    port.store(own, 0);
}
