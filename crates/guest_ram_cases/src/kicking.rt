// Calling another hart out of its section.
ghost use Rattle.std.specs.Prelude.{◌≡◌, ◌≢◌, ◌<◌, IsTrue, false};
ghost use Rattle.guest_ram.specs.Areas.{IsOfCalls};
ghost use Rattle.guest_ram.specs.Ports.{layout_of, IsActing, GoesBy};
ghost use Rattle.guest_ram_cases.specs.Claims.{HasKicked, HasAnswered, kick_loaded};

use guest_ram::Port;
use step_laws::kick_word;

/// Asks a hart to leave.
#[tactic(auto, using(guest_ram::proofs::MaySteps::kick_kinds, guest_ram::proofs::Moves::acting_adds))]
pub fn kick<P: Port>(port: &mut P, other: u8)
    requires acting { IsActing (P.shows port.old) }
    requires hart { other < (layout_of (P.shows port.old)).harts }
    requires other { other ≢ (P.shows port.old).own.actor }
    ensures step { HasKicked (P.shows port.old) other (P.shows port.new) }
    ensures acting { IsActing (P.shows port.new) }
    ensures goes { GoesBy 1 IsOfCalls (P.shows port.old) (P.shows port.new) }
{
    port.store(kick_word(other), 1);
}

/// Whether the hart was asked to leave. If so the call is taken.
#[tactic(auto, using(guest_ram::proofs::MaySteps::kick_kinds, guest_ram::proofs::Moves::acting_adds, guest_ram::proofs::Moves::actor_few))]
pub fn take_kick<P: Port>(port: &mut P) -> bool
    requires acting { IsActing (P.shows port.old) }
    requires hart { (P.shows port.old).own.actor < (layout_of (P.shows port.old)).harts }
    ensures taken { IsTrue result → HasAnswered (P.shows port.old) (P.shows port.new) }
    ensures none { result ≡ false → (P.shows port.new) ≡ kick_loaded (P.shows port.old) 0 }
    ensures acting { IsActing (P.shows port.new) }
    ensures goes { GoesBy 2 IsOfCalls (P.shows port.old) (P.shows port.new) }
{
    let own = kick_word(port.actor());
    let found = port.load(own);
    if found == 0 {
        return false;
    }
    port.store(own, 0);
    true
}
