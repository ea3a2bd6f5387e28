// Calling other harts out, so that they leave before their quantum ends.
ghost use Rattle.std.specs.Prelude.{◌≡◌, ◌≢◌, ◌<◌};
ghost use Rattle.step_laws.specs.Sections.{is_claimant, phase};
ghost use Rattle.guest_ram.specs.Ports.{layout_of, GoesBy, IsActing, StandsAs};
ghost use Rattle.exclusive.specs.Claims.{HasKicked, HasKickedOthers, IsKick};

use guest_ram::Port;
use step_laws::kick_word;

/// Calls another hart out: stores 1 in its KICK.
#[tactic(auto, using(guest_ram::proofs::MaySteps::kick_kinds, guest_ram::proofs::Moves::acting_adds, guest_ram::proofs::Moves::phase_adds, guest_ram::proofs::Moves::claims_adds))]
pub fn kick<P: Port>(port: &mut P, hart: u8)
    requires acting { IsActing (P.shows port.old) }
    requires hart { hart < (layout_of (P.shows port.old)).harts }
    requires other { hart ≢ (P.shows port.old).own.actor }
    ensures kicked { HasKicked hart (P.shows port.old) (P.shows port.new) }
    ensures phase { phase (P.shows port.new).own.steps ≡ phase (P.shows port.old).own.steps }
    ensures claim { is_claimant (P.shows port.new).own.steps ≡ is_claimant (P.shows port.old).own.steps }
    ensures acting { IsActing (P.shows port.new) }
    ensures goes { GoesBy 1 IsKick (P.shows port.old) (P.shows port.new) }
{
    port.store(kick_word(hart), 1);
}

/// Calls every other hart out, in order.
#[tactic(auto, using(crate::proofs::Callings::calling_first, crate::proofs::Callings::calling_last, crate::proofs::Callings::calling_other, crate::proofs::Callings::calling_not_own))]
pub(crate) fn kick_others<P: Port>(port: &mut P)
    requires acting { IsActing (P.shows port.old) }
    ensures kicked { HasKickedOthers (P.shows port.old) (P.shows port.new) }
    ensures stands { StandsAs (P.shows port.old) (P.shows port.new) }
    ensures acting { IsActing (P.shows port.new) }
    ensures goes { GoesBy 8 IsKick (P.shows port.old) (P.shows port.new) }
{
    let own = port.actor();
    let harts = port.layout().harts;
    for hart in 0..harts {
        if hart != own {
            kick(port, hart);
        }
    }
}
