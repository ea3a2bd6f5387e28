// Entering, so that no other actor is in a section of its own, and leaving.
ghost use Rattle.std.specs.Prelude.{◌≡◌, OnOk, IfErr};
ghost use Rattle.step_laws.specs.Map.{Pend, name_of};
ghost use Rattle.step_laws.specs.Sections.{phase, inside, outside, is_claimant, IsOut};
ghost use Rattle.guest_ram.specs.Areas.{IsOfSection};
ghost use Rattle.guest_ram.specs.Ports.{IsActing, GoesBy};
ghost use Rattle.guest_ram_cases.specs.Made.{HasEntered, HasGivenUp, HasLeft};

use guest_ram::{Port, Seen};
use step_laws::{pend_word, run_word};

/// Enters, or answers what stood in PEND and is outside again.
#[tactic(auto, using(guest_ram::proofs::MaySteps::section_kinds, guest_ram::proofs::Moves::actor_few))]
pub fn enter<P: Port>(port: &mut P) -> Result<(), Seen>
    requires acting { IsActing (P.shows port.old) }
    requires out { IsOut (P.shows port.old).own.steps }
    ensures entered { OnOk result (HasEntered (P.shows port.old) (P.shows port.new)) }
    ensures inside { OnOk result (phase (P.shows port.new).own.steps ≡ inside) }
    ensures refused { IfErr result (λ seen. (name_of seen.word ≡ Pend) × (phase (P.shows port.new).own.steps ≡ outside)) }
    ensures given_up { IfErr result (λ seen. HasGivenUp (P.shows port.old) seen.value (P.shows port.new)) }
    ensures claimless { is_claimant (P.shows port.new).own.steps ≡ is_claimant (P.shows port.old).own.steps }
    ensures acting { IsActing (P.shows port.new) }
    ensures goes { GoesBy 3 IsOfSection (P.shows port.old) (P.shows port.new) }
{
    let own = run_word(port.actor());
    let pend = pend_word();
    port.store(own, 1);
    let found = port.load(pend);
    if found != 0 {
        port.store(own, 0);
        return Err(Seen {
            word: pend,
            value: found,
        });
    }
    Ok(())
}

/// Leaves.
#[tactic(auto, using(guest_ram::proofs::MaySteps::section_kinds, guest_ram::proofs::Moves::actor_few))]
pub fn leave<P: Port>(port: &mut P)
    requires acting { IsActing (P.shows port.old) }
    ensures step { HasLeft (P.shows port.old) (P.shows port.new) }
    ensures left { phase (P.shows port.new).own.steps ≡ outside }
    ensures claimless { is_claimant (P.shows port.new).own.steps ≡ is_claimant (P.shows port.old).own.steps }
    ensures acting { IsActing (P.shows port.new) }
    ensures goes { GoesBy 1 IsOfSection (P.shows port.old) (P.shows port.new) }
{
    let run = run_word(port.actor());
    port.store(run, 0)
}
