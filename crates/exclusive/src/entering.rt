// Entering, so that no other actor is in a section of its own, and leaving.
ghost use Rattle.std.specs.Prelude.{◌≡◌, OnOk, IfErr, false};
ghost use Rattle.step_laws.specs.Sections.{inside, is_claimant, outside, phase, IsOut};
ghost use Rattle.guest_ram.specs.Areas.{IsOfSection};
ghost use Rattle.guest_ram.specs.Ports.{GoesBy, IsActing};
ghost use Rattle.exclusive.specs.Entries.{HasEntered, HasLeft, HasTurnedBack};

use guest_ram::{Port, Seen};
use step_laws::{pend_word, run_word};

/// Enters: stores 1 in the own RUN and then loads PEND. Where that isn't 0 another claims the section: the actor stores 0 in its RUN again
/// and answers what it saw.
#[tactic(auto, using(guest_ram::proofs::MaySteps::section_kinds, guest_ram::proofs::Moves::actor_few))]
pub fn enter<P: Port>(port: &mut P) -> Result<(), Seen>
    requires acting { IsActing (P.shows port.old) }
    requires out { IsOut (P.shows port.old).own.steps }
    ensures entered { OnOk result (HasEntered (P.shows port.old) (P.shows port.new)) }
    ensures inside { OnOk result (phase (P.shows port.new).own.steps ≡ inside) }
    ensures refused { IfErr result (λ seen. HasTurnedBack seen (P.shows port.old) (P.shows port.new)) }
    ensures back { IfErr result (λ seen. phase (P.shows port.new).own.steps ≡ outside) }
    ensures claimless { is_claimant (P.shows port.new).own.steps ≡ false }
    ensures acting { IsActing (P.shows port.new) }
    ensures goes { GoesBy 3 IsOfSection (P.shows port.old) (P.shows port.new) }
{
    let own = run_word(port.actor());
    let pend = pend_word();
    port.store(own, 1);
    let found = port.load(pend);
    if found != 0 {
        port.store(own, 0);
        return Err(Seen {
            word: pend,
            value: found,
        });
    }
    Ok(())
}

/// Leaves: stores 0 in the own RUN.
#[tactic(auto, using(guest_ram::proofs::MaySteps::section_kinds, guest_ram::proofs::Moves::actor_few))]
pub fn leave<P: Port>(port: &mut P)
    requires acting { IsActing (P.shows port.old) }
    ensures left { HasLeft (P.shows port.old) (P.shows port.new) }
    ensures out { phase (P.shows port.new).own.steps ≡ outside }
    ensures claim { is_claimant (P.shows port.new).own.steps ≡ is_claimant (P.shows port.old).own.steps }
    ensures acting { IsActing (P.shows port.new) }
    ensures goes { GoesBy 1 IsOfSection (P.shows port.old) (P.shows port.new) }
{
    let run = run_word(port.actor());
    port.store(run, 0)
}
