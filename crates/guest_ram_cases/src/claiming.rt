// The section: who claims it, and finds all others outside, is alone until it releases it.
ghost use Rattle.std.specs.Prelude.{◌≡◌, OnOk, IfErr, true, false};
ghost use Rattle.step_laws.specs.Sections.{is_claimant, IsOut, IsInSection};
ghost use Rattle.guest_ram.specs.Areas.{IsOfSection};
ghost use Rattle.guest_ram.specs.Ports.{layout_of, IsActing, GoesBy};
ghost use Rattle.guest_ram_cases.specs.Claims.{HasClaimed, HasFoundClaim, HasReleased};

use guest_ram::{Port, Seen};
use step_laws::{MONITOR, pend_word, run_word};

/// Claims the section, or answers who has.
#[tactic(auto, using(guest_ram::proofs::MaySteps::section_kinds, guest_ram::proofs::Moves::claims_adds, guest_ram::proofs::Moves::phase_adds, guest_ram::proofs::Moves::acting_adds))]
pub fn claim<P: Port>(port: &mut P) -> Result<(), Seen>
    requires acting { IsActing (P.shows port.old) }
    requires out { IsOut (P.shows port.old).own.steps }
    ensures step { OnOk result (HasClaimed (P.shows port.old) (P.shows port.new)) }
    ensures claimed { OnOk result (is_claimant (P.shows port.new).own.steps ≡ true) }
    ensures refused { IfErr result (λ seen. HasFoundClaim (P.shows port.old) seen.value (P.shows port.new)) }
    ensures out { IfErr result (λ _. IsOut (P.shows port.new).own.steps) }
    ensures acting { IsActing (P.shows port.new) }
    ensures goes { GoesBy 1 IsOfSection (P.shows port.old) (P.shows port.new) }
{
    let pend = pend_word();
    let own = u64::from(port.actor()) + 1;
    let found = port.compare_exchange(pend, 0, own);
    if found != 0 {
        return Err(Seen {
            word: pend,
            value: found,
        });
    }
    Ok(())
}

/// Looks whether all others are outside, in one pass in actor order. Then the claimant is in section.
#[tactic(auto, using(guest_ram::proofs::MaySteps::section_kinds, guest_ram::proofs::Moves::claims_adds, guest_ram::proofs::Moves::acting_adds, guest_ram::proofs::Moves::actor_few, crate::proofs::Passes::looking_first, crate::proofs::Passes::looking_hart, crate::proofs::Passes::looking_own))]
pub fn all_out<P: Port>(port: &mut P) -> Result<(), Seen>
    requires acting { IsActing (P.shows port.old) }
    requires claimed { is_claimant (P.shows port.old).own.steps ≡ true }
    ensures section { OnOk result (IsInSection (layout_of (P.shows port.new)) (P.shows port.new).own.actor (P.shows port.new).own.steps) }
    ensures claimed { is_claimant (P.shows port.new).own.steps ≡ true }
    ensures acting { IsActing (P.shows port.new) }
    ensures goes { GoesBy 9 IsOfSection (P.shows port.old) (P.shows port.new) }
{
    let own = port.actor();
    let harts = port.layout().harts;
    for hart in 0..harts {
        if hart != own {
            let word = run_word(hart);
            let found = port.load(word);
            if found != 0 {
                return Err(Seen { word, value: found });
            }
        }
    }
    if own != MONITOR {
        let word = run_word(MONITOR);
        let found = port.load(word);
        if found != 0 {
            return Err(Seen { word, value: found });
        }
    }
    Ok(())
}

/// Gives the section back.
#[tactic(auto, using(guest_ram::proofs::MaySteps::section_kinds, guest_ram::proofs::Moves::claims_adds, guest_ram::proofs::Moves::phase_adds, guest_ram::proofs::Moves::acting_adds))]
pub fn release<P: Port>(port: &mut P)
    requires acting { IsActing (P.shows port.old) }
    requires claimed { is_claimant (P.shows port.old).own.steps ≡ true }
    ensures step { HasReleased (P.shows port.old) (P.shows port.new) }
    ensures released { is_claimant (P.shows port.new).own.steps ≡ false }
    ensures acting { IsActing (P.shows port.new) }
    ensures goes { GoesBy 1 IsOfSection (P.shows port.old) (P.shows port.new) }
{
    port.store(pend_word(), 0);
}
