// The section: who claims it, and finds all others outside, is alone there until it is released.
ghost use Rattle.std.specs.Prelude.{◌≡◌, OnOk, IfErr, false, true};
ghost use Rattle.step_laws.specs.Sections.{is_claimant, outside, phase, IsInSection, IsOut};
ghost use Rattle.guest_ram.specs.Areas.{IsOfSection};
ghost use Rattle.guest_ram.specs.Ports.{layout_of, GoesBy, IsActing};
ghost use Rattle.exclusive.specs.Claims.{HasClaimed, HasFoundAllOut, HasFoundClaim, HasFoundInside, HasReleased, IsOfClaims};

use crate::kicking::kick_others;
use guest_ram::{Port, Seen};
use step_laws::{MONITOR, pend_word, run_word};

/// Claims the section by an exchange of PEND from 0, and then calls every other hart out. Where PEND isn't 0 nothing is claimed and nobody
/// called; the answer says who claims it.
#[tactic(auto, using(guest_ram::proofs::MaySteps::section_kinds, guest_ram::proofs::Moves::claims_adds, guest_ram::proofs::Moves::phase_adds, guest_ram::proofs::Moves::acting_adds))]
pub fn claim<P: Port>(port: &mut P) -> Result<(), Seen>
    requires acting { IsActing (P.shows port.old) }
    requires out { IsOut (P.shows port.old).own.steps }
    ensures claimed { OnOk result (HasClaimed (P.shows port.old) (P.shows port.new)) }
    ensures claimant { OnOk result (is_claimant (P.shows port.new).own.steps ≡ true) }
    ensures refused { IfErr result (λ seen. HasFoundClaim seen (P.shows port.old) (P.shows port.new)) }
    ensures claimless { IfErr result (λ _. is_claimant (P.shows port.new).own.steps ≡ false) }
    ensures out { phase (P.shows port.new).own.steps ≡ outside }
    ensures acting { IsActing (P.shows port.new) }
    ensures goes { GoesBy 9 IsOfClaims (P.shows port.old) (P.shows port.new) }
{
    let pend = pend_word();
    let own = u64::from(port.actor()) + 1;
    let found = port.compare_exchange(pend, 0, own);
    if found != 0 {
        return Err(Seen {
            word: pend,
            value: found,
        });
    }
    kick_others(port);
    Ok(())
}

/// Looks anew whether all other actors are outside, by one pass of loads of their RUN: the harts in order, then the monitor. Then the
/// claimant is in section. Where one isn't outside the pass ends there, and the answer says what it saw; the claim stays.
#[tactic(auto, using(guest_ram::proofs::MaySteps::section_kinds, guest_ram::proofs::Moves::claims_adds, guest_ram::proofs::Moves::acting_adds, guest_ram::proofs::Moves::actor_few, crate::proofs::Passes::looking_first, crate::proofs::Passes::looking_hart, crate::proofs::Passes::looking_own))]
pub fn all_out<P: Port>(port: &mut P) -> Result<(), Seen>
    requires acting { IsActing (P.shows port.old) }
    requires claimant { is_claimant (P.shows port.old).own.steps ≡ true }
    ensures all_out { OnOk result (HasFoundAllOut (P.shows port.old) (P.shows port.new)) }
    ensures section { OnOk result (IsInSection (layout_of (P.shows port.new)) (P.shows port.new).own.actor (P.shows port.new).own.steps) }
    ensures refused { IfErr result (λ seen. HasFoundInside seen (P.shows port.old) (P.shows port.new)) }
    ensures claimant { is_claimant (P.shows port.new).own.steps ≡ true }
    ensures phase { phase (P.shows port.new).own.steps ≡ phase (P.shows port.old).own.steps }
    ensures acting { IsActing (P.shows port.new) }
    ensures goes { GoesBy 9 IsOfSection (P.shows port.old) (P.shows port.new) }
{
    let own = port.actor();
    let harts = port.layout().harts;
    for hart in 0..harts {
        if hart != own {
            let word = run_word(hart);
            let found = port.load(word);
            if found != 0 {
                return Err(Seen { word, value: found });
            }
        }
    }
    if own != MONITOR {
        let word = run_word(MONITOR);
        let found = port.load(word);
        if found != 0 {
            return Err(Seen { word, value: found });
        }
    }
    Ok(())
}

/// Gives the section back: stores 0 in PEND.
#[tactic(auto, using(guest_ram::proofs::MaySteps::section_kinds, guest_ram::proofs::Moves::claims_adds, guest_ram::proofs::Moves::phase_adds, guest_ram::proofs::Moves::acting_adds))]
pub fn release<P: Port>(port: &mut P)
    requires acting { IsActing (P.shows port.old) }
    requires claimant { is_claimant (P.shows port.old).own.steps ≡ true }
    ensures released { HasReleased (P.shows port.old) (P.shows port.new) }
    ensures claimless { is_claimant (P.shows port.new).own.steps ≡ false }
    ensures phase { phase (P.shows port.new).own.steps ≡ phase (P.shows port.old).own.steps }
    ensures acting { IsActing (P.shows port.new) }
    ensures goes { GoesBy 1 IsOfSection (P.shows port.old) (P.shows port.new) }
{
    port.store(pend_word(), 0);
}
