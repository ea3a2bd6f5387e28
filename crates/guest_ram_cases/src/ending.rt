// A turn's begin, and the machine's end.
ghost use Rattle.std.specs.Prelude.{◌≡◌, ◌≢◌, ℕ, true, false};
ghost use Rattle.step_laws.specs.Fields.{IsReason};
ghost use Rattle.step_laws.specs.Output.{has_touched, is_finished};
ghost use Rattle.guest_ram.specs.Areas.{IsOfEnd};
ghost use Rattle.guest_ram.specs.Ports.{layout_of, IsActing, GoesBy};
ghost use Rattle.guest_ram_cases.specs.Made.{HasEnded, HasSignedOff, stop_loaded};

use guest_ram::Port;
use step_laws::{done_word, stop_word};

/// Begins a turn. Answers the reason for which the machine ends, 0 for none yet.
#[tactic(auto, using(guest_ram::proofs::MaySteps::end_kinds, guest_ram::proofs::Moves::acting_adds))]
pub fn begin_turn<P: Port>(port: &mut P) -> u64
    requires acting { IsActing (P.shows port.old) }
    ensures step { (P.shows port.new) ≡ stop_loaded (P.shows port.old) result }
    ensures untouched { has_touched (P.shows port.new).own.steps ≡ false }
    ensures acting { IsActing (P.shows port.new) }
    ensures goes { GoesBy 1 IsOfEnd (P.shows port.old) (P.shows port.new) }
{
    let stop = stop_word();
    port.load(stop)
}

/// Ends the machine for a reason, and answers the one for which it ends.
#[tactic(auto, using(guest_ram::proofs::MaySteps::end_kinds, guest_ram::proofs::Moves::acting_adds))]
pub fn end_machine<P: Port>(port: &mut P, reason: u64) -> u64
    requires acting { IsActing (P.shows port.old) }
    requires reason { IsReason (layout_of (P.shows port.old)) reason }
    ensures steps { HasEnded (P.shows port.old) reason result (P.shows port.new) }
    ensures ends { result ≢ 0 }
    ensures acting { IsActing (P.shows port.new) }
    ensures goes { GoesBy 2 IsOfEnd (P.shows port.old) (P.shows port.new) }
{
    let stop = stop_word();
    port.compare_exchange(stop, 0, reason);
    port.load(stop)
}

/// Makes the last step.
#[tactic(auto, using(guest_ram::proofs::MaySteps::end_kinds, guest_ram::proofs::Moves::actor_few))]
pub fn sign_off<P: Port>(port: &mut P)
    requires acting { IsActing (P.shows port.old) }
    ensures step { HasSignedOff (P.shows port.old) (P.shows port.new) }
    ensures finished { is_finished (P.shows port.new).own.steps ≡ true }
    ensures goes { GoesBy 1 IsOfEnd (P.shows port.old) (P.shows port.new) }
{
    let done = done_word(port.actor());
    port.store(done, 1);
}
