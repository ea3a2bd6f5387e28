// A turn's first step, and an actor's last.
ghost use Rattle.std.specs.Prelude.{◌≡◌, IfNone, IfSome, false, true};
ghost use Rattle.step_laws.specs.Output.{has_set_stop, has_touched, is_finished};
ghost use Rattle.step_laws.specs.Tables.{held_lock};
ghost use Rattle.guest_ram.specs.Areas.{IsOfEnd};
ghost use Rattle.guest_ram.specs.Ports.{GoesBy, IsActing, StandsAs};
ghost use Rattle.hart_signals.specs.Signals.{HasFoundNoReason, HasFoundReason, HasSignedOff};

use guest_ram::Port;
use machine_model::{Reason, reason_in};
use step_laws::{done_word, stop_word};

/// Begins a turn: loads STOP. Answers the reason for which the machine ends, where there is one.
#[tactic(auto, using(guest_ram::proofs::MaySteps::end_kinds, guest_ram::proofs::Moves::acting_adds))]
pub fn begin_turn<P: Port>(port: &mut P) -> Option<Reason>
    requires acting { IsActing (P.shows port.old) }
    ensures goes_on { IfNone result (HasFoundNoReason (P.shows port.old) (P.shows port.new)) }
    ensures ends { IfSome result (λ reason. HasFoundReason reason (P.shows port.old) (P.shows port.new)) }
    ensures unsaid { IfNone result (has_set_stop (P.shows port.old).own.steps ≡ false) }
    ensures untouched { has_touched (P.shows port.new).own.steps ≡ false }
    ensures stands { StandsAs (P.shows port.old) (P.shows port.new) }
    ensures held { held_lock (P.shows port.new).own.steps ≡ held_lock (P.shows port.old).own.steps }
    ensures acting { IsActing (P.shows port.new) }
    ensures goes { GoesBy 1 IsOfEnd (P.shows port.old) (P.shows port.new) }
{
    let stop = stop_word();
    reason_in(port.load(stop))
}

/// Makes an actor's last step: stores 1 in its DONE.
#[tactic(auto, using(guest_ram::proofs::MaySteps::end_kinds, guest_ram::proofs::Moves::actor_few))]
pub fn sign_off<P: Port>(port: &mut P)
    requires acting { IsActing (P.shows port.old) }
    ensures signed { HasSignedOff (P.shows port.old) (P.shows port.new) }
    ensures finished { is_finished (P.shows port.new).own.steps ≡ true }
    ensures stands { StandsAs (P.shows port.old) (P.shows port.new) }
    ensures goes { GoesBy 1 IsOfEnd (P.shows port.old) (P.shows port.new) }
{
    let done = done_word(port.actor());
    port.store(done, 1);
}
