// The begin of a turn, and the monitor's last step.
ghost use Rattle.std.specs.Prelude.{◌≡◌, IfNone, IfSome, [], false, true};
ghost use Rattle.step_laws.specs.Output.{is_finished};
ghost use Rattle.guest_ram.specs.Ports.{GoesBy};
ghost use Rattle.hart_signals.specs.Signals.{HasFoundNoReason};
ghost use Rattle.monitor.specs.Steps.{GoesWith, HasEnded, HasFinished, HasGivenBack, IsOfMonitor};
ghost use Rattle.monitor.specs.Monitors.{with_claim};

use crate::monitor::Monitor;
use exclusive::release;
use guest_ram::Port;
use hart_signals::{begin_turn, sign_off};
use machine_model::Reason;

/// Gives the section back where it is claimed.
fn give_back<P: Port>(monitor: &mut Monitor, port: &mut P)
    requires with { GoesWith monitor.old (P.shows port.old) }
    requires works { monitor.old.rests ≡ false }
    ensures given { HasGivenBack monitor.old (P.shows port.old) (P.shows port.new) }
    ensures still { monitor.new ≡ with_claim false monitor.old }
    ensures with { GoesWith monitor.new (P.shows port.new) }
    ensures goes { GoesBy 1 IsOfMonitor (P.shows port.old) (P.shows port.new) }
{
    if !monitor.claimed {
        return;
    }
    release(port);
    monitor.claimed = false;
}

/// Begins a turn: looks at STOP. Where the machine ends, the monitor gives the section back and makes its last step.
pub(crate) fn begin<P: Port>(monitor: &mut Monitor, port: &mut P) -> Option<Reason>
    requires with { GoesWith monitor.old (P.shows port.old) }
    requires works { monitor.old.rests ≡ false }
    ensures looked { IfNone result (HasFoundNoReason (P.shows port.old) (P.shows port.new)) }
    ensures stays { IfNone result (monitor.new ≡ monitor.old) }
    ensures with { IfNone result (GoesWith monitor.new (P.shows port.new)) }
    ensures ended { IfSome result (λ reason. HasEnded reason monitor.old monitor.new (P.shows port.old) (P.shows port.new)) }
    ensures finished { IfSome result (λ _. is_finished (P.shows port.new).own.steps ≡ true) }
    ensures goes { GoesBy 3 IsOfMonitor (P.shows port.old) (P.shows port.new) }
{
    match begin_turn(port) {
        None => None,
        Some(reason) => {
            give_back(monitor, port);
            sign_off(port);
            Some(reason)
        }
    }
}

/// Ends a monitor that has done all.
pub(crate) fn finish<P: Port>(monitor: &mut Monitor, port: &mut P)
    requires with { GoesWith monitor.old (P.shows port.old) }
    requires works { monitor.old.rests ≡ false }
    requires none { monitor.old.script ≡ [] }
    ensures finished { HasFinished monitor.old monitor.new (P.shows port.old) (P.shows port.new) }
    ensures with { GoesWith monitor.new (P.shows port.new) }
    ensures goes { GoesBy 1 IsOfMonitor (P.shows port.old) (P.shows port.new) }
{
    sign_off(port);
    monitor.rests = true;
}
