// The end that a script asks for.
ghost use Rattle.std.specs.Prelude.{◌≡◌, false};
ghost use Rattle.guest_ram.specs.Ports.{GoesBy};
ghost use Rattle.monitor.specs.Steps.{GoesWith, HasStopped, IsOfMonitor};

use crate::monitor::Monitor;
use guest_devices::set_stop;
use guest_ram::Port;
use machine_model::Reason;

/// Ends the machine where nothing has ended it before. The script keeps its line: the next turn finds a reason in STOP.
pub(crate) fn stop<P: Port>(monitor: &Monitor, port: &mut P)
    requires with { GoesWith monitor.now (P.shows port.old) }
    requires works { monitor.now.rests ≡ false }
    ensures done { HasStopped (P.shows port.old) (P.shows port.new) }
    ensures with { GoesWith monitor.now (P.shows port.new) }
    ensures goes { GoesBy 1 IsOfMonitor (P.shows port.old) (P.shows port.new) }
{
    set_stop(port, Reason::Stopped);
}
