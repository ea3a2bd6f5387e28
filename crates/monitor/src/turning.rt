// A turn of the monitor.
ghost use Rattle.std.specs.Prelude.{◌≡◌, false};
ghost use Rattle.guest_ram.specs.Ports.{GoesBy};
ghost use Rattle.monitor.specs.Logs.{GoesOn};
ghost use Rattle.monitor.specs.Steps.{GoesWith, IsOfMonitor};
ghost use Rattle.monitor.specs.Turning.{GoesOrEnds, HasGoneOn, HasTurned};

use crate::beginning::{begin, finish};
use crate::dumping::dump;
use crate::monitor::Monitor;
use crate::stopping::stop;
use crate::waiting::await_bytes;
use guest_ram::{Port, Seen};
use machine_model::Reason;
use monitor_script::Command;

/// How a turn of the monitor ended: it did a command, it waits for a word that isn't as it has to be, all is done, or the machine ends.
#[derive(Clone, Copy, Debug, PartialEq, Eq)]
pub enum MonTurn {
    Did,
    Waiting(Seen),
    Finished,
    Ended(Reason),
}

/// Lets the monitor go on behind its look at STOP: it does the command in progress, or waits, or finishes.
fn go_on<P: Port>(monitor: &mut Monitor, port: &mut P) -> MonTurn
    requires with { GoesWith monitor.old (P.shows port.old) }
    requires works { monitor.old.rests ≡ false }
    ensures went { HasGoneOn result monitor.old monitor.new (P.shows port.old) (P.shows port.new) }
    ensures with { GoesWith monitor.new (P.shows port.new) }
    ensures goes { GoesBy 600 IsOfMonitor (P.shows port.old) (P.shows port.new) }
{
    let done = match monitor.command() {
        None => {
            finish(monitor, port);
            return MonTurn::Finished;
        }
        Some(Command::Await(count)) => await_bytes(monitor, port, count),
        Some(Command::Dump { at, len }) => dump(monitor, port, at, len),
        Some(Command::Stop) => {
            stop(monitor, port);
            Ok(())
        }
    };
    match done {
        Ok(()) => MonTurn::Did,
        Err(seen) => MonTurn::Waiting(seen),
    }
}

/// A turn of the monitor. It takes no memory and keeps no lock; between turns it is outside, and claims the section only while a dump waits. A
/// monitor that has answered `Ended` takes no more turns.
pub fn monitor_turn<P: Port>(monitor: &mut Monitor, port: &mut P) -> MonTurn
    requires with { GoesWith monitor.old (P.shows port.old) }
    ensures turned { HasTurned result monitor.old monitor.new (P.shows port.old) (P.shows port.new) }
    ensures with { GoesOrEnds result monitor.new (P.shows port.new) }
    ensures goes { GoesBy 2000 IsOfMonitor (P.shows port.old) (P.shows port.new) }
    ensures part { GoesOn monitor.old monitor.new (P.shows port.old) (P.shows port.new) }
{
    if monitor.rests {
        return MonTurn::Finished;
    }
    match begin(monitor, port) {
        Some(reason) => MonTurn::Ended(reason),
        None => go_on(monitor, port),
    }
}
