// Dumps of RAM.
ghost use Rattle.std.specs.Prelude.{◌≡◌, ◌∷◌, OnOk, IfErr, drop, false, true};
ghost use Rattle.step_laws.specs.Sections.{IsInSection};
ghost use Rattle.machine_model.specs.Memory.{Memory};
ghost use Rattle.machine_model.specs.Sbi.{bytes_from};
ghost use Rattle.guest_ram.specs.Ports.{layout_of, GoesBy};
ghost use Rattle.hart_calls.specs.Printing.{MayPrint as MayRead};
ghost use Rattle.signal_pieces.specs.Signalling.{IsOfSides};
ghost use Rattle.monitor_script.specs.declared.scripts.Command.{Command as TheCommand};
ghost use Rattle.monitor.specs.Monitors.{past};
ghost use Rattle.monitor.specs.Steps.{GoesWith, HasDumped, HasRead, HasToWait, IsOfMonitor, IsRam, with_bytes};

use crate::monitor::Monitor;
use crate::sections::go_alone;
use exclusive::release;
use guest_ram::{Port, Seen};

/// Keeps so many bytes of RAM from an address on, in one section: it waits until it is alone. `Err` says what it waits for.
pub(crate) fn dump<P: Port>(
    monitor: &mut Monitor,
    port: &mut P,
    at: u64,
    len: u16,
) -> Result<(), Seen>
    requires with { GoesWith monitor.old (P.shows port.old) }
    requires next { monitor.old.script ≡ TheCommand.Dump at len ∷ drop 1 monitor.old.script }
    requires works { monitor.old.rests ≡ false }
    ensures done { OnOk result (HasDumped at len monitor.old monitor.new (P.shows port.old) (P.shows port.new)) }
    ensures sides { IfErr result (λ _. GoesBy 18 IsOfSides (P.shows port.old) (P.shows port.new)) }
    ensures waits { IfErr result (λ seen. HasToWait seen monitor.old monitor.new (P.shows port.old) (P.shows port.new)) }
    ensures with { GoesWith monitor.new (P.shows port.new) }
    ensures goes { GoesBy 600 IsOfMonitor (P.shows port.old) (P.shows port.new) }
{
    match go_alone(monitor, port) {
        Err(seen) => Err(seen),
        Ok(()) => {
            monitor.keep_bytes(port, at, len);
            release(port);
            monitor.claimed = false;
            Ok(())
        }
    }
}
