// The monitor's section, in which it is alone.
ghost use Rattle.std.specs.Prelude.{◌≡◌, OnOk, IfErr, false, true};
ghost use Rattle.step_laws.specs.Sections.{IsInSection};
ghost use Rattle.guest_ram.specs.Ports.{layout_of, GoesBy};
ghost use Rattle.exclusive.specs.Claims.{HasClaimed, HasFoundAllOut, HasFoundClaim, HasFoundInside};
ghost use Rattle.signal_pieces.specs.Signalling.{IsOfSides};
ghost use Rattle.monitor.specs.Monitors.{is_dumping, with_claim};
ghost use Rattle.monitor.specs.Steps.{GoesWith, HasGoneAlone, HasToWait};

use crate::monitor::Monitor;
use exclusive::{all_out, claim};
use guest_ram::{Port, Seen};

/// Claims the section. `Err` where another has claimed it.
fn go_claim<P: Port>(monitor: &mut Monitor, port: &mut P) -> Result<(), Seen>
    requires with { GoesWith monitor.old (P.shows port.old) }
    requires dumps { is_dumping monitor.old.script ≡ true }
    requires works { monitor.old.rests ≡ false }
    requires unclaimed { monitor.old.claimed ≡ false }
    ensures claimed { OnOk result (HasClaimed (P.shows port.old) (P.shows port.new)) }
    ensures made { OnOk result (monitor.new ≡ with_claim true monitor.old) }
    ensures refused { IfErr result (λ seen. HasFoundClaim seen (P.shows port.old) (P.shows port.new)) }
    ensures stays { IfErr result (λ _. monitor.new ≡ monitor.old) }
    ensures with { GoesWith monitor.new (P.shows port.new) }
    ensures goes { GoesBy 9 IsOfSides (P.shows port.old) (P.shows port.new) }
{
    match claim(port) {
        Err(seen) => Err(seen),
        Ok(()) => {
            monitor.claimed = true;
            Ok(())
        }
    }
}

/// Looks whether all others are outside, for a monitor that has claimed the section: then it is in it. `Err` says who isn't.
fn look_around<P: Port>(monitor: &Monitor, port: &mut P) -> Result<(), Seen>
    requires with { GoesWith monitor.now (P.shows port.old) }
    requires works { monitor.now.rests ≡ false }
    requires claimed { monitor.now.claimed ≡ true }
    ensures alone { OnOk result (HasFoundAllOut (P.shows port.old) (P.shows port.new)) }
    ensures section { OnOk result (IsInSection (layout_of (P.shows port.new)) (P.shows port.new).own.actor (P.shows port.new).own.steps) }
    ensures waits { IfErr result (λ seen. HasFoundInside seen (P.shows port.old) (P.shows port.new)) }
    ensures with { GoesWith monitor.now (P.shows port.new) }
    ensures goes { GoesBy 9 IsOfSides (P.shows port.old) (P.shows port.new) }
{
    all_out(port)
}

/// Lets the monitor go on to the section: it claims it where it hasn't yet, and looks whether all others are outside. `Err` where another has
/// claimed it, or isn't outside: what was claimed stays claimed.
pub(crate) fn go_alone<P: Port>(monitor: &mut Monitor, port: &mut P) -> Result<(), Seen>
    requires with { GoesWith monitor.old (P.shows port.old) }
    requires dumps { is_dumping monitor.old.script ≡ true }
    requires works { monitor.old.rests ≡ false }
    ensures alone { OnOk result (HasGoneAlone monitor.old (P.shows port.old) (P.shows port.new)) }
    ensures made { OnOk result (monitor.new ≡ with_claim true monitor.old) }
    ensures section { OnOk result (IsInSection (layout_of (P.shows port.new)) (P.shows port.new).own.actor (P.shows port.new).own.steps) }
    ensures waits { IfErr result (λ seen. HasToWait seen monitor.old monitor.new (P.shows port.old) (P.shows port.new)) }
    ensures with { GoesWith monitor.new (P.shows port.new) }
    ensures goes { GoesBy 18 IsOfSides (P.shows port.old) (P.shows port.new) }
{
    if monitor.claimed {
        return look_around(monitor, port);
    }
    match go_claim(monitor, port) {
        Err(seen) => Err(seen),
        Ok(()) => look_around(monitor, port),
    }
}
