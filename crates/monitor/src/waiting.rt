// The wait for output.
ghost use Rattle.std.specs.Prelude.{◌≡◌, ◌∷◌, OnOk, IfErr, IfOk, drop, false};
ghost use Rattle.step_laws.specs.Sections.{is_claimant, outside, phase, IsOut};
ghost use Rattle.guest_ram.specs.Ports.{GoesBy, IsActing};
ghost use Rattle.exclusive.specs.Entries.{HasTurnedBack};
ghost use Rattle.monitor_script.specs.declared.scripts.Command.{Command as TheCommand};
ghost use Rattle.monitor.specs.Steps.{GoesWith, HasAwaited, HasCounted, HasToAwait, IsOfMonitor};

use crate::monitor::Monitor;
use exclusive::{enter, leave};
use guest_ram::{Port, Seen};
use monitor_script::Command;
use step_laws::cons_word;

/// Looks inside how many bytes were drawn on the console. `Err` where another claims the section.
#[tactic(auto, using(guest_ram::proofs::MaySteps::touch_kinds, guest_ram::proofs::Moves::acting_adds, guest_ram::proofs::Moves::phase_adds, guest_ram::proofs::Moves::claims_adds))]
fn count_printed<P: Port>(port: &mut P) -> Result<u64, Seen>
    requires acting { IsActing (P.shows port.old) }
    requires out { IsOut (P.shows port.old).own.steps }
    ensures counted { IfOk result (λ found. HasCounted found (P.shows port.old) (P.shows port.new)) }
    ensures refused { IfErr result (λ seen. HasTurnedBack seen (P.shows port.old) (P.shows port.new)) }
    ensures out { phase (P.shows port.new).own.steps ≡ outside }
    ensures claimless { is_claimant (P.shows port.new).own.steps ≡ false }
    ensures acting { IsActing (P.shows port.new) }
    ensures goes { GoesBy 5 IsOfMonitor (P.shows port.old) (P.shows port.new) }
{
    match enter(port) {
        Err(seen) => Err(seen),
        Ok(()) => {
            let found = port.load(cons_word());
            leave(port);
            Ok(found)
        }
    }
}

/// Waits until so many bytes were printed. `Err` says what it waits for.
pub(crate) fn await_bytes<P: Port>(
    monitor: &mut Monitor,
    port: &mut P,
    count: u32,
) -> Result<(), Seen>
    requires with { GoesWith monitor.old (P.shows port.old) }
    requires next { monitor.old.script ≡ TheCommand.Await count ∷ drop 1 monitor.old.script }
    requires works { monitor.old.rests ≡ false }
    ensures done { OnOk result (HasAwaited count monitor.old monitor.new (P.shows port.old) (P.shows port.new)) }
    ensures waits { IfErr result (λ seen. HasToAwait seen count (P.shows port.old) (P.shows port.new)) }
    ensures stays { IfErr result (λ _. monitor.new ≡ monitor.old) }
    ensures with { GoesWith monitor.new (P.shows port.new) }
    ensures goes { GoesBy 5 IsOfMonitor (P.shows port.old) (P.shows port.new) }
{
    match count_printed(port) {
        Err(seen) => Err(seen),
        Ok(found) => {
            if found < u64::from(count) {
                return Err(Seen {
                    word: cons_word(),
                    value: found,
                });
            }
            monitor.go_past(Command::Await(count));
            Ok(())
        }
    }
}
