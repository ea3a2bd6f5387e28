// The console, and the machine's end.
ghost use Rattle.std.specs.Prelude.{◌≡◌, ℕ, OnOk, IfErr};
ghost use Rattle.step_laws.specs.Sections.{MayTouch};
ghost use Rattle.step_laws.specs.Tables.{held_lock};
ghost use Rattle.machine_model.specs.ReasonWords.{IsReasonOf};
ghost use Rattle.guest_ram.specs.Areas.{IsOfEnd, IsOfOutput};
ghost use Rattle.guest_ram.specs.Ports.{layout_of, IsActing, GoesBy, StandsAs};
ghost use Rattle.guest_devices.specs.Output.{HasFoundFull, HasPut, HasSetStop};

use guest_ram::Port;
use machine_model::{Reason, reason_in, reason_word};
use step_laws::{CONSOLE_PLACES, cons_word, console_word, stop_word};

/// Puts a byte on the console: draws the next place and stores the byte there. `Err` has the place that was drawn where the console has no
/// such place, which is 1,048,576 or more.
#[tactic(auto, using(guest_ram::proofs::MaySteps::touch_kinds, guest_ram::proofs::Moves::actor_few))]
pub fn put_byte<P: Port>(port: &mut P, byte: u8) -> Result<(), u64>
    requires acting { IsActing (P.shows port.old) }
    requires touch { MayTouch (layout_of (P.shows port.old)) (P.shows port.old).own.actor (P.shows port.old).own.steps }
    ensures put { OnOk result (HasPut byte (P.shows port.old) (P.shows port.new)) }
    ensures full { IfErr result (λ place. HasFoundFull place (P.shows port.old) (P.shows port.new)) }
    ensures stands { StandsAs (P.shows port.old) (P.shows port.new) }
    ensures held { held_lock (P.shows port.new).own.steps ≡ held_lock (P.shows port.old).own.steps }
    ensures acting { IsActing (P.shows port.new) }
    ensures goes { GoesBy 2 IsOfOutput (P.shows port.old) (P.shows port.new) }
{
    let place = port.fetch_add(cons_word(), 1);
    if place >= u64::from(CONSOLE_PLACES) {
        return Err(place);
    }
    port.store(console_word(place as u32), u64::from(byte) + 256);
    Ok(())
}

/// Ends the machine for a reason where nothing has ended it before. Answers the reason that stands from then on: this one, or the earlier
/// one.
#[tactic(auto, using(guest_ram::proofs::MaySteps::end_kinds, guest_ram::proofs::Moves::actor_few))]
pub fn set_stop<P: Port>(port: &mut P, reason: Reason) -> Reason
    requires acting { IsActing (P.shows port.old) }
    requires reason { IsReasonOf (layout_of (P.shows port.old)) reason }
    ensures set { HasSetStop reason result (P.shows port.old) (P.shows port.new) }
    ensures stands { StandsAs (P.shows port.old) (P.shows port.new) }
    ensures held { held_lock (P.shows port.new).own.steps ≡ held_lock (P.shows port.old).own.steps }
    ensures acting { IsActing (P.shows port.new) }
    ensures goes { GoesBy 1 IsOfEnd (P.shows port.old) (P.shows port.new) }
{
    let found = port.compare_exchange(stop_word(), 0, reason_word(reason));
    if found == 0 {
        return reason;
    }
    match reason_in(found) {
        Some(earlier) => earlier,
        None => reason,
    }
}
