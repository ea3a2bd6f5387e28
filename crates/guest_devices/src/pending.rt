// Software interrupts that are pending.
ghost use Rattle.std.specs.Prelude.{◌≡◌, ℕ};
ghost use Rattle.step_laws.specs.Sections.{MayTouch};
ghost use Rattle.step_laws.specs.Steps.{new_of};
ghost use Rattle.step_laws.specs.Tables.{held_lock};
ghost use Rattle.guest_ram.specs.Areas.{IsOfCalls};
ghost use Rattle.guest_ram.specs.Ports.{layout_of, IsActing, GoesBy, StandsAs};
ghost use Rattle.guest_devices.specs.Pending.{HasChangedPending, pending_after, pending_arg, pending_op};

use guest_ram::Port;
use rv64_exec::IpiOp;
use step_laws::ipi_word;

/// Reads the harts' pending software interrupts, a bit for each hart, or sets those of a mask, or clears them. Answers the bits as they were
/// before (RISC-V Privileged Architecture, "Supervisor Interrupt Registers": SSIP of sip).
#[tactic(auto, using(guest_ram::proofs::MaySteps::touch_kinds))]
pub fn ipi<P: Port>(port: &mut P, op: IpiOp, mask: u64) -> u64
    requires acting { IsActing (P.shows port.old) }
    requires touch { MayTouch (layout_of (P.shows port.old)) (P.shows port.old).own.actor (P.shows port.old).own.steps }
    ensures step { HasChangedPending op mask result (P.shows port.old) (P.shows port.new) }
    ensures leaves { new_of (pending_op op) result (pending_arg op mask) ≡ pending_after op mask result }
    ensures stands { StandsAs (P.shows port.old) (P.shows port.new) }
    ensures held { held_lock (P.shows port.new).own.steps ≡ held_lock (P.shows port.old).own.steps }
    ensures acting { IsActing (P.shows port.new) }
    ensures goes { GoesBy 1 IsOfCalls (P.shows port.old) (P.shows port.new) }
{
    let word = ipi_word();
    match op {
        IpiOp::Read => port.load(word),
        IpiOp::Set => port.fetch_or(word, mask),
        IpiOp::Clear => port.fetch_and(word, !mask),
    }
}
