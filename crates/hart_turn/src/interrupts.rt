// The supervisor's software interrupt (RISC-V Privileged Architecture, "Supervisor Interrupt Registers").
ghost use Rattle.std.specs.Prelude.{◌≡◌, ◌<◌, true};
ghost use Rattle.step_laws.specs.Sections.{MayTouch};
ghost use Rattle.machine_model.specs.Lawful.{is_pending};
ghost use Rattle.guest_ram.specs.Areas.{IsOfCalls};
ghost use Rattle.guest_ram.specs.Ports.{layout_of, GoesBy};
ghost use Rattle.hart_turn.specs.declared.hart.Call.{Call as TheCall};
ghost use Rattle.hart_turn.specs.Harts.{GoesWith};
ghost use Rattle.hart_turn.specs.Logs.{LooksOn};
ghost use Rattle.hart_turn.specs.Parts.{HasLooked, after_look};

use crate::hart::Hart;
use guest_devices::ipi;
use guest_ram::Port;
use rv64_exec::{Arch, IpiOp};
use rv64_priv::{is_set, takes_interrupts, trap};

/// The cause of the supervisor's software interrupt.
const SOFTWARE_INTERRUPT: u64 = (1 << 63) + 1;

/// A hart with these registers takes the interrupt where these harts, a bit for each, have one pending.
fn is_taken(arch: &Arch, hart: u8, pending: u64) -> bool
    requires { hart < 64 }
    ensures { result ≡ is_pending arch.now hart pending }
{
    takes_interrupts(arch) && is_set(pending, u32::from(hart))
}

/// Looks whether an interrupt is pending, for a hart that runs and is about to fetch, inside or in its section. Where it takes one it traps;
/// the answer says so.
pub(crate) fn take_interrupt<P: Port>(hart: &mut Hart, port: &mut P) -> bool
    requires with { GoesWith hart.old (P.shows port.old) }
    requires runs { hart.old.runs ≡ true }
    requires free { hart.old.call ≡ TheCall.Nothing }
    requires touch { MayTouch (layout_of (P.shows port.old)) (P.shows port.old).own.actor (P.shows port.old).own.steps }
    ensures looked { HasLooked result hart.old (P.shows port.old) (P.shows port.new) }
    ensures hart { hart.new ≡ after_look result hart.old }
    ensures with { GoesWith hart.new (P.shows port.new) }
    ensures touch { MayTouch (layout_of (P.shows port.new)) (P.shows port.new).own.actor (P.shows port.new).own.steps }
    ensures part { LooksOn result hart.old hart.new (P.shows port.old) (P.shows port.new) }
    ensures goes { GoesBy 1 IsOfCalls (P.shows port.old) (P.shows port.new) }
{
    let pending = ipi(port, IpiOp::Read, 0);
    if !is_taken(&hart.arch, hart.number, pending) {
        return false;
    }
    trap(&mut hart.arch, SOFTWARE_INTERRUPT, 0);
    true
}
