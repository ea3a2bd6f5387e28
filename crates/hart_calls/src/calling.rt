// A call of a hart.
ghost use Rattle.std.specs.Prelude.{◌≡◌, false};
ghost use Rattle.step_laws.specs.Harts.{closed, is_owing, is_running, opening};
ghost use Rattle.step_laws.specs.Sections.{MayTouch};
ghost use Rattle.step_laws.specs.Tables.{held_lock};
ghost use Rattle.guest_ram.specs.Ports.{layout_of, GoesBy, IsActing, StandsAs};
ghost use Rattle.hart_calls.specs.Asked.{CanDo};
ghost use Rattle.hart_calls.specs.Called.{HasCalled, HasDone, IsOfHartCalls};
ghost use Rattle.hart_calls.specs.Ends.{IfFence, runs_on};
ghost use Rattle.hart_calls.specs.States.{IsRunner};

use crate::asking::{Asked, asked_of};
use crate::outcomes::{SbiEnd, success};
use crate::printing::{print_byte, print_bytes};
use crate::states::{start, state_of, stop};
use guest_devices::{ipi, set_stop};
use guest_ram::Port;
use rv64_exec::IpiOp;
use rv64_priv::Arch;

/// Does what was asked for.
#[tactic(auto, using(crate::proofs::Going::guest_reason))]
fn perform<P: Port>(port: &mut P, hart: u8, asked: Asked, section: bool) -> SbiEnd
    requires runner { IsRunner (P.shows port.old) }
    requires hart { hart ≡ (P.shows port.old).own.actor }
    requires touch { MayTouch (layout_of (P.shows port.old)) (P.shows port.old).own.actor (P.shows port.old).own.steps }
    requires sound { CanDo (layout_of (P.shows port.old)) asked }
    ensures { HasDone (P.shows port.old) (P.shows port.new) section asked result }
{
    match asked {
        Asked::Gives { error, value } => SbiEnd::Pair { error, value },
        Asked::GivesOne { error } => SbiEnd::Single(error.cast_unsigned()),
        Asked::Sends { mask } => {
            ipi(port, IpiOp::Set, mask);
            success(0)
        }
        Asked::Fences { harts, span } => {
            if harts == 0 {
                success(0)
            } else {
                SbiEnd::Fence { harts, span }
            }
        }
        Asked::Starts { target, at, opaque } => start(port, hart, target, at, opaque),
        Asked::TellsState { target } => success(state_of(port, target)),
        Asked::Leaves => stop(port, hart),
        Asked::Ends(reason) => {
            set_stop(port, reason);
            SbiEnd::Over(reason)
        }
        Asked::Prints { from, count } => print_bytes(port, from, count, section),
        Asked::PrintsByte(byte) => print_byte(port, byte, success(0)),
        Asked::PrintsOne(byte) => print_byte(port, byte, SbiEnd::Single(0)),
    }
}

/// Makes the call that a hart's registers name: a7 has the extension, a6 the function, a0 to a5 the arguments. `section` says whether the hart
/// is in its section; bytes of RAM are printed there alone.
pub fn sbi<P: Port>(port: &mut P, hart: u8, arch: &Arch, section: bool) -> SbiEnd
    requires runner { IsRunner (P.shows port.old) }
    requires hart { hart ≡ (P.shows port.old).own.actor }
    requires touch { MayTouch (layout_of (P.shows port.old)) (P.shows port.old).own.actor (P.shows port.old).own.steps }
    ensures called { HasCalled section arch.now result (P.shows port.old) (P.shows port.new) }
    ensures fence { IfFence result (layout_of (P.shows port.old)).harts }
    ensures runs { is_running (P.shows port.new).own.actor (P.shows port.new).own.runs (P.shows port.new).own.steps ≡ runs_on result }
    ensures paid { is_owing (P.shows port.new).own.actor (P.shows port.new).own.steps ≡ false }
    ensures free { opening (P.shows port.new).own.steps ≡ closed }
    ensures stands { StandsAs (P.shows port.old) (P.shows port.new) }
    ensures held { held_lock (P.shows port.new).own.steps ≡ held_lock (P.shows port.old).own.steps }
    ensures acting { IsActing (P.shows port.new) }
    ensures goes { GoesBy 769 IsOfHartCalls (P.shows port.old) (P.shows port.new) }
{
    perform(port, hart, asked_of(port.layout(), arch), section)
}
