// Ends of the machine that a guest asks for (RISC-V SBI, "System Reset Extension").
ghost use Rattle.std.specs.Prelude.{◌≡◌};
ghost use Rattle.step_laws.specs.declared.words.Layout.{Layout as TheLayout};
ghost use Rattle.machine_model.specs.Memory.{Memory};
ghost use Rattle.machine_model.specs.Sbi as sbi;
ghost use Rattle.rv64_priv.specs.State.{Arch as TheArch};
ghost use Rattle.hart_calls.specs.Asked.{IsSound, call_asked};

use crate::asking::{Asked, INVALID_PARAM, NOT_SUPPORTED, fails};
use machine_model::Reason;

/// A reset to start again, cold or warm, is one that the SBI names and this machine does not have.
pub(crate) fn reset_call(kind: u64, reason: u64) -> Asked
    ensures says { (l : TheLayout) (a : TheArch) (modes : sbi.Modes) (m : Memory) → call_asked l a modes m result ≡ sbi.reset_call kind reason }
    ensures sound { (l : TheLayout) (a : TheArch) → IsSound l a result }
{
    match (kind, reason) {
        (0, 0) => Asked::Ends(Reason::Pass),
        (0, 1) => Asked::Ends(Reason::Fail(1)),
        (1 | 2, _) => fails(NOT_SUPPORTED),
        _ => fails(INVALID_PARAM),
    }
}
