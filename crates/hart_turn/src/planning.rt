// What the instruction needs that a hart has fetched.
ghost use Rattle.std.specs.Prelude.{◌≡◌};
ghost use Rattle.rv64_decode.specs.Encoding.{IsInRange};
ghost use Rattle.rv64_exec.specs.Plan.{need_of};
ghost use Rattle.rv64_exec.specs.Widths.{IsWellFormedNeed};
ghost use Rattle.need_serving.specs.Ends.{IsPageOf};
ghost use Rattle.need_pieces.specs.Serving.{IsOfRegister};

use rv64_decode::Instr;
use rv64_exec::{Arch, Need, plan, reg};

/// What an instruction needs, with numbers as registers have them.
pub(crate) fn plan_of(arch: &Arch, instr: &Instr) -> Need
    requires { IsInRange instr.now }
    ensures need { result ≡ need_of arch.now instr.now }
    ensures form { IsWellFormedNeed result }
    ensures register { IsOfRegister result }
    ensures page { IsPageOf result }
{
    match *instr {
        // its operand's range gives the page's
        Instr::Sfencevma { rs1, .. } => {
            let _operand = reg(arch, rs1);
            plan(arch, instr)
        }
        _ => plan(arch, instr),
    }
}
