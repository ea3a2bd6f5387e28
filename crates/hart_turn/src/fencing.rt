// A remote fence in progress (RISC-V SBI, "RFENCE Extension"): it goes on in each turn of its hart, until all that it names is done.
ghost use Rattle.std.specs.Prelude.{◌≡◌, ◌+◌, IfErr, OnOk, true};
ghost use Rattle.guest_ram.specs.Ports.{layout_of, GoesBy, Shown};
ghost use Rattle.flush.specs.Flushed.{full_steps};
ghost use Rattle.hart_calls.specs.Asked.{IsAsked};
ghost use Rattle.hart_calls.specs.declared.asking.Asked.{Asked};
ghost use Rattle.sbi_calls.specs.Fences.{IsOfFence};
ghost use Rattle.turn_pieces.specs.Grows.{Part};
ghost use Rattle.hart_turn.specs.declared.hart.Call.{Call as TheCall};
ghost use Rattle.hart_turn.specs.Fences.{BeginsCall, HasFenced, HasFenceToWait, new_fence, succeeded, with_fence};
ghost use Rattle.hart_turn.specs.Harts.{GoesWith, counted};
ghost use Rattle.hart_turn.specs.Logs.{AtCount, AtWork, WorksOn};

use crate::ends::Wait4;
use crate::hart::{Call, Hart};
use guest_ram::Port;
use hart_calls::Span;
use rv64_exec::{Arch, retire};
use sbi_calls::{Fence, Fencing, fence_turn};

/// Puts a fence in progress of which nothing is posted, answered or flushed yet, for a hart that runs and whose registers ask for it.
pub(crate) fn begin_fence(hart: &mut Hart, harts: u64, span: Span)
    requires runs { hart.old.runs ≡ true }
    ensures begun { hart.new ≡ with_fence harts span new_fence hart.old }
    ensures with { (p : Shown) → IsAsked (layout_of p) hart.old.arch (Asked.Fences harts span) → GoesWith hart.old p → GoesWith hart.new p }
    ensures part { (p : Shown) → BeginsCall hart.old hart.new p }
{
    hart.call = Call::Fence {
        harts,
        span,
        fence: Fence {
            posted: [0; 16],
            acked: [0; 16],
        },
    };
}

/// Ends an ECALL that has succeeded: 0 in a0 and a1.
fn succeed(arch: &mut Arch)
    ensures { arch.new ≡ succeeded arch.old }
{
    arch.x[10] = 0;
    retire(11, 0, arch);
}

/// Lets a hart go on with its fence in progress, which has come so far. Once all that it names is done the ECALL has succeeded, and is to be counted.
/// `Err` says what it waits for: an answer of a hart that it names, or the own lock. Then the next turn goes on there.
pub(crate) fn go_on_with_fence<P: Port>(
    hart: &mut Hart,
    port: &mut P,
    harts: u64,
    span: Span,
    fence: Fence,
) -> Result<(), Wait4>
    requires with { GoesWith hart.old (P.shows port.old) }
    requires call { hart.old.call ≡ TheCall.Fence harts span fence }
    ensures fenced { OnOk result (HasFenced harts span fence hart.old hart.new (P.shows port.old) (P.shows port.new)) }
    ensures waits { IfErr result (λ wait. HasFenceToWait harts span fence hart.old hart.new (P.shows port.old) (P.shows port.new) wait) }
    ensures stays { hart.new.inside ≡ hart.old.inside }
    ensures below { (hart.new.count ≡ hart.old.count) × (hart.new.limit ≡ hart.old.limit) }
    ensures with { GoesWith hart.new (P.shows port.new) }
    ensures part { OnOk result (Part (AtWork hart.old (P.shows port.old)) (AtCount (counted hart.new) (P.shows port.new))) }
    ensures works { IfErr result (λ wait. WorksOn hart.old hart.new (P.shows port.old) (P.shows port.new)) }
    ensures goes { GoesBy (full_steps hart.old.book.size + 3369) IsOfFence (P.shows port.old) (P.shows port.new) }
{
    let mut now = fence;
    match fence_turn(&mut hart.book, port, &mut hart.sent, harts, &span, &mut now) {
        Fencing::Done => {
            succeed(&mut hart.arch);
            hart.call = Call::Nothing;
            Ok(())
        }
        Fencing::Waiting(seen) => {
            hart.call = Call::Fence {
                harts,
                span,
                fence: now,
            };
            Err(Wait4::Ack(seen))
        }
        Fencing::Busy(busy) => {
            hart.call = Call::Fence {
                harts,
                span,
                fence: now,
            };
            Err(Wait4::Lock(busy))
        }
    }
}
