// Requests of others, which a hart serves outside.
ghost use Rattle.std.specs.Prelude.{◌≡◌, ◌+◌, ◌*◌, IfErr, IfOk, false};
ghost use Rattle.step_laws.specs.Output.{has_touched};
ghost use Rattle.guest_ram.specs.Ports.{GoesBy};
ghost use Rattle.flush.specs.Flushed.{full_steps};
ghost use Rattle.hart_turn.specs.Harts.{GoesWith, with_round};
ghost use Rattle.hart_turn.specs.Logs.{WorksOn};
ghost use Rattle.hart_turn.specs.Parts.{HasServedRound, HasStoppedServing, IsOfRequests};

use crate::hart::Hart;
use guest_ram::Port;
use hart_signals::clear_kick;
use request_serving::serve_round;
use tlb_lock::Busy;

/// Takes back what called the hart out, and only then serves one request of each source that has one. Answers whether one was served. `Err` says
/// who holds the hart's lock: what stands then is served in a later turn.
pub(crate) fn serve_requests<P: Port>(hart: &mut Hart, port: &mut P) -> Result<bool, Busy>
    requires with { GoesWith hart.old (P.shows port.old) }
    requires untouched { has_touched (P.shows port.old).own.steps ≡ false }
    ensures served { IfOk result (λ any. HasServedRound any hart.old hart.new (P.shows port.old) (P.shows port.new)) }
    ensures held { IfErr result (λ busy. HasStoppedServing busy.holder hart.old hart.new (P.shows port.old) (P.shows port.new)) }
    ensures still { hart.new ≡ with_round hart.new.book hart.new.served hart.old }
    ensures with { GoesWith hart.new (P.shows port.new) }
    ensures part { WorksOn hart.old hart.new (P.shows port.old) (P.shows port.new) }
    ensures untouched { has_touched (P.shows port.new).own.steps ≡ false }
    ensures goes { GoesBy (1 + 9 * (full_steps hart.old.book.size + 388)) IsOfRequests (P.shows port.old) (P.shows port.new) }
{
    clear_kick(port);
    serve_round(&mut hart.book, port, &mut hart.served)
}
