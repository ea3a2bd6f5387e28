// Instructions that a hart has ended, and its limit of them.
ghost use Rattle.std.specs.Prelude.{◌≡◌, ◌<◌};
ghost use Rattle.guest_ram.specs.Areas.{IsOfEnd};
ghost use Rattle.guest_ram.specs.Ports.{GoesBy};
ghost use Rattle.turn_pieces.specs.Grows.{Part};
ghost use Rattle.hart_turn.specs.Harts.{GoesWith, counted};
ghost use Rattle.hart_turn.specs.Logs.{AtCount, AtEnd};
ghost use Rattle.hart_turn.specs.Parts.{HasCounted};

use crate::hart::Hart;
use guest_devices::set_stop;
use guest_ram::Port;
use machine_model::Reason;

/// Counts an instruction that the hart has ended. With the last one of its limit the machine is to end, in the same turn.
pub(crate) fn count_up<P: Port>(hart: &mut Hart, port: &mut P)
    requires with { GoesWith hart.old (P.shows port.old) }
    requires below { hart.old.count < hart.old.limit }
    ensures counted { HasCounted hart.old hart.new (P.shows port.old) (P.shows port.new) }
    ensures still { hart.new ≡ counted hart.old }
    ensures with { GoesWith hart.new (P.shows port.new) }
    ensures part { Part (AtCount (counted hart.old) (P.shows port.old)) (AtEnd hart.new (P.shows port.new)) }
    ensures goes { GoesBy 1 IsOfEnd (P.shows port.old) (P.shows port.new) }
{
    hart.count += 1;
    if hart.count != hart.limit {
        return;
    }
    set_stop(port, Reason::Limit(hart.number));
}
