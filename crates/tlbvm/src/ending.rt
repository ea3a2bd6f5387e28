// What is written when a machine has ended.
ghost use Rattle.std.specs.Prelude.{◌≡◌, ◌≤◌, ◌⊎◌, OnOk, OnErr, [], map};
ghost use Rattle.ref_machine.specs.Shows.{resting};
ghost use Rattle.tlbvm.specs.Call.{written_of, Gets, GetsNothing, GetsPart};
ghost use Rattle.tlbvm.specs.Report.{report_from};

use crate::report::report;
use ref_machine::{PlainMachine, Reason};
use vm_io::{Failed, Sink, write_all};

/// Writes the console to `out`, and then the report to `log`.
pub(crate) fn write_end<O: Sink, L: Sink>(
    machine: &PlainMachine,
    reason: Option<Reason>,
    regs: bool,
    out: &mut O,
    log: &mut L,
) -> Result<(), Failed>
    requires { machine.now.shared.layout.harts ≤ 8 }
    ensures ok { OnOk result (Gets (written_of O.taken O.faults out.old out.new) machine.now.shared.console × Gets (written_of L.taken L.faults log.old log.new) (report_from regs [] reason (map resting machine.now.slots))) }
    ensures err { OnErr result ((GetsPart (written_of O.taken O.faults out.old out.new) machine.now.shared.console × GetsNothing (written_of L.taken L.faults log.old log.new)) ⊎ (Gets (written_of O.taken O.faults out.old out.new) machine.now.shared.console × GetsPart (written_of L.taken L.faults log.old log.new) (report_from regs [] reason (map resting machine.now.slots)))) }
{
    if write_all(out, machine.console()).is_err() {
        return Err(Failed);
    }
    let text = report(machine, reason, regs);
    if write_all(log, text.as_str().as_bytes()).is_err() {
        return Err(Failed);
    }
    Ok(())
}

/// Writes a listing or a file to `out`.
pub(crate) fn write_made<O: Sink>(text: &[u8], out: &mut O) -> Result<(), Failed>
    ensures ok { OnOk result (Gets (written_of O.taken O.faults out.old out.new) text.now) }
    ensures err { OnErr result (GetsPart (written_of O.taken O.faults out.old out.new) text.now) }
{
    if write_all(out, text).is_err() {
        return Err(Failed);
    }
    Ok(())
}
