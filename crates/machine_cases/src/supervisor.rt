// A guest in supervisor mode: page tables, traps, interrupts, user mode. What is wanted stands in the RISC-V Privileged
// Architecture, "Supervisor-Level ISA".
ghost use Rattle.std.specs.Prelude.{◌≡◌, ◌≤◌, ◌<◌, IfOk};

mod paging;
mod traps;

use case_guests::with_map;
use elf_load::parse;
use ref_machine::{PlainMachine, Reason};
use std::alloc::Global;
use std::process::Abort;
use std::test::Fail;
use step_laws::Layout;

const PAGES: u32 = 1024;

/// A machine of one hart, as `machine_of`.
fn machine(alloc: Global, code: &[u32]) -> Result<PlainMachine, Fail>
    ensures { IfOk result (λ machine. machine.shared.layout.harts ≡ 1) }
{
    machine_of(alloc, 1, code)
}

/// A machine with this code at RAM's begin, the tables and the data.
pub(crate) fn machine_of(alloc: Global, harts: u8, code: &[u32]) -> Result<PlainMachine, Fail>
    requires some { 1 ≤ harts }
    requires most { harts ≤ 8 }
    ensures { IfOk result (λ machine. machine.shared.layout.harts ≡ harts) }
{
    let file = with_map(alloc, code, &[])?;
    let image = parse(alloc, &file, PAGES)?;
    let layout = Layout {
        harts,
        pages: PAGES,
    };
    Ok(PlainMachine::new(alloc, &image, &file, layout, 50_000_000)?)
}

/// Where the guests have their handler that have one.
const HANDLER: u64 = 0x8000_0040;

/// What hart 0 has come to: pc, the trap's CSRs, how many instructions it counted, and a register.
#[derive(Clone, Copy)]
struct Want {
    pc: u64,
    scause: u64,
    sepc: u64,
    stval: u64,
    count: u64,
    x10: u64,
}

/// A hart that has come so far without a trap.
fn at(pc: u64, count: u64, x10: u64) -> Want {
    Want {
        pc,
        scause: 0,
        sepc: 0,
        stval: 0,
        count,
        x10,
    }
}

/// A hart that has just trapped, to a handler at 0.
fn trap(scause: u64, sepc: u64, stval: u64, count: u64) -> Want {
    Want {
        pc: 0,
        scause,
        sepc,
        stval,
        count,
        x10: 0,
    }
}

/// The same, to the guest's handler.
fn caught(scause: u64, sepc: u64, stval: u64, count: u64) -> Want {
    Want {
        pc: HANDLER,
        ..trap(scause, sepc, stval, count)
    }
}

fn compare(rt: &impl Abort, machine: &PlainMachine, want: Want, what: &str)
    requires { 0 < machine.now.shared.layout.harts }
{
    let arch = machine.arch(0);
    assert_eq!(rt; arch.pc, want.pc, "pc: {what}");
    let trap = (arch.scause, arch.sepc, arch.stval);
    assert_eq!(rt; trap, (want.scause, want.sepc, want.stval), "trap: {what}");
    assert_eq!(rt; machine.count(0), want.count, "count: {what}");
    assert_eq!(rt; arch.x[10], want.x10, "x10: {what}");
}

/// Takes so many turns, and answers what the last of them does.
fn turn_times(machine: &mut PlainMachine, turns: u64) -> Option<Reason>
    requires { 0 < machine.old.shared.layout.harts }
    ensures { machine.new.shared.layout.harts ≡ machine.old.shared.layout.harts }
{
    let mut answer = None;
    for _ in 0..turns {
        answer = machine.turn(0);
    }
    answer
}

/// A guest, how many turns it is given, and what it comes to.
type Case<'a> = (&'a str, &'a [u32], u64, Want);

fn all_come_to(rt: &impl Abort, alloc: Global, cases: &[Case<'_>]) -> Result<(), Fail> {
    for (what, code, turns, want) in cases {
        let mut machine = machine(alloc, code)?;
        assert_eq!(rt; turn_times(&mut machine, *turns), None, "{what}");
        compare(rt, &machine, *want, what);
    }
    Ok(())
}
