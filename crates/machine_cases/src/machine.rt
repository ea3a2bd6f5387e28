// The machine itself: registers and counts, turns of a hart that is stopped, the limit, and turns behind the end.
ghost use Rattle.std.specs.Prelude.{◌≡◌, ◌≤◌, ◌<◌, IfOk};

use case_guests::{HELLO, RAM, elf};
use elf_load::parse;
use ref_machine::{PlainMachine, Reason};
use std::alloc::Global;
use std::process::Abort;
use std::test::Fail;
use step_laws::Layout;

const PAGES: u32 = 1024;

/// A machine of so many harts with the hello guest.
fn hello(alloc: Global, harts: u8, limit: u64) -> Result<PlainMachine, Fail>
    requires some { 1 ≤ harts }
    requires most { harts ≤ 8 }
    requires limit { 0 < limit }
    ensures { IfOk result (λ machine. machine.shared.layout.harts ≡ harts) }
{
    let file = elf(alloc, RAM, &HELLO)?;
    let image = parse(alloc, &file, PAGES)?;
    let layout = Layout {
        harts,
        pages: PAGES,
    };
    Ok(PlainMachine::new(alloc, &image, &file, layout, limit)?)
}

/// What hart 0 and the console of a machine hold.
#[derive(Clone, Copy)]
struct Want<'a> {
    count: u64,
    pc: u64,
    x5: u64,
    x6: u64,
    console: &'a [u8],
}

fn compare(rt: &impl Abort, machine: &PlainMachine, want: Want<'_>)
    requires { 0 < machine.now.shared.layout.harts }
{
    let arch = machine.arch(0);
    assert_eq!(rt; machine.count(0), want.count);
    assert_eq!(rt; arch.pc, want.pc);
    assert_eq!(rt; arch.x[0], 0);
    assert_eq!(rt; arch.x[5], want.x5);
    assert_eq!(rt; arch.x[6], want.x6);
    assert_eq!(rt; machine.console(), want.console);
}

const BEGUN: Want<'static> = Want {
    count: 0,
    pc: 0x8000_0000,
    x5: 0,
    x6: 0,
    console: b"",
};

const PASSED: Want<'static> = Want {
    count: 11,
    pc: 0x8000_002c,
    x5: 0x10_0000,
    x6: 0x5555,
    console: b"OK\n",
};

const LIMITED: Want<'static> = Want {
    count: 5,
    pc: 0x8000_0014,
    x5: 0x1000_0000,
    x6: 0x4b,
    console: b"OK",
};

/// Takes turns of hart 0 until one gives a reason, at most so many; answers how many it took, and the reason.
fn run(machine: &mut PlainMachine, most: u64) -> (u64, Option<Reason>)
    requires { 0 < machine.old.shared.layout.harts }
    ensures { machine.new.shared.layout.harts ≡ machine.old.shared.layout.harts }
{
    for taken in 0..most {
        if let Some(reason) = machine.turn(0) {
            return (taken + 1, Some(reason));
        }
    }
    (most, None)
}

/// A machine of one hart ends behind so many turns, and a turn more changes nothing.
fn ends(
    rt: &impl Abort,
    alloc: Global,
    limit: u64,
    turns: u64,
    reason: Reason,
    want: Want<'_>,
) -> Result<(), Fail>
    requires { 0 < limit }
{
    let mut machine = hello(alloc, 1, limit)?;
    assert_eq!(rt; run(&mut machine, 100), (turns, Some(reason)));
    assert_eq!(rt; machine.turn(0), Some(reason));
    compare(rt, &machine, want);
    Ok(())
}

#[test]
fn machines_keep_their_end(rt: HostRuntime) -> Result<(), Fail> {
    let alloc = rt.alloc();
    ends(&rt, alloc, 50_000_000, 11, Reason::Pass, PASSED)?;
    ends(&rt, alloc, 5, 5, Reason::Limit(0), LIMITED)?;
    // The guest's own end comes before the limit.
    ends(&rt, alloc, 11, 11, Reason::Pass, PASSED)
}

#[test]
fn other_harts_stand_still(rt: HostRuntime) -> Result<(), Fail> {
    let mut machine = hello(rt.alloc(), 2, 50_000_000)?;
    assert_eq!(rt; machine.turn(1), None);
    compare(&rt, &machine, BEGUN);
    assert_eq!(rt; machine.count(1), 0);
    assert_eq!(rt; machine.arch(1).pc, 0);
    assert_eq!(rt; run(&mut machine, 100), (11, Some(Reason::Pass)));
    assert_eq!(rt; machine.turn(0), Some(Reason::Pass));
    assert_eq!(rt; machine.turn(1), Some(Reason::Pass));
    compare(&rt, &machine, PASSED);
    assert_eq!(rt; machine.count(1), 0);
    Ok(())
}
