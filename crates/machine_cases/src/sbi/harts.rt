// Harts that start, stop and start again, what they count, and the ends that follow from it (SBI, "Hart State Management
// Extension").
ghost use Rattle.std.specs.Prelude.{◌≡◌, ◌<◌};

use super::{FAR, FIRST_CALL, csrs_of, go_on, play, plays, turn_times};
use crate::supervisor::machine_of;
use ref_machine::{PlainMachine, Reason};
use sbi_rows::Want::Gives;
use sbi_rows::{
    BEGINS, BOTH_RUN, FIRST_STARTED_AGAIN, FIRST_STOPS_FIRST, LAST_STOPS_AT_LIMIT, LONE_STOP,
    NEVER_BEGUN, PENDING_AT_LIMIT, PENDING_AT_STOP, RUNNING_AT_LIMIT, SECOND_STOPS,
    SECOND_STOPS_FIRST, START, STARTED, STATES, STOPS_IN_NO_ORDER,
};
use std::process::Abort;
use std::test::Fail;

/// How far a hart has come.
fn compare(rt: &impl Abort, machine: &PlainMachine, hart: u8, pc: u64, count: u64)
    requires { hart < machine.now.shared.layout.harts }
{
    assert_eq!(rt; machine.arch(hart).pc, pc, "pc of hart {hart}");
    assert_eq!(rt; machine.count(hart), count, "count of hart {hart}");
}

#[test]
fn harts_go_through_their_states(rt: HostRuntime) -> Result<(), Fail> {
    plays(&rt, rt.alloc(), 2, FAR, &STATES)
}

// Hart 0 is as any other: another starts it again.
#[test]
fn the_first_hart_stops_and_starts(rt: HostRuntime) -> Result<(), Fail> {
    let machine = play(&rt, rt.alloc(), 2, FAR, &FIRST_STARTED_AGAIN)?;
    // 11 to its first call, 12 to each of the others, but 10 to the first of its second life
    compare(&rt, &machine, 0, 0x8000_002c, 11 + 12 + 10 + 12 + 12);
    compare(&rt, &machine, 1, 0x8000_002c, 10 + 12 + 12 + 12);
    Ok(())
}

#[test]
fn a_lone_hart_ends_the_machine(rt: HostRuntime) -> Result<(), Fail> {
    let mut machine = play(&rt, rt.alloc(), 1, FAR, &LONE_STOP)?;
    assert_eq!(rt; turn_times(&mut machine, 0, 3), Some(Reason::AllStopped));
    compare(&rt, &machine, 0, 0x8000_002c, FIRST_CALL);
    // harts that were never started are stopped
    plays(&rt, rt.alloc(), 8, FAR, &LONE_STOP)
}

#[test]
fn the_last_to_stop_ends_the_machine(rt: HostRuntime) -> Result<(), Fail> {
    plays(&rt, rt.alloc(), 2, FAR, &FIRST_STOPS_FIRST)?;
    plays(&rt, rt.alloc(), 2, FAR, &SECOND_STOPS_FIRST)
}

#[test]
fn harts_stop_in_no_order(rt: HostRuntime) -> Result<(), Fail> {
    plays(&rt, rt.alloc(), 4, FAR, &STOPS_IN_NO_ORDER)
}

#[test]
fn a_pending_hart_keeps_the_machine(rt: HostRuntime) -> Result<(), Fail> {
    let mut machine = play(&rt, rt.alloc(), 2, FAR, &PENDING_AT_STOP)?;
    let answers = [machine.turn(0), machine.turn(1)];
    assert_eq!(rt; answers, [Some(Reason::AllStopped); 2]);
    compare(&rt, &machine, 0, 0x8000_002c, 23);
    compare(&rt, &machine, 1, 0x8000_002c, 22);
    Ok(())
}

#[test]
fn harts_that_never_began_stand_still(rt: HostRuntime) -> Result<(), Fail> {
    let mut machine = play(&rt, rt.alloc(), 2, FAR, &NEVER_BEGUN)?;
    go_on(&rt, &mut machine, 1, 5);
    compare(&rt, &machine, 1, 0, 0);
    compare(&rt, &machine, 0, 0x8000_002c, FIRST_CALL);
    Ok(())
}

#[test]
fn stopped_harts_stand_still(rt: HostRuntime) -> Result<(), Fail> {
    let mut machine = play(&rt, rt.alloc(), 2, FAR, &SECOND_STOPS)?;
    let x = machine.arch(1).x;
    go_on(&rt, &mut machine, 1, 5);
    compare(&rt, &machine, 1, 0x8000_002c, 22);
    assert_eq!(rt; machine.arch(1).x, x);
    go_on(&rt, &mut machine, 0, 5);
    compare(&rt, &machine, 0, 0x8000_0010, 16);
    Ok(())
}

// A start is pending until the hart's next turn, which does nothing but begin.
#[test]
fn harts_begin_with_two_registers(rt: HostRuntime) -> Result<(), Fail> {
    for (hart, address, opaque) in BEGINS {
        let rows = [(0, START, [u64::from(hart), address, opaque, 0], Gives(0))];
        let mut machine = play(&rt, rt.alloc(), 4, FAR, &rows)?;
        assert!(rt; hart < 4, "a hart that there is");
        assert_eq!(rt; machine.count(hart), 0);
        go_on(&rt, &mut machine, hart, 1);
        compare_begin(&rt, &machine, hart, opaque);
        compare(&rt, &machine, hart, address, 0);
        compare(&rt, &machine, 0, 0x8000_002c, FIRST_CALL);
    }
    Ok(())
}

/// Hart 0 starts hart 1 and sends it an interrupt, again and again. Hart 1 translates, enables the interrupt, fills its
/// CSRs, and stops.
const TWICE: [u32; 33] = [
    0x0000_0597, // auipc x11, 0
    0x0345_8593, // addi x11, x11, 0x34
    0x0010_0513, // addi x10, x0, 1
    0x0776_0613, // addi x12, x12, 0x77
    0x0048_58b7, // lui x17, 0x485
    0x34d8_8893, // addi x17, x17, 0x34d
    0x0000_0073, // ecall
    0x0073_58b7, // lui x17, 0x735
    0x0498_8893, // addi x17, x17, 0x49
    0x0020_0513, // addi x10, x0, 2
    0x0000_0593, // addi x11, x0, 0
    0x0000_0073, // ecall
    0xfd1f_f06f, // jal x0, pc - 48
    0x0010_0293, // addi x5, x0, 1
    0x03f2_9293, // slli x5, x5, 63
    0x0008_0337, // lui x6, 0x80
    0x0103_0313, // addi x6, x6, 0x10
    0x0062_e2b3, // or x5, x5, x6
    0x1802_9073, // csrrw x0, satp, x5
    0x1402_9073, // csrrw x0, sscratch, x5
    0x1053_1073, // csrrw x0, stvec, x6
    0x1413_1073, // csrrw x0, sepc, x6
    0x1425_1073, // csrrw x0, scause, x10
    0x1435_9073, // csrrw x0, stval, x11
    0x1041_5073, // csrrwi x0, sie, 2
    0x0004_03b7, // lui x7, 0x40
    0x1003_a073, // csrrs x0, sstatus, x7
    0x1001_6073, // csrrsi x0, sstatus, 2
    0xfff0_0f93, // addi x31, x0, -1
    0x0048_58b7, // lui x17, 0x485
    0x34d8_8893, // addi x17, x17, 0x34d
    0x0010_0813, // addi x16, x0, 1
    0x0000_0073, // ecall
];

const SV39: u64 = 0x8000_0000_0008_0010;

/// sstatus with SUM and SIE.
const ENABLED: u64 = 0x4_0002;

/// The registers that hart 1 has at its stop.
fn first_life() -> [u64; 32] {
    let mut x = [0; 32];
    x[5] = SV39;
    x[6] = 0x8_0010;
    x[7] = 0x4_0000;
    x[10] = 1;
    x[11] = 0x77;
    x[16] = 1;
    x[17] = 0x48_534d;
    x[31] = 0xffff_ffff_ffff_ffff;
    x
}

/// Hart 1 is as its first life left it.
fn compare_first_life(rt: &impl Abort, machine: &PlainMachine)
    requires { 1 < machine.now.shared.layout.harts }
{
    let csrs = [ENABLED, 2, 0x8_0010, SV39, 0x8_0010, 1, 0x77, SV39];
    assert_eq!(rt; machine.arch(1).x, first_life());
    assert_eq!(rt; csrs_of(machine, 1), csrs);
    compare(rt, machine, 1, 0x8000_0084, 20);
}

/// A hart has what it begins with: its number, and the other register that its start gave.
fn compare_begin(rt: &impl Abort, machine: &PlainMachine, hart: u8, opaque: u64)
    requires { hart < machine.now.shared.layout.harts }
{
    let mut x = [0; 32];
    x[10] = u64::from(hart);
    x[11] = opaque;
    assert_eq!(rt; machine.arch(hart).x, x);
    assert_eq!(rt; csrs_of(machine, hart), [0; 8]);
    assert!(rt; !machine.arch(hart).user);
}

#[test]
fn a_second_life_has_nothing_of_the_first(rt: HostRuntime) -> Result<(), Fail> {
    let mut machine = machine_of(rt.alloc(), 2, &TWICE)?;
    go_on(&rt, &mut machine, 0, 7);
    // it begins, and takes 20 instructions, of which the last stops it
    go_on(&rt, &mut machine, 1, 21);
    compare_first_life(&rt, &machine);
    // a stopped hart takes no interrupt
    go_on(&rt, &mut machine, 0, 5);
    assert_eq!(rt; machine.arch(0).x[10], 0);
    go_on(&rt, &mut machine, 1, 2);
    compare_first_life(&rt, &machine);
    // nor does a start that is pending change it yet
    go_on(&rt, &mut machine, 0, 8);
    assert_eq!(rt; machine.arch(0).x[10], 0);
    compare_first_life(&rt, &machine);
    go_on(&rt, &mut machine, 1, 1);
    compare_begin(&rt, &machine, 1, 0xee);
    compare(&rt, &machine, 1, 0x8000_0034, 20);
    go_on(&rt, &mut machine, 1, 1);
    compare(&rt, &machine, 1, 0x8000_0038, 21);
    Ok(())
}

#[test]
fn each_hart_has_its_own_limit(rt: HostRuntime) -> Result<(), Fail> {
    let mut machine = play(&rt, rt.alloc(), 2, 12, &BOTH_RUN)?;
    // hart 0 has taken 11 instructions, and hart 1 10
    assert_eq!(rt; machine.turn(1), None);
    assert_eq!(rt; machine.turn(1), Some(Reason::Limit(1)));
    compare(&rt, &machine, 1, 0x8000_0034, 12);
    let answers = [machine.turn(0), machine.turn(1), machine.turn(0)];
    assert_eq!(rt; answers, [Some(Reason::Limit(1)); 3]);
    compare(&rt, &machine, 0, 0x8000_002c, 11);
    compare(&rt, &machine, 1, 0x8000_0034, 12);
    Ok(())
}

// Behind the end nothing changes: no pending start begins.
#[test]
fn a_pending_hart_is_kept_at_the_end(rt: HostRuntime) -> Result<(), Fail> {
    let mut machine = play(&rt, rt.alloc(), 2, 12, &STARTED)?;
    assert_eq!(rt; machine.turn(0), Some(Reason::Limit(0)));
    assert_eq!(rt; turn_times(&mut machine, 1, 4), Some(Reason::Limit(0)));
    compare(&rt, &machine, 1, 0, 0);
    assert_eq!(rt; machine.arch(1).x, [0; 32]);
    Ok(())
}

#[test]
fn a_stop_of_all_comes_before_the_limit(rt: HostRuntime) -> Result<(), Fail> {
    let alloc = rt.alloc();
    plays(&rt, alloc, 1, FIRST_CALL, &LAST_STOPS_AT_LIMIT)?;
    plays(&rt, alloc, 4, FIRST_CALL, &LAST_STOPS_AT_LIMIT)?;
    // where another hart is pending, or runs, the limit is reached by a hart that stops
    plays(&rt, alloc, 2, 23, &PENDING_AT_LIMIT)?;
    plays(&rt, alloc, 2, 23, &RUNNING_AT_LIMIT)
}
