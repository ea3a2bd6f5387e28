// Calls of the SBI by guests in supervisor mode, of one hart and of several. What is wanted stands in the RISC-V Supervisor
// Binary Interface Specification, "Base Extension" to "Debug Console Extension" and "Legacy Extensions".
ghost use Rattle.std.specs.Prelude.{◌≡◌, ◌≤◌, ◌<◌, length, IfOk};

mod calls;
mod console;
mod fences;
mod harts;
mod interrupts;

use case_guests::{RAM, Segment, elf_of};
use elf_load::parse;
use ref_machine::{PlainMachine, Reason};
use sbi_rows::{Call, Error, FIRST_LIST, Function, HartRow, PAGES, Want};
use std::alloc::{AllocError, Global};
use std::process::Abort;
use std::test::Fail;
use step_laws::Layout;

/// A limit that no test comes to.
const FAR: u64 = 50_000_000;

fn call_of(called: Function, args: [u64; 4]) -> Call {
    let (extension, function) = called;
    Call {
        extension,
        function,
        args,
    }
}

/// Its number, which is negative, in a register.
fn number_of(error: Error) -> u64 {
    match error {
        Error::NotSupported => 0xffff_ffff_ffff_fffe,
        Error::InvalidParam => 0xffff_ffff_ffff_fffd,
        Error::InvalidAddress => 0xffff_ffff_ffff_fffb,
        Error::AlreadyAvailable => 0xffff_ffff_ffff_fffa,
    }
}

fn reason_of(want: Want) -> Option<Reason> {
    match want {
        Want::Ends(reason) => Some(reason),
        _ => None,
    }
}

/// The registers behind a call. One that doesn't return leaves them.
fn registers_behind(before: [u64; 32], want: Want) -> [u64; 32] {
    let mut x = before;
    match want {
        Want::Gives(value) => {
            x[10] = 0;
            x[11] = value;
        }
        Want::Fences(_) => {
            x[10] = 0;
            x[11] = 0;
        }
        Want::Fails(error) => {
            x[10] = number_of(error);
            x[11] = 0;
        }
        Want::LegacyGives => x[10] = 0,
        Want::LegacyFails(error) => x[10] = number_of(error),
        Want::Stops | Want::Ends(_) => {}
    }
    x
}

/// Makes the calls of its list, one after another, and reads sip behind each.
const CALLER: [u32; 14] = [
    0x0003_0597, // auipc x11, 0x30
    0x0005_8293, // addi x5, x11, 0
    0x0002_b503, // ld x10, 0(x5)
    0x0082_b583, // ld x11, 8(x5)
    0x0102_b603, // ld x12, 16(x5)
    0x0182_b683, // ld x13, 24(x5)
    0x0202_b703, // ld x14, 32(x5)
    0x0282_b783, // ld x15, 40(x5)
    0x0302_b803, // ld x16, 48(x5)
    0x0382_b883, // ld x17, 56(x5)
    0x0000_0073, // ecall
    0x1440_24f3, // csrrs x9, sip, x0
    0x0402_8293, // addi x5, x5, 64
    0xfd5f_f06f, // jal x0, pc - 44
];

/// A hart that is started begins at its second instruction, with the place of its list in a1; hart 0 gets its own there. Where the ecall
/// stands, and how many turns are taken from one to the next.
const CALL_PC: u64 = 0x8000_0028;

const ROUND: u64 = 12;

/// How many instructions hart 0 has counted behind its first call.
const FIRST_CALL: u64 = 11;

/// Where hart 0's list stands. Each other hart's is a page behind the last.
const LISTS: u64 = FIRST_LIST;

/// What a4 and a5 hold at each call, of which no answer depends on them.
const IGNORED: [u64; 2] = [0x44, 0x55];

fn push_long(words: &mut Vec<u32>, value: u64) -> Result<(), AllocError> {
    words.push((value % 0x1_0000_0000) as u32)?;
    words.push((value / 0x1_0000_0000) as u32)?;
    Ok(())
}

fn push_call(words: &mut Vec<u32>, call: &Call) -> Result<(), AllocError> {
    let [a0, a1, a2, a3] = call.args;
    let [a4, a5] = IGNORED;
    for value in [a0, a1, a2, a3, a4, a5, call.function, call.extension] {
        push_long(words, value)?;
    }
    Ok(())
}

/// The words of the harts' lists.
fn lists_of(alloc: Global, harts: u8, rows: &[HartRow]) -> Result<Vec<u32>, AllocError> {
    let mut words = Vec::new(alloc);
    for list in 0..harts {
        for (hart, called, args, _) in rows {
            if *hart == list {
                push_call(&mut words, &call_of(*called, *args))?;
            }
        }
        for _ in words.len()..1024 * (usize::from(list) + 1) {
            words.push(0)?;
        }
    }
    Ok(words)
}

/// A machine of so many harts with these words in RAM, which begins at RAM's first byte.
fn machine_with(
    alloc: Global,
    harts: u8,
    limit: u64,
    segments: &[Segment<'_>],
) -> Result<PlainMachine, Fail>
    requires some { 1 ≤ harts }
    requires most { harts ≤ 8 }
    requires limit { 0 < limit }
    requires segments { length segments.now ≤ 16 }
    ensures { IfOk result (λ machine. machine.shared.layout.harts ≡ harts) }
{
    let file = elf_of(alloc, RAM, segments)?;
    let image = parse(alloc, &file, PAGES)?;
    let layout = Layout {
        harts,
        pages: PAGES,
    };
    Ok(PlainMachine::new(alloc, &image, &file, layout, limit)?)
}

/// A machine whose harts make the calls of these rows.
fn caller(alloc: Global, harts: u8, limit: u64, rows: &[HartRow]) -> Result<PlainMachine, Fail>
    requires some { 1 ≤ harts }
    requires most { harts ≤ 8 }
    requires limit { 0 < limit }
    ensures { IfOk result (λ machine. machine.shared.layout.harts ≡ harts) }
{
    let lists = lists_of(alloc, harts, rows)?;
    let segments = [(RAM, CALLER.as_slice()), (LISTS, lists.as_slice())];
    machine_with(alloc, harts, limit, &segments)
}

/// Takes so many turns of a hart, and answers what the last of them does.
fn turn_times(machine: &mut PlainMachine, hart: u8, turns: u64) -> Option<Reason>
    requires { hart < machine.old.shared.layout.harts }
    ensures { machine.new.shared.layout.harts ≡ machine.old.shared.layout.harts }
{
    let mut answer = None;
    for _ in 0..turns {
        answer = machine.turn(hart);
    }
    answer
}

/// Takes so many turns of a hart, behind which the machine goes on.
fn go_on(rt: &impl Abort, machine: &mut PlainMachine, hart: u8, turns: u64)
    requires { hart < machine.old.shared.layout.harts }
    ensures { machine.new.shared.layout.harts ≡ machine.old.shared.layout.harts }
{
    let answer = turn_times(machine, hart, turns);
    assert_eq!(rt; answer, None, "{turns} turns of hart {hart}");
}

/// Takes a hart's turns up to its next call.
fn come_to_call(machine: &mut PlainMachine, hart: u8)
    requires { hart < machine.old.shared.layout.harts }
    ensures { machine.new.shared.layout.harts ≡ machine.old.shared.layout.harts }
{
    for _ in 1..ROUND {
        if machine.arch(hart).pc == CALL_PC {
            return;
        }
        machine.turn(hart);
    }
}

/// A hart's CSRs.
fn csrs_of(machine: &PlainMachine, hart: u8) -> [u64; 8]
    requires { hart < machine.now.shared.layout.harts }
{
    let arch = machine.arch(hart);
    [
        arch.sstatus,
        arch.sie,
        arch.stvec,
        arch.sscratch,
        arch.sepc,
        arch.scause,
        arch.stval,
        arch.satp,
    ]
}

/// A hart's registers, CSRs, pc, count, and whether it is in user mode.
type Shown = ([u64; 32], [u64; 8], u64, u64, bool);

fn shown_of(machine: &PlainMachine, hart: u8) -> Shown
    requires { hart < machine.now.shared.layout.harts }
{
    let arch = machine.arch(hart);
    let count = machine.count(hart);
    (arch.x, csrs_of(machine, hart), arch.pc, count, arch.user)
}

/// A hart makes its next call, which comes to what is wanted and changes nothing else of it.
fn take_step(rt: &impl Abort, machine: &mut PlainMachine, hart: u8, call: Call, want: Want)
    requires { hart < machine.old.shared.layout.harts }
    ensures { machine.new.shared.layout.harts ≡ machine.old.shared.layout.harts }
{
    come_to_call(machine, hart);
    let (x, csrs, pc, count, _) = shown_of(machine, hart);
    assert_eq!(rt; pc, CALL_PC, "begin: hart {hart}, {call:?}");
    let answer = machine.turn(hart);
    assert_eq!(rt; answer, reason_of(want), "reason: hart {hart}, {call:?}");
    let behind = (
        registers_behind(x, want),
        csrs,
        CALL_PC + 4,
        count.saturating_add(1),
        false,
    );
    assert_eq!(rt; shown_of(machine, hart), behind, "hart {hart}, {call:?}");
}

/// The machine behind these rows, each of which comes to what is wanted.
fn play(
    rt: &impl Abort,
    alloc: Global,
    harts: u8,
    limit: u64,
    rows: &[HartRow],
) -> Result<PlainMachine, Fail>
    requires some { 1 ≤ harts }
    requires most { harts ≤ 8 }
    requires limit { 0 < limit }
    ensures { IfOk result (λ machine. machine.shared.layout.harts ≡ harts) }
{
    let mut machine = caller(alloc, harts, limit, rows)?;
    for (hart, called, args, want) in rows {
        let call = call_of(*called, *args);
        assert!(rt; *hart < harts, "a hart that there is: {call:?}");
        take_step(rt, &mut machine, *hart, call, *want);
    }
    Ok(machine)
}

/// The same, where the machine itself isn't looked at.
fn plays(
    rt: &impl Abort,
    alloc: Global,
    harts: u8,
    limit: u64,
    rows: &[HartRow],
) -> Result<(), Fail>
    requires some { 1 ≤ harts }
    requires most { harts ≤ 8 }
    requires limit { 0 < limit }
{
    play(rt, alloc, harts, limit, rows)?;
    Ok(())
}
