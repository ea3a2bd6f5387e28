// Bytes that calls print (SBI, "Debug Console Extension" and "Legacy Extensions").
ghost use Rattle.std.specs.Prelude.{◌≡◌, ◌≤◌, ◌<◌, IfOk};

use super::{
    CALLER, FAR, LISTS, call_of, lists_of, machine_with, push_long, take_step, turn_times,
};
use crate::supervisor::machine_of;
use case_guests::RAM;
use ref_machine::{PlainMachine, Reason};
use sbi_rows::{
    BYTE_WRITES, HartRow, LAST_BYTE, LAST_WORD, PrintRow, Printed, TEXT, TEXT_BYTES, TEXT_PLACE,
    WRITES,
};
use std::alloc::{AllocError, Global};
use std::process::Abort;
use std::test::Fail;

/// What the console takes.
const PLACES: usize = 1_048_576;

/// The halves of these words of memory.
fn halves_of(alloc: Global, longs: &[u64]) -> Result<Vec<u32>, AllocError> {
    let mut words = Vec::new(alloc);
    for long in longs {
        push_long(&mut words, *long)?;
    }
    Ok(words)
}

fn print(console: &mut Vec<u8>, printed: Printed) -> Result<(), AllocError> {
    match printed {
        Printed::Nothing => {}
        Printed::Byte(byte) => console.push(byte)?,
        Printed::Text(from, count) => {
            for byte in TEXT_BYTES.iter().skip(from).take(count) {
                console.push(*byte)?;
            }
        }
    }
    Ok(())
}

/// A machine of one hart that makes these calls, with the text and RAM's last word.
fn writer(alloc: Global, rows: &[PrintRow]) -> Result<PlainMachine, Fail>
    ensures { IfOk result (λ machine. machine.shared.layout.harts ≡ 1) }
{
    let mut steps: Vec<HartRow> = Vec::new(alloc);
    for (called, args, want, _) in rows {
        steps.push((0, *called, *args, *want))?;
    }
    let lists = lists_of(alloc, 1, &steps)?;
    let text = halves_of(alloc, &TEXT)?;
    let last = halves_of(alloc, &[LAST_WORD])?;
    let segments = [
        (RAM, CALLER.as_slice()),
        (LISTS, lists.as_slice()),
        (TEXT_PLACE, text.as_slice()),
        (LAST_BYTE - 7, last.as_slice()),
    ];
    machine_with(alloc, 1, FAR, &segments)
}

fn all_print(rt: &impl Abort, alloc: Global, rows: &[PrintRow]) -> Result<(), Fail> {
    let mut machine = writer(alloc, rows)?;
    let mut console = Vec::new(alloc);
    for (called, args, want, printed) in rows {
        let call = call_of(*called, *args);
        take_step(rt, &mut machine, 0, call, *want);
        print(&mut console, *printed)?;
        assert_eq!(rt; machine.console(), console.as_slice(), "{call:?}");
    }
    Ok(())
}

#[test]
fn bytes_of_memory_are_printed(rt: HostRuntime) -> Result<(), Fail> {
    all_print(&rt, rt.alloc(), &WRITES)
}

/// Translates by page tables, and prints a byte from its page 1.
const VIRTUAL: [u32; 11] = [
    0x0010_0293, // addi x5, x0, 1
    0x03f2_9293, // slli x5, x5, 63
    0x0008_0337, // lui x6, 0x80
    0x0103_0313, // addi x6, x6, 0x10
    0x0062_e2b3, // or x5, x5, x6
    0x1802_9073, // csrrw x0, satp, x5
    0x4442_48b7, // lui x17, 0x44424
    0x34e8_8893, // addi x17, x17, 0x34e
    0x0010_0513, // addi x10, x0, 1
    0x0000_15b7, // lui x11, 1
    0x0000_0073, // ecall
];

// The address is physical, whatever the hart's own translation makes of it.
#[test]
fn bytes_have_physical_addresses(rt: HostRuntime) -> Result<(), Fail> {
    let mut machine = machine_of(rt.alloc(), 1, &VIRTUAL)?;
    assert_eq!(rt; turn_times(&mut machine, 0, 11), None);
    let arch = machine.arch(0);
    assert_eq!(rt; (arch.x[10], arch.x[11]), (0xffff_ffff_ffff_fffd, 0));
    assert_eq!(rt; arch.pc, 0x8000_002c);
    assert!(rt; machine.console().is_empty());
    Ok(())
}

#[test]
fn bytes_of_registers_are_printed(rt: HostRuntime) -> Result<(), Fail> {
    all_print(&rt, rt.alloc(), &BYTE_WRITES)
}

/// Prints 256 bytes of the text, 4096 times.
const FILL: [u32; 9] = [
    0x4442_48b7, // lui x17, 0x44424
    0x34e8_8893, // addi x17, x17, 0x34e
    0x0002_0497, // auipc x9, 0x20
    0x0000_1437, // lui x8, 1
    0x1000_0513, // addi x10, x0, 0x100
    0x0004_8593, // addi x11, x9, 0
    0x0000_0073, // ecall
    0xfff4_0413, // addi x8, x8, -1
    0xfe04_18e3, // bne x8, x0, pc - 16
];

/// How many instructions these are.
const FILLED: u64 = 4 + 5 * 4096;

/// Prints a byte.
const ONE_BYTE: [u32; 3] = [
    0x0020_0813, // addi x16, x0, 2
    0x0610_0513, // addi x10, x0, 0x61
    0x0000_0073, // ecall
];

/// The same by the legacy call.
const LEGACY_BYTE: [u32; 3] = [
    0x0010_0893, // addi x17, x0, 1
    0x0610_0513, // addi x10, x0, 0x61
    0x0000_0073, // ecall
];

/// Prints no byte, and then one.
const NO_BYTE: [u32; 5] = [
    0x0000_0513, // addi x10, x0, 0
    0x0000_0073, // ecall
    0x0010_0513, // addi x10, x0, 1
    0x0004_8593, // addi x11, x9, 0
    0x0000_0073, // ecall
];

/// The words of a guest of two parts.
fn guest(alloc: Global, parts: [&[u32]; 2]) -> Result<Vec<u32>, AllocError> {
    let mut words = Vec::new(alloc);
    for part in parts {
        words.extend_from_slice(part)?;
    }
    Ok(words)
}

/// Runs a guest, whose text begins at this address, until there is no place for what it prints.
fn runs_full(
    rt: &impl Abort,
    alloc: Global,
    words: &[u32],
    text: u64,
    turns: u64,
) -> Result<PlainMachine, Fail>
    ensures { IfOk result (λ machine. machine.shared.layout.harts ≡ 1) }
{
    let text_words = halves_of(alloc, &TEXT)?;
    let segments = [(RAM, words), (text, text_words.as_slice())];
    let mut machine = machine_with(alloc, 1, FAR, &segments)?;
    assert_eq!(rt; turn_times(&mut machine, 0, turns.saturating_sub(1)), None);
    assert_eq!(rt; machine.turn(0), Some(Reason::OutFull));
    assert_eq!(rt; turn_times(&mut machine, 0, 3), Some(Reason::OutFull));
    assert_eq!(rt; machine.count(0), turns);
    Ok(machine)
}

/// The console that has taken these bytes, and then the text's first 256 until it was full.
fn full_console(alloc: Global, first: &[u8]) -> Result<Vec<u8>, AllocError> {
    let mut bytes = first.to_vec(alloc)?;
    for _ in 0..4096 {
        for byte in TEXT_BYTES.iter().take(256) {
            bytes.push(*byte)?;
        }
    }
    bytes.truncate(PLACES);
    Ok(bytes)
}

#[test]
fn a_full_console_takes_no_byte(rt: HostRuntime) -> Result<(), Fail> {
    let alloc = rt.alloc();
    let console = full_console(alloc, b"")?;
    for (what, tail, turns, pc, a0, a1) in [
        ("a byte", ONE_BYTE.as_slice(), 3, 0x8000_0030, 0x61, 0x100),
        (
            "the legacy call",
            LEGACY_BYTE.as_slice(),
            3,
            0x8000_0030,
            0x61,
            0x100,
        ),
        (
            "no byte, and one",
            NO_BYTE.as_slice(),
            5,
            0x8000_0038,
            1,
            0x8002_0008,
        ),
    ] {
        let words = guest(alloc, [FILL.as_slice(), tail])?;
        let machine = runs_full(&rt, alloc, &words, TEXT_PLACE + 8, FILLED + turns)?;
        let arch = machine.arch(0);
        assert_eq!(rt; (arch.pc, arch.x[10], arch.x[11]), (pc, a0, a1), "{what}");
        assert!(rt; machine.console() == console.as_slice(), "{what}");
    }
    Ok(())
}

// One place is taken, so of the last 256 bytes one finds none.
#[test]
fn bytes_that_fit_are_printed(rt: HostRuntime) -> Result<(), Fail> {
    let alloc = rt.alloc();
    let words = guest(alloc, [LEGACY_BYTE.as_slice(), FILL.as_slice()])?;
    // the call that finds none is the 4096th, behind which two instructions are not taken
    let machine = runs_full(&rt, alloc, &words, TEXT_PLACE + 0x14, 3 + FILLED - 2)?;
    let arch = machine.arch(0);
    assert_eq!(rt;
        (arch.pc, arch.x[10], arch.x[11]),
        (0x8000_0028, 0x100, 0x8002_0014)
    );
    assert_eq!(rt; arch.x[8], 1);
    let console = full_console(alloc, b"a")?;
    assert!(rt; machine.console() == console.as_slice());
    Ok(())
}
