// Traps, returns and interrupts of a guest in supervisor mode, calls, and its user mode.
use super::{Want, all_come_to, at, caught, machine, trap, turn_times};
use ref_machine::Reason;
use std::test::Fail;

/// Jumps to an address that is no multiple of 4.
const JUMP_OFF_4: &[u32] = &[
    0x0000_0297, // auipc x5, 0
    0x1002_8293, // addi x5, x5, 0x100
    0x0022_8067, // jalr x0, 2(x5)
];

/// A word that is no instruction.
const NO_INSTRUCTION: &[u32] = &[
    0xffff_ffff, // .word 0xffffffff
];

/// A breakpoint.
const BREAK: &[u32] = &[
    0x0030_0513, // addi x10, x0, 3
    0x0010_0073, // ebreak
];

/// Reads a CSR that there is not.
const ABSENT_CSR: &[u32] = &[
    0xc000_2573, // csrrs x10, 0xc00, x0
];

/// Translates by a root table that lies in no RAM.
const NO_ROOT: &[u32] = &[
    0x0010_0293, // addi x5, x0, 1
    0x03f2_9293, // slli x5, x5, 63
    0x1802_9073, // csrrw x0, satp, x5
];

/// Enables the software interrupt, and sets its own at 0x80000020.
const INTERRUPT: &[u32] = &[
    0x0000_0297, // auipc x5, 0
    0x1012_8293, // addi x5, x5, 0x101
    0x1052_9073, // csrrw x0, stvec, x5
    0x1041_5073, // csrrwi x0, sie, 2
    0x1001_6073, // csrrsi x0, sstatus, 2
    0x0020_0313, // addi x6, x0, 2
    0x0000_0013, // addi x0, x0, 0
    0x0000_0013, // addi x0, x0, 0
    0x1443_2573, // csrrs x10, sip, x6
    0x1440_2573, // csrrs x10, sip, x0
];

/// The same without SIE of sstatus.
const MASKED: &[u32] = &[
    0x0000_0297, // auipc x5, 0
    0x1012_8293, // addi x5, x5, 0x101
    0x1052_9073, // csrrw x0, stvec, x5
    0x1041_5073, // csrrwi x0, sie, 2
    0x0020_0313, // addi x6, x0, 2
    0x1443_2573, // csrrs x10, sip, x6
    0x1443_3573, // csrrc x10, sip, x6
    0x1440_2573, // csrrs x10, sip, x0
];

/// Calls from user mode.
const USER_CALL: &[u32] = &[
    0x0000_0297, // auipc x5, 0
    0x0402_8293, // addi x5, x5, 0x40
    0x1052_9073, // csrrw x0, stvec, x5
    0x0010_0293, // addi x5, x0, 1
    0x03f2_9293, // slli x5, x5, 63
    0x0008_0337, // lui x6, 0x80
    0x0103_0313, // addi x6, x6, 0x10
    0x0062_e2b3, // or x5, x5, x6
    0x1802_9073, // csrrw x0, satp, x5
    0x0000_53b7, // lui x7, 5
    0x0443_8393, // addi x7, x7, 0x44
    0x1413_9073, // csrrw x0, sepc, x7
    0x1020_0073, // sret
    0x0000_0013, // addi x0, x0, 0
    0x0000_0013, // addi x0, x0, 0
    0x0000_0013, // addi x0, x0, 0
    0x0000_0013, // addi x0, x0, 0
    0x0000_0073, // ecall
];

/// Reads a CSR in user mode.
const USER_CSR: &[u32] = &[
    0x0000_0297, // auipc x5, 0
    0x0402_8293, // addi x5, x5, 0x40
    0x1052_9073, // csrrw x0, stvec, x5
    0x0010_0293, // addi x5, x0, 1
    0x03f2_9293, // slli x5, x5, 63
    0x0008_0337, // lui x6, 0x80
    0x0103_0313, // addi x6, x6, 0x10
    0x0062_e2b3, // or x5, x5, x6
    0x1802_9073, // csrrw x0, satp, x5
    0x0000_53b7, // lui x7, 5
    0x0443_8393, // addi x7, x7, 0x44
    0x1413_9073, // csrrw x0, sepc, x7
    0x1020_0073, // sret
    0x0000_0013, // addi x0, x0, 0
    0x0000_0013, // addi x0, x0, 0
    0x0000_0013, // addi x0, x0, 0
    0x0000_0013, // addi x0, x0, 0
    0x1400_2573, // csrrs x10, sscratch, x0
];

/// Returns from no trap in user mode.
const USER_SRET: &[u32] = &[
    0x0000_0297, // auipc x5, 0
    0x0402_8293, // addi x5, x5, 0x40
    0x1052_9073, // csrrw x0, stvec, x5
    0x0010_0293, // addi x5, x0, 1
    0x03f2_9293, // slli x5, x5, 63
    0x0008_0337, // lui x6, 0x80
    0x0103_0313, // addi x6, x6, 0x10
    0x0062_e2b3, // or x5, x5, x6
    0x1802_9073, // csrrw x0, satp, x5
    0x0000_53b7, // lui x7, 5
    0x0443_8393, // addi x7, x7, 0x44
    0x1413_9073, // csrrw x0, sepc, x7
    0x1020_0073, // sret
    0x0000_0013, // addi x0, x0, 0
    0x0000_0013, // addi x0, x0, 0
    0x0000_0013, // addi x0, x0, 0
    0x0000_0013, // addi x0, x0, 0
    0x1020_0073, // sret
];

/// Fences in user mode.
const USER_FENCE: &[u32] = &[
    0x0000_0297, // auipc x5, 0
    0x0402_8293, // addi x5, x5, 0x40
    0x1052_9073, // csrrw x0, stvec, x5
    0x0010_0293, // addi x5, x0, 1
    0x03f2_9293, // slli x5, x5, 63
    0x0008_0337, // lui x6, 0x80
    0x0103_0313, // addi x6, x6, 0x10
    0x0062_e2b3, // or x5, x5, x6
    0x1802_9073, // csrrw x0, satp, x5
    0x0000_53b7, // lui x7, 5
    0x0443_8393, // addi x7, x7, 0x44
    0x1413_9073, // csrrw x0, sepc, x7
    0x1020_0073, // sret
    0x0000_0013, // addi x0, x0, 0
    0x0000_0013, // addi x0, x0, 0
    0x0000_0013, // addi x0, x0, 0
    0x0000_0013, // addi x0, x0, 0
    0x1200_0073, // sfence.vma x0, x0
];

/// Loads a page of the supervisor in user mode.
const USER_LOAD: &[u32] = &[
    0x0000_0297, // auipc x5, 0
    0x0402_8293, // addi x5, x5, 0x40
    0x1052_9073, // csrrw x0, stvec, x5
    0x0010_0293, // addi x5, x0, 1
    0x03f2_9293, // slli x5, x5, 63
    0x0008_0337, // lui x6, 0x80
    0x0103_0313, // addi x6, x6, 0x10
    0x0062_e2b3, // or x5, x5, x6
    0x1802_9073, // csrrw x0, satp, x5
    0x0000_53b7, // lui x7, 5
    0x0443_8393, // addi x7, x7, 0x44
    0x1413_9073, // csrrw x0, sepc, x7
    0x1020_0073, // sret
    0x0000_0013, // addi x0, x0, 0
    0x0000_0013, // addi x0, x0, 0
    0x0000_0013, // addi x0, x0, 0
    0x0000_0013, // addi x0, x0, 0
    0x0000_13b7, // lui x7, 1
    0x0003_b503, // ld x10, 0(x7)
];

/// Loads its own page in user mode.
const USER_OWN: &[u32] = &[
    0x0000_0297, // auipc x5, 0
    0x0402_8293, // addi x5, x5, 0x40
    0x1052_9073, // csrrw x0, stvec, x5
    0x0010_0293, // addi x5, x0, 1
    0x03f2_9293, // slli x5, x5, 63
    0x0008_0337, // lui x6, 0x80
    0x0103_0313, // addi x6, x6, 0x10
    0x0062_e2b3, // or x5, x5, x6
    0x1802_9073, // csrrw x0, satp, x5
    0x0000_53b7, // lui x7, 5
    0x0443_8393, // addi x7, x7, 0x44
    0x1413_9073, // csrrw x0, sepc, x7
    0x1020_0073, // sret
    0x0000_0013, // addi x0, x0, 0
    0x0000_0013, // addi x0, x0, 0
    0x0000_0013, // addi x0, x0, 0
    0x0000_0013, // addi x0, x0, 0
    0x0000_33b7, // lui x7, 3
    0x0003_b503, // ld x10, 0(x7)
];

/// Prints a byte by the legacy call, and shuts down by the other.
const CALLS: &[u32] = &[
    0x0010_0893, // addi x17, x0, 1
    0x1410_0513, // addi x10, x0, 0x141
    0x0000_0073, // ecall
    0x0080_0893, // addi x17, x0, 8
    0x0000_0073, // ecall
];

/// Prints a for ever.
const PRINTS_FOR_EVER: &[u32] = &[
    0x1000_02b7, // lui x5, 0x10000
    0x0610_0313, // addi x6, x0, 0x61
    0x0062_8023, // sb x6, 0(x5)
    0xffdf_f06f, // jal x0, -4
];

#[test]
fn traps_are_taken(rt: HostRuntime) -> Result<(), Fail> {
    let cases = [
        (
            "a jump off 4",
            JUMP_OFF_4,
            3,
            trap(0, 0x8000_0008, 0x8000_0102, 3),
        ),
        (
            "no instruction",
            NO_INSTRUCTION,
            1,
            trap(2, 0x8000_0000, 0xffff_ffff, 1),
        ),
        (
            "a breakpoint",
            BREAK,
            2,
            Want {
                x10: 3,
                ..trap(3, 0x8000_0004, 0, 2)
            },
        ),
        (
            "an absent CSR",
            ABSENT_CSR,
            1,
            trap(2, 0x8000_0000, 0xc000_2573, 1),
        ),
        (
            "no root table",
            NO_ROOT,
            4,
            trap(1, 0x8000_000c, 0x8000_000c, 4),
        ),
        ("nor a handler", NO_ROOT, 5, trap(1, 0, 0, 5)),
    ];
    all_come_to(&rt, rt.alloc(), &cases)
}

#[test]
fn interrupts_are_taken(rt: HostRuntime) -> Result<(), Fail> {
    let cases = [
        ("before", INTERRUPT, 9, at(0x8000_0024, 9, 0)),
        (
            "taken",
            INTERRUPT,
            10,
            Want {
                pc: 0x8000_0104,
                ..trap(0x8000_0000_0000_0001, 0x8000_0024, 0, 9)
            },
        ),
        ("set", MASKED, 7, at(0x8000_001c, 7, 2)),
        ("cleared", MASKED, 8, at(0x8000_0020, 8, 0)),
    ];
    all_come_to(&rt, rt.alloc(), &cases)
}

#[test]
fn user_mode_is_confined(rt: HostRuntime) -> Result<(), Fail> {
    let cases = [
        (
            "in user mode",
            USER_CALL,
            13,
            Want {
                sepc: 0x5044,
                ..at(0x5044, 13, 0)
            },
        ),
        ("a call", USER_CALL, 14, caught(8, 0x5044, 0, 14)),
        ("a CSR", USER_CSR, 14, caught(2, 0x5044, 0x1400_2573, 14)),
        ("sret", USER_SRET, 14, caught(2, 0x5044, 0x1020_0073, 14)),
        (
            "sfence.vma",
            USER_FENCE,
            14,
            caught(2, 0x5044, 0x1200_0073, 14),
        ),
        (
            "a page of the supervisor",
            USER_LOAD,
            15,
            caught(13, 0x5048, 0x1000, 15),
        ),
        (
            "a page of its own",
            USER_OWN,
            15,
            Want {
                sepc: 0x5044,
                ..at(0x504c, 15, 0x11)
            },
        ),
    ];
    all_come_to(&rt, rt.alloc(), &cases)
}

#[test]
fn legacy_calls_print_and_end(rt: HostRuntime) -> Result<(), Fail> {
    let mut machine = machine(rt.alloc(), CALLS)?;
    assert_eq!(rt; turn_times(&mut machine, 4), None);
    assert_eq!(rt; machine.console(), b"A".as_slice());
    assert_eq!(rt; machine.arch(0).x[10], 0);
    assert_eq!(rt; machine.turn(0), Some(Reason::Pass));
    assert_eq!(rt; machine.arch(0).pc, 0x8000_0014);
    Ok(())
}

#[test]
fn a_full_console_ends_the_machine(rt: HostRuntime) -> Result<(), Fail> {
    let mut machine = machine(rt.alloc(), PRINTS_FOR_EVER)?;
    let answer = turn_times(&mut machine, 3_000_000);
    assert_eq!(rt; answer, Some(Reason::OutFull));
    // two instructions before the loop, and two for each byte, of which the last has no jump behind it
    assert_eq!(rt; machine.count(0), 2 + 2 * 1_048_576 + 1);
    assert_eq!(rt; machine.console().len(), 1_048_576);
    assert!(rt; machine.console().iter().all(|byte| *byte == b'a'));
    Ok(())
}
