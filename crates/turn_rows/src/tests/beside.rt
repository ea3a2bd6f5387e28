// Two harts that store, or call for interrupts, beside each other.
use super::{Case, Of, all_come_to, alone, retired, turn, turns};
use guest_ram::Seen;
use hart_turn::{Anew, TurnEnd, Wait4};
use machine_model::Reason;
use std::test::Fail;

/// Starts hart 1 at 0x80000100, reserves 4 bytes at 0x80020000, and stores there if it may.
const RESERVES: &[u32] = &[
    0x0048_58b7, // lui x17, 0x485
    0x34d8_8893, // addi x17, x17, 0x34d: HSM
    0x0010_0513, // addi x10, x0, 1
    0x0000_0597, // auipc x11, 0
    0x0f45_8593, // addi x11, x11, 0xf4: 0x80000100
    0x0000_0073, // ecall: start
    0x0002_0397, // auipc x7, 0x20
    0xfe83_8393, // addi x7, x7, -0x18: 0x80020000
    0x1003_a62f, // lr.w x12, (x7)
    0x0770_0313, // addi x6, x0, 0x77
    0x1863_a6af, // sc.w x13, x6, (x7)
];

/// Stores 4 bytes at 0x80020004.
const STORES_BESIDE: &[u32] = &[
    0x0002_0397, // auipc x7, 0x20: 0x80020100
    0x0050_0313, // addi x6, x0, 5
    0xf063_a223, // sw x6, -0xfc(x7)
];

/// Starts hart 1 at 0x80000100, and calls for an interrupt there.
const CALLS_FOR_INTERRUPT: &[u32] = &[
    0x0048_58b7, // lui x17, 0x485
    0x34d8_8893, // addi x17, x17, 0x34d: HSM
    0x0010_0513, // addi x10, x0, 1
    0x0000_0597, // auipc x11, 0
    0x0f45_8593, // addi x11, x11, 0xf4: 0x80000100
    0x0000_0073, // ecall: start
    0x0073_58b7, // lui x17, 0x735
    0x0498_8893, // addi x17, x17, 0x49: IPI
    0x0020_0513, // addi x10, x0, 2
    0x0000_0593, // addi x11, x0, 0
    0x0000_0073, // ecall: send
];

/// Lets traps lead to 0x80000140, and enables interrupts.
const LETS_INTERRUPTS_IN: &[u32] = &[
    0x0000_0297, // auipc x5, 0
    0x0402_8293, // addi x5, x5, 0x40
    0x1052_9073, // csrrw x0, stvec, x5
    0x1041_5073, // csrrwi x0, sie, 2
    0x1001_6073, // csrrsi x0, sstatus, 2
    0x0010_0413, // addi x8, x0, 1
];

/// Starts hart 1 at 0x80000100, lets interrupts lead to 0x80000140, and stores 8 bytes at 0x80020004.
const CROSSES_AND_IS_INTERRUPTED: &[u32] = &[
    0x0048_58b7, // lui x17, 0x485
    0x34d8_8893, // addi x17, x17, 0x34d: HSM
    0x0010_0513, // addi x10, x0, 1
    0x0000_0597, // auipc x11, 0
    0x0f45_8593, // addi x11, x11, 0xf4: 0x80000100
    0x0000_0073, // ecall: start
    0x0000_0297, // auipc x5, 0
    0x1282_8293, // addi x5, x5, 0x128
    0x1052_9073, // csrrw x0, stvec, x5
    0x1041_5073, // csrrwi x0, sie, 2
    0x1001_6073, // csrrsi x0, sstatus, 2
    0x0002_0397, // auipc x7, 0x20: 0x8002002c
    0xfc73_bc23, // sd x7, -0x28(x7)
];

/// Calls for an interrupt of hart 0. At 0x80000140 stands what that leads to.
const INTERRUPTS_HART_0: &[u32] = &[
    0x0073_58b7, // lui x17, 0x735
    0x0498_8893, // addi x17, x17, 0x49: IPI
    0x0010_0513, // addi x10, x0, 1
    0x0000_0593, // addi x11, x0, 0
    0x0000_0073, // ecall: send
    0x0000_0013, // addi x0, x0, 0
    0x0000_0013, // addi x0, x0, 0
    0x0000_0013, // addi x0, x0, 0
    0x0000_0013, // addi x0, x0, 0
    0x0000_0013, // addi x0, x0, 0
    0x0000_0013, // addi x0, x0, 0
    0x0000_0013, // addi x0, x0, 0
    0x0000_0013, // addi x0, x0, 0
    0x0000_0013, // addi x0, x0, 0
    0x0000_0013, // addi x0, x0, 0
    0x0000_0013, // addi x0, x0, 0
    0x0010_0493, // addi x9, x0, 1
];

/// Translates by a table at 0, which lies in no RAM.
const NO_ROOT: &[u32] = &[
    0x0010_0293, // addi x5, x0, 1
    0x03f2_9293, // slli x5, x5, 63
    0x1802_9073, // csrrw x0, satp, x5
];

// The 8-byte word held 0x11. A store in its other half ends the reservation too.
#[test]
fn a_store_beside_ends_a_reservation(rt: HostRuntime) -> Result<(), Fail> {
    let beside = [
        retired(0, 6),
        turn(1, TurnEnd::Started),
        retired(0, 3),
        retired(1, 3),
        retired(0, 2),
    ];
    let undisturbed = [retired(0, 11)];
    let refused = Case {
        other: STORES_BESIDE,
        memory: &[(0x2_0000, 0x5_0000_0011)],
        ..alone(
            "beside",
            RESERVES,
            &beside,
            &[(0, Of::X(12), 0x11), (0, Of::X(13), 1), (0, Of::Count, 11)],
        )
    };
    let stored = Case {
        other: STORES_BESIDE,
        memory: &[(0x2_0000, 0x77)],
        ..alone(
            "undisturbed",
            RESERVES,
            &undisturbed,
            &[(0, Of::X(12), 0x11), (0, Of::X(13), 0), (0, Of::Count, 11)],
        )
    };
    all_come_to(&rt, rt.alloc(), &[refused, stored])
}

// Word 5 has a bit for each hart with an interrupt pending.
#[test]
fn another_hart_calls_for_an_interrupt(rt: HostRuntime) -> Result<(), Fail> {
    let rows = [
        retired(0, 6),
        turn(1, TurnEnd::Started),
        retired(1, 5),
        retired(0, 5),
        turn(1, TurnEnd::Trapped),
    ];
    let case = Case {
        other: LETS_INTERRUPTS_IN,
        words: &[(5, 2)],
        ..alone(
            "interrupt",
            CALLS_FOR_INTERRUPT,
            &rows,
            &[
                (0, Of::Cause, 0),
                (0, Of::Count, 11),
                (0, Of::X(10), 0),
                (1, Of::Cause, 0x8000_0000_0000_0001),
                (1, Of::Epc, 0x8000_0114),
                (1, Of::Pc, 0x8000_0140),
                (1, Of::X(8), 0),
                (1, Of::Count, 5),
            ],
        )
    };
    all_come_to(&rt, rt.alloc(), &[case])
}

// The interrupt is taken in the section in place of the store: behind it the hart wants the section no longer.
#[test]
fn an_interrupt_ends_the_wish_for_the_section(rt: HostRuntime) -> Result<(), Fail> {
    let inside = Seen { word: 24, value: 1 };
    let claimed = Seen { word: 1, value: 1 };
    let rows = [
        retired(0, 12),
        turn(1, TurnEnd::Started),
        retired(1, 4),
        turn(0, TurnEnd::Again(Anew::Section)),
        retired(1, 1),
        turn(0, TurnEnd::Waiting(Wait4::Section(inside))),
        turn(1, TurnEnd::Waiting(Wait4::Entry(claimed))),
        turn(0, TurnEnd::Trapped),
        retired(1, 1),
        retired(0, 1),
    ];
    let trapped = Case {
        other: INTERRUPTS_HART_0,
        words: &[(1, 0), (8, 0)],
        memory: &[(0x2_0000, 0x11), (0x2_0008, 0)],
        ..alone(
            "trapped",
            CROSSES_AND_IS_INTERRUPTED,
            &rows[..8],
            &[
                (0, Of::Cause, 0x8000_0000_0000_0001),
                (0, Of::Epc, 0x8000_0030),
                (0, Of::Pc, 0x8000_0140),
                (0, Of::Count, 12),
            ],
        )
    };
    let inside_again = Case {
        other: INTERRUPTS_HART_0,
        words: &[(1, 0), (8, 1), (24, 1)],
        memory: &[(0x2_0000, 0x11), (0x2_0008, 0)],
        ..alone(
            "inside again",
            CROSSES_AND_IS_INTERRUPTED,
            &rows,
            &[
                (0, Of::X(9), 1),
                (0, Of::Pc, 0x8000_0144),
                (0, Of::Count, 13),
                (1, Of::Count, 6),
            ],
        )
    };
    all_come_to(&rt, rt.alloc(), &[trapped, inside_again])
}

// Cause 1: instruction access fault. Each is counted, so the limit ends what would go on for ever.
#[test]
fn a_hart_whose_code_is_gone_comes_to_its_limit(rt: HostRuntime) -> Result<(), Fail> {
    let limit = TurnEnd::Ended(Reason::Limit(0));
    let rows = [
        retired(0, 3),
        turns(0, 97, TurnEnd::Trapped),
        turn(0, limit),
    ];
    let case = Case {
        limit: 100,
        words: &[(2, 3)],
        ..alone(
            "no root",
            NO_ROOT,
            &rows,
            &[
                (0, Of::Cause, 1),
                (0, Of::Value, 0),
                (0, Of::Pc, 0),
                (0, Of::Count, 100),
            ],
        )
    };
    all_come_to(&rt, rt.alloc(), &[case])
}
