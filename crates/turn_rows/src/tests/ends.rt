// How turns end: the machine's end, a rest, traps and interrupts.
use super::{Case, Of, all_come_to, alone, retired, turn, turns};
use case_guests::HELLO;
use hart_turn::TurnEnd;
use machine_model::Reason;
use std::test::Fail;

/// Prints OK by the legacy console putchar, and ends by the legacy shutdown.
const HELLO_BY_CALLS: &[u32] = &[
    0x0010_0893, // addi x17, x0, 1
    0x04f0_0513, // addi x10, x0, 79: 'O'
    0x0000_0073, // ecall
    0x04b0_0513, // addi x10, x0, 75: 'K'
    0x0000_0073, // ecall
    0x0080_0893, // addi x17, x0, 8
    0x0000_0073, // ecall
];

/// Ends with a fail of code 7.
const FAILS: &[u32] = &[
    0x0010_02b7, // lui x5, 0x100
    0x0007_3337, // lui x6, 0x73
    0x3333_0313, // addi x6, x6, 0x333
    0x0062_a023, // sw x6, 0(x5)
];

/// Jumps to itself.
const LOOPS: &[u32] = &[
    0x0000_006f, // jal x0, 0
];

/// Stops itself.
const STOPS: &[u32] = &[
    0x0048_58b7, // lui x17, 0x485
    0x34d8_8893, // addi x17, x17, 0x34d: HSM
    0x0010_0813, // addi x16, x0, 1
    0x0000_0073, // ecall: stop
];

/// Waits for an interrupt.
const RESTS: &[u32] = &[
    0x1050_0073, // wfi
    0x0030_0513, // addi x10, x0, 3
];

/// A word that is no instruction.
const NO_INSTRUCTION: &[u32] = &[
    0xffff_ffff, // .word 0xffffffff
];

/// Lets its interrupts lead to a table at 0x80000100, enables them, and calls for one of its own.
const INTERRUPTS_ITSELF: &[u32] = &[
    0x0000_0297, // auipc x5, 0
    0x1012_8293, // addi x5, x5, 0x101
    0x1052_9073, // csrrw x0, stvec, x5
    0x1041_5073, // csrrwi x0, sie, 2
    0x1001_6073, // csrrsi x0, sstatus, 2
    0x0073_58b7, // lui x17, 0x735
    0x0498_8893, // addi x17, x17, 0x49: IPI
    0x0010_0513, // addi x10, x0, 1
    0x0000_0073, // ecall: send
    0x0010_0393, // addi x7, x0, 1
];

/// With SIE clear sets its own interrupt, which is taken in user mode alone, and goes there.
const INTERRUPTED_IN_USER_MODE: &[u32] = &[
    0x0000_0297, // auipc x5, 0
    0x1002_8293, // addi x5, x5, 0x100
    0x1052_9073, // csrrw x0, stvec, x5
    0x1041_5073, // csrrwi x0, sie, 2
    0x1441_6073, // csrrsi x0, sip, 2
    0x0000_0317, // auipc x6, 0
    0x0103_0313, // addi x6, x6, 0x10: 0x80000024
    0x1413_1073, // csrrw x0, sepc, x6
    0x1020_0073, // sret
    0x0010_0393, // addi x7, x0, 1
];

// Words 8 and 10 are RUN and DONE of hart 0, and word 26 is DONE of hart 1. STOP is word 2: 1 for a pass.
#[test]
fn hello_ends_with_a_pass(rt: HostRuntime) -> Result<(), Fail> {
    let pass = TurnEnd::Ended(Reason::Pass);
    let by_store = [retired(0, 11), turn(0, pass), turn(1, pass)];
    let by_call = [retired(0, 7), turn(0, pass)];
    let before = [retired(0, 3)];
    let printed = Case {
        words: &[(2, 1), (8, 0), (10, 1), (26, 1)],
        console: b"OK\n",
        ..alone(
            "by the finisher",
            &HELLO,
            &by_store,
            &[
                (0, Of::Pc, 0x8000_002c),
                (0, Of::X(5), 0x10_0000),
                (0, Of::X(6), 0x5555),
                (0, Of::Count, 11),
            ],
        )
    };
    let called = Case {
        words: &[(2, 1), (8, 0), (10, 1), (26, 0)],
        console: b"OK",
        ..alone(
            "by calls",
            HELLO_BY_CALLS,
            &by_call,
            &[
                (0, Of::Pc, 0x8000_001c),
                (0, Of::X(17), 8),
                (0, Of::Count, 7),
            ],
        )
    };
    let unfinished = Case {
        words: &[(2, 0), (8, 1), (10, 0)],
        console: b"O",
        ..alone(
            "not yet",
            HELLO_BY_CALLS,
            &before,
            &[(0, Of::Pc, 0x8000_000c), (0, Of::Count, 3)],
        )
    };
    all_come_to(&rt, rt.alloc(), &[printed, called, unfinished])
}

// STOP: 2 for a fail and 256 times its code, 3 for a limit and 256 times the hart's number, 5 where all harts stopped.
#[test]
fn other_ends_are_told_too(rt: HostRuntime) -> Result<(), Fail> {
    let fail = TurnEnd::Ended(Reason::Fail(7));
    let fails = [retired(0, 4), turn(0, fail)];
    let failed = Case {
        words: &[(2, 0x702), (10, 1)],
        ..alone("fail", FAILS, &fails, &[(0, Of::Count, 4)])
    };
    let limit = TurnEnd::Ended(Reason::Limit(0));
    let limits = [retired(0, 5), turn(1, limit), turn(0, limit)];
    let limited = Case {
        limit: 5,
        words: &[(2, 3), (10, 1), (26, 1)],
        ..alone(
            "limit",
            LOOPS,
            &limits,
            &[(0, Of::Count, 5), (0, Of::Pc, 0x8000_0000)],
        )
    };
    let stop = TurnEnd::Ended(Reason::AllStopped);
    let stops = [retired(0, 4), turn(0, stop)];
    let stopped = Case {
        words: &[(2, 5), (3, 0), (10, 1)],
        ..alone("all stopped", STOPS, &stops, &[(0, Of::Count, 4)])
    };
    all_come_to(&rt, rt.alloc(), &[failed, limited, stopped])
}

#[test]
fn a_hart_rests_and_another_is_idle(rt: HostRuntime) -> Result<(), Fail> {
    let rows = [
        turns(1, 2, TurnEnd::Idle),
        turn(0, TurnEnd::Rested),
        retired(0, 1),
    ];
    let case = Case {
        words: &[(8, 1), (24, 0)],
        ..alone(
            "rests",
            RESTS,
            &rows,
            &[
                (0, Of::X(10), 3),
                (0, Of::Pc, 0x8000_0008),
                (0, Of::Count, 2),
                (1, Of::Count, 0),
            ],
        )
    };
    let rested = Case {
        words: &[(8, 0)],
        ..alone(
            "leaves",
            RESTS,
            &rows[1..2],
            &[(0, Of::Pc, 0x8000_0004), (0, Of::Count, 1)],
        )
    };
    all_come_to(&rt, rt.alloc(), &[case, rested])
}

#[test]
fn a_word_that_is_no_instruction_traps(rt: HostRuntime) -> Result<(), Fail> {
    let rows = [turn(0, TurnEnd::Trapped)];
    let case = alone(
        "illegal",
        NO_INSTRUCTION,
        &rows,
        &[
            (0, Of::Cause, 2),
            (0, Of::Value, 0xffff_ffff),
            (0, Of::Epc, 0x8000_0000),
            (0, Of::Count, 1),
        ],
    );
    all_come_to(&rt, rt.alloc(), &[case])
}

// The interrupt's number is 1, behind bit 63. In sstatus SPIE is bit 5 and SPP bit 8. It stays pending, in word 5 by the hart's bit, and isn't
// counted.
#[test]
fn interrupts_are_taken_between_instructions(rt: HostRuntime) -> Result<(), Fail> {
    let rows = [retired(0, 9), turn(0, TurnEnd::Trapped)];
    let supervisor = Case {
        words: &[(5, 1), (8, 1)],
        ..alone(
            "supervisor mode",
            INTERRUPTS_ITSELF,
            &rows,
            &[
                (0, Of::Cause, 0x8000_0000_0000_0001),
                (0, Of::Epc, 0x8000_0024),
                (0, Of::Value, 0),
                (0, Of::Pc, 0x8000_0104),
                (0, Of::Status, 0x120),
                (0, Of::X(10), 0),
                (0, Of::X(7), 0),
                (0, Of::Count, 9),
            ],
        )
    };
    let user = Case {
        words: &[(5, 1), (8, 1)],
        ..alone(
            "user mode",
            INTERRUPTED_IN_USER_MODE,
            &rows,
            &[
                (0, Of::Cause, 0x8000_0000_0000_0001),
                (0, Of::Epc, 0x8000_0024),
                (0, Of::Value, 0),
                (0, Of::Pc, 0x8000_0100),
                (0, Of::Status, 0),
                (0, Of::X(7), 0),
                (0, Of::Count, 9),
            ],
        )
    };
    all_come_to(&rt, rt.alloc(), &[supervisor, user])
}
