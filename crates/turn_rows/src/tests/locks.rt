// A hart whose lock the monitor holds.
use super::{Case, Of, all_come_to, alone, locked_out, retired, turn};
use hart_turn::{Anew, TurnEnd};
use std::test::Fail;

/// Loads on another page than that of its code.
const LOADS_ELSEWHERE: &[u32] = &[
    0x0050_0513, // addi x10, x0, 5
    0x0002_0397, // auipc x7, 0x20: 0x80020004
    0xffc3_b583, // ld x11, -4(x7)
];

/// Fences its own pages.
const FENCES_ITSELF: &[u32] = &[
    0x0050_0513, // addi x10, x0, 5
    0x1200_0073, // sfence.vma x0, x0
];

/// Fences all pages at both harts.
const FENCES_BOTH: &[u32] = &[
    0x5246_58b7, // lui x17, 0x52465
    0xe438_8893, // addi x17, x17, -0x1bd: RFENCE
    0x0010_0813, // addi x16, x0, 1
    0x0030_0513, // addi x10, x0, 3
    0x0000_0073, // ecall: remote SFENCE.VMA
];

/// Stores 8 bytes at 0x80040004, on a page that is kept where that of the code was.
const CROSSES_IN_ITS_SLOT: &[u32] = &[
    0x0004_0397, // auipc x7, 0x40: 0x80040000
    0x0063_b223, // sd x6, 4(x7)
];

// Word 11 is the lock of hart 0.
#[test]
fn a_hart_waits_for_its_lock(rt: HostRuntime) -> Result<(), Fail> {
    let before = [retired(0, 2)];
    let held = [locked_out(0), locked_out(0), turn(1, TurnEnd::Idle)];
    let fetching = Case {
        held: &held,
        words: &[(8, 0), (11, 9)],
        ..alone(
            "fetch",
            LOADS_ELSEWHERE,
            &[],
            &[(0, Of::Pc, 0x8000_0000), (0, Of::Count, 0)],
        )
    };
    let loading = Case {
        held: &held,
        words: &[(8, 0), (11, 9)],
        ..alone(
            "load",
            LOADS_ELSEWHERE,
            &before,
            &[
                (0, Of::X(10), 5),
                (0, Of::X(11), 0),
                (0, Of::Pc, 0x8000_0008),
                (0, Of::Count, 2),
            ],
        )
    };
    all_come_to(&rt, rt.alloc(), &[fetching, loading])
}

// The own flush comes before the look at the other's answer, and behind the post: 1 asks for a flush of all.
#[test]
fn a_fence_waits_for_its_lock(rt: HostRuntime) -> Result<(), Fail> {
    let first = [retired(0, 1)];
    let before = [retired(0, 4)];
    let held = [locked_out(0), locked_out(0)];
    let own = Case {
        held: &held,
        words: &[(8, 0), (11, 9)],
        ..alone(
            "own",
            FENCES_ITSELF,
            &first,
            &[
                (0, Of::X(10), 5),
                (0, Of::Pc, 0x8000_0004),
                (0, Of::Count, 1),
            ],
        )
    };
    let both = Case {
        held: &held,
        words: &[(8, 0), (11, 9), (224, 1)],
        ..alone(
            "both",
            FENCES_BOTH,
            &before,
            &[
                (0, Of::X(10), 3),
                (0, Of::Pc, 0x8000_0010),
                (0, Of::Count, 4),
            ],
        )
    };
    all_come_to(&rt, rt.alloc(), &[own, both])
}

// The store's page takes the slot of the code's before it asks for the section, so its fetch in the section needs the lock. PEND is word 1.
#[test]
fn a_hart_keeps_the_section_while_it_waits_for_its_lock(rt: HostRuntime) -> Result<(), Fail> {
    let rows = [retired(0, 1), turn(0, TurnEnd::Again(Anew::Section))];
    let held = [locked_out(0), locked_out(0)];
    let waiting = Case {
        held: &held,
        words: &[(1, 1), (8, 0), (11, 9)],
        memory: &[(0x4_0000, 0), (0x4_0008, 0)],
        ..alone(
            "waiting",
            CROSSES_IN_ITS_SLOT,
            &rows,
            &[(0, Of::Pc, 0x8000_0004), (0, Of::Count, 1)],
        )
    };
    all_come_to(&rt, rt.alloc(), &[waiting])
}
