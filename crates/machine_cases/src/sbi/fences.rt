// Remote fences and the masks of harts, and translations that another hart changes.
ghost use Rattle.std.specs.Prelude.{◌<◌};

use super::calls::rows_answer;
use super::{FAR, go_on, play};
use crate::supervisor::machine_of;
use ref_machine::PlainMachine;
use sbi_rows::Error::{InvalidAddress, InvalidParam};
use sbi_rows::Want::{Fails, Gives};
use sbi_rows::{
    CallRow, FENCE_ROWS, FENCES_OF_STOPPED, IPI, MASKS, MASKS_OF_EIGHT, MASKS_OF_FOUR,
    MASKS_OF_ONE, MASKS_OF_TWO, MaskRow, Named, RANGES, RFENCE, Reach, Want,
};
use std::alloc::{AllocError, Global};
use std::process::Abort;
use std::test::Fail;

/// What an interrupt or a fence of these harts comes to.
pub(super) fn named_want(named: Named) -> Want {
    match named {
        Named::Harts(_) | Named::All => Gives(0),
        Named::Missing => Fails(InvalidParam),
    }
}

/// What a fence of this range comes to, wherever it reaches.
fn reach_want(reach: Reach) -> Want {
    match reach {
        Reach::Pages(_, _) | Reach::Everything => Gives(0),
        Reach::Beyond => Fails(InvalidAddress),
    }
}

fn mask_rows(alloc: Global, function: u64, masks: &[MaskRow]) -> Result<Vec<CallRow>, AllocError> {
    let mut rows = Vec::new(alloc);
    for (mask, base, named) in masks {
        rows.push((function, [*mask, *base, 0, 0], named_want(*named)))?;
    }
    Ok(rows)
}

#[test]
fn masks_name_harts(rt: HostRuntime) -> Result<(), Fail> {
    let alloc = rt.alloc();
    for (extension, function) in [(IPI, 0), (RFENCE, 0), (RFENCE, 1), (RFENCE, 2)] {
        let rows = mask_rows(alloc, function, &MASKS)?;
        rows_answer(&rt, alloc, 1, extension, &rows)?;
        rows_answer(&rt, alloc, 2, extension, &rows)?;
        rows_answer(&rt, alloc, 4, extension, &rows)?;
        let rows = mask_rows(alloc, function, &MASKS_OF_ONE)?;
        rows_answer(&rt, alloc, 1, extension, &rows)?;
        let rows = mask_rows(alloc, function, &MASKS_OF_TWO)?;
        rows_answer(&rt, alloc, 2, extension, &rows)?;
        let rows = mask_rows(alloc, function, &MASKS_OF_FOUR)?;
        rows_answer(&rt, alloc, 4, extension, &rows)?;
        let rows = mask_rows(alloc, function, &MASKS_OF_EIGHT)?;
        rows_answer(&rt, alloc, 8, extension, &rows)?;
    }
    Ok(())
}

#[test]
fn ranges_end_in_memory(rt: HostRuntime) -> Result<(), Fail> {
    let alloc = rt.alloc();
    let mut rows = Vec::new(alloc);
    for function in [1, 2] {
        for (start, size, reach) in RANGES {
            rows.push((function, [1, 0, start, size], reach_want(reach)))?;
        }
    }
    for row in FENCE_ROWS {
        rows.push(row)?;
    }
    rows_answer(&rt, alloc, 1, RFENCE, &rows)?;
    rows_answer(&rt, alloc, 4, RFENCE, &rows)
}

// A stopped hart is there: a fence names it as any other.
#[test]
fn fences_name_stopped_harts(rt: HostRuntime) -> Result<(), Fail> {
    let machine = play(&rt, rt.alloc(), 4, FAR, &FENCES_OF_STOPPED)?;
    // 10 instructions to its first call, and 12 to each of the others
    assert_eq!(rt; machine.count(3), 34);
    assert_eq!(rt; machine.arch(3).pc, 0x8000_002c);
    Ok(())
}

/// Hart 0 starts hart 1, and maps its page 1 to the next of RAM's. Hart 1 loads twice from that page.
const TWO_HARTS: [u32; 20] = [
    0x0000_0597, // auipc x11, 0
    0x02c5_8593, // addi x11, x11, 0x2c
    0x0010_0513, // addi x10, x0, 1
    0x0048_58b7, // lui x17, 0x485
    0x34d8_8893, // addi x17, x17, 0x34d
    0x0000_0073, // ecall
    0x0001_2497, // auipc x9, 0x12
    0x2000_8637, // lui x12, 0x20008
    0x4c76_0613, // addi x12, x12, 0x4c7
    0xfec4_b823, // sd x12, -16(x9)
    0x0000_006f, // jal x0, pc + 0
    0x0010_0293, // addi x5, x0, 1
    0x03f2_9293, // slli x5, x5, 63
    0x0008_0337, // lui x6, 0x80
    0x0103_0313, // addi x6, x6, 0x10
    0x0062_e2b3, // or x5, x5, x6
    0x1802_9073, // csrrw x0, satp, x5
    0x0000_13b7, // lui x7, 1
    0x0003_b503, // ld x10, 0(x7)
    0x0003_b503, // ld x10, 0(x7)
];

/// A hart's pc, satp and x10.
fn compare(rt: &impl Abort, machine: &PlainMachine, hart: u8, want: (u64, u64, u64))
    requires { hart < machine.now.shared.layout.harts }
{
    let arch = machine.arch(hart);
    assert_eq!(rt; (arch.pc, arch.satp, arch.x[10]), want, "hart {hart}");
}

#[test]
fn harts_translate_by_one_memory(rt: HostRuntime) -> Result<(), Fail> {
    let mut machine = machine_of(rt.alloc(), 2, &TWO_HARTS)?;
    go_on(&rt, &mut machine, 0, 6);
    go_on(&rt, &mut machine, 1, 9);
    compare(&rt, &machine, 1, (0x8000_004c, 0x8000_0000_0008_0010, 0x11));
    go_on(&rt, &mut machine, 0, 4);
    compare(&rt, &machine, 0, (0x8000_0028, 0, 0));
    go_on(&rt, &mut machine, 1, 1);
    compare(&rt, &machine, 1, (0x8000_0050, 0x8000_0000_0008_0010, 0x22));
    assert_eq!(rt; machine.arch(1).scause, 0);
    assert_eq!(rt; (machine.count(0), machine.count(1)), (10, 9));
    Ok(())
}
