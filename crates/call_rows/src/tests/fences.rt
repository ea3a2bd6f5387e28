// Masks of harts, and the ranges of fences (SBI, "IPI Extension" and "RFENCE Extension").
ghost use Rattle.std.specs.Prelude.{◌≤◌};

use super::calls::push_all;
use super::harts::push_steps;
use super::{SUCCESS, failed, plays_on, plays_with, row};
use crate::Row;
use hart_calls::{SbiEnd, Span};
use sbi_rows::Error::{InvalidAddress, InvalidParam};
use sbi_rows::{
    FENCE_ROWS, FENCES_OF_STOPPED, INTERRUPTS_OF_FOUR, MASKS, MASKS_OF_EIGHT, MASKS_OF_FOUR,
    MASKS_OF_ONE, MASKS_OF_TWO, MaskRow, Named, RANGES, RFENCE, Reach, SEND,
};
use std::alloc::Global;
use std::process::Abort;
use std::test::Fail;
use step_laws::ipi_word;

/// The bits of the harts that are named, of so many, where all are there.
fn bits_of(named: Named, harts: u8) -> Option<u64>
    requires { harts ≤ 8 }
{
    match named {
        Named::Harts(bits) => Some(bits),
        Named::All => Some(0xff >> (8 - harts)),
        Named::Missing => None,
    }
}

/// What a fence of everything comes to at these harts.
fn fenced(bits: Option<u64>) -> SbiEnd {
    match bits {
        None => failed(InvalidParam),
        Some(0) => SUCCESS,
        Some(harts) => SbiEnd::Fence {
            harts,
            span: Span::All,
        },
    }
}

/// What an interrupt comes to, or a fence of instructions, which none of this machine needs.
fn sent(bits: Option<u64>) -> SbiEnd {
    match bits {
        None => failed(InvalidParam),
        Some(_) => SUCCESS,
    }
}

/// Fences by masks, on a machine of so many harts, of which none gets an interrupt.
fn masks_are_fenced(
    rt: &impl Abort,
    alloc: Global,
    harts: u8,
    masks: &[MaskRow],
) -> Result<(), Fail>
    requires some { 1 ≤ harts }
    requires most { harts ≤ 8 }
{
    let mut rows = Vec::new(alloc);
    for (mask, base, named) in masks {
        let args = [*mask, *base, 0, 0];
        let bits = bits_of(*named, harts);
        rows.push(row(0, (RFENCE, 0), args, false, sent(bits)))?;
        rows.push(row(0, (RFENCE, 1), args, false, fenced(bits)))?;
        rows.push(row(0, (RFENCE, 2), args, false, fenced(bits)))?;
    }
    let words = plays_on(rt, alloc, harts, &rows)?;
    assert_eq!(rt; words.get(ipi_word()), 0);
    Ok(())
}

/// Interrupts by masks: those that no hart gets one after another, and each other on a machine of its own.
fn masks_are_sent(rt: &impl Abort, alloc: Global, harts: u8, masks: &[MaskRow]) -> Result<(), Fail>
    requires some { 1 ≤ harts }
    requires most { harts ≤ 8 }
{
    let mut idle = Vec::new(alloc);
    for (mask, base, named) in masks {
        let bits = bits_of(*named, harts);
        let sends = row(0, SEND, [*mask, *base, 0, 0], false, sent(bits));
        let got = bits.unwrap_or(0);
        if got == 0 {
            idle.push(sends)?;
        } else {
            let words = plays_on(rt, alloc, harts, &[sends])?;
            assert_eq!(rt; words.get(ipi_word()), got, "{mask} {base}");
        }
    }
    let words = plays_on(rt, alloc, harts, &idle)?;
    assert_eq!(rt; words.get(ipi_word()), 0);
    Ok(())
}

#[test]
fn masks_name_harts(rt: HostRuntime) -> Result<(), Fail> {
    let alloc = rt.alloc();
    masks_are_fenced(&rt, alloc, 1, &MASKS)?;
    masks_are_fenced(&rt, alloc, 1, &MASKS_OF_ONE)?;
    masks_are_fenced(&rt, alloc, 2, &MASKS)?;
    masks_are_fenced(&rt, alloc, 2, &MASKS_OF_TWO)?;
    masks_are_fenced(&rt, alloc, 4, &MASKS)?;
    masks_are_fenced(&rt, alloc, 4, &MASKS_OF_FOUR)?;
    masks_are_fenced(&rt, alloc, 8, &MASKS_OF_EIGHT)
}

#[test]
fn interrupts_are_sent(rt: HostRuntime) -> Result<(), Fail> {
    let alloc = rt.alloc();
    masks_are_sent(&rt, alloc, 1, &MASKS)?;
    masks_are_sent(&rt, alloc, 1, &MASKS_OF_ONE)?;
    masks_are_sent(&rt, alloc, 2, &MASKS)?;
    masks_are_sent(&rt, alloc, 2, &MASKS_OF_TWO)?;
    masks_are_sent(&rt, alloc, 4, &MASKS)?;
    masks_are_sent(&rt, alloc, 4, &MASKS_OF_FOUR)?;
    masks_are_sent(&rt, alloc, 4, &INTERRUPTS_OF_FOUR)?;
    masks_are_sent(&rt, alloc, 8, &MASKS_OF_EIGHT)
}

/// What hart 0's fence of a range comes to at itself.
fn reached(reach: Reach) -> SbiEnd {
    match reach {
        Reach::Pages(page, count) => SbiEnd::Fence {
            harts: 1,
            span: Span::Pages { page, count },
        },
        Reach::Everything => SbiEnd::Fence {
            harts: 1,
            span: Span::All,
        },
        Reach::Beyond => failed(InvalidAddress),
    }
}

#[test]
fn ranges_are_of_pages(rt: HostRuntime) -> Result<(), Fail> {
    let alloc = rt.alloc();
    let mut rows = Vec::new(alloc);
    for (start, size, reach) in RANGES {
        for function in [1, 2] {
            let args = [1, 0, start, size];
            rows.push(row(0, (RFENCE, function), args, false, reached(reach)))?;
        }
    }
    // of both errors the mask's comes first
    push_all(&mut rows, RFENCE, &FENCE_ROWS)?;
    plays_on(&rt, alloc, 1, &rows)?;
    plays_on(&rt, alloc, 2, &rows)?;
    plays_on(&rt, alloc, 4, &rows)?;
    Ok(())
}

// A stopped hart is there: a fence names it as any other.
#[test]
fn fences_name_stopped_harts(rt: HostRuntime) -> Result<(), Fail> {
    let mut rows = Vec::new(rt.alloc());
    push_steps(&mut rows, &[0, 3], &FENCES_OF_STOPPED)?;
    plays_with(&rt, rt.alloc(), 4, 3, &rows)?;
    Ok(())
}
