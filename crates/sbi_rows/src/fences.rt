// Masks of harts, which interrupts and fences take, and the ranges of fences ("IPI Extension" and "RFENCE Extension").
use crate::calls::Error::{InvalidAddress, InvalidParam};
use crate::calls::Want::{Fails, Fences, Gives, Stops};
use crate::calls::{ALL, BEGIN, CallRow, FENCE, HartRow, NO_ARGS, START, STOP, UPPER};
use crate::harts::FOURTH_LIST;

/// Which harts a mask and its base name: those of these bits, all that there are, or one that is not there.
#[derive(Clone, Copy, Debug)]
pub enum Named {
    Harts(u64),
    All,
    Missing,
}

/// A mask, its base, and which harts they name.
pub type MaskRow = (u64, u64, Named);

/// On machines of one to four harts.
pub const MASKS: [MaskRow; 21] = [
    (0, 0, Named::Harts(0)),
    (1, 0, Named::Harts(1)),
    (0, 1, Named::Harts(0)),
    (0, 9, Named::Harts(0)),
    (0, ALL - 1, Named::Harts(0)),
    // all harts, whatever the mask
    (0, ALL, Named::All),
    (1, ALL, Named::All),
    (2, ALL, Named::All),
    (ALL, ALL, Named::All),
    (0x10, 0, Named::Missing),
    (0x11, 0, Named::Missing),
    (0x100, 0, Named::Missing),
    (UPPER, 0, Named::Missing),
    (1 << 63, 0, Named::Missing),
    (ALL, 0, Named::Missing),
    (1, 9, Named::Missing),
    (1, 0x100, Named::Missing),
    (1, UPPER, Named::Missing),
    // 2^64 - 1, 2^64 and 2^64 + 1
    (2, ALL - 1, Named::Missing),
    (4, ALL - 1, Named::Missing),
    (8, ALL - 1, Named::Missing),
];

pub const MASKS_OF_ONE: [MaskRow; 4] = [
    (2, 0, Named::Missing),
    (3, 0, Named::Missing),
    (1, 1, Named::Missing),
    (8, 0, Named::Missing),
];

pub const MASKS_OF_TWO: [MaskRow; 7] = [
    (2, 0, Named::Harts(2)),
    (3, 0, Named::Harts(3)),
    (1, 1, Named::Harts(2)),
    (4, 0, Named::Missing),
    (7, 0, Named::Missing),
    (2, 1, Named::Missing),
    (1, 2, Named::Missing),
];

pub const MASKS_OF_FOUR: [MaskRow; 9] = [
    (2, 0, Named::Harts(2)),
    (8, 0, Named::Harts(8)),
    (0xf, 0, Named::Harts(0xf)),
    (1, 1, Named::Harts(2)),
    (1, 3, Named::Harts(8)),
    (7, 1, Named::Harts(0xe)),
    (2, 3, Named::Missing),
    (1, 4, Named::Missing),
    (0xf, 1, Named::Missing),
];

pub const MASKS_OF_EIGHT: [MaskRow; 6] = [
    (0x80, 0, Named::Harts(0x80)),
    (0xff, 0, Named::Harts(0xff)),
    (1, 7, Named::Harts(0x80)),
    (2, 7, Named::Missing),
    (1, 8, Named::Missing),
    (0x180, 0, Named::Missing),
];

/// On four harts, each of which is asked which interrupts it has.
pub const INTERRUPTS_OF_FOUR: [MaskRow; 13] = [
    (1, 0, Named::Harts(1)),
    (2, 0, Named::Harts(2)),
    (1, 2, Named::Harts(4)),
    (5, 1, Named::Harts(0xa)),
    (0xf, 0, Named::Harts(0xf)),
    (0, 0, Named::Harts(0)),
    (0, 9, Named::Harts(0)),
    (0, ALL, Named::All),
    (4, ALL, Named::All),
    (ALL, ALL, Named::All),
    // one hart is not there, so nothing is done
    (0x13, 0, Named::Missing),
    (3, 3, Named::Missing),
    (7, ALL - 1, Named::Missing),
];

/// What a range's fence reaches: so many pages from this one on; everything, where it has more than 512 pages or says so; or beyond the
/// 2^64 bytes that there are, which is an error.
#[derive(Clone, Copy, Debug)]
pub enum Reach {
    Pages(u64, u16),
    Everything,
    Beyond,
}

/// A range's start and size, and what it reaches.
pub type RangeRow = (u64, u64, Reach);

pub const RANGES: [RangeRow; 25] = [
    (0, 0, Reach::Everything),
    (0, 1, Reach::Pages(0, 1)),
    (0, 0x1000, Reach::Pages(0, 1)),
    (0, 0x1001, Reach::Pages(0, 2)),
    (0x1000, 0, Reach::Pages(1, 1)),
    (0xfff, 2, Reach::Pages(0, 2)),
    (0x1000, 0x4_0000, Reach::Pages(1, 64)),
    (0x1000, 0x4_0001, Reach::Pages(1, 65)),
    (0x1000, 532_480, Reach::Pages(1, 130)),
    // 512 pages, and one more
    (0x1000, 0x20_0000, Reach::Pages(1, 512)),
    (0x1000, 0x20_0001, Reach::Everything),
    (0x1001, 0x20_0000, Reach::Everything),
    (0, ALL - 1, Reach::Everything),
    (2, ALL - 1, Reach::Everything),
    (3, ALL - 1, Reach::Beyond),
    (1 << 63, 1 << 63, Reach::Everything),
    (1 << 63, (1 << 63) + 1, Reach::Beyond),
    (ALL - 0xfff, 0x1000, Reach::Pages(0xf_ffff_ffff_ffff, 1)),
    (ALL - 0xfff, 0x1001, Reach::Beyond),
    (
        0xffff_ffff_ffe0_0000,
        0x20_0000,
        Reach::Pages(0xf_ffff_ffff_fe00, 512),
    ),
    // one page, one byte and one more
    (ALL, 0, Reach::Pages(0xf_ffff_ffff_ffff, 1)),
    (ALL, 1, Reach::Pages(0xf_ffff_ffff_ffff, 1)),
    (ALL, 2, Reach::Beyond),
    // everything, from wherever
    (1, ALL, Reach::Everything),
    (ALL, ALL, Reach::Everything),
];

/// Of both errors the mask's comes first; where no hart is named the range has its error all the same.
pub const FENCE_ROWS: [CallRow; 6] = [
    (0, [1, 0, ALL, 2], Gives(0)),
    (1, [0, 0, ALL, 2], Fails(InvalidAddress)),
    (1, [0, ALL, ALL, 2], Fails(InvalidAddress)),
    (1, [1, 9, ALL, 2], Fails(InvalidParam)),
    (2, [1, 9, ALL, 2], Fails(InvalidParam)),
    (2, [0, 9, ALL, 2], Fails(InvalidAddress)),
];

/// On four harts: a stopped hart is there, and a fence names it as any other.
pub const FENCES_OF_STOPPED: [HartRow; 12] = [
    (0, FENCE, [8, 0, 0, 0], Fences(8)),
    (0, START, [3, BEGIN, FOURTH_LIST, 0], Gives(0)),
    (0, FENCE, [8, 0, 0, 0], Fences(8)),
    (3, FENCE, [1, 0, 0, 0], Fences(1)),
    (3, FENCE, [8, 0, 0, 0], Fences(8)),
    (0, FENCE, [9, 0, 0, 0], Fences(9)),
    (3, STOP, NO_ARGS, Stops),
    (0, FENCE, [8, 0, 0, 0], Fences(8)),
    (0, FENCE, [1, 9, 0, 0], Fails(InvalidParam)),
    (0, FENCE, [0, ALL, 0, 0], Fences(0xf)),
    (0, FENCE, [0xf, 0, 0, 0], Fences(0xf)),
    (0, FENCE, [1, 3, 0, 0], Fences(8)),
];
