// Bytes that are added to an image.
ghost use Rattle.std.specs.Prelude.{◌≡◌, ◌≤◌, ◌<◌, ◌*◌, ◌^◌, ◌++◌, OnOk, Ok, replicate};
ghost use Rattle.rv64_decode.specs.Encoding.{IsInRange};
ghost use Rattle.rv64_decode.specs.Format.{IsSigned};
ghost use Rattle.asm_text.specs.Operand.{bits_of};
ghost use Rattle.rv_asm.specs.Assembly.{bytes_of, low_part, upper_part, word_bytes};

use asm_text::Number;
use rv64_decode::{Instr, encode};
use std::alloc::AllocError;

/// Appends the low bytes of a number, the lowest first.
#[tactic(auto, using(crate::proofs::OneByOne::first_byte), unfolding(crate::specs::Assembly::bytes_of))]
pub(crate) fn push_bytes(image: &mut Vec<u8>, count: u8, value: u128) -> Result<(), AllocError>
    ensures { OnOk result (image.new.items ≡ image.old.items ++ bytes_of count value) }
{
    if count == 0 {
        return Ok(());
    }
    image.push((value % 256) as u8)?;
    push_bytes(image, count - 1, value / 256)?;
    Ok(())
}

pub(crate) fn push_zeros(image: &mut Vec<u8>, count: usize) -> Result<(), AllocError>
    ensures { OnOk result (image.new.items ≡ image.old.items ++ replicate count 0) }
{
    for _i in 0..count {
        image.push(0)?;
    }
    Ok(())
}

/// Appends an instruction's word.
pub(crate) fn push_word(image: &mut Vec<u8>, instr: Instr) -> Result<(), AllocError>
    requires { IsInRange instr }
    ensures { OnOk result (image.new.items ≡ image.old.items ++ word_bytes instr) }
{
    push_bytes(image, 4, u128::from(encode(&instr)))
}

/// Appends the words of two instructions.
pub(crate) fn push_two(image: &mut Vec<u8>, instr: Instr, other: Instr) -> Result<(), AllocError>
    requires first { IsInRange instr }
    requires second { IsInRange other }
    ensures { OnOk result (image.new.items ≡ image.old.items ++ word_bytes instr ++ word_bytes other) }
{
    push_word(image, instr)?;
    push_word(image, other)
}

/// A number in so many bits.
pub(crate) fn bits_of(width: u8, n: Number) -> u128
    requires width { width ≤ 64 }
    requires within { n.magnitude ≤ 2 ^ width }
    ensures { result ≡ bits_of width n }
{
    if n.negative && n.magnitude != 0 {
        (1u128 << width) - n.magnitude
    } else {
        n.magnitude
    }
}

/// The low twelve bits of a number of 32, as a signed number.
pub(crate) fn low_part(bits: u32) -> i32
    ensures value { result ≡ low_part bits }
    ensures signed { IsSigned 12 result }
{
    let low = bits % 0x1000;
    if low < 0x800 {
        low.cast_signed()
    } else {
        -((0x1000 - low).cast_signed())
    }
}

/// The upper twenty bits that give the number with its low part.
pub(crate) fn upper_part(bits: u32) -> u32
    ensures value { result ≡ upper_part bits }
    ensures within { result < 2 ^ 20 }
{
    ((u64::from(bits) + 0x800) / 0x1000 % 0x10_0000) as u32
}
