// Instructions as text, in the assembler's own syntax: registers by number, no aliases.
ghost use Rattle.std.specs.Prelude.{◌≡◌, ◌++◌, ◌≤◌, ◌<◌, ◌+◌, ◌^◌, OnOk, string_bytes, Some, None, codes};
ghost use Rattle.asm_text.specs.Table.{name_of};
ghost use Rattle.rv_asm.specs.Listing.{hex, hex_digit, target, operand_text, order_text, parts_text};

use crate::operands::{Operands, Parts};
use asm_text::name_of;
use std::alloc::AllocError;

fn hex_digit(digit: u32) -> char
    requires { digit < 16 }
    ensures digit { result ≡ hex_digit digit }
    ensures ascii { result < 128 }
{
    if digit < 10 {
        char::from(b'0' + digit as u8)
    } else {
        char::from(b'a' - 10 + digit as u8)
    }
}

/// Appends a number in so many hexadecimal digits.
#[tactic(auto, unfolding(crate::specs::Listing::hex))]
pub(crate) fn push_hex(text: &mut String, digits: u8, value: u64) -> Result<(), AllocError>
    ensures { OnOk result (string_bytes text.new ≡ string_bytes text.old ++ hex digits value) }
{
    if digits == 0 {
        return Ok(());
    }
    push_hex(text, digits - 1, value / 16)?;
    text.push(hex_digit((value % 16) as u32))
}

/// The address at a distance.
fn target(place: u64, distance: i32) -> u64
    requires low { 2 ^ 31 ≤ place }
    requires high { place < 2 ^ 40 }
    ensures { result ≡ target place distance }
{
    if distance < 0 {
        place - u64::from(distance.unsigned_abs())
    } else {
        place + distance as u64
    }
}

/// Appends the operands of an instruction at a place, behind a blank.
fn push_operands(text: &mut String, place: u64, operands: &Operands) -> Result<(), AllocError>
    requires low { 2 ^ 31 ≤ place }
    requires high { place < 2 ^ 40 }
    ensures { OnOk result (string_bytes text.new ≡ string_bytes text.old ++ operand_text place operands.now) }
{
    match *operands {
        Operands::Nothing => Ok(()),
        Operands::Upper { rd, bits } => write!(text, " x{rd}, 0x{bits:x}"),
        Operands::Jump { rd, distance } => {
            let target = target(place, distance);
            write!(text, " x{rd}, 0x{target:x}")
        }
        Operands::Branch { rs1, rs2, distance } => {
            let target = target(place, distance);
            write!(text, " x{rs1}, x{rs2}, 0x{target:x}")
        }
        Operands::Load { rd, rs1, offset } => write!(text, " x{rd}, {offset}(x{rs1})"),
        Operands::Store { rs1, rs2, offset } => write!(text, " x{rs2}, {offset}(x{rs1})"),
        Operands::Immediate { rd, rs1, imm } => write!(text, " x{rd}, x{rs1}, {imm}"),
        Operands::Shift { rd, rs1, amount } => write!(text, " x{rd}, x{rs1}, {amount}"),
        Operands::Registers { rd, rs1, rs2 } => write!(text, " x{rd}, x{rs1}, x{rs2}"),
        Operands::Pages { rs1, rs2 } => write!(text, " x{rs1}, x{rs2}"),
        Operands::Csr { rd, csr, rs1 } => write!(text, " x{rd}, 0x{csr:x}, x{rs1}"),
        Operands::CsrValue { rd, csr, value } => write!(text, " x{rd}, 0x{csr:x}, {value}"),
        Operands::Reserve { rd, rs1 } => write!(text, " x{rd}, (x{rs1})"),
        Operands::Atomic { rd, rs1, rs2 } => write!(text, " x{rd}, x{rs2}, (x{rs1})"),
    }
}

fn order_text(aq: bool, rl: bool) -> &'static str
    ensures { result.now ≡ order_text aq rl }
{
    match (aq, rl) {
        (false, false) => "",
        (true, false) => ".aq",
        (false, true) => ".rl",
        (true, true) => ".aqrl",
    }
}

/// Appends an instruction at a place.
fn push_instr(text: &mut String, place: u64, parts: &Parts) -> Result<(), AllocError>
    requires low { 2 ^ 31 ≤ place }
    requires high { place < 2 ^ 40 }
    ensures { OnOk result (string_bytes text.new ≡ string_bytes text.old ++ name_of parts.now.mnemonic ++ order_text parts.now.aq parts.now.rl ++ operand_text place parts.now.operands) }
{
    text.push_str(name_of(parts.mnemonic))?;
    text.push_str(order_text(parts.aq, parts.rl))?;
    push_operands(text, place, &parts.operands)
}

/// Appends a word that no instruction spells.
fn push_word(text: &mut String, word: u32) -> Result<(), AllocError>
    ensures { OnOk result (string_bytes text.new ≡ string_bytes text.old ++ codes ".word 0x" ++ hex 8 word) }
{
    text.push_str(".word 0x")?;
    push_hex(text, 8, u64::from(word))
}

/// Appends a word that lies at a place, by the parts of its instruction.
pub(crate) fn push_parts(
    text: &mut String,
    place: u64,
    word: u32,
    parts: Option<Parts>,
) -> Result<(), AllocError>
    requires low { 2 ^ 31 ≤ place }
    requires high { place < 2 ^ 40 }
    ensures { OnOk result (string_bytes text.new ≡ string_bytes text.old ++ parts_text place word parts) }
{
    match parts {
        Some(parts) => push_instr(text, place, &parts),
        None => push_word(text, word),
    }
}
