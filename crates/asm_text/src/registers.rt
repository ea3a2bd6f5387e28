// Registers and CSRs by their names (RISC-V Unprivileged ISA, "RISC-V Assembly Programmer's Handbook"; Privileged
// Architecture, "CSR Listing").
ghost use Rattle.std.specs.Prelude.{◌≡◌, ◌<◌, IfSome, bytes_eq, length};
ghost use Rattle.std.specs.List.{position};
ghost use Rattle.asm_text.specs.Operand.{csr_named, csr_number_of, register_of};

use crate::numbers::{Number, number_of};

/// Registers by their numbers.
static NUMBERED: [&str; 32] = [
    "x0", "x1", "x2", "x3", "x4", "x5", "x6", "x7", "x8", "x9", "x10", "x11", "x12", "x13", "x14",
    "x15", "x16", "x17", "x18", "x19", "x20", "x21", "x22", "x23", "x24", "x25", "x26", "x27",
    "x28", "x29", "x30", "x31",
];

/// Registers by what they are for.
static NAMED: [&str; 32] = [
    "zero", "ra", "sp", "gp", "tp", "t0", "t1", "t2", "s0", "s1", "a0", "a1", "a2", "a3", "a4",
    "a5", "a6", "a7", "s2", "s3", "s4", "s5", "s6", "s7", "s8", "s9", "s10", "s11", "t3", "t4",
    "t5", "t6",
];

fn is_text(name: &str, text: &[u8]) -> bool
    ensures { result ≡ bytes_eq text.now name.now }
{
    text == name.as_bytes()
}

fn place_in(names: &[&str], text: &[u8]) -> Option<usize>
    ensures value { result ≡ position (λ name. bytes_eq text.now name.now) names.now }
    ensures within { IfSome result (λ n. n < length names.now) }
{
    names.iter().position(|name| is_text(name, text))
}

/// The number of the register that a text names.
pub fn register_of(text: &[u8]) -> Option<u8>
    ensures value { result ≡ register_of text.now }
    ensures within { IfSome result (λ n. n < 32) }
{
    match place_in(&NUMBERED, text) {
        Some(number) => Some(number as u8),
        None => place_in(&NAMED, text).map(|number| number as u8),
    }
}

fn csr_named(text: &[u8]) -> Option<u16>
    ensures { result ≡ csr_named text.now }
{
    if text == b"sstatus".as_slice() {
        Some(0x100)
    } else if text == b"sie".as_slice() {
        Some(0x104)
    } else if text == b"stvec".as_slice() {
        Some(0x105)
    } else if text == b"scounteren".as_slice() {
        Some(0x106)
    } else if text == b"sscratch".as_slice() {
        Some(0x140)
    } else if text == b"sepc".as_slice() {
        Some(0x141)
    } else if text == b"scause".as_slice() {
        Some(0x142)
    } else if text == b"stval".as_slice() {
        Some(0x143)
    } else if text == b"sip".as_slice() {
        Some(0x144)
    } else if text == b"satp".as_slice() {
        Some(0x180)
    } else {
        None
    }
}

/// The number of the CSR that a text names, or the number that it is.
pub fn csr_number_of(text: &[u8]) -> Option<Number>
    ensures { result ≡ csr_number_of text.now }
{
    match csr_named(text) {
        Some(csr) => Some(Number {
            negative: false,
            magnitude: u128::from(csr),
        }),
        None => number_of(text),
    }
}
