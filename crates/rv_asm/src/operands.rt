// What stands behind a mnemonic.
use asm_text::Mnemonic;

/// The operands of an instruction, by their form. `rd`, `rs1` and `rs2` are numbers of registers, below 32.
#[derive(Clone, Copy, Debug, PartialEq, Eq)]
pub enum Operands {
    Nothing,
    /// `rd, n`: bits 31 to 12 of the immediate.
    Upper { rd: u8, bits: u32 },
    /// `rd, T`: the target's distance in bytes from the instruction.
    Jump { rd: u8, distance: i32 },
    /// `rs1, rs2, T`.
    Branch { rs1: u8, rs2: u8, distance: i32 },
    /// `rd, n(rs1)`.
    Load { rd: u8, rs1: u8, offset: i32 },
    /// `rs2, n(rs1)`.
    Store { rs1: u8, rs2: u8, offset: i32 },
    /// `rd, rs1, n`.
    Immediate { rd: u8, rs1: u8, imm: i32 },
    /// `rd, rs1, n`: an amount in bits.
    Shift { rd: u8, rs1: u8, amount: u8 },
    /// `rd, rs1, rs2`.
    Registers { rd: u8, rs1: u8, rs2: u8 },
    /// `rs1, rs2`.
    Pages { rs1: u8, rs2: u8 },
    /// `rd, C, rs1`.
    Csr { rd: u8, csr: u16, rs1: u8 },
    /// `rd, C, n`: a number of five bits.
    CsrValue { rd: u8, csr: u16, value: u8 },
    /// `rd, (rs1)`.
    Reserve { rd: u8, rs1: u8 },
    /// `rd, rs2, (rs1)`.
    Atomic { rd: u8, rs1: u8, rs2: u8 },
}

/// An instruction taken apart: its mnemonic, the acquire and release bits of an atomic operation, and its operands.
#[derive(Clone, Copy, Debug, PartialEq, Eq)]
pub struct Parts {
    pub mnemonic: Mnemonic,
    pub aq: bool,
    pub rl: bool,
    pub operands: Operands,
}
