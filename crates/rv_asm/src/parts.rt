// Instructions taken apart, as a text spells them.
ghost use Rattle.std.specs.Prelude.{◌≡◌, None, if◌then◌else◌};
ghost use Rattle.rv_asm.specs.declared.operands.Operands.{Operands as TheOperands};
ghost use Rattle.rv_asm.specs.Parts.{ordered, parts_of, plain, upper_bits};

use crate::operands::{Operands, Parts};
use asm_text::Mnemonic;
use rv64_decode::Instr;

fn upper_bits(imm: i32) -> u32
    ensures { result ≡ upper_bits imm }
{
    imm.cast_unsigned() / 0x1000
}

fn ordered(mnemonic: Mnemonic, aq: bool, rl: bool, operands: Operands) -> Option<Parts>
    ensures { result ≡ ordered mnemonic aq rl operands }
{
    Some(Parts {
        mnemonic,
        aq,
        rl,
        operands,
    })
}

fn plain(mnemonic: Mnemonic, operands: Operands) -> Option<Parts>
    ensures { result ≡ plain mnemonic operands }
{
    ordered(mnemonic, false, false, operands)
}

fn fence(mnemonic: Mnemonic, has_form: bool) -> Option<Parts>
    ensures { result ≡ (if has_form then plain mnemonic TheOperands.Nothing else None) }
{
    if has_form {
        plain(mnemonic, Operands::Nothing)
    } else {
        None
    }
}

/// The parts of an instruction; `None` of a fence that no text spells.
pub(crate) fn parts_of(instr: &Instr) -> Option<Parts>
    ensures { result ≡ parts_of instr.now }
{
    match *instr {
        Instr::Lui { rd, imm } => plain(
            Mnemonic::Lui,
            Operands::Upper {
                rd,
                bits: upper_bits(imm),
            },
        ),
        Instr::Auipc { rd, imm } => plain(
            Mnemonic::Auipc,
            Operands::Upper {
                rd,
                bits: upper_bits(imm),
            },
        ),
        Instr::Jal { rd, imm } => plain(Mnemonic::Jal, Operands::Jump { rd, distance: imm }),
        Instr::Jalr { rd, rs1, imm } => plain(
            Mnemonic::Jalr,
            Operands::Load {
                rd,
                rs1,
                offset: imm,
            },
        ),
        Instr::Beq { rs1, rs2, imm } => plain(
            Mnemonic::Beq,
            Operands::Branch {
                rs1,
                rs2,
                distance: imm,
            },
        ),
        Instr::Bne { rs1, rs2, imm } => plain(
            Mnemonic::Bne,
            Operands::Branch {
                rs1,
                rs2,
                distance: imm,
            },
        ),
        Instr::Blt { rs1, rs2, imm } => plain(
            Mnemonic::Blt,
            Operands::Branch {
                rs1,
                rs2,
                distance: imm,
            },
        ),
        Instr::Bge { rs1, rs2, imm } => plain(
            Mnemonic::Bge,
            Operands::Branch {
                rs1,
                rs2,
                distance: imm,
            },
        ),
        Instr::Bltu { rs1, rs2, imm } => plain(
            Mnemonic::Bltu,
            Operands::Branch {
                rs1,
                rs2,
                distance: imm,
            },
        ),
        Instr::Bgeu { rs1, rs2, imm } => plain(
            Mnemonic::Bgeu,
            Operands::Branch {
                rs1,
                rs2,
                distance: imm,
            },
        ),
        Instr::Lb { rd, rs1, imm } => plain(
            Mnemonic::Lb,
            Operands::Load {
                rd,
                rs1,
                offset: imm,
            },
        ),
        Instr::Lh { rd, rs1, imm } => plain(
            Mnemonic::Lh,
            Operands::Load {
                rd,
                rs1,
                offset: imm,
            },
        ),
        Instr::Lw { rd, rs1, imm } => plain(
            Mnemonic::Lw,
            Operands::Load {
                rd,
                rs1,
                offset: imm,
            },
        ),
        Instr::Ld { rd, rs1, imm } => plain(
            Mnemonic::Ld,
            Operands::Load {
                rd,
                rs1,
                offset: imm,
            },
        ),
        Instr::Lbu { rd, rs1, imm } => plain(
            Mnemonic::Lbu,
            Operands::Load {
                rd,
                rs1,
                offset: imm,
            },
        ),
        Instr::Lhu { rd, rs1, imm } => plain(
            Mnemonic::Lhu,
            Operands::Load {
                rd,
                rs1,
                offset: imm,
            },
        ),
        Instr::Lwu { rd, rs1, imm } => plain(
            Mnemonic::Lwu,
            Operands::Load {
                rd,
                rs1,
                offset: imm,
            },
        ),
        Instr::Sb { rs1, rs2, imm } => plain(
            Mnemonic::Sb,
            Operands::Store {
                rs1,
                rs2,
                offset: imm,
            },
        ),
        Instr::Sh { rs1, rs2, imm } => plain(
            Mnemonic::Sh,
            Operands::Store {
                rs1,
                rs2,
                offset: imm,
            },
        ),
        Instr::Sw { rs1, rs2, imm } => plain(
            Mnemonic::Sw,
            Operands::Store {
                rs1,
                rs2,
                offset: imm,
            },
        ),
        Instr::Sd { rs1, rs2, imm } => plain(
            Mnemonic::Sd,
            Operands::Store {
                rs1,
                rs2,
                offset: imm,
            },
        ),
        Instr::Addi { rd, rs1, imm } => plain(Mnemonic::Addi, Operands::Immediate { rd, rs1, imm }),
        Instr::Slti { rd, rs1, imm } => plain(Mnemonic::Slti, Operands::Immediate { rd, rs1, imm }),
        Instr::Sltiu { rd, rs1, imm } => plain(
            Mnemonic::Sltiu,
            Operands::Immediate { rd, rs1, imm },
        ),
        Instr::Xori { rd, rs1, imm } => plain(Mnemonic::Xori, Operands::Immediate { rd, rs1, imm }),
        Instr::Ori { rd, rs1, imm } => plain(Mnemonic::Ori, Operands::Immediate { rd, rs1, imm }),
        Instr::Andi { rd, rs1, imm } => plain(Mnemonic::Andi, Operands::Immediate { rd, rs1, imm }),
        Instr::Slli { rd, rs1, amount } => plain(
            Mnemonic::Slli,
            Operands::Shift { rd, rs1, amount },
        ),
        Instr::Srli { rd, rs1, amount } => plain(
            Mnemonic::Srli,
            Operands::Shift { rd, rs1, amount },
        ),
        Instr::Srai { rd, rs1, amount } => plain(
            Mnemonic::Srai,
            Operands::Shift { rd, rs1, amount },
        ),
        Instr::Addiw { rd, rs1, imm } => plain(
            Mnemonic::Addiw,
            Operands::Immediate { rd, rs1, imm },
        ),
        Instr::Slliw { rd, rs1, amount } => plain(
            Mnemonic::Slliw,
            Operands::Shift { rd, rs1, amount },
        ),
        Instr::Srliw { rd, rs1, amount } => plain(
            Mnemonic::Srliw,
            Operands::Shift { rd, rs1, amount },
        ),
        Instr::Sraiw { rd, rs1, amount } => plain(
            Mnemonic::Sraiw,
            Operands::Shift { rd, rs1, amount },
        ),
        Instr::Add { rd, rs1, rs2 } => plain(Mnemonic::Add, Operands::Registers { rd, rs1, rs2 }),
        Instr::Sll { rd, rs1, rs2 } => plain(Mnemonic::Sll, Operands::Registers { rd, rs1, rs2 }),
        Instr::Slt { rd, rs1, rs2 } => plain(Mnemonic::Slt, Operands::Registers { rd, rs1, rs2 }),
        Instr::Sltu { rd, rs1, rs2 } => plain(Mnemonic::Sltu, Operands::Registers { rd, rs1, rs2 }),
        Instr::Xor { rd, rs1, rs2 } => plain(Mnemonic::Xor, Operands::Registers { rd, rs1, rs2 }),
        Instr::Srl { rd, rs1, rs2 } => plain(Mnemonic::Srl, Operands::Registers { rd, rs1, rs2 }),
        Instr::Or { rd, rs1, rs2 } => plain(Mnemonic::Or, Operands::Registers { rd, rs1, rs2 }),
        Instr::And { rd, rs1, rs2 } => plain(Mnemonic::And, Operands::Registers { rd, rs1, rs2 }),
        Instr::Sub { rd, rs1, rs2 } => plain(Mnemonic::Sub, Operands::Registers { rd, rs1, rs2 }),
        Instr::Sra { rd, rs1, rs2 } => plain(Mnemonic::Sra, Operands::Registers { rd, rs1, rs2 }),
        Instr::Addw { rd, rs1, rs2 } => plain(Mnemonic::Addw, Operands::Registers { rd, rs1, rs2 }),
        Instr::Sllw { rd, rs1, rs2 } => plain(Mnemonic::Sllw, Operands::Registers { rd, rs1, rs2 }),
        Instr::Srlw { rd, rs1, rs2 } => plain(Mnemonic::Srlw, Operands::Registers { rd, rs1, rs2 }),
        Instr::Subw { rd, rs1, rs2 } => plain(Mnemonic::Subw, Operands::Registers { rd, rs1, rs2 }),
        Instr::Sraw { rd, rs1, rs2 } => plain(Mnemonic::Sraw, Operands::Registers { rd, rs1, rs2 }),
        Instr::Mul { rd, rs1, rs2 } => plain(Mnemonic::Mul, Operands::Registers { rd, rs1, rs2 }),
        Instr::Mulh { rd, rs1, rs2 } => plain(Mnemonic::Mulh, Operands::Registers { rd, rs1, rs2 }),
        Instr::Mulhsu { rd, rs1, rs2 } => plain(
            Mnemonic::Mulhsu,
            Operands::Registers { rd, rs1, rs2 },
        ),
        Instr::Mulhu { rd, rs1, rs2 } => plain(
            Mnemonic::Mulhu,
            Operands::Registers { rd, rs1, rs2 },
        ),
        Instr::Div { rd, rs1, rs2 } => plain(Mnemonic::Div, Operands::Registers { rd, rs1, rs2 }),
        Instr::Divu { rd, rs1, rs2 } => plain(Mnemonic::Divu, Operands::Registers { rd, rs1, rs2 }),
        Instr::Rem { rd, rs1, rs2 } => plain(Mnemonic::Rem, Operands::Registers { rd, rs1, rs2 }),
        Instr::Remu { rd, rs1, rs2 } => plain(Mnemonic::Remu, Operands::Registers { rd, rs1, rs2 }),
        Instr::Mulw { rd, rs1, rs2 } => plain(Mnemonic::Mulw, Operands::Registers { rd, rs1, rs2 }),
        Instr::Divw { rd, rs1, rs2 } => plain(Mnemonic::Divw, Operands::Registers { rd, rs1, rs2 }),
        Instr::Divuw { rd, rs1, rs2 } => plain(
            Mnemonic::Divuw,
            Operands::Registers { rd, rs1, rs2 },
        ),
        Instr::Remw { rd, rs1, rs2 } => plain(Mnemonic::Remw, Operands::Registers { rd, rs1, rs2 }),
        Instr::Remuw { rd, rs1, rs2 } => plain(
            Mnemonic::Remuw,
            Operands::Registers { rd, rs1, rs2 },
        ),
        Instr::Fence { rest } => fence(Mnemonic::Fence, rest == 0x0ff0_0000),
        Instr::Fencei { rest } => fence(Mnemonic::Fencei, rest == 0),
        Instr::Ecall => plain(Mnemonic::Ecall, Operands::Nothing),
        Instr::Ebreak => plain(Mnemonic::Ebreak, Operands::Nothing),
        Instr::Sret => plain(Mnemonic::Sret, Operands::Nothing),
        Instr::Wfi => plain(Mnemonic::Wfi, Operands::Nothing),
        Instr::Sfencevma { rs1, rs2 } => plain(Mnemonic::Sfencevma, Operands::Pages { rs1, rs2 }),
        Instr::Csrrw { rd, rs1, csr } => plain(Mnemonic::Csrrw, Operands::Csr { rd, csr, rs1 }),
        Instr::Csrrs { rd, rs1, csr } => plain(Mnemonic::Csrrs, Operands::Csr { rd, csr, rs1 }),
        Instr::Csrrc { rd, rs1, csr } => plain(Mnemonic::Csrrc, Operands::Csr { rd, csr, rs1 }),
        Instr::Csrrwi { rd, value, csr } => plain(
            Mnemonic::Csrrwi,
            Operands::CsrValue { rd, csr, value },
        ),
        Instr::Csrrsi { rd, value, csr } => plain(
            Mnemonic::Csrrsi,
            Operands::CsrValue { rd, csr, value },
        ),
        Instr::Csrrci { rd, value, csr } => plain(
            Mnemonic::Csrrci,
            Operands::CsrValue { rd, csr, value },
        ),
        Instr::Lr {
            wide,
            aq,
            rl,
            rd,
            rs1,
        } => ordered(
            if wide { Mnemonic::LrD } else { Mnemonic::LrW },
            aq,
            rl,
            Operands::Reserve { rd, rs1 },
        ),
        Instr::Sc {
            wide,
            aq,
            rl,
            rd,
            rs1,
            rs2,
        } => ordered(
            if wide { Mnemonic::ScD } else { Mnemonic::ScW },
            aq,
            rl,
            Operands::Atomic { rd, rs1, rs2 },
        ),
        Instr::Amoswap {
            wide,
            aq,
            rl,
            rd,
            rs1,
            rs2,
        } => ordered(
            if wide {
                Mnemonic::AmoswapD
            } else {
                Mnemonic::AmoswapW
            },
            aq,
            rl,
            Operands::Atomic { rd, rs1, rs2 },
        ),
        Instr::Amoadd {
            wide,
            aq,
            rl,
            rd,
            rs1,
            rs2,
        } => ordered(
            if wide {
                Mnemonic::AmoaddD
            } else {
                Mnemonic::AmoaddW
            },
            aq,
            rl,
            Operands::Atomic { rd, rs1, rs2 },
        ),
        Instr::Amoxor {
            wide,
            aq,
            rl,
            rd,
            rs1,
            rs2,
        } => ordered(
            if wide {
                Mnemonic::AmoxorD
            } else {
                Mnemonic::AmoxorW
            },
            aq,
            rl,
            Operands::Atomic { rd, rs1, rs2 },
        ),
        Instr::Amoand {
            wide,
            aq,
            rl,
            rd,
            rs1,
            rs2,
        } => ordered(
            if wide {
                Mnemonic::AmoandD
            } else {
                Mnemonic::AmoandW
            },
            aq,
            rl,
            Operands::Atomic { rd, rs1, rs2 },
        ),
        Instr::Amoor {
            wide,
            aq,
            rl,
            rd,
            rs1,
            rs2,
        } => ordered(
            if wide {
                Mnemonic::AmoorD
            } else {
                Mnemonic::AmoorW
            },
            aq,
            rl,
            Operands::Atomic { rd, rs1, rs2 },
        ),
        Instr::Amomin {
            wide,
            aq,
            rl,
            rd,
            rs1,
            rs2,
        } => ordered(
            if wide {
                Mnemonic::AmominD
            } else {
                Mnemonic::AmominW
            },
            aq,
            rl,
            Operands::Atomic { rd, rs1, rs2 },
        ),
        Instr::Amomax {
            wide,
            aq,
            rl,
            rd,
            rs1,
            rs2,
        } => ordered(
            if wide {
                Mnemonic::AmomaxD
            } else {
                Mnemonic::AmomaxW
            },
            aq,
            rl,
            Operands::Atomic { rd, rs1, rs2 },
        ),
        Instr::Amominu {
            wide,
            aq,
            rl,
            rd,
            rs1,
            rs2,
        } => ordered(
            if wide {
                Mnemonic::AmominuD
            } else {
                Mnemonic::AmominuW
            },
            aq,
            rl,
            Operands::Atomic { rd, rs1, rs2 },
        ),
        Instr::Amomaxu {
            wide,
            aq,
            rl,
            rd,
            rs1,
            rs2,
        } => ordered(
            if wide {
                Mnemonic::AmomaxuD
            } else {
                Mnemonic::AmomaxuW
            },
            aq,
            rl,
            Operands::Atomic { rd, rs1, rs2 },
        ),
    }
}
