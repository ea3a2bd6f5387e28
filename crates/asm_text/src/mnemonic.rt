// Mnemonics and their names.
ghost use Rattle.std.specs.Prelude.{◌≡◌};
ghost use Rattle.asm_text.specs.Table.{name_of, shape_of};
ghost use Rattle.asm_text.specs.Action.{form_of};

/// A mnemonic of the assembler: one for each instruction, and two for each atomic operation, which is on 32 or on
/// 64 bits.
#[derive(Clone, Copy, Debug, PartialEq, Eq)]
pub enum Mnemonic {
    Lui,
    Auipc,
    Jal,
    Beq,
    Bne,
    Blt,
    Bge,
    Bltu,
    Bgeu,
    Jalr,
    Lb,
    Lh,
    Lw,
    Ld,
    Lbu,
    Lhu,
    Lwu,
    Sb,
    Sh,
    Sw,
    Sd,
    Addi,
    Slti,
    Sltiu,
    Xori,
    Ori,
    Andi,
    Addiw,
    Slli,
    Srli,
    Srai,
    Slliw,
    Srliw,
    Sraiw,
    Add,
    Sub,
    Sll,
    Slt,
    Sltu,
    Xor,
    Srl,
    Sra,
    Or,
    And,
    Addw,
    Subw,
    Sllw,
    Srlw,
    Sraw,
    Mul,
    Mulh,
    Mulhsu,
    Mulhu,
    Div,
    Divu,
    Rem,
    Remu,
    Mulw,
    Divw,
    Divuw,
    Remw,
    Remuw,
    Fence,
    Fencei,
    Ecall,
    Ebreak,
    Sret,
    Wfi,
    Sfencevma,
    Csrrw,
    Csrrs,
    Csrrc,
    Csrrwi,
    Csrrsi,
    Csrrci,
    LrW,
    LrD,
    ScW,
    ScD,
    AmoswapW,
    AmoswapD,
    AmoaddW,
    AmoaddD,
    AmoxorW,
    AmoxorD,
    AmoandW,
    AmoandD,
    AmoorW,
    AmoorD,
    AmominW,
    AmominD,
    AmomaxW,
    AmomaxD,
    AmominuW,
    AmominuD,
    AmomaxuW,
    AmomaxuD,
}

/// All of them.
pub static MNEMONICS: [Mnemonic; 97] = [
    Mnemonic::Lui,
    Mnemonic::Auipc,
    Mnemonic::Jal,
    Mnemonic::Beq,
    Mnemonic::Bne,
    Mnemonic::Blt,
    Mnemonic::Bge,
    Mnemonic::Bltu,
    Mnemonic::Bgeu,
    Mnemonic::Jalr,
    Mnemonic::Lb,
    Mnemonic::Lh,
    Mnemonic::Lw,
    Mnemonic::Ld,
    Mnemonic::Lbu,
    Mnemonic::Lhu,
    Mnemonic::Lwu,
    Mnemonic::Sb,
    Mnemonic::Sh,
    Mnemonic::Sw,
    Mnemonic::Sd,
    Mnemonic::Addi,
    Mnemonic::Slti,
    Mnemonic::Sltiu,
    Mnemonic::Xori,
    Mnemonic::Ori,
    Mnemonic::Andi,
    Mnemonic::Addiw,
    Mnemonic::Slli,
    Mnemonic::Srli,
    Mnemonic::Srai,
    Mnemonic::Slliw,
    Mnemonic::Srliw,
    Mnemonic::Sraiw,
    Mnemonic::Add,
    Mnemonic::Sub,
    Mnemonic::Sll,
    Mnemonic::Slt,
    Mnemonic::Sltu,
    Mnemonic::Xor,
    Mnemonic::Srl,
    Mnemonic::Sra,
    Mnemonic::Or,
    Mnemonic::And,
    Mnemonic::Addw,
    Mnemonic::Subw,
    Mnemonic::Sllw,
    Mnemonic::Srlw,
    Mnemonic::Sraw,
    Mnemonic::Mul,
    Mnemonic::Mulh,
    Mnemonic::Mulhsu,
    Mnemonic::Mulhu,
    Mnemonic::Div,
    Mnemonic::Divu,
    Mnemonic::Rem,
    Mnemonic::Remu,
    Mnemonic::Mulw,
    Mnemonic::Divw,
    Mnemonic::Divuw,
    Mnemonic::Remw,
    Mnemonic::Remuw,
    Mnemonic::Fence,
    Mnemonic::Fencei,
    Mnemonic::Ecall,
    Mnemonic::Ebreak,
    Mnemonic::Sret,
    Mnemonic::Wfi,
    Mnemonic::Sfencevma,
    Mnemonic::Csrrw,
    Mnemonic::Csrrs,
    Mnemonic::Csrrc,
    Mnemonic::Csrrwi,
    Mnemonic::Csrrsi,
    Mnemonic::Csrrci,
    Mnemonic::LrW,
    Mnemonic::LrD,
    Mnemonic::ScW,
    Mnemonic::ScD,
    Mnemonic::AmoswapW,
    Mnemonic::AmoswapD,
    Mnemonic::AmoaddW,
    Mnemonic::AmoaddD,
    Mnemonic::AmoxorW,
    Mnemonic::AmoxorD,
    Mnemonic::AmoandW,
    Mnemonic::AmoandD,
    Mnemonic::AmoorW,
    Mnemonic::AmoorD,
    Mnemonic::AmominW,
    Mnemonic::AmominD,
    Mnemonic::AmomaxW,
    Mnemonic::AmomaxD,
    Mnemonic::AmominuW,
    Mnemonic::AmominuD,
    Mnemonic::AmomaxuW,
    Mnemonic::AmomaxuD,
];

/// How a text spells it.
pub fn name_of(mnemonic: Mnemonic) -> &'static str
    ensures { result.now ≡ name_of mnemonic }
{
    match mnemonic {
        Mnemonic::Lui => "lui",
        Mnemonic::Auipc => "auipc",
        Mnemonic::Jal => "jal",
        Mnemonic::Beq => "beq",
        Mnemonic::Bne => "bne",
        Mnemonic::Blt => "blt",
        Mnemonic::Bge => "bge",
        Mnemonic::Bltu => "bltu",
        Mnemonic::Bgeu => "bgeu",
        Mnemonic::Jalr => "jalr",
        Mnemonic::Lb => "lb",
        Mnemonic::Lh => "lh",
        Mnemonic::Lw => "lw",
        Mnemonic::Ld => "ld",
        Mnemonic::Lbu => "lbu",
        Mnemonic::Lhu => "lhu",
        Mnemonic::Lwu => "lwu",
        Mnemonic::Sb => "sb",
        Mnemonic::Sh => "sh",
        Mnemonic::Sw => "sw",
        Mnemonic::Sd => "sd",
        Mnemonic::Addi => "addi",
        Mnemonic::Slti => "slti",
        Mnemonic::Sltiu => "sltiu",
        Mnemonic::Xori => "xori",
        Mnemonic::Ori => "ori",
        Mnemonic::Andi => "andi",
        Mnemonic::Addiw => "addiw",
        Mnemonic::Slli => "slli",
        Mnemonic::Srli => "srli",
        Mnemonic::Srai => "srai",
        Mnemonic::Slliw => "slliw",
        Mnemonic::Srliw => "srliw",
        Mnemonic::Sraiw => "sraiw",
        Mnemonic::Add => "add",
        Mnemonic::Sub => "sub",
        Mnemonic::Sll => "sll",
        Mnemonic::Slt => "slt",
        Mnemonic::Sltu => "sltu",
        Mnemonic::Xor => "xor",
        Mnemonic::Srl => "srl",
        Mnemonic::Sra => "sra",
        Mnemonic::Or => "or",
        Mnemonic::And => "and",
        Mnemonic::Addw => "addw",
        Mnemonic::Subw => "subw",
        Mnemonic::Sllw => "sllw",
        Mnemonic::Srlw => "srlw",
        Mnemonic::Sraw => "sraw",
        Mnemonic::Mul => "mul",
        Mnemonic::Mulh => "mulh",
        Mnemonic::Mulhsu => "mulhsu",
        Mnemonic::Mulhu => "mulhu",
        Mnemonic::Div => "div",
        Mnemonic::Divu => "divu",
        Mnemonic::Rem => "rem",
        Mnemonic::Remu => "remu",
        Mnemonic::Mulw => "mulw",
        Mnemonic::Divw => "divw",
        Mnemonic::Divuw => "divuw",
        Mnemonic::Remw => "remw",
        Mnemonic::Remuw => "remuw",
        Mnemonic::Fence => "fence",
        Mnemonic::Fencei => "fence.i",
        Mnemonic::Ecall => "ecall",
        Mnemonic::Ebreak => "ebreak",
        Mnemonic::Sret => "sret",
        Mnemonic::Wfi => "wfi",
        Mnemonic::Sfencevma => "sfence.vma",
        Mnemonic::Csrrw => "csrrw",
        Mnemonic::Csrrs => "csrrs",
        Mnemonic::Csrrc => "csrrc",
        Mnemonic::Csrrwi => "csrrwi",
        Mnemonic::Csrrsi => "csrrsi",
        Mnemonic::Csrrci => "csrrci",
        Mnemonic::LrW => "lr.w",
        Mnemonic::LrD => "lr.d",
        Mnemonic::ScW => "sc.w",
        Mnemonic::ScD => "sc.d",
        Mnemonic::AmoswapW => "amoswap.w",
        Mnemonic::AmoswapD => "amoswap.d",
        Mnemonic::AmoaddW => "amoadd.w",
        Mnemonic::AmoaddD => "amoadd.d",
        Mnemonic::AmoxorW => "amoxor.w",
        Mnemonic::AmoxorD => "amoxor.d",
        Mnemonic::AmoandW => "amoand.w",
        Mnemonic::AmoandD => "amoand.d",
        Mnemonic::AmoorW => "amoor.w",
        Mnemonic::AmoorD => "amoor.d",
        Mnemonic::AmominW => "amomin.w",
        Mnemonic::AmominD => "amomin.d",
        Mnemonic::AmomaxW => "amomax.w",
        Mnemonic::AmomaxD => "amomax.d",
        Mnemonic::AmominuW => "amominu.w",
        Mnemonic::AmominuD => "amominu.d",
        Mnemonic::AmomaxuW => "amomaxu.w",
        Mnemonic::AmomaxuD => "amomaxu.d",
    }
}

/// The forms of operands.
#[derive(Clone, Copy, Debug, PartialEq, Eq)]
pub enum Form {
    /// None.
    Alone,
    /// `rd, n`: the upper 20 bits.
    Upper,
    /// `rd, T`.
    Jump,
    /// `rs1, rs2, T`.
    Branch,
    /// `rd, n(rs1)`.
    Load,
    /// `rs2, n(rs1)`.
    Store,
    /// `rd, rs1, n`.
    Immediate,
    /// `rd, rs1, n`: an amount in bits.
    Shift,
    /// `rd, rs1, rs2`.
    Registers,
    /// `rs1, rs2`.
    Pages,
    /// `rd, C, rs1`.
    Csr,
    /// `rd, C, n`: a number of five bits.
    CsrValue,
    /// `rd, (rs1)`.
    Reserve,
    /// `rd, rs2, (rs1)`.
    Atomic,
}

/// A mnemonic with the acquire and release bits, which only an atomic operation has.
#[derive(Clone, Copy, Debug, PartialEq, Eq)]
pub struct Coded {
    pub mnemonic: Mnemonic,
    pub aq: bool,
    pub rl: bool,
}

/// The form of its operands.
pub fn form_of(mnemonic: Mnemonic) -> Form
    ensures { result ≡ form_of (shape_of mnemonic) }
{
    match mnemonic {
        Mnemonic::Fence
        | Mnemonic::Fencei
        | Mnemonic::Ecall
        | Mnemonic::Ebreak
        | Mnemonic::Sret
        | Mnemonic::Wfi => Form::Alone,
        Mnemonic::Lui | Mnemonic::Auipc => Form::Upper,
        Mnemonic::Jal => Form::Jump,
        Mnemonic::Beq
        | Mnemonic::Bne
        | Mnemonic::Blt
        | Mnemonic::Bge
        | Mnemonic::Bltu
        | Mnemonic::Bgeu => Form::Branch,
        Mnemonic::Jalr
        | Mnemonic::Lb
        | Mnemonic::Lh
        | Mnemonic::Lw
        | Mnemonic::Ld
        | Mnemonic::Lbu
        | Mnemonic::Lhu
        | Mnemonic::Lwu => Form::Load,
        Mnemonic::Sb | Mnemonic::Sh | Mnemonic::Sw | Mnemonic::Sd => Form::Store,
        Mnemonic::Addi
        | Mnemonic::Slti
        | Mnemonic::Sltiu
        | Mnemonic::Xori
        | Mnemonic::Ori
        | Mnemonic::Andi
        | Mnemonic::Addiw => Form::Immediate,
        Mnemonic::Slli
        | Mnemonic::Srli
        | Mnemonic::Srai
        | Mnemonic::Slliw
        | Mnemonic::Srliw
        | Mnemonic::Sraiw => Form::Shift,
        Mnemonic::Sfencevma => Form::Pages,
        Mnemonic::Csrrw | Mnemonic::Csrrs | Mnemonic::Csrrc => Form::Csr,
        Mnemonic::Csrrwi | Mnemonic::Csrrsi | Mnemonic::Csrrci => Form::CsrValue,
        Mnemonic::LrW | Mnemonic::LrD => Form::Reserve,
        Mnemonic::Add
        | Mnemonic::Sub
        | Mnemonic::Sll
        | Mnemonic::Slt
        | Mnemonic::Sltu
        | Mnemonic::Xor
        | Mnemonic::Srl
        | Mnemonic::Sra
        | Mnemonic::Or
        | Mnemonic::And
        | Mnemonic::Addw
        | Mnemonic::Subw
        | Mnemonic::Sllw
        | Mnemonic::Srlw
        | Mnemonic::Sraw => Form::Registers,
        Mnemonic::Mul
        | Mnemonic::Mulh
        | Mnemonic::Mulhsu
        | Mnemonic::Mulhu
        | Mnemonic::Div
        | Mnemonic::Divu
        | Mnemonic::Rem
        | Mnemonic::Remu
        | Mnemonic::Mulw
        | Mnemonic::Divw
        | Mnemonic::Divuw
        | Mnemonic::Remw
        | Mnemonic::Remuw => Form::Registers,
        Mnemonic::ScW
        | Mnemonic::ScD
        | Mnemonic::AmoswapW
        | Mnemonic::AmoswapD
        | Mnemonic::AmoaddW
        | Mnemonic::AmoaddD
        | Mnemonic::AmoxorW
        | Mnemonic::AmoxorD
        | Mnemonic::AmoandW
        | Mnemonic::AmoandD
        | Mnemonic::AmoorW
        | Mnemonic::AmoorD
        | Mnemonic::AmominW
        | Mnemonic::AmominD
        | Mnemonic::AmomaxW
        | Mnemonic::AmomaxD
        | Mnemonic::AmominuW
        | Mnemonic::AmominuD
        | Mnemonic::AmomaxuW
        | Mnemonic::AmomaxuD => Form::Atomic,
    }
}
