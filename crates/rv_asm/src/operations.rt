// What each mnemonic makes of its operands: mnemonics by the form of these.
ghost use Rattle.std.specs.Prelude.{◌≡◌};
ghost use Rattle.asm_text.specs.Table.{shape_of};
ghost use Rattle.rv_asm.specs.Operations.{operation_as};

use asm_text::Mnemonic;

/// Without operands.
#[derive(Clone, Copy)]
pub(crate) enum Alone {
    Fence,
    Fencei,
    Ecall,
    Ebreak,
    Sret,
    Wfi,
}

/// Of an upper immediate.
#[derive(Clone, Copy)]
pub(crate) enum Upper {
    Lui,
    Auipc,
}

/// Branches.
#[derive(Clone, Copy)]
pub(crate) enum Branch {
    Beq,
    Bne,
    Blt,
    Bge,
    Bltu,
    Bgeu,
}

/// Of a register, and a base register with an offset: loads, and the jump to a register.
#[derive(Clone, Copy)]
pub(crate) enum Load {
    Jalr,
    Lb,
    Lh,
    Lw,
    Ld,
    Lbu,
    Lhu,
    Lwu,
}

/// Stores.
#[derive(Clone, Copy)]
pub(crate) enum Store {
    Sb,
    Sh,
    Sw,
    Sd,
}

/// Of two registers and an immediate.
#[derive(Clone, Copy)]
pub(crate) enum Immediate {
    Addi,
    Slti,
    Sltiu,
    Xori,
    Ori,
    Andi,
    Addiw,
}

/// Shifts by an amount of 6 bits.
#[derive(Clone, Copy)]
pub(crate) enum Shift {
    Slli,
    Srli,
    Srai,
}

/// Shifts of 32 bits, by an amount of 5.
#[derive(Clone, Copy)]
pub(crate) enum WordShift {
    Slliw,
    Srliw,
    Sraiw,
}

/// Of three registers.
#[derive(Clone, Copy)]
pub(crate) enum Registers {
    Add,
    Sub,
    Sll,
    Slt,
    Sltu,
    Xor,
    Srl,
    Sra,
    Or,
    And,
    Addw,
    Subw,
    Sllw,
    Srlw,
    Sraw,
    Mul,
    Mulh,
    Mulhsu,
    Mulhu,
    Div,
    Divu,
    Rem,
    Remu,
    Mulw,
    Divw,
    Divuw,
    Remw,
    Remuw,
}

/// Of a CSR and a register.
#[derive(Clone, Copy)]
pub(crate) enum Csr {
    Csrrw,
    Csrrs,
    Csrrc,
}

/// Of a CSR and a value of five bits.
#[derive(Clone, Copy)]
pub(crate) enum CsrValue {
    Csrrwi,
    Csrrsi,
    Csrrci,
}

/// Atomic operations on 32 or on 64 bits, but for load-reserved.
#[derive(Clone, Copy)]
pub(crate) enum Atomic {
    Sc,
    Amoswap,
    Amoadd,
    Amoxor,
    Amoand,
    Amoor,
    Amomin,
    Amomax,
    Amominu,
    Amomaxu,
}

/// A mnemonic by the form of its operands.
#[derive(Clone, Copy)]
pub(crate) enum Operation {
    Alone(Alone),
    Upper(Upper),
    Jump,
    Branch(Branch),
    Load(Load),
    Store(Store),
    Immediate(Immediate),
    Shift(Shift),
    WordShift(WordShift),
    Registers(Registers),
    Pages,
    Csr(Csr),
    CsrValue(CsrValue),
    Reserve { wide: bool },
    Atomic { op: Atomic, wide: bool },
}

/// A mnemonic's operation, by the table of mnemonics.
pub(crate) fn operation_of(mnemonic: Mnemonic) -> Operation
    ensures { shape_of mnemonic ≡ operation_as result }
{
    match mnemonic {
        Mnemonic::Lui => Operation::Upper(Upper::Lui),
        Mnemonic::Auipc => Operation::Upper(Upper::Auipc),
        Mnemonic::Jal => Operation::Jump,
        Mnemonic::Beq => Operation::Branch(Branch::Beq),
        Mnemonic::Bne => Operation::Branch(Branch::Bne),
        Mnemonic::Blt => Operation::Branch(Branch::Blt),
        Mnemonic::Bge => Operation::Branch(Branch::Bge),
        Mnemonic::Bltu => Operation::Branch(Branch::Bltu),
        Mnemonic::Bgeu => Operation::Branch(Branch::Bgeu),
        Mnemonic::Jalr => Operation::Load(Load::Jalr),
        Mnemonic::Lb => Operation::Load(Load::Lb),
        Mnemonic::Lh => Operation::Load(Load::Lh),
        Mnemonic::Lw => Operation::Load(Load::Lw),
        Mnemonic::Ld => Operation::Load(Load::Ld),
        Mnemonic::Lbu => Operation::Load(Load::Lbu),
        Mnemonic::Lhu => Operation::Load(Load::Lhu),
        Mnemonic::Lwu => Operation::Load(Load::Lwu),
        Mnemonic::Sb => Operation::Store(Store::Sb),
        Mnemonic::Sh => Operation::Store(Store::Sh),
        Mnemonic::Sw => Operation::Store(Store::Sw),
        Mnemonic::Sd => Operation::Store(Store::Sd),
        Mnemonic::Addi => Operation::Immediate(Immediate::Addi),
        Mnemonic::Slti => Operation::Immediate(Immediate::Slti),
        Mnemonic::Sltiu => Operation::Immediate(Immediate::Sltiu),
        Mnemonic::Xori => Operation::Immediate(Immediate::Xori),
        Mnemonic::Ori => Operation::Immediate(Immediate::Ori),
        Mnemonic::Andi => Operation::Immediate(Immediate::Andi),
        Mnemonic::Addiw => Operation::Immediate(Immediate::Addiw),
        Mnemonic::Slli => Operation::Shift(Shift::Slli),
        Mnemonic::Srli => Operation::Shift(Shift::Srli),
        Mnemonic::Srai => Operation::Shift(Shift::Srai),
        Mnemonic::Slliw => Operation::WordShift(WordShift::Slliw),
        Mnemonic::Srliw => Operation::WordShift(WordShift::Srliw),
        Mnemonic::Sraiw => Operation::WordShift(WordShift::Sraiw),
        Mnemonic::Add => Operation::Registers(Registers::Add),
        Mnemonic::Sub => Operation::Registers(Registers::Sub),
        Mnemonic::Sll => Operation::Registers(Registers::Sll),
        Mnemonic::Slt => Operation::Registers(Registers::Slt),
        Mnemonic::Sltu => Operation::Registers(Registers::Sltu),
        Mnemonic::Xor => Operation::Registers(Registers::Xor),
        Mnemonic::Srl => Operation::Registers(Registers::Srl),
        Mnemonic::Sra => Operation::Registers(Registers::Sra),
        Mnemonic::Or => Operation::Registers(Registers::Or),
        Mnemonic::And => Operation::Registers(Registers::And),
        Mnemonic::Addw => Operation::Registers(Registers::Addw),
        Mnemonic::Subw => Operation::Registers(Registers::Subw),
        Mnemonic::Sllw => Operation::Registers(Registers::Sllw),
        Mnemonic::Srlw => Operation::Registers(Registers::Srlw),
        Mnemonic::Sraw => Operation::Registers(Registers::Sraw),
        Mnemonic::Mul => Operation::Registers(Registers::Mul),
        Mnemonic::Mulh => Operation::Registers(Registers::Mulh),
        Mnemonic::Mulhsu => Operation::Registers(Registers::Mulhsu),
        Mnemonic::Mulhu => Operation::Registers(Registers::Mulhu),
        Mnemonic::Div => Operation::Registers(Registers::Div),
        Mnemonic::Divu => Operation::Registers(Registers::Divu),
        Mnemonic::Rem => Operation::Registers(Registers::Rem),
        Mnemonic::Remu => Operation::Registers(Registers::Remu),
        Mnemonic::Mulw => Operation::Registers(Registers::Mulw),
        Mnemonic::Divw => Operation::Registers(Registers::Divw),
        Mnemonic::Divuw => Operation::Registers(Registers::Divuw),
        Mnemonic::Remw => Operation::Registers(Registers::Remw),
        Mnemonic::Remuw => Operation::Registers(Registers::Remuw),
        Mnemonic::Csrrw => Operation::Csr(Csr::Csrrw),
        Mnemonic::Csrrs => Operation::Csr(Csr::Csrrs),
        Mnemonic::Csrrc => Operation::Csr(Csr::Csrrc),
        Mnemonic::Csrrwi => Operation::CsrValue(CsrValue::Csrrwi),
        Mnemonic::Csrrsi => Operation::CsrValue(CsrValue::Csrrsi),
        Mnemonic::Csrrci => Operation::CsrValue(CsrValue::Csrrci),
        Mnemonic::Fence => Operation::Alone(Alone::Fence),
        Mnemonic::Fencei => Operation::Alone(Alone::Fencei),
        Mnemonic::Ecall => Operation::Alone(Alone::Ecall),
        Mnemonic::Ebreak => Operation::Alone(Alone::Ebreak),
        Mnemonic::Sret => Operation::Alone(Alone::Sret),
        Mnemonic::Wfi => Operation::Alone(Alone::Wfi),
        Mnemonic::Sfencevma => Operation::Pages,
        Mnemonic::LrW => Operation::Reserve { wide: false },
        Mnemonic::LrD => Operation::Reserve { wide: true },
        Mnemonic::ScW => Operation::Atomic {
            op: Atomic::Sc,
            wide: false,
        },
        Mnemonic::ScD => Operation::Atomic {
            op: Atomic::Sc,
            wide: true,
        },
        Mnemonic::AmoswapW => Operation::Atomic {
            op: Atomic::Amoswap,
            wide: false,
        },
        Mnemonic::AmoswapD => Operation::Atomic {
            op: Atomic::Amoswap,
            wide: true,
        },
        Mnemonic::AmoaddW => Operation::Atomic {
            op: Atomic::Amoadd,
            wide: false,
        },
        Mnemonic::AmoaddD => Operation::Atomic {
            op: Atomic::Amoadd,
            wide: true,
        },
        Mnemonic::AmoxorW => Operation::Atomic {
            op: Atomic::Amoxor,
            wide: false,
        },
        Mnemonic::AmoxorD => Operation::Atomic {
            op: Atomic::Amoxor,
            wide: true,
        },
        Mnemonic::AmoandW => Operation::Atomic {
            op: Atomic::Amoand,
            wide: false,
        },
        Mnemonic::AmoandD => Operation::Atomic {
            op: Atomic::Amoand,
            wide: true,
        },
        Mnemonic::AmoorW => Operation::Atomic {
            op: Atomic::Amoor,
            wide: false,
        },
        Mnemonic::AmoorD => Operation::Atomic {
            op: Atomic::Amoor,
            wide: true,
        },
        Mnemonic::AmominW => Operation::Atomic {
            op: Atomic::Amomin,
            wide: false,
        },
        Mnemonic::AmominD => Operation::Atomic {
            op: Atomic::Amomin,
            wide: true,
        },
        Mnemonic::AmomaxW => Operation::Atomic {
            op: Atomic::Amomax,
            wide: false,
        },
        Mnemonic::AmomaxD => Operation::Atomic {
            op: Atomic::Amomax,
            wide: true,
        },
        Mnemonic::AmominuW => Operation::Atomic {
            op: Atomic::Amominu,
            wide: false,
        },
        Mnemonic::AmominuD => Operation::Atomic {
            op: Atomic::Amominu,
            wide: true,
        },
        Mnemonic::AmomaxuW => Operation::Atomic {
            op: Atomic::Amomaxu,
            wide: false,
        },
        Mnemonic::AmomaxuD => Operation::Atomic {
            op: Atomic::Amomaxu,
            wide: true,
        },
    }
}
