// Instructions of their operands.
ghost use Rattle.std.specs.Prelude.{◌≡◌, ◌<◌, ◌^◌, IfOk, List};
ghost use Rattle.rv64_decode.specs.declared.instruction.Instr.{Instr as TheInstr};
ghost use Rattle.rv64_decode.specs.Encoding.{IsInRange};
ghost use Rattle.rv64_decode.specs.Format.{HasZeros, IsSigned};
ghost use Rattle.asm_text.specs.Table.{shape_of};
ghost use Rattle.asm_text.specs.Values.{values_as, AreRead};
ghost use Rattle.rv_asm.specs.Assembly.{Set, based_in, branch_in, csr_in, csr_value_in, immediate_in, instr_of, jump_in, made_of, made_of_three, nothing_in, pair_in, shift_in, triple_in, upper_in};
ghost use Rattle.rv_asm.specs.Operations.{alone_as, atomic_as, branch_as, csr_as, csr_value_as, immediate_as, load_as, registers_as, shift_as, store_as, upper_as, word_shift_as};
ghost use Rattle.rv_asm.specs.Found.{AreLabels};

use crate::forms::{
    based_in, branch_in, csr_in, csr_value_in, immediate_in, is_nothing, jump_in, pair_in,
    shift_in_5, shift_in_6, triple_in, upper_in,
};
use crate::labels::Labels;
use crate::operations::{
    Alone, Atomic, Branch, Csr, CsrValue, Immediate, Load, Operation, Registers, Shift, Store,
    Upper, WordShift, operation_of,
};
use asm_text::{Coded, Fault, Values};
use rv64_decode::Instr;

fn alone(op: Alone, values: &Values<'_>) -> Result<Instr, Fault>
    ensures value { result ≡ nothing_in (values_as values.now) (alone_as op) }
    ensures range { IfOk result IsInRange }
{
    if !is_nothing(values) {
        return Err(Fault::WrongForm);
    }
    match op {
        Alone::Fence => Ok(Instr::Fence { rest: 0x0ff0_0000 }),
        Alone::Fencei => Ok(Instr::Fencei { rest: 0 }),
        Alone::Ecall => Ok(Instr::Ecall),
        Alone::Ebreak => Ok(Instr::Ebreak),
        Alone::Sret => Ok(Instr::Sret),
        Alone::Wfi => Ok(Instr::Wfi),
    }
}

fn upper(op: Upper, values: &Values<'_>) -> Result<Instr, Fault>
    requires { AreRead values.now }
    ensures value { result ≡ made_of (upper_as op) (upper_in (values_as values.now)) }
    ensures range { IfOk result IsInRange }
{
    let (rd, imm) = upper_in(values)?;
    match op {
        Upper::Lui => Ok(Instr::Lui { rd, imm }),
        Upper::Auipc => Ok(Instr::Auipc { rd, imm }),
    }
}

fn branch(op: Branch, labels: &Labels<'_>, place: u64, values: &Values<'_>) -> Result<Instr, Fault>
    requires { AreRead values.now }
    ensures value { (sets : List Set) → AreLabels sets labels.now.places → result ≡ made_of_three (branch_as op) (branch_in sets place (values_as values.now)) }
    ensures range { IfOk result IsInRange }
{
    let (rs1, rs2, imm) = branch_in(labels, place, values)?;
    match op {
        Branch::Beq => Ok(Instr::Beq { rs1, rs2, imm }),
        Branch::Bne => Ok(Instr::Bne { rs1, rs2, imm }),
        Branch::Blt => Ok(Instr::Blt { rs1, rs2, imm }),
        Branch::Bge => Ok(Instr::Bge { rs1, rs2, imm }),
        Branch::Bltu => Ok(Instr::Bltu { rs1, rs2, imm }),
        Branch::Bgeu => Ok(Instr::Bgeu { rs1, rs2, imm }),
    }
}

fn load(op: Load, values: &Values<'_>) -> Result<Instr, Fault>
    requires { AreRead values.now }
    ensures value { result ≡ made_of_three (load_as op) (based_in (values_as values.now)) }
    ensures range { IfOk result IsInRange }
{
    let (rd, rs1, imm) = based_in(values)?;
    match op {
        Load::Jalr => Ok(Instr::Jalr { rd, rs1, imm }),
        Load::Lb => Ok(Instr::Lb { rd, rs1, imm }),
        Load::Lh => Ok(Instr::Lh { rd, rs1, imm }),
        Load::Lw => Ok(Instr::Lw { rd, rs1, imm }),
        Load::Ld => Ok(Instr::Ld { rd, rs1, imm }),
        Load::Lbu => Ok(Instr::Lbu { rd, rs1, imm }),
        Load::Lhu => Ok(Instr::Lhu { rd, rs1, imm }),
        Load::Lwu => Ok(Instr::Lwu { rd, rs1, imm }),
    }
}

fn store(op: Store, values: &Values<'_>) -> Result<Instr, Fault>
    requires { AreRead values.now }
    ensures value { result ≡ made_of_three (λ rs2 rs1 imm. store_as op rs1 rs2 imm) (based_in (values_as values.now)) }
    ensures range { IfOk result IsInRange }
{
    let (rs2, rs1, imm) = based_in(values)?;
    match op {
        Store::Sb => Ok(Instr::Sb { rs1, rs2, imm }),
        Store::Sh => Ok(Instr::Sh { rs1, rs2, imm }),
        Store::Sw => Ok(Instr::Sw { rs1, rs2, imm }),
        Store::Sd => Ok(Instr::Sd { rs1, rs2, imm }),
    }
}

fn immediate(op: Immediate, values: &Values<'_>) -> Result<Instr, Fault>
    requires { AreRead values.now }
    ensures value { result ≡ made_of_three (immediate_as op) (immediate_in (values_as values.now)) }
    ensures range { IfOk result IsInRange }
{
    let (rd, rs1, imm) = immediate_in(values)?;
    match op {
        Immediate::Addi => Ok(Instr::Addi { rd, rs1, imm }),
        Immediate::Slti => Ok(Instr::Slti { rd, rs1, imm }),
        Immediate::Sltiu => Ok(Instr::Sltiu { rd, rs1, imm }),
        Immediate::Xori => Ok(Instr::Xori { rd, rs1, imm }),
        Immediate::Ori => Ok(Instr::Ori { rd, rs1, imm }),
        Immediate::Andi => Ok(Instr::Andi { rd, rs1, imm }),
        Immediate::Addiw => Ok(Instr::Addiw { rd, rs1, imm }),
    }
}

fn shift(op: Shift, values: &Values<'_>) -> Result<Instr, Fault>
    requires { AreRead values.now }
    ensures value { result ≡ made_of_three (shift_as op) (shift_in 6 (values_as values.now)) }
    ensures range { IfOk result IsInRange }
{
    let (rd, rs1, amount) = shift_in_6(values)?;
    match op {
        Shift::Slli => Ok(Instr::Slli { rd, rs1, amount }),
        Shift::Srli => Ok(Instr::Srli { rd, rs1, amount }),
        Shift::Srai => Ok(Instr::Srai { rd, rs1, amount }),
    }
}

fn word_shift(op: WordShift, values: &Values<'_>) -> Result<Instr, Fault>
    requires { AreRead values.now }
    ensures value { result ≡ made_of_three (word_shift_as op) (shift_in 5 (values_as values.now)) }
    ensures range { IfOk result IsInRange }
{
    let (rd, rs1, amount) = shift_in_5(values)?;
    match op {
        WordShift::Slliw => Ok(Instr::Slliw { rd, rs1, amount }),
        WordShift::Srliw => Ok(Instr::Srliw { rd, rs1, amount }),
        WordShift::Sraiw => Ok(Instr::Sraiw { rd, rs1, amount }),
    }
}

fn registers(op: Registers, values: &Values<'_>) -> Result<Instr, Fault>
    requires { AreRead values.now }
    ensures value { result ≡ made_of_three (registers_as op) (triple_in (values_as values.now)) }
    ensures range { IfOk result IsInRange }
{
    let (rd, rs1, rs2) = triple_in(values)?;
    match op {
        Registers::Add => Ok(Instr::Add { rd, rs1, rs2 }),
        Registers::Sub => Ok(Instr::Sub { rd, rs1, rs2 }),
        Registers::Sll => Ok(Instr::Sll { rd, rs1, rs2 }),
        Registers::Slt => Ok(Instr::Slt { rd, rs1, rs2 }),
        Registers::Sltu => Ok(Instr::Sltu { rd, rs1, rs2 }),
        Registers::Xor => Ok(Instr::Xor { rd, rs1, rs2 }),
        Registers::Srl => Ok(Instr::Srl { rd, rs1, rs2 }),
        Registers::Sra => Ok(Instr::Sra { rd, rs1, rs2 }),
        Registers::Or => Ok(Instr::Or { rd, rs1, rs2 }),
        Registers::And => Ok(Instr::And { rd, rs1, rs2 }),
        Registers::Addw => Ok(Instr::Addw { rd, rs1, rs2 }),
        Registers::Subw => Ok(Instr::Subw { rd, rs1, rs2 }),
        Registers::Sllw => Ok(Instr::Sllw { rd, rs1, rs2 }),
        Registers::Srlw => Ok(Instr::Srlw { rd, rs1, rs2 }),
        Registers::Sraw => Ok(Instr::Sraw { rd, rs1, rs2 }),
        Registers::Mul => Ok(Instr::Mul { rd, rs1, rs2 }),
        Registers::Mulh => Ok(Instr::Mulh { rd, rs1, rs2 }),
        Registers::Mulhsu => Ok(Instr::Mulhsu { rd, rs1, rs2 }),
        Registers::Mulhu => Ok(Instr::Mulhu { rd, rs1, rs2 }),
        Registers::Div => Ok(Instr::Div { rd, rs1, rs2 }),
        Registers::Divu => Ok(Instr::Divu { rd, rs1, rs2 }),
        Registers::Rem => Ok(Instr::Rem { rd, rs1, rs2 }),
        Registers::Remu => Ok(Instr::Remu { rd, rs1, rs2 }),
        Registers::Mulw => Ok(Instr::Mulw { rd, rs1, rs2 }),
        Registers::Divw => Ok(Instr::Divw { rd, rs1, rs2 }),
        Registers::Divuw => Ok(Instr::Divuw { rd, rs1, rs2 }),
        Registers::Remw => Ok(Instr::Remw { rd, rs1, rs2 }),
        Registers::Remuw => Ok(Instr::Remuw { rd, rs1, rs2 }),
    }
}

fn csr(op: Csr, values: &Values<'_>) -> Result<Instr, Fault>
    requires { AreRead values.now }
    ensures value { result ≡ made_of_three (csr_as op) (csr_in (values_as values.now)) }
    ensures range { IfOk result IsInRange }
{
    let (rd, rs1, csr) = csr_in(values)?;
    match op {
        Csr::Csrrw => Ok(Instr::Csrrw { rd, rs1, csr }),
        Csr::Csrrs => Ok(Instr::Csrrs { rd, rs1, csr }),
        Csr::Csrrc => Ok(Instr::Csrrc { rd, rs1, csr }),
    }
}

fn csr_value(op: CsrValue, values: &Values<'_>) -> Result<Instr, Fault>
    requires { AreRead values.now }
    ensures value { result ≡ made_of_three (csr_value_as op) (csr_value_in (values_as values.now)) }
    ensures range { IfOk result IsInRange }
{
    let (rd, value, csr) = csr_value_in(values)?;
    match op {
        CsrValue::Csrrwi => Ok(Instr::Csrrwi { rd, value, csr }),
        CsrValue::Csrrsi => Ok(Instr::Csrrsi { rd, value, csr }),
        CsrValue::Csrrci => Ok(Instr::Csrrci { rd, value, csr }),
    }
}

fn jump(labels: &Labels<'_>, place: u64, values: &Values<'_>) -> Result<Instr, Fault>
    requires { AreRead values.now }
    ensures value { (sets : List Set) → AreLabels sets labels.now.places → result ≡ made_of TheInstr.Jal (jump_in sets place (values_as values.now)) }
    ensures range { IfOk result IsInRange }
{
    let (rd, imm) = jump_in(labels, place, values)?;
    Ok(Instr::Jal { rd, imm })
}

fn pages(values: &Values<'_>) -> Result<Instr, Fault>
    requires { AreRead values.now }
    ensures value { result ≡ made_of TheInstr.Sfencevma (pair_in (values_as values.now)) }
    ensures range { IfOk result IsInRange }
{
    let (rs1, rs2) = pair_in(values)?;
    Ok(Instr::Sfencevma { rs1, rs2 })
}

/// Whether an atomic operation acquires and releases (the bits aq and rl), and is on 64 bits.
#[derive(Clone, Copy)]
struct Ordered {
    wide: bool,
    aq: bool,
    rl: bool,
}

fn reserve(ordered: Ordered, values: &Values<'_>) -> Result<Instr, Fault>
    requires { AreRead values.now }
    ensures value { result ≡ made_of (TheInstr.Lr ordered.wide ordered.aq ordered.rl) (pair_in (values_as values.now)) }
    ensures range { IfOk result IsInRange }
{
    let Ordered { wide, aq, rl } = ordered;
    let (rd, rs1) = pair_in(values)?;
    Ok(Instr::Lr {
        wide,
        aq,
        rl,
        rd,
        rs1,
    })
}

macro_rules! atomic {
    ($name:ident, $ordered:ident, $registers:ident) => {
        Ok(Instr::$name {
            wide: $ordered.wide,
            aq: $ordered.aq,
            rl: $ordered.rl,
            rd: $registers.0,
            rs1: $registers.2,
            rs2: $registers.1,
        })
    };
}

fn atomic(op: Atomic, ordered: Ordered, values: &Values<'_>) -> Result<Instr, Fault>
    requires { AreRead values.now }
    ensures value { result ≡ made_of_three (λ rd rs2 rs1. atomic_as op ordered.wide ordered.aq ordered.rl rd rs1 rs2) (triple_in (values_as values.now)) }
    ensures range { IfOk result IsInRange }
{
    let registers = triple_in(values)?;
    match op {
        Atomic::Sc => atomic!(Sc, ordered, registers),
        Atomic::Amoswap => atomic!(Amoswap, ordered, registers),
        Atomic::Amoadd => atomic!(Amoadd, ordered, registers),
        Atomic::Amoxor => atomic!(Amoxor, ordered, registers),
        Atomic::Amoand => atomic!(Amoand, ordered, registers),
        Atomic::Amoor => atomic!(Amoor, ordered, registers),
        Atomic::Amomin => atomic!(Amomin, ordered, registers),
        Atomic::Amomax => atomic!(Amomax, ordered, registers),
        Atomic::Amominu => atomic!(Amominu, ordered, registers),
        Atomic::Amomaxu => atomic!(Amomaxu, ordered, registers),
    }
}

/// The instruction of a mnemonic and its operands at a place.
pub(crate) fn instr_of(
    labels: &Labels<'_>,
    place: u64,
    coded: Coded,
    values: &Values<'_>,
) -> Result<Instr, Fault>
    requires { AreRead values.now }
    ensures value { (sets : List Set) → AreLabels sets labels.now.places → result ≡ instr_of sets place (shape_of coded.mnemonic) coded.aq coded.rl (values_as values.now) }
    ensures range { IfOk result IsInRange }
{
    let Coded { mnemonic, aq, rl } = coded;
    match operation_of(mnemonic) {
        Operation::Alone(op) => alone(op, values),
        Operation::Upper(op) => upper(op, values),
        Operation::Jump => jump(labels, place, values),
        Operation::Branch(op) => branch(op, labels, place, values),
        Operation::Load(op) => load(op, values),
        Operation::Store(op) => store(op, values),
        Operation::Immediate(op) => immediate(op, values),
        Operation::Shift(op) => shift(op, values),
        Operation::WordShift(op) => word_shift(op, values),
        Operation::Registers(op) => registers(op, values),
        Operation::Pages => pages(values),
        Operation::Csr(op) => csr(op, values),
        Operation::CsrValue(op) => csr_value(op, values),
        Operation::Reserve { wide } => reserve(Ordered { wide, aq, rl }, values),
        Operation::Atomic { op, wide } => atomic(op, Ordered { wide, aq, rl }, values),
    }
}
