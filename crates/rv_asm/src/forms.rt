// The operands of each form, as numbers that fit their fields.
ghost use Rattle.std.specs.Prelude.{◌≡◌, ◌<◌, ◌^◌, if◌then◌else◌, IfOk, List, Result, Ok, Err};
ghost use Rattle.rv64_decode.specs.declared.instruction.Instr.{Instr};
ghost use Rattle.asm_text.specs.declared.faults.Fault.{Fault as TheFault};
ghost use Rattle.rv64_decode.specs.Format.{HasZeros, IsSigned};
ghost use Rattle.asm_text.specs.Values.{values_as, AreRead};
ghost use Rattle.rv_asm.specs.Assembly.{Set, based_in, branch_in, csr_in, csr_value_in, immediate_in, jump_in, nothing_in, pair_in, shift_in, triple_in, upper_in};
ghost use Rattle.rv_asm.specs.Found.{AreLabels};

use crate::labels::Labels;
use crate::ranges::{
    distance_in, number_in, number_within, offset_in, register_in, signed, upper_immediate,
};
use asm_text::{Fault, Values};

/// Whether there are none.
pub(crate) fn is_nothing(values: &Values<'_>) -> bool
    ensures { (instr : Instr) → nothing_in (values_as values.now) instr ≡ (if result then Ok instr else Err TheFault.WrongForm) }
{
    matches!(*values, Values::Nothing)
}

/// Two registers.
pub(crate) fn pair_in(values: &Values<'_>) -> Result<(u8, u8), Fault>
    requires { AreRead values.now }
    ensures value { result ≡ pair_in (values_as values.now) }
    ensures within { IfOk result (λ p. (p.0 < 2 ^ 5) × (p.1 < 2 ^ 5)) }
{
    match *values {
        Values::Two { first, second } => {
            let r = register_in(&first)?;
            let s = register_in(&second)?;
            Ok((r, s))
        }
        Values::Nothing | Values::One { .. } | Values::Three { .. } => Err(Fault::WrongForm),
    }
}

/// Three registers.
pub(crate) fn triple_in(values: &Values<'_>) -> Result<(u8, u8, u8), Fault>
    requires { AreRead values.now }
    ensures value { result ≡ triple_in (values_as values.now) }
    ensures within { IfOk result (λ p. (p.0 < 2 ^ 5) × (p.1 < 2 ^ 5) × (p.2 < 2 ^ 5)) }
{
    match *values {
        Values::Three {
            first,
            second,
            third,
        } => {
            let r = register_in(&first)?;
            let s = register_in(&second)?;
            let t = register_in(&third)?;
            Ok((r, s, t))
        }
        Values::Nothing | Values::One { .. } | Values::Two { .. } => Err(Fault::WrongForm),
    }
}

/// A register, and the upper 20 bits of an immediate.
pub(crate) fn upper_in(values: &Values<'_>) -> Result<(u8, i32), Fault>
    requires { AreRead values.now }
    ensures value { result ≡ upper_in (values_as values.now) }
    ensures within { IfOk result (λ p. (p.0 < 2 ^ 5) × IsSigned 32 p.1 × HasZeros 12 p.1) }
{
    match *values {
        Values::Two { first, second } => {
            let rd = register_in(&first)?;
            let n = number_within(0, 0xf_ffff, number_in(&second)?)?;
            Ok((rd, upper_immediate(n.magnitude as u32)))
        }
        Values::Nothing | Values::One { .. } | Values::Three { .. } => Err(Fault::WrongForm),
    }
}

/// A register, and the distance to a target.
pub(crate) fn jump_in(
    labels: &Labels<'_>,
    place: u64,
    values: &Values<'_>,
) -> Result<(u8, i32), Fault>
    requires { AreRead values.now }
    ensures value { (sets : List Set) → AreLabels sets labels.now.places → result ≡ jump_in sets place (values_as values.now) }
    ensures within { IfOk result (λ p. (p.0 < 2 ^ 5) × IsSigned 21 p.1 × HasZeros 1 p.1) }
{
    match *values {
        Values::Two { first, second } => {
            let r = register_in(&first)?;
            let distance = distance_in(labels, 20, place, &second)?;
            Ok((r, distance))
        }
        Values::Nothing | Values::One { .. } | Values::Three { .. } => Err(Fault::WrongForm),
    }
}

/// Two registers, and the distance to a target.
pub(crate) fn branch_in(
    labels: &Labels<'_>,
    place: u64,
    values: &Values<'_>,
) -> Result<(u8, u8, i32), Fault>
    requires { AreRead values.now }
    ensures value { (sets : List Set) → AreLabels sets labels.now.places → result ≡ branch_in sets place (values_as values.now) }
    ensures within { IfOk result (λ p. (p.0 < 2 ^ 5) × (p.1 < 2 ^ 5) × IsSigned 13 p.2 × HasZeros 1 p.2) }
{
    match *values {
        Values::Three {
            first,
            second,
            third,
        } => {
            let r = register_in(&first)?;
            let s = register_in(&second)?;
            let distance = distance_in(labels, 12, place, &third)?;
            Ok((r, s, distance))
        }
        Values::Nothing | Values::One { .. } | Values::Two { .. } => Err(Fault::WrongForm),
    }
}

/// A register, and a base register with its offset.
pub(crate) fn based_in(values: &Values<'_>) -> Result<(u8, u8, i32), Fault>
    requires { AreRead values.now }
    ensures value { result ≡ based_in (values_as values.now) }
    ensures within { IfOk result (λ p. (p.0 < 2 ^ 5) × (p.1 < 2 ^ 5) × IsSigned 12 p.2) }
{
    match *values {
        Values::Two { first, second } => {
            let r = register_in(&first)?;
            let (n, base) = offset_in(&second)?;
            let n = number_within(2048, 2047, n)?;
            Ok((r, base, signed(n)))
        }
        Values::Nothing | Values::One { .. } | Values::Three { .. } => Err(Fault::WrongForm),
    }
}

/// Two registers, and an immediate.
pub(crate) fn immediate_in(values: &Values<'_>) -> Result<(u8, u8, i32), Fault>
    requires { AreRead values.now }
    ensures value { result ≡ immediate_in (values_as values.now) }
    ensures within { IfOk result (λ p. (p.0 < 2 ^ 5) × (p.1 < 2 ^ 5) × IsSigned 12 p.2) }
{
    match *values {
        Values::Three {
            first,
            second,
            third,
        } => {
            let rd = register_in(&first)?;
            let rs1 = register_in(&second)?;
            let n = number_within(2048, 2047, number_in(&third)?)?;
            Ok((rd, rs1, signed(n)))
        }
        Values::Nothing | Values::One { .. } | Values::Two { .. } => Err(Fault::WrongForm),
    }
}

/// Two registers, and an amount of 6 bits.
pub(crate) fn shift_in_6(values: &Values<'_>) -> Result<(u8, u8, u8), Fault>
    requires { AreRead values.now }
    ensures value { result ≡ shift_in 6 (values_as values.now) }
    ensures within { IfOk result (λ p. (p.0 < 2 ^ 5) × (p.1 < 2 ^ 5) × (p.2 < 2 ^ 6)) }
{
    match *values {
        Values::Three {
            first,
            second,
            third,
        } => {
            let rd = register_in(&first)?;
            let rs1 = register_in(&second)?;
            let n = number_within(0, 63, number_in(&third)?)?;
            Ok((rd, rs1, n.magnitude as u8))
        }
        Values::Nothing | Values::One { .. } | Values::Two { .. } => Err(Fault::WrongForm),
    }
}

/// Two registers, and an amount of 5 bits.
pub(crate) fn shift_in_5(values: &Values<'_>) -> Result<(u8, u8, u8), Fault>
    requires { AreRead values.now }
    ensures value { result ≡ shift_in 5 (values_as values.now) }
    ensures within { IfOk result (λ p. (p.0 < 2 ^ 5) × (p.1 < 2 ^ 5) × (p.2 < 2 ^ 5)) }
{
    match *values {
        Values::Three {
            first,
            second,
            third,
        } => {
            let rd = register_in(&first)?;
            let rs1 = register_in(&second)?;
            let n = number_within(0, 31, number_in(&third)?)?;
            Ok((rd, rs1, n.magnitude as u8))
        }
        Values::Nothing | Values::One { .. } | Values::Two { .. } => Err(Fault::WrongForm),
    }
}

/// Two registers, and a CSR.
pub(crate) fn csr_in(values: &Values<'_>) -> Result<(u8, u8, u16), Fault>
    requires { AreRead values.now }
    ensures value { result ≡ csr_in (values_as values.now) }
    ensures within { IfOk result (λ p. (p.0 < 2 ^ 5) × (p.1 < 2 ^ 5) × (p.2 < 2 ^ 12)) }
{
    match *values {
        Values::Three {
            first,
            second,
            third,
        } => {
            let rd = register_in(&first)?;
            let csr = number_within(0, 0xfff, number_in(&second)?)?;
            let rs1 = register_in(&third)?;
            Ok((rd, rs1, csr.magnitude as u16))
        }
        Values::Nothing | Values::One { .. } | Values::Two { .. } => Err(Fault::WrongForm),
    }
}

/// A register, a value of five bits, and a CSR.
pub(crate) fn csr_value_in(values: &Values<'_>) -> Result<(u8, u8, u16), Fault>
    requires { AreRead values.now }
    ensures value { result ≡ csr_value_in (values_as values.now) }
    ensures within { IfOk result (λ p. (p.0 < 2 ^ 5) × (p.1 < 2 ^ 5) × (p.2 < 2 ^ 12)) }
{
    match *values {
        Values::Three {
            first,
            second,
            third,
        } => {
            let rd = register_in(&first)?;
            let csr = number_within(0, 0xfff, number_in(&second)?)?;
            let value = number_within(0, 31, number_in(&third)?)?;
            Ok((rd, value.magnitude as u8, csr.magnitude as u16))
        }
        Values::Nothing | Values::One { .. } | Values::Two { .. } => Err(Fault::WrongForm),
    }
}
