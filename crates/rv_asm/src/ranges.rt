// Operands and their ranges.
ghost use Rattle.std.specs.Prelude.{◌≡◌, ◌<◌, ◌≤◌, ◌^◌, ◌+◌, IfOk, IsTrue, List};
ghost use Rattle.rv64_decode.specs.Format.{HasZeros, IsSigned};
ghost use Rattle.asm_text.specs.Operand.{is_within, minus, signed};
ghost use Rattle.asm_text.specs.Values.{target_as, value_as, IsValueRead};
ghost use Rattle.rv_asm.specs.Assembly.{Set, address_of, distance, distance_in, number_in, number_within, offset_in, register_in, upper_immediate};
ghost use Rattle.rv_asm.specs.Found.{AreLabels};

use crate::labels::Labels;
use asm_text::{Fault, Number, Target, Value};

/// The number is at least minus `below` and at most `above`.
pub(crate) fn is_within(below: u128, above: u128, n: Number) -> bool
    ensures { result ≡ is_within below above n }
{
    if n.negative {
        n.magnitude <= below
    } else {
        n.magnitude <= above
    }
}

pub(crate) fn number_within(below: u128, above: u128, n: Number) -> Result<Number, Fault>
    ensures value { result ≡ number_within below above n }
    ensures within { IfOk result (λ m. IsTrue (is_within below above m)) }
{
    if is_within(below, above, n) {
        Ok(n)
    } else {
        Err(Fault::OutOfRange)
    }
}

pub(crate) fn register_in(value: &Value<'_>) -> Result<u8, Fault>
    requires { IsValueRead value.now }
    ensures value { result ≡ register_in (value_as value.now) }
    ensures within { IfOk result (λ n. n < 2 ^ 5) }
{
    match *value {
        Value::Reg { n } => Ok(n),
        Value::Num { .. } | Value::Off { .. } | Value::To { .. } => Err(Fault::WrongForm),
    }
}

pub(crate) fn number_in(value: &Value<'_>) -> Result<Number, Fault>
    ensures { result ≡ number_in (value_as value.now) }
{
    match *value {
        Value::Num { n } => Ok(n),
        Value::Reg { .. } | Value::Off { .. } | Value::To { .. } => Err(Fault::WrongForm),
    }
}

pub(crate) fn offset_in(value: &Value<'_>) -> Result<(Number, u8), Fault>
    requires { IsValueRead value.now }
    ensures value { result ≡ offset_in (value_as value.now) }
    ensures within { IfOk result (λ p. p.1 < 2 ^ 5) }
{
    match *value {
        Value::Off { n, rs1 } => Ok((n, rs1)),
        Value::Reg { .. } | Value::Num { .. } | Value::To { .. } => Err(Fault::WrongForm),
    }
}

/// Where a target lies.
fn address_of(labels: &Labels<'_>, target: &Target<'_>) -> Result<u128, Fault>
    ensures { (sets : List Set) → AreLabels sets labels.now.places → result ≡ address_of sets (target_as target.now) }
{
    match *target {
        Target::Label { name } => match labels.place_of(name) {
            Some(place) => Ok(u128::from(place)),
            None => Err(Fault::NoLabel),
        },
        Target::Address { number } => {
            if is_within(0, number.magnitude, number) {
                Ok(number.magnitude)
            } else {
                Err(Fault::OutOfRange)
            }
        }
    }
}

fn minus(n: u128) -> i32
    requires { n ≤ 2 ^ 20 }
    ensures { result ≡ minus n }
{
    -(n as i32)
}

/// A distance of at most `most` bytes forward, or of one more backward.
fn distance(bits: u8, place: u64, address: u128) -> Result<i32, Fault>
    requires { bits ≤ 20 }
    ensures value { result ≡ distance bits place address }
    ensures signed { IfOk result (λ d. IsSigned (bits + 1) d) }
    ensures even { IfOk result (λ d. HasZeros 1 d) }
{
    let place = u128::from(place);
    let limit = 1u128 << bits;
    if place <= address {
        let ahead = address - place;
        if ahead < limit && ahead % 2 == 0 {
            return Ok(ahead as i32);
        }
    } else {
        let back = place - address;
        if back <= limit && back % 2 == 0 {
            return Ok(minus(back));
        }
    }
    Err(Fault::OutOfRange)
}

pub(crate) fn distance_in(
    labels: &Labels<'_>,
    bits: u8,
    place: u64,
    value: &Value<'_>,
) -> Result<i32, Fault>
    requires { bits ≤ 20 }
    ensures value { (sets : List Set) → AreLabels sets labels.now.places → result ≡ distance_in sets bits place (value_as value.now) }
    ensures signed { IfOk result (λ d. IsSigned (bits + 1) d) }
    ensures even { IfOk result (λ d. HasZeros 1 d) }
{
    match *value {
        Value::To { target } => distance(bits, place, address_of(labels, &target)?),
        Value::Reg { .. } | Value::Num { .. } | Value::Off { .. } => Err(Fault::WrongForm),
    }
}

/// An immediate of 32 bits by its upper 20.
pub(crate) fn upper_immediate(bits: u32) -> i32
    requires { bits < 2 ^ 20 }
    ensures value { result ≡ upper_immediate bits }
    ensures signed { IsSigned 32 result }
    ensures zeros { HasZeros 12 result }
{
    (bits * 0x1000).cast_signed()
}

/// A number of at most twelve bits.
pub(crate) fn signed(n: Number) -> i32
    requires { IsTrue (is_within 2048 2047 n) }
    ensures value { result ≡ signed n }
    ensures signed { IsSigned 12 result }
{
    if n.negative {
        -(n.magnitude as i32)
    } else {
        n.magnitude as i32
    }
}
