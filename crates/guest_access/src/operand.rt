// Operands of atomic accesses, 8 or 4 bytes wide.
ghost use Rattle.std.specs.Prelude.{◌≡◌, ◌<◌, ◌%◌, ◌^◌};
ghost use Rattle.machine_model.specs.Perform as perform;

use rv64_exec::AmoOp;

/// How many bytes an access has.
pub(crate) fn width_of(wide: bool) -> u8
    ensures { result ≡ perform.width_of wide }
{
    if wide { 8 } else { 4 }
}

pub(crate) fn is_misaligned(wide: bool, va: u64) -> bool
    ensures { result ≡ perform.is_misaligned wide va }
{
    va % u64::from(width_of(wide)) != 0
}

/// The bytes of an operand that an access of this width has.
fn low(wide: bool, value: u64) -> u64
    ensures { result ≡ value % 256 ^ perform.width_of wide }
{
    if wide { value } else { value % 0x1_0000_0000 }
}

/// An operand of this width as a signed number.
fn signed(wide: bool, value: u64) -> i64
    ensures { result ≡ perform.signed_of wide value }
{
    if wide {
        value.cast_signed()
    } else {
        i64::from(((value % 0x1_0000_0000) as u32).cast_signed())
    }
}

/// The result of an operation on the old value and the register's. Memory takes as many of its bytes as the access has.
pub(crate) fn combine(op: AmoOp, wide: bool, old: u64, value: u64) -> u64
    ensures { result % 256 ^ perform.width_of wide ≡ perform.combined op wide old value % 256 ^ perform.width_of wide }
{
    match op {
        AmoOp::Swap => value,
        AmoOp::Add => old.wrapping_add(value),
        AmoOp::Xor => old ^ value,
        AmoOp::And => old & value,
        AmoOp::Or => old | value,
        AmoOp::Min => if signed(wide, value) < signed(wide, old) {
            value
        } else {
            old
        },
        AmoOp::Max => if signed(wide, old) < signed(wide, value) {
            value
        } else {
            old
        },
        AmoOp::MinU => old.min(low(wide, value)),
        AmoOp::MaxU => old.max(low(wide, value)),
    }
}
