// What `log` gets of a machine that has ended.
ghost use Rattle.std.specs.Prelude.{◌≡◌, ℕ, ◌<◌, ◌≤◌, ◌+◌, ◌*◌, ◌++◌, List, [], length, map, drop};
ghost use Rattle.arrayvec.specs.ArrayString.{array_string_len};
ghost use Rattle.ref_machine.specs.Shows.{resting};
ghost use Rattle.tlbvm.specs.Report.{end_line, hart_line, hart_lines, hex, hex_digit, registers, report_from};

use arrayvec::ArrayString;
use itoa::Buffer;
use ref_machine::{PlainMachine, Reason};
use rv64_exec::Arch;

/// Room for a line of the end and eight lines of registers.
pub(crate) type Report = ArrayString<5120>;

/// The line of a machine's end by its first reason, or by none where the order ended.
fn push_end(text: &mut Report, reason: Option<Reason>)
    requires { text.old.bytes ≡ [] }
    ensures bytes { text.new.bytes ≡ end_line reason }
    ensures len { array_string_len text.new ≤ 64 }
{
    text.push_str("end: ");
    match reason {
        None => text.push_str("order ended"),
        Some(Reason::Pass) => text.push_str("pass"),
        Some(Reason::Fail(code)) => {
            text.push_str("fail ");
            text.push_str(Buffer::new().format(code));
        }
        Some(Reason::Limit(hart)) => {
            text.push_str("limit hart ");
            text.push_str(Buffer::new().format(hart));
        }
        Some(Reason::OutFull) => text.push_str("output full"),
        Some(Reason::AllStopped) => text.push_str("all harts stopped"),
        Some(Reason::Stopped) => text.push_str("stopped"),
    }
    text.push_str("\n");
}

fn hex_digit(digit: u64) -> char
    requires { digit < 16 }
    ensures digit { result ≡ hex_digit digit }
    ensures ascii { result < 128 }
{
    if digit < 10 {
        char::from(b'0' + digit as u8)
    } else {
        char::from(b'a' - 10 + digit as u8)
    }
}

/// Appends a number in so many hexadecimal digits.
#[tactic(auto, unfolding(crate::specs::Report::hex))]
fn push_hex(text: &mut Report, digits: u8, value: u64)
    requires { array_string_len text.old + digits ≤ 5120 }
    ensures bytes { text.new.bytes ≡ text.old.bytes ++ hex digits value }
    ensures len { array_string_len text.new ≡ array_string_len text.old + digits }
{
    if digits == 0 {
        return;
    }
    push_hex(text, digits - 1, value / 16);
    text.push(hex_digit(value % 16));
}

/// Appends registers, each behind a space.
fn push_registers(text: &mut Report, values: &[u64])
    requires { array_string_len text.old + 17 * length values.now ≤ 5120 }
    ensures bytes { text.new.bytes ≡ text.old.bytes ++ registers values.now }
    ensures len { array_string_len text.new ≡ array_string_len text.old + 17 * length values.now }
{
    if let [first, rest @ ..] = values {
        text.push_str(" ");
        push_hex(text, 16, *first);
        push_registers(text, rest);
    }
}

fn pc_of(arch: &Arch) -> u64
    ensures { result ≡ arch.now.pc }
{
    arch.pc
}

fn behind_first(values: &[u64]) -> &[u64]
    requires { 1 ≤ length values.now }
    ensures value { result.now ≡ drop 1 values.now }
    ensures len { length result.now + 1 ≡ length values.now }
{
    &values[1..]
}

/// All registers but x0.
fn registers_of(arch: &Arch) -> &[u64]
    ensures value { result.now ≡ drop 1 arch.now.x }
    ensures len { length result.now ≡ 31 }
{
    behind_first(arch.x.as_slice())
}

/// Appends a hart's line.
fn push_hart(text: &mut Report, hart: u8, count: u64, arch: &Arch)
    requires { array_string_len text.old + 600 ≤ 5120 }
    ensures bytes { text.new.bytes ≡ text.old.bytes ++ hart_line hart count arch.now }
    ensures len { array_string_len text.new ≤ array_string_len text.old + 600 }
{
    text.push_str("hart ");
    text.push_str(Buffer::new().format(hart));
    text.push_str(" ");
    text.push_str(Buffer::new().format(count));
    text.push_str(" ");
    push_hex(text, 16, pc_of(arch));
    push_registers(text, registers_of(arch));
    text.push_str("\n");
}

/// Appends the lines of the harts from this one on.
fn push_harts(text: &mut Report, machine: &PlainMachine, hart: u8)
    requires hart { hart ≤ machine.now.shared.layout.harts }
    requires harts { machine.now.shared.layout.harts ≤ 8 }
    requires room { array_string_len text.old ≤ 64 + 600 * hart }
    ensures bytes { text.new.bytes ≡ text.old.bytes ++ hart_lines hart (drop hart (map resting machine.now.slots)) }
{
    if hart == machine.harts() {
        return;
    }
    push_hart(text, hart, machine.count(hart), machine.arch(hart));
    push_harts(text, machine, hart + 1);
}

/// The report of a machine by its first reason, with all registers where they are asked for.
pub(crate) fn report(machine: &PlainMachine, reason: Option<Reason>, regs: bool) -> Report
    requires { machine.now.shared.layout.harts ≤ 8 }
    ensures { result.bytes ≡ report_from regs [] reason (map resting machine.now.slots) }
{
    let mut text = ArrayString::new();
    push_end(&mut text, reason);
    if regs {
        push_harts(&mut text, machine, 0);
    }
    text
}
