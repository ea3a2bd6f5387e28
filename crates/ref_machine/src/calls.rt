// The call that a hart's registers name, decided (RISC-V Supervisor Binary Interface Specification).
ghost use Rattle.std.specs.Prelude.{◌≡◌, ℕ, ◌<◌, ◌≤◌, pos, length};
ghost use Rattle.step_laws.specs.declared.words.Layout.{Layout as TheLayout};
ghost use Rattle.ref_machine.specs.Calls.{says, IsSoundCall};
ghost use Rattle.machine_model.specs.Memory.{Memory};
ghost use Rattle.machine_model.specs.Perform.{call_outcome};
ghost use Rattle.machine_model.specs.Sbi as sbi;
ghost use Rattle.ref_machine.specs.Slots.{modes_of};
ghost use Rattle.ref_machine.specs.declared.calls.Call.{Call as Decided};

mod fences;
mod masks;

use crate::hart::HartSlot;
use crate::translation::is_ram;
use fences::is_past_end;
use machine_model::{Mode, Reason};
use masks::named_bits;
use rv64_exec::Arch;
use step_laws::{Layout, PAGE_BYTES, RAM_BASE};

// The extensions, by a7.
const LEGACY_PUTCHAR: u64 = 0x01;

const LEGACY_SHUTDOWN: u64 = 0x08;

const BASE: u64 = 0x10;

const IPI: u64 = 0x73_5049;

const RFENCE: u64 = 0x5246_4E43;

const HSM: u64 = 0x48_534D;

const SRST: u64 = 0x5352_5354;

const DBCN: u64 = 0x4442_434E;

// The errors.
const NOT_SUPPORTED: i64 = -2;

const INVALID_PARAM: i64 = -3;

const INVALID_ADDRESS: i64 = -5;

const ALREADY_AVAILABLE: i64 = -6;

/// Version 2.0.
const SPEC_VERSION: u64 = 0x0200_0000;

/// No known implementation's number.
const IMPLEMENTATION: u64 = 0x7fff;

const IMPLEMENTATION_VERSION: u64 = 1;

/// The most bytes that one call prints.
const MOST_PRINTED: u64 = 256;

/// What a call of the SBI does, with the bytes that it prints named by their place in RAM.
#[derive(Clone, Copy)]
pub(crate) enum Call {
    /// a0 gets the error and a1 the value. An accepted remote fence is one, as no TLB here holds anything older.
    Gives { error: i64, value: u64 },
    /// a0 gets the error, and a1 is kept.
    GivesOne { error: i64 },
    /// So many bytes of RAM from a physical address go to the console, and a1 gets their count.
    Prints { from: u64, count: u64 },
    /// A byte goes to the console, and a1 gets 0.
    PrintsByte(u8),
    /// A byte goes to the console, and a1 is kept.
    PrintsOne(u8),
    /// These bits are set in IPI.
    Sends { mask: u64 },
    /// A hart's start is pending.
    Begins { target: u8, at: u64, opaque: u64 },
    /// This hart stops.
    Leaves,
    /// The machine stops.
    EndsAll(Reason),
}

fn fails(error: i64) -> Call
    ensures { result ≡ Decided.Gives error 0 }
{
    Call::Gives { error, value: 0 }
}

fn succeeds(value: u64) -> Call
    ensures { result ≡ Decided.Gives (pos 0) value }
{
    Call::Gives { error: 0, value }
}

/// One of the registers a0 to a7.
fn arg(arch: &Arch, number: u8) -> u64
    requires { number < 8 }
    ensures { result ≡ sbi.arg arch.now number }
{
    arch.x[10 + number as usize]
}

fn is_known(extension: u64) -> bool
    ensures { result ≡ sbi.is_known extension }
{
    matches!(
        extension,
        LEGACY_PUTCHAR | LEGACY_SHUTDOWN | BASE | IPI | RFENCE | HSM | SRST | DBCN
    )
}

fn base_call(arch: &Arch, function: u64) -> Call
    ensures says { (m : Memory) → says m result ≡ sbi.base_call arch.now function }
    ensures sound { (l : TheLayout) → IsSoundCall l result }
{
    match function {
        0 => succeeds(SPEC_VERSION),
        1 => succeeds(IMPLEMENTATION),
        2 => succeeds(IMPLEMENTATION_VERSION),
        3 => succeeds(if is_known(arg(arch, 0)) { 1 } else { 0 }),
        4..=6 => succeeds(0),
        _ => fails(NOT_SUPPORTED),
    }
}

fn ipi_call(harts: u8, arch: &Arch, function: u64) -> Call
    requires { harts ≤ 8 }
    ensures says { (m : Memory) → says m result ≡ sbi.ipi_call harts arch.now function }
    ensures sound { (l : TheLayout) → IsSoundCall l result }
{
    if function != 0 {
        return fails(NOT_SUPPORTED);
    }
    match named_bits(harts, arg(arch, 0), arg(arch, 1)) {
        Some(mask) => Call::Sends { mask },
        None => fails(INVALID_PARAM),
    }
}

fn rfence_call(harts: u8, arch: &Arch, function: u64) -> Call
    requires { harts ≤ 8 }
    ensures says { (m now : Memory) (room : ℕ) → call_outcome now room (says m result) ≡ call_outcome now room (sbi.rfence_call harts arch.now function) }
    ensures sound { (l : TheLayout) → IsSoundCall l result }
{
    if function > 2 {
        return fails(NOT_SUPPORTED);
    }
    if named_bits(harts, arg(arch, 0), arg(arch, 1)).is_none() {
        return fails(INVALID_PARAM);
    }
    if function != 0 && is_past_end(arg(arch, 2), arg(arch, 3)) {
        return fails(INVALID_ADDRESS);
    }
    succeeds(0)
}

fn mode_of(slots: &[HartSlot], hart: u64) -> Mode
    requires { hart < length slots.now }
    ensures { result ≡ modes_of slots.now hart }
{
    slots[hart as usize].mode
}

fn start_call(layout: Layout, slots: &[HartSlot], arch: &Arch) -> Call
    requires there { length slots.now ≡ layout.harts }
    requires pages { layout.pages ≤ 4096 }
    ensures says { (m : Memory) → says m result ≡ sbi.start_call layout (modes_of slots.now) arch.now }
    ensures sound { IsSoundCall layout result }
{
    let hart = arg(arch, 0);
    let at = arg(arch, 1);
    if hart >= u64::from(layout.harts) {
        return fails(INVALID_PARAM);
    }
    if at % 4 != 0 || !is_ram(layout.pages, at) {
        return fails(INVALID_ADDRESS);
    }
    match mode_of(slots, hart) {
        Mode::Halted => Call::Begins {
            target: hart as u8,
            at,
            opaque: arg(arch, 2),
        },
        Mode::Started | Mode::Pending => fails(ALREADY_AVAILABLE),
    }
}

fn state_number(mode: Mode) -> u64
    ensures { result ≡ sbi.state_number mode }
{
    match mode {
        Mode::Started => 0,
        Mode::Halted => 1,
        Mode::Pending => 2,
    }
}

fn hsm_call(layout: Layout, slots: &[HartSlot], arch: &Arch, function: u64) -> Call
    requires there { length slots.now ≡ layout.harts }
    requires pages { layout.pages ≤ 4096 }
    ensures says { (m : Memory) → says m result ≡ sbi.hsm_call layout (modes_of slots.now) arch.now function }
    ensures sound { IsSoundCall layout result }
{
    match function {
        0 => start_call(layout, slots, arch),
        1 => Call::Leaves,
        2 => {
            let hart = arg(arch, 0);
            if hart < u64::from(layout.harts) {
                succeeds(state_number(mode_of(slots, hart)))
            } else {
                fails(INVALID_PARAM)
            }
        }
        _ => fails(NOT_SUPPORTED),
    }
}

/// A reset to start again, cold or warm, is one that the SBI names and this machine does not have.
fn reset_call(kind: u64, reason: u64) -> Call
    ensures says { (m : Memory) → says m result ≡ sbi.reset_call kind reason }
    ensures sound { (l : TheLayout) → IsSoundCall l result }
{
    match (kind, reason) {
        (0, 0) => Call::EndsAll(Reason::Pass),
        (0, 1) => Call::EndsAll(Reason::Fail(1)),
        (1 | 2, _) => fails(NOT_SUPPORTED),
        _ => fails(INVALID_PARAM),
    }
}

/// Every byte of the range is in RAM.
fn is_in_ram(pages: u32, from: u64, count: u64) -> bool
    requires { pages ≤ 4096 }
    ensures { result ≡ sbi.is_range_in_ram pages from count }
{
    let end = RAM_BASE + PAGE_BYTES * u64::from(pages);
    count == 0 || (RAM_BASE <= from && from <= end && count <= end - from)
}

fn console_call(layout: Layout, arch: &Arch, function: u64) -> Call
    requires { layout.pages ≤ 4096 }
    ensures says { (m : Memory) → says m result ≡ sbi.console_call layout.pages m arch.now function }
    ensures sound { IsSoundCall layout result }
{
    match function {
        0 => {
            let count = arg(arch, 0);
            let from = arg(arch, 1);
            if arg(arch, 2) != 0 || !is_in_ram(layout.pages, from, count) {
                return fails(INVALID_PARAM);
            }
            Call::Prints {
                from,
                count: count.min(MOST_PRINTED),
            }
        }
        2 => Call::PrintsByte((arg(arch, 0) % 0x100) as u8),
        _ => fails(NOT_SUPPORTED),
    }
}

/// A legacy call, below `BASE`, keeps a1.
fn no_call(extension: u64) -> Call
    ensures says { (m : Memory) → says m result ≡ sbi.no_call extension }
    ensures sound { (l : TheLayout) → IsSoundCall l result }
{
    if extension < BASE {
        Call::GivesOne {
            error: NOT_SUPPORTED,
        }
    } else {
        fails(NOT_SUPPORTED)
    }
}

/// The call that a hart's registers name: a7 its extension, a6 its function, a0 to a5 its arguments.
#[tactic(auto, unfolding(machine_model::specs::Sbi::sbi_of))]
pub(crate) fn call_of(layout: Layout, slots: &[HartSlot], arch: &Arch) -> Call
    requires there { length slots.now ≡ layout.harts }
    requires harts { layout.harts ≤ 8 }
    requires pages { layout.pages ≤ 4096 }
    ensures says { (m now : Memory) (room : ℕ) → call_outcome now room (says m result) ≡ call_outcome now room (sbi.sbi_of layout (modes_of slots.now) m arch.now) }
    ensures sound { IsSoundCall layout result }
{
    let extension = arg(arch, 7);
    let function = arg(arch, 6);
    match extension {
        LEGACY_PUTCHAR => Call::PrintsOne((arg(arch, 0) % 0x100) as u8),
        LEGACY_SHUTDOWN => Call::EndsAll(Reason::Pass),
        BASE => base_call(arch, function),
        IPI => ipi_call(layout.harts, arch, function),
        RFENCE => rfence_call(layout.harts, arch, function),
        HSM => hsm_call(layout, slots, arch, function),
        SRST => {
            if function == 0 {
                reset_call(arg(arch, 0) % 0x1_0000_0000, arg(arch, 1) % 0x1_0000_0000)
            } else {
                no_call(extension)
            }
        }
        DBCN => console_call(layout, arch, function),
        _ => no_call(extension),
    }
}
