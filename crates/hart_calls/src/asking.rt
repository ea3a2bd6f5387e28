// What a hart's registers ask for (RISC-V Supervisor Binary Interface Specification).
ghost use Rattle.std.specs.Prelude.{◌≡◌, ◌<◌, ◌≤◌, pos};
ghost use Rattle.step_laws.specs.declared.words.Layout.{Layout as TheLayout};
ghost use Rattle.step_laws.specs.Layout.{IsInLimits};
ghost use Rattle.machine_model.specs.Memory.{Memory};
ghost use Rattle.machine_model.specs.Sbi as sbi;
ghost use Rattle.rv64_priv.specs.State.{Arch as TheArch};
ghost use Rattle.rv64_priv.specs.Walk as walk;
ghost use Rattle.hart_calls.specs.Asked.{IsSound, call_asked};

use crate::fences::span_of;
use crate::masks::named_bits;
use crate::reset::reset_call;
use crate::spans::Span;
use machine_model::Reason;
use rv64_priv::Arch;
use step_laws::{Layout, PAGE_BYTES, RAM_BASE};

// The extensions, by a7.
const LEGACY_PUTCHAR: u64 = 0x01;

const LEGACY_SHUTDOWN: u64 = 0x08;

const BASE: u64 = 0x10;

const IPI: u64 = 0x73_5049;

const RFENCE: u64 = 0x5246_4E43;

const HSM: u64 = 0x48_534D;

const SRST: u64 = 0x5352_5354;

const DBCN: u64 = 0x4442_434E;

// The errors.
pub(crate) const NOT_SUPPORTED: i64 = -2;

pub(crate) const INVALID_PARAM: i64 = -3;

const INVALID_ADDRESS: i64 = -5;

/// Version 2.0.
const SPEC_VERSION: u64 = 0x0200_0000;

/// No known implementation's number.
const IMPLEMENTATION: u64 = 0x7fff;

const IMPLEMENTATION_VERSION: u64 = 1;

/// The most bytes that one call prints.
const MOST_PRINTED: u64 = 256;

/// What a call asks for. Whether a hart can be started, what its state is, and which bytes lie in RAM are still to be looked up.
#[derive(Clone, Copy)]
pub enum Asked {
    /// a0 gets the error and a1 the value.
    Gives { error: i64, value: u64 },
    /// a0 gets the error, and a1 is kept.
    GivesOne { error: i64 },
    /// An interrupt for each hart of a mask.
    Sends { mask: u64 },
    /// A flush of each hart of a mask.
    Fences { harts: u64, span: Span },
    /// A start of a hart, where it is stopped.
    Starts { target: u8, at: u64, opaque: u64 },
    /// The state of a hart.
    TellsState { target: u8 },
    /// This hart stops.
    Leaves,
    /// The machine stops.
    Ends(Reason),
    /// So many bytes of RAM from a physical address go to the console, and a1 gets their count.
    Prints { from: u64, count: u64 },
    /// A byte goes to the console, and a1 gets 0.
    PrintsByte(u8),
    /// A byte goes to the console, and a1 is kept.
    PrintsOne(u8),
}

pub(crate) fn fails(error: i64) -> Asked
    ensures { result ≡ Asked.Gives error 0 }
{
    Asked::Gives { error, value: 0 }
}

fn succeeds(value: u64) -> Asked
    ensures { result ≡ Asked.Gives (pos 0) value }
{
    Asked::Gives { error: 0, value }
}

/// One of the registers a0 to a7.
fn arg(arch: &Arch, number: u8) -> u64
    requires { number < 8 }
    ensures { result ≡ sbi.arg arch.now number }
{
    arch.x[10 + number as usize]
}

fn is_known(extension: u64) -> bool
    ensures { result ≡ sbi.is_known extension }
{
    matches!(
        extension,
        LEGACY_PUTCHAR | LEGACY_SHUTDOWN | BASE | IPI | RFENCE | HSM | SRST | DBCN
    )
}

fn base_call(arch: &Arch, function: u64) -> Asked
    ensures says { (l : TheLayout) (modes : sbi.Modes) (m : Memory) → call_asked l arch.now modes m result ≡ sbi.base_call arch.now function }
    ensures sound { (l : TheLayout) → IsSound l arch.now result }
{
    match function {
        0 => succeeds(SPEC_VERSION),
        1 => succeeds(IMPLEMENTATION),
        2 => succeeds(IMPLEMENTATION_VERSION),
        3 => succeeds(if is_known(arg(arch, 0)) { 1 } else { 0 }),
        4..=6 => succeeds(0),
        _ => fails(NOT_SUPPORTED),
    }
}

fn ipi_call(layout: Layout, arch: &Arch, function: u64) -> Asked
    requires { IsInLimits layout }
    ensures says { (modes : sbi.Modes) (m : Memory) → call_asked layout arch.now modes m result ≡ sbi.ipi_call layout.harts arch.now function }
    ensures sound { IsSound layout arch.now result }
{
    if function != 0 {
        return fails(NOT_SUPPORTED);
    }
    match named_bits(layout.harts, arg(arch, 0), arg(arch, 1)) {
        Some(mask) => Asked::Sends { mask },
        None => fails(INVALID_PARAM),
    }
}

fn rfence_call(layout: Layout, arch: &Arch, function: u64) -> Asked
    requires { IsInLimits layout }
    ensures says { (modes : sbi.Modes) (m : Memory) → call_asked layout arch.now modes m result ≡ sbi.rfence_call layout.harts arch.now function }
    ensures sound { IsSound layout arch.now result }
{
    if function > 2 {
        return fails(NOT_SUPPORTED);
    }
    let Some(harts) = named_bits(layout.harts, arg(arch, 0), arg(arch, 1)) else {
        return fails(INVALID_PARAM);
    };
    if function == 0 {
        return succeeds(0);
    }
    match span_of(arg(arch, 2), arg(arch, 3)) {
        Some(span) => Asked::Fences { harts, span },
        None => fails(INVALID_ADDRESS),
    }
}

fn is_ram(pages: u32, pa: u64) -> bool
    requires { pages ≤ 4096 }
    ensures { result ≡ walk.is_ram pages pa }
{
    RAM_BASE <= pa && pa < RAM_BASE + PAGE_BYTES * u64::from(pages)
}

fn start_call(layout: Layout, arch: &Arch) -> Asked
    requires { IsInLimits layout }
    ensures says { (modes : sbi.Modes) (m : Memory) → call_asked layout arch.now modes m result ≡ sbi.start_call layout modes arch.now }
    ensures sound { IsSound layout arch.now result }
{
    let hart = arg(arch, 0);
    let at = arg(arch, 1);
    if hart >= u64::from(layout.harts) {
        return fails(INVALID_PARAM);
    }
    if at % 4 != 0 || !is_ram(layout.pages, at) {
        return fails(INVALID_ADDRESS);
    }
    Asked::Starts {
        target: hart as u8,
        at,
        opaque: arg(arch, 2),
    }
}

fn hsm_call(layout: Layout, arch: &Arch, function: u64) -> Asked
    requires { IsInLimits layout }
    ensures says { (modes : sbi.Modes) (m : Memory) → call_asked layout arch.now modes m result ≡ sbi.hsm_call layout modes arch.now function }
    ensures sound { IsSound layout arch.now result }
{
    match function {
        0 => start_call(layout, arch),
        1 => Asked::Leaves,
        2 => {
            let hart = arg(arch, 0);
            if hart < u64::from(layout.harts) {
                Asked::TellsState { target: hart as u8 }
            } else {
                fails(INVALID_PARAM)
            }
        }
        _ => fails(NOT_SUPPORTED),
    }
}

/// Every byte of the range is in RAM.
fn is_in_ram(pages: u32, from: u64, count: u64) -> bool
    requires { pages ≤ 4096 }
    ensures { result ≡ sbi.is_range_in_ram pages from count }
{
    let end = RAM_BASE + PAGE_BYTES * u64::from(pages);
    count == 0 || (RAM_BASE <= from && from <= end && count <= end - from)
}

fn console_call(layout: Layout, arch: &Arch, function: u64) -> Asked
    requires { IsInLimits layout }
    ensures says { (modes : sbi.Modes) (m : Memory) → call_asked layout arch.now modes m result ≡ sbi.console_call layout.pages m arch.now function }
    ensures sound { IsSound layout arch.now result }
{
    match function {
        0 => {
            let count = arg(arch, 0);
            let from = arg(arch, 1);
            if arg(arch, 2) != 0 || !is_in_ram(layout.pages, from, count) {
                return fails(INVALID_PARAM);
            }
            Asked::Prints {
                from,
                count: count.min(MOST_PRINTED),
            }
        }
        2 => Asked::PrintsByte((arg(arch, 0) % 0x100) as u8),
        _ => fails(NOT_SUPPORTED),
    }
}

/// A legacy call, below `BASE`, keeps a1.
fn no_call(extension: u64) -> Asked
    ensures says { (l : TheLayout) (a : TheArch) (modes : sbi.Modes) (m : Memory) → call_asked l a modes m result ≡ sbi.no_call extension }
    ensures sound { (l : TheLayout) (a : TheArch) → IsSound l a result }
{
    if extension < BASE {
        Asked::GivesOne {
            error: NOT_SUPPORTED,
        }
    } else {
        fails(NOT_SUPPORTED)
    }
}

/// What the registers ask for: a7 has the extension, a6 the function, a0 to a5 the arguments.
#[tactic(auto, unfolding(machine_model::specs::Sbi::sbi_of))]
pub(crate) fn asked_of(layout: Layout, arch: &Arch) -> Asked
    requires { IsInLimits layout }
    ensures is { (modes : sbi.Modes) (m : Memory) → call_asked layout arch.now modes m result ≡ sbi.sbi_of layout modes m arch.now }
    ensures sound { IsSound layout arch.now result }
{
    let extension = arg(arch, 7);
    let function = arg(arch, 6);
    match extension {
        LEGACY_PUTCHAR => Asked::PrintsOne((arg(arch, 0) % 0x100) as u8),
        LEGACY_SHUTDOWN => Asked::Ends(Reason::Pass),
        BASE => base_call(arch, function),
        IPI => ipi_call(layout, arch, function),
        RFENCE => rfence_call(layout, arch, function),
        HSM => hsm_call(layout, arch, function),
        SRST => {
            if function == 0 {
                reset_call(arg(arch, 0) % 0x1_0000_0000, arg(arch, 1) % 0x1_0000_0000)
            } else {
                no_call(extension)
            }
        }
        DBCN => console_call(layout, arch, function),
        _ => no_call(extension),
    }
}
