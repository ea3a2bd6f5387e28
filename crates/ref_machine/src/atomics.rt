// Atomic accesses: an operation, a load-reserved and a store-conditional (RISC-V Unprivileged ISA, "A" Extension for
// Atomic Instructions).
ghost use Rattle.std.specs.Prelude.{◌≡◌, ◌<◌, ◌≤◌, ◌%◌, ◌^◌, length, IfOk};
ghost use Rattle.rv64_priv.specs.declared.state.Kind.{Kind as TheKind};
ghost use Rattle.machine_model.specs.Perform as perform;
ghost use Rattle.ref_machine.specs.OneTurn as one;
ghost use Rattle.ref_machine.specs.Atomics as atomics;
ghost use Rattle.ref_machine.specs.Given.{load_answer, reserve_answer, conditional_answer};

use crate::shared::Shared;
use crate::translation::{Fault, Spot, translate};
use machine_model::{extended, number_in, replace_in};
use rv64_exec::{AmoOp, Arch, Hold, Kind};
use rv64_priv::access_fault;
use step_laws::RAM_BASE;

/// What a load-reserved answers: the number for the register, and what the hart holds from then on.
#[derive(Clone, Copy)]
pub(crate) struct Reserved {
    pub value: u64,
    pub hold: Hold,
}

/// How many bytes an access has.
fn width_of(wide: bool) -> u8
    ensures { result ≡ perform.width_of wide }
{
    if wide { 8 } else { 4 }
}

fn is_misaligned(wide: bool, va: u64) -> bool
    ensures { result ≡ perform.is_misaligned wide va }
{
    va % u64::from(width_of(wide)) != 0
}

/// The cause of a misaligned address.
fn misaligned(kind: Kind) -> u64
    ensures { result ≡ atomics.misaligned kind }
{
    match kind {
        Kind::Fetch => 0,
        Kind::Load => 4,
        Kind::Store => 6,
    }
}

/// The bytes of an operand that an access of this width has.
fn low(wide: bool, value: u64) -> u64
    ensures { result ≡ value % 256 ^ perform.width_of wide }
{
    if wide { value } else { value % 0x1_0000_0000 }
}

/// An operand of this width as a signed number.
fn signed(wide: bool, value: u64) -> i64
    ensures { result ≡ perform.signed_of wide value }
{
    if wide {
        value.cast_signed()
    } else {
        i64::from(((value % 0x1_0000_0000) as u32).cast_signed())
    }
}

/// The result of an operation on the old value and the register's. Memory takes as many of its bytes as the access
/// has.
fn combine(op: AmoOp, wide: bool, old: u64, value: u64) -> u64
    ensures { result % 256 ^ perform.width_of wide ≡ perform.combined op wide old value % 256 ^ perform.width_of wide }
{
    match op {
        AmoOp::Swap => value,
        AmoOp::Add => old.wrapping_add(value),
        AmoOp::Xor => old ^ value,
        AmoOp::And => old & value,
        AmoOp::Or => old | value,
        AmoOp::Min => if signed(wide, value) < signed(wide, old) {
            value
        } else {
            old
        },
        AmoOp::Max => if signed(wide, old) < signed(wide, value) {
            value
        } else {
            old
        },
        AmoOp::MinU => old.min(low(wide, value)),
        AmoOp::MaxU => old.max(low(wide, value)),
    }
}

/// A hold is of this address and width, and memory's word is the held one.
fn is_held(hold: Option<Hold>, pa: u64, wide: bool, word: u64) -> bool
    requires { 2 ^ 31 ≤ pa }
    ensures { result ≡ perform.hold_stands (λ _. word) (atomics.span_at wide pa) wide hold }
{
    hold.is_some_and(|hold| hold.pa == pa && hold.wide == wide && hold.word == word)
}

impl Shared {
    /// The physical address in RAM of an atomic access: at no multiple of its width it faults before translation, and
    /// on a device behind it.
    #[inline(never)]
    fn atomic_place(&self, arch: &Arch, kind: Kind, va: u64, wide: bool) -> Result<u64, Fault>
        ensures reach { atomics.atomic_reached wide result ≡ atomics.atomic_reach arch.now self.now kind va wide }
        ensures inside { IfOk result (λ pa. atomics.IsWithin (length self.now.ram) wide pa) }
    {
        if is_misaligned(wide, va) {
            return Err(Fault {
                cause: misaligned(kind),
                tval: va,
            });
        }
        match translate(self.ram.as_slice(), self.layout.pages, arch, kind, va) {
            Spot::Ram(pa) => Ok(pa),
            Spot::Device(_) => Err(Fault {
                cause: access_fault(kind),
                tval: va,
            }),
            Spot::Faults(fault) => Err(fault),
        }
    }

    /// Does an operation on memory, and answers the old value as the register gets it.
    #[inline(never)]
    pub(crate) fn operate(
        &mut self,
        arch: &Arch,
        va: u64,
        op: AmoOp,
        wide: bool,
        value: u64,
    ) -> Result<u64, Fault>
        ensures done { one.amo_effect arch.now self.old va op wide value ≡ one.answers self.new (load_answer result) }
        ensures rest { self.new ≡ record self.old { ram = self.new.ram } }
    {
        let pa = self.atomic_place(arch, Kind::Store, va, wide)?;
        let index = ((pa - RAM_BASE) / 8) as usize;
        let width = width_of(wide);
        let word = self.ram[index];
        let old = number_in(word, pa % 8, width);
        self.ram[index] = replace_in(word, pa % 8, width, combine(op, wide, old, value));
        Ok(extended(true, width, old))
    }

    /// Loads a number, and what the hart holds of it: its address, its width, and memory's whole word.
    #[inline(never)]
    pub(crate) fn load_reserved(&self, arch: &Arch, va: u64, wide: bool) -> Result<Reserved, Fault>
        ensures { one.reserve_effect arch.now self.now va wide ≡ one.answers self.now (reserve_answer result) }
    {
        let pa = self.atomic_place(arch, Kind::Load, va, wide)?;
        let width = width_of(wide);
        let word = self.ram[((pa - RAM_BASE) / 8) as usize];
        let value = extended(true, width, number_in(word, pa % 8, width));
        Ok(Reserved {
            value,
            hold: Hold { pa, wide, word },
        })
    }

    /// Stores where the hart's hold is of this address and width and the whole word is as it was; answers whether it
    /// did. It faults as a store does also where it would not store.
    #[inline(never)]
    pub(crate) fn store_conditional(
        &mut self,
        arch: &Arch,
        va: u64,
        wide: bool,
        value: u64,
    ) -> Result<bool, Fault>
        ensures done { one.conditional_effect arch.now self.old va wide value ≡ one.answers self.new (conditional_answer result) }
        ensures rest { self.new ≡ record self.old { ram = self.new.ram } }
    {
        let pa = self.atomic_place(arch, Kind::Store, va, wide)?;
        let index = ((pa - RAM_BASE) / 8) as usize;
        let word = self.ram[index];
        let stored = is_held(arch.hold, pa, wide, word);
        if stored {
            self.ram[index] = replace_in(word, pa % 8, width_of(wide), value);
        }
        Ok(stored)
    }
}
