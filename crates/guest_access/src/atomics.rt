// Atomic accesses: an operation, a load-reserved and a store-conditional (RISC-V Unprivileged ISA, "A" Extension for Atomic Instructions).
ghost use Rattle.std.specs.Prelude.{◌≡◌, ◌≤◌, ◌+◌, ◌%◌, IfOk};
ghost use Rattle.rv64_priv.specs.Csr.{regime};
ghost use Rattle.rv64_priv.specs.declared.state.Kind.TheVariants.{Store};
ghost use Rattle.machine_model.specs.Perform as perform;
ghost use Rattle.guest_ram.specs.Ports.{GoesBy};
ghost use Rattle.tlb_fill.specs.Stepping.{IsArmedAt, IsOfFill};
ghost use Rattle.guest_access.specs.Atomics.{HasConditional, HasExchangedFor, HasOperatedAt, HasOperatedOn, HasPlaced, HasReserved, held_word, misaligned};
ghost use Rattle.guest_access.specs.Reaching.{CanAccess, GoesOn, KnowsFills};
ghost use Rattle.guest_access.specs.Stepping.{IsIn, MayStoreAt};
ghost use Rattle.guest_access.specs.Touching.{IsOfAccess};

use crate::memory::{exchange_at, load_at, operate_at};
use crate::operand::{combine, is_misaligned, width_of};
use crate::outcomes::Got;
use guest_ram::Port;
use machine_model::{extended, number_in, replace_in};
use rv64_exec::{AmoOp, Answer, Arch, Hold};
use rv64_priv::{Kind, access_fault, regime_of};
use step_laws::ram_word;
use tlb_entry::Book;
use tlb_fill::{Translated, translate};

/// The cause of a misaligned address.
fn misaligned(kind: Kind) -> u64
    ensures { result ≡ misaligned kind }
{
    match kind {
        Kind::Fetch => 0,
        Kind::Load => 4,
        Kind::Store => 6,
    }
}

/// The physical address in RAM of an atomic access. At no multiple of its width it faults before translation, and on a device behind it.
fn place<P: Port>(
    book: &mut Book,
    port: &mut P,
    arch: &Arch,
    kind: Kind,
    va: u64,
    wide: bool,
) -> Result<u64, Got>
    requires access { CanAccess book.old (P.shows port.old) }
    requires fills { KnowsFills book.old (regime arch.now) (P.shows port.old) }
    ensures placed { HasPlaced (P.shows port.old) (P.shows port.new) book.old book.new (regime arch.now) kind va wide result }
    ensures there { IfOk result (λ pa. IsIn pa (P.shows port.new) × (pa % 8 + perform.width_of wide ≤ 8)) }
    ensures armed { kind ≡ Store → IfOk result (λ pa. IsArmedAt pa (P.shows port.new)) }
    ensures goes_on { GoesOn (P.shows port.old) (P.shows port.new) book.old book.new (regime arch.now) }
    ensures access { CanAccess book.new (P.shows port.new) }
    ensures goes { GoesBy 15 IsOfFill (P.shows port.old) (P.shows port.new) }
{
    if is_misaligned(wide, va) {
        return Err(Got::Fault {
            cause: misaligned(kind),
            tval: va,
        });
    }
    let regime = regime_of(arch);
    match translate(book, port, &regime, va, kind) {
        Translated::Ram(pa) => Ok(pa),
        Translated::Device(_) => Err(Got::Fault {
            cause: access_fault(kind),
            tval: va,
        }),
        Translated::Fault { cause, tval } => Err(Got::Fault { cause, tval }),
        Translated::Busy(busy) => Err(Got::Busy(busy)),
    }
}

/// Does an operation by a load and an exchange of the word, which is lost where another wrote the word between them.
fn operate_by_exchange<P: Port>(port: &mut P, pa: u64, op: AmoOp, wide: bool, value: u64) -> Got
    requires within { pa % 8 + perform.width_of wide ≤ 8 }
    requires may { MayStoreAt pa (P.shows port.old) }
    ensures { HasExchangedFor op pa wide value (P.shows port.old) (P.shows port.new) result }
{
    let width = width_of(wide);
    let seen = load_at(port, pa);
    let old = number_in(seen, pa % 8, width);
    let new = replace_in(seen, pa % 8, width, combine(op, wide, old, value));
    let found = exchange_at(port, pa, seen, new);
    if found == seen {
        Got::Done(Answer::Value(extended(true, width, old)))
    } else {
        Got::Lost {
            word: ram_word(pa),
            seen,
            found,
        }
    }
}

/// Does it on 8 bytes by one step of the word, where there is such a step.
fn operate_on<P: Port>(port: &mut P, pa: u64, op: AmoOp, wide: bool, value: u64) -> Got
    requires within { pa % 8 + perform.width_of wide ≤ 8 }
    requires may { MayStoreAt pa (P.shows port.old) }
    ensures { HasOperatedOn op pa wide value (P.shows port.old) (P.shows port.new) result }
{
    if !wide {
        return operate_by_exchange(port, pa, op, wide, value);
    }
    match operate_at(port, pa, op, value) {
        Some(old) => Got::Done(Answer::Value(old)),
        None => operate_by_exchange(port, pa, op, wide, value),
    }
}

/// Does an operation on memory, and answers the old number.
pub(crate) fn operate<P: Port>(
    book: &mut Book,
    port: &mut P,
    arch: &Arch,
    va: u64,
    op: AmoOp,
    wide: bool,
    value: u64,
) -> Got
    requires access { CanAccess book.old (P.shows port.old) }
    requires fills { KnowsFills book.old (regime arch.now) (P.shows port.old) }
    ensures done { HasOperatedAt (P.shows port.old) (P.shows port.new) book.old book.new (regime arch.now) va op wide value result }
    ensures goes_on { GoesOn (P.shows port.old) (P.shows port.new) book.old book.new (regime arch.now) }
    ensures access { CanAccess book.new (P.shows port.new) }
    ensures goes { GoesBy 17 IsOfAccess (P.shows port.old) (P.shows port.new) }
{
    match place(book, port, arch, Kind::Store, va, wide) {
        Ok(pa) => operate_on(port, pa, op, wide, value),
        Err(got) => got,
    }
}

/// Loads a number, and what the hart holds of it: its address, its width, and the whole word.
pub(crate) fn load_reserved<P: Port>(
    book: &mut Book,
    port: &mut P,
    arch: &Arch,
    va: u64,
    wide: bool,
) -> Got
    requires access { CanAccess book.old (P.shows port.old) }
    requires fills { KnowsFills book.old (regime arch.now) (P.shows port.old) }
    ensures done { HasReserved (P.shows port.old) (P.shows port.new) book.old book.new (regime arch.now) va wide result }
    ensures goes_on { GoesOn (P.shows port.old) (P.shows port.new) book.old book.new (regime arch.now) }
    ensures access { CanAccess book.new (P.shows port.new) }
    ensures goes { GoesBy 17 IsOfAccess (P.shows port.old) (P.shows port.new) }
{
    match place(book, port, arch, Kind::Load, va, wide) {
        Ok(pa) => {
            let width = width_of(wide);
            let word = load_at(port, pa);
            let value = extended(true, width, number_in(word, pa % 8, width));
            Got::Done(Answer::LrValue {
                value,
                hold: Hold { pa, wide, word },
            })
        }
        Err(got) => got,
    }
}

/// The word that the hart holds of this address and width, where it does.
fn held_word(arch: &Arch, pa: u64, wide: bool) -> Option<u64>
    ensures { result ≡ held_word arch.now.hold pa wide }
{
    match arch.hold {
        Some(hold) if hold.pa == pa && hold.wide == wide => Some(hold.word),
        _ => None,
    }
}

/// Stores where the hart's hold is of this address and width and the whole word is as it was then. Without such a hold memory isn't touched.
pub(crate) fn store_conditional<P: Port>(
    book: &mut Book,
    port: &mut P,
    arch: &Arch,
    va: u64,
    wide: bool,
    value: u64,
) -> Got
    requires access { CanAccess book.old (P.shows port.old) }
    requires fills { KnowsFills book.old (regime arch.now) (P.shows port.old) }
    ensures done { HasConditional (P.shows port.old) (P.shows port.new) book.old book.new (regime arch.now) va arch.now.hold wide value result }
    ensures goes_on { GoesOn (P.shows port.old) (P.shows port.new) book.old book.new (regime arch.now) }
    ensures access { CanAccess book.new (P.shows port.new) }
    ensures goes { GoesBy 17 IsOfAccess (P.shows port.old) (P.shows port.new) }
{
    match place(book, port, arch, Kind::Store, va, wide) {
        Ok(pa) => match held_word(arch, pa, wide) {
            Some(word) => {
                let new = replace_in(word, pa % 8, width_of(wide), value);
                let stored = exchange_at(port, pa, word, new) == word;
                Got::Done(Answer::Sc { stored })
            }
            None => Got::Done(Answer::Sc { stored: false }),
        },
        Err(got) => got,
    }
}
