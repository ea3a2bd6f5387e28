// Stores.
ghost use Rattle.std.specs.Prelude.{◌≡◌, ◌≤◌, ◌<◌, ◌+◌, ◌%◌, IsTrue};
ghost use Rattle.rv64_exec.specs.Widths.{is_width};
ghost use Rattle.rv64_priv.specs.Csr.{regime};
ghost use Rattle.guest_ram.specs.Ports.{GoesBy};
ghost use Rattle.guest_access.specs.Stepping.{MayStoreAt};
ghost use Rattle.guest_access.specs.Reaching.{CanAccess, GoesOn, KnowsFills};
ghost use Rattle.guest_access.specs.Storing.{HasStored, HasStoredIn, HasStoredOver};
ghost use Rattle.guest_access.specs.Touching.{IsOfAccess};

use crate::memory::{exchange_at, load_at, store_at};
use crate::outcomes::Got;
use crate::reaching::{Place, reach};
use guest_devices::device_store;
use guest_ram::Port;
use machine_model::{replace_in, replace_over};
use rv64_exec::{Answer, Arch};
use rv64_priv::{Kind, access_fault, regime_of};
use step_laws::ram_word;
use tlb_entry::Book;

/// Stores within a word of RAM: a whole word by one store, and else by a load and an exchange of the word, which is lost where another wrote
/// the word between them.
fn store_in<P: Port>(port: &mut P, pa: u64, width: u8, value: u64) -> Got
    requires width { IsTrue (is_width width) }
    requires within { pa % 8 + width ≤ 8 }
    requires may { MayStoreAt pa (P.shows port.old) }
    ensures { HasStoredIn pa width value (P.shows port.old) (P.shows port.new) result }
{
    if width == 8 {
        store_at(port, pa, value);
        return Got::Done(Answer::Nothing);
    }
    let seen = load_at(port, pa);
    let found = exchange_at(port, pa, seen, replace_in(seen, pa % 8, width, value));
    if found == seen {
        Got::Done(Answer::Nothing)
    } else {
        Got::Lost {
            word: ram_word(pa),
            seen,
            found,
        }
    }
}

/// Stores over two words of RAM, in the section.
fn store_over<P: Port>(port: &mut P, first: u64, second: u64, width: u8, value: u64)
    requires width { IsTrue (is_width width) }
    requires over { 8 < first % 8 + width }
    requires may_first { MayStoreAt first (P.shows port.old) }
    requires may_second { MayStoreAt second (P.shows port.old) }
    ensures { HasStoredOver first second width value (P.shows port.old) (P.shows port.new) }
{
    let low = load_at(port, first);
    let high = load_at(port, second);
    let (new_low, new_high) = replace_over(low, high, first % 8, width, value);
    store_at(port, first, new_low);
    store_at(port, second, new_high);
}

/// Stores the low `width` bytes of `value` at a virtual address.
pub(crate) fn store<P: Port>(
    book: &mut Book,
    port: &mut P,
    arch: &Arch,
    va: u64,
    width: u8,
    value: u64,
    section: bool,
) -> Got
    requires width { IsTrue (is_width width) }
    requires access { CanAccess book.old (P.shows port.old) }
    requires fills { KnowsFills book.old (regime arch.now) (P.shows port.old) }
    ensures stored { HasStored (P.shows port.old) (P.shows port.new) book.old book.new (regime arch.now) va width value section result }
    ensures goes_on { GoesOn (P.shows port.old) (P.shows port.new) book.old book.new (regime arch.now) }
    ensures access { CanAccess book.new (P.shows port.new) }
    ensures goes { GoesBy 34 IsOfAccess (P.shows port.old) (P.shows port.new) }
{
    let regime = regime_of(arch);
    match reach(book, port, &regime, Kind::Store, va, width, section) {
        Ok(Place::Word(pa)) => store_in(port, pa, width, value),
        Ok(Place::Words { first, second }) => {
            store_over(port, first, second, width, value);
            Got::Done(Answer::Nothing)
        }
        Ok(Place::Device(pa)) => match device_store(port, pa, width, value) {
            Some(()) => Got::Done(Answer::Nothing),
            None => Got::Fault {
                cause: access_fault(Kind::Store),
                tval: va,
            },
        },
        Err(got) => got,
    }
}
