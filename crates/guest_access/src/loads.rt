// Loads.
ghost use Rattle.std.specs.Prelude.{◌≡◌, IsTrue};
ghost use Rattle.rv64_exec.specs.Widths.{is_width};
ghost use Rattle.rv64_priv.specs.Csr.{regime};
ghost use Rattle.guest_ram.specs.Ports.{GoesBy};
ghost use Rattle.guest_access.specs.Loading.{HasLoaded};
ghost use Rattle.guest_access.specs.Reaching.{CanAccess, GoesOn, KnowsFills};
ghost use Rattle.guest_access.specs.Touching.{IsOfAccess};

use crate::memory::load_at;
use crate::outcomes::Got;
use crate::reaching::{Place, reach};
use guest_devices::device_load;
use guest_ram::Port;
use machine_model::{extended, number_in, number_over};
use rv64_exec::{Answer, Arch};
use rv64_priv::{Kind, access_fault, regime_of};
use tlb_entry::Book;

/// Loads a number of `width` bytes from a virtual address, as a register gets it.
pub(crate) fn load<P: Port>(
    book: &mut Book,
    port: &mut P,
    arch: &Arch,
    va: u64,
    width: u8,
    signed: bool,
    section: bool,
) -> Got
    requires width { IsTrue (is_width width) }
    requires access { CanAccess book.old (P.shows port.old) }
    requires fills { KnowsFills book.old (regime arch.now) (P.shows port.old) }
    ensures loaded { HasLoaded (P.shows port.old) (P.shows port.new) book.old book.new (regime arch.now) va width signed section result }
    ensures goes_on { GoesOn (P.shows port.old) (P.shows port.new) book.old book.new (regime arch.now) }
    ensures access { CanAccess book.new (P.shows port.new) }
    ensures goes { GoesBy 34 IsOfAccess (P.shows port.old) (P.shows port.new) }
{
    let regime = regime_of(arch);
    match reach(book, port, &regime, Kind::Load, va, width, section) {
        Ok(Place::Word(pa)) => {
            let word = load_at(port, pa);
            Got::Done(Answer::Value(extended(signed, width, number_in(word, pa % 8, width))))
        }
        Ok(Place::Words { first, second }) => {
            let low = load_at(port, first);
            let high = load_at(port, second);
            Got::Done(Answer::Value(extended(
                signed,
                width,
                number_over(low, high, first % 8, width),
            )))
        }
        Ok(Place::Device(pa)) => match device_load(port, pa, width) {
            Some(value) => Got::Done(Answer::Value(extended(signed, width, value))),
            None => Got::Fault {
                cause: access_fault(Kind::Load),
                tval: va,
            },
        },
        Err(got) => got,
    }
}
