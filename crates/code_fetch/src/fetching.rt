// The word at pc.
ghost use Rattle.std.specs.Prelude.{◌≡◌, ◌%◌};
ghost use Rattle.rv64_priv.specs.Csr.{regime};
ghost use Rattle.guest_ram.specs.Ports.{GoesBy};
ghost use Rattle.tlb_fill.specs.Stepping.{IsOfFill};
ghost use Rattle.guest_access.specs.Reaching.{CanAccess, GoesOn, KnowsFills};
ghost use Rattle.step_laws.specs.declared.steps.WordOp.TheVariants.{Load};
ghost use Rattle.guest_access.specs.Stepping.{HasStepped, MayLoadAt};
ghost use Rattle.code_fetch.specs.Fetching.{HasFetched};

use guest_ram::Port;
use machine_model::number_in;
use rv64_exec::Arch;
use rv64_priv::{Kind, Regime, access_fault, pc_of, regime_of};
use step_laws::ram_word;
use tlb_entry::Book;
use tlb_fill::{Translated, translate};
use tlb_lock::Busy;

/// What a fetch came to: the word of code at pc; a fault, with its cause and the address; or the own lock is held by another.
#[derive(Clone, Copy, Debug, PartialEq, Eq)]
pub enum Fetched {
    Word(u32),
    Fault { cause: u64, tval: u64 },
    Busy(Busy),
}

fn load_at<P: Port>(port: &mut P, pa: u64) -> u64
    requires { MayLoadAt pa (P.shows port.old) }
    ensures { HasStepped Load pa 0 result (P.shows port.old) (P.shows port.new) }
{
    port.load(ram_word(pa))
}

/// Fetches the word of code at an address.
fn fetch_at<P: Port>(book: &mut Book, port: &mut P, regime: &Regime, pc: u64) -> Fetched
    requires access { CanAccess book.old (P.shows port.old) }
    requires fills { KnowsFills book.old regime.now (P.shows port.old) }
    requires aligned { pc % 4 ≡ 0 }
    ensures fetched { HasFetched (P.shows port.old) (P.shows port.new) book.old book.new regime.now pc result }
    ensures goes_on { GoesOn (P.shows port.old) (P.shows port.new) book.old book.new regime.now }
    ensures access { CanAccess book.new (P.shows port.new) }
    ensures goes { GoesBy 16 IsOfFill (P.shows port.old) (P.shows port.new) }
{
    match translate(book, port, regime, pc, Kind::Fetch) {
        Translated::Ram(pa) => {
            let word = load_at(port, pa);
            Fetched::Word(number_in(word, pa % 8, 4) as u32)
        }
        Translated::Device(_) => Fetched::Fault {
            cause: access_fault(Kind::Fetch),
            tval: pc,
        },
        Translated::Fault { cause, tval } => Fetched::Fault { cause, tval },
        Translated::Busy(busy) => Fetched::Busy(busy),
    }
}

/// Fetches the word of code at a hart's pc: translates pc as its TLB and page tables say, and loads the word of RAM that has its four bytes
/// (RISC-V Privileged Architecture, "Virtual Address Translation Process"; an instruction has four bytes and is aligned to four). No device
/// has code.
pub fn fetch<P: Port>(book: &mut Book, port: &mut P, arch: &Arch) -> Fetched
    requires access { CanAccess book.old (P.shows port.old) }
    requires fills { KnowsFills book.old (regime arch.now) (P.shows port.old) }
    ensures fetched { HasFetched (P.shows port.old) (P.shows port.new) book.old book.new (regime arch.now) arch.now.pc result }
    ensures goes_on { GoesOn (P.shows port.old) (P.shows port.new) book.old book.new (regime arch.now) }
    ensures access { CanAccess book.new (P.shows port.new) }
    ensures goes { GoesBy 16 IsOfFill (P.shows port.old) (P.shows port.new) }
{
    fetch_at(book, port, &regime_of(arch), pc_of(arch))
}
