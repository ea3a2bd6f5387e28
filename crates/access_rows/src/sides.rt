// What a hart keeps beside its words.
ghost use Rattle.std.specs.Prelude.{◌≡◌, [], false};
ghost use Rattle.rv64_priv.specs.Csr.{regime};
ghost use Rattle.tlb_entry.specs.Books.{GoesWith};

use guest_access::Got;
use rv64_exec::{Answer, Arch};
use tlb_entry::Book;

/// A hart's registers and its book.
#[derive(Clone, Copy)]
pub(crate) struct Side {
    pub book: Book,
    pub arch: Arch,
}

/// A hart that begins, in supervisor mode: without translation, or by page tables whose root is at 0x80010000.
pub(crate) fn new_side(hart: u8, is_paged: bool) -> Side
    ensures goes { GoesWith result.book hart [] }
    ensures large { result.book.large ≡ false }
{
    let satp = if is_paged { 0x8000_0000_0008_0010 } else { 0 };
    let arch = Arch {
        x: [0; 32],
        pc: 0x8000_0000,
        user: false,
        sstatus: 0,
        sie: 0,
        stvec: 0,
        sscratch: 0,
        sepc: 0,
        scause: 0,
        stval: 0,
        satp,
        hold: None,
    };
    Side {
        book: Book::new(hart),
        arch,
    }
}

/// The hold behind an access: a load-reserved makes one, a store-conditional ends it.
pub(crate) fn keep_hold(arch: &mut Arch, got: &Got)
    ensures { regime arch.new ≡ regime arch.old }
{
    match *got {
        Got::Done(Answer::LrValue { value: _, hold }) => arch.hold = Some(hold),
        Got::Done(Answer::Sc { .. }) => arch.hold = None,
        _ => {}
    }
}
