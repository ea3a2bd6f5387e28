// The own TLB of a hart.
ghost use Rattle.std.specs.Prelude.{◌≡◌};
ghost use Rattle.tlb_cases.specs.Idle.{IsWith};

use guest_ram::Port;
use rv64_priv::Kind;
use std::alloc::{AllocError, Global};
use step_laws::Layout;
use tlb_cases::{Mapped, open_mapped, put_once};
use tlb_entry::{Book, Entry};
use tlb_table::probe;

/// How many lookups a round makes, 64 of each page.
const LOOKUPS: u64 = 4096;

fn filled<P: Port>(port: &mut P, book: &mut Book)
    requires with { IsWith book.old 0 (P.shows port.old) }
    requires size { book.old.size ≡ 64 }
    ensures with { IsWith book.new 0 (P.shows port.new) }
{
    for slot in 0..64 {
        let page = u64::from(slot) * 4096;
        let entry = Entry {
            read: page,
            write: page + 2,
            code: page,
            page: 0x8000_0000 + page,
        };
        put_once(port, book, slot, &entry);
    }
}

fn found<P: Port>(port: &mut P, book: &Book, rounds: u32) -> u64
    requires with { IsWith book.now 0 (P.shows port.old) }
{
    let mut sum = 0u64;
    for _ in 0..rounds {
        for index in 0..LOOKUPS {
            let va = index * 64;
            if let Some(hit) = probe(port, book, va, false, Kind::Load) {
                sum = sum.wrapping_add(hit.page).wrapping_add(va % 4096);
            }
        }
    }
    sum
}

/// The sum of what hart 0 finds in all rounds.
pub(crate) fn sum(alloc: Global, rounds: u32) -> Result<u64, AllocError> {
    let layout = Layout {
        harts: 1,
        pages: 1024,
    };
    let Ok(
        Mapped {
            table,
            hart,
            monitor: _monitor,
        },
    ) = open_mapped(alloc, layout)
    else {
        return Err(AllocError);
    };
    let mut pass = hart.pass(&table);
    let mut book = Book::new(0);
    filled(&mut pass, &mut book);
    Ok(found(&mut pass, &book, rounds))
}
