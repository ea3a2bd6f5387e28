// The first turn of a fence that hart 0 makes.
ghost use Rattle.std.specs.Prelude.{◌≡◌, ◌≤◌, ◌<◌, ℕ, IfOk, length, true};
ghost use Rattle.step_laws.specs.Layout.{IsInLimits};
ghost use Rattle.step_laws.specs.Steps.{words_of};
ghost use Rattle.guest_ram.specs.Ports.{layout_of};
ghost use Rattle.guest_ram.specs.Shown.{all_words};
ghost use Rattle.guest_ram_cases.specs.Tours.{IsFresh, IsSameSeat};
ghost use Rattle.hart_calls.specs.Spans.{IsSpan};
ghost use Rattle.sbi_calls.specs.Spans.{is_named};

use guest_ram::{Port, Words};
use guest_ram_cases::{Seats, close_seats, open_seats};
use sbi_calls::{Fence, Fencing, Span, fence_turn};
use std::alloc::Global;
use step_laws::{Layout, NoMemory};
use tlb_entry::Book;
use work_queue::Sent;

fn begin_fence<P: Port>(port: &mut P, harts: u64, span: &Span) -> Fencing
    requires fresh { IsFresh (P.shows port.old) }
    requires first { (P.shows port.old).own.actor ≡ 0 }
    requires span { IsSpan span.now }
    requires harts { (t : ℕ) → is_named harts t ≡ true → t < (layout_of (P.shows port.old)).harts }
    ensures seat { IsSameSeat (P.shows port.old) (P.shows port.new) }
{
    let mut book = Book::new(0);
    let mut sent = Sent { next: [0; 16] };
    let mut fence = Fence {
        posted: [0; 16],
        acked: [0; 16],
    };
    fence_turn(&mut book, port, &mut sent, harts, span, &mut fence)
}

/// The words behind the first turn of hart 0 in a fence of 130 pages from page 1 on, at harts 0 and 1 or one of them by the bits of a mask,
/// and what that turn came to.
#[tactic(auto, using(crate::proofs::Begun::named_few))]
pub fn fence_tour(alloc: Global, layout: Layout, harts: u64) -> Result<(Words, Fencing), NoMemory>
    requires limits { IsInLimits layout }
    requires two { 2 ≤ layout.harts }
    requires harts { harts < 4 }
    ensures count { IfOk result (λ made. length (all_words made.0) ≡ words_of layout) }
{
    let Seats {
        table,
        loader,
        first,
        second,
        monitor,
    } = open_seats(alloc, layout, 7)?;
    let span = Span::Pages {
        page: 1,
        count: 130,
    };
    let mut source = first.pass(&table);
    let fencing = begin_fence(&mut source, harts, &span);
    let first = source.rest();
    Ok((close_seats(table, loader, first, second, monitor), fencing))
}
