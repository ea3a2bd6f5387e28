// A fence of hart 0 at hart 1, which serves a request between two turns.
ghost use Rattle.std.specs.Prelude.{◌≡◌, ◌≤◌, IfOk, length};
ghost use Rattle.step_laws.specs.Layout.{IsInLimits};
ghost use Rattle.step_laws.specs.Steps.{words_of};
ghost use Rattle.guest_ram.specs.Ports.{layout_of};
ghost use Rattle.guest_ram.specs.Shown.{all_words};
ghost use Rattle.guest_ram_cases.specs.Tours.{IsFresh, IsSameSeat};
ghost use Rattle.hart_calls.specs.Spans.{IsSpan};
ghost use Rattle.serving_cases.specs.Sides.{IsFencer, IsServer};

use guest_ram::{Port, Words};
use guest_ram_cases::{Seats, close_seats, open_seats};
use request_serving::{Serving, serve_source};
use sbi_calls::{Fence, Fencing, Span, fence_turn};
use std::alloc::Global;
use step_laws::{Layout, NoMemory};
use tlb_entry::Book;
use work_queue::{Sent, Served};

/// What the turns of the fence came to, and what hart 1 came to behind each.
#[derive(Clone, Copy, Debug, PartialEq, Eq)]
pub struct Turns {
    pub fencing: [Fencing; 4],
    pub serving: [Serving; 4],
}

/// A turn of a fence at hart 1.
fn go_on<P: Port>(
    book: &mut Book,
    port: &mut P,
    sent: &mut Sent,
    span: &Span,
    fence: &mut Fence,
) -> Fencing
    requires span { IsSpan span.now }
    requires fencer { IsFencer span.now book.old sent.old fence.old (P.shows port.old) }
    ensures fencer { IsFencer span.now book.new sent.new fence.new (P.shows port.new) }
    ensures seat { IsSameSeat (P.shows port.old) (P.shows port.new) }
{
    fence_turn(book, port, sent, 2, span, fence)
}

/// Serves hart 0 once.
fn serve_first<P: Port>(book: &mut Book, port: &mut P, served: &mut Served) -> Serving
    requires server { IsServer book.old served.old (P.shows port.old) }
    ensures server { IsServer book.new served.new (P.shows port.new) }
    ensures seat { IsSameSeat (P.shows port.old) (P.shows port.new) }
{
    serve_source(book, port, served, 0)
}

/// Four turns of a fence, behind each of which hart 1 serves hart 0 once.
fn fence_beside<P: Port, Q: Port>(first: &mut P, second: &mut Q, span: &Span) -> Turns
    requires span { IsSpan span.now }
    requires first { IsFresh (P.shows first.old) }
    requires source { (P.shows first.old).own.actor ≡ 0 }
    requires two { 2 ≤ (layout_of (P.shows first.old)).harts }
    requires second { IsFresh (Q.shows second.old) }
    requires target { (Q.shows second.old).own.actor ≡ 1 }
    requires other_two { 2 ≤ (layout_of (Q.shows second.old)).harts }
    ensures first_seat { IsSameSeat (P.shows first.old) (P.shows first.new) }
    ensures second_seat { IsSameSeat (Q.shows second.old) (Q.shows second.new) }
{
    let mut book = Book::new(0);
    let mut sent = Sent { next: [0; 16] };
    let mut fence = Fence {
        posted: [0; 16],
        acked: [0; 16],
    };
    let mut other = Book::new(1);
    let mut served = Served { next: [0; 17] };
    let begun = go_on(&mut book, first, &mut sent, span, &mut fence);
    let one = serve_first(&mut other, second, &mut served);
    let went_on = go_on(&mut book, first, &mut sent, span, &mut fence);
    let two = serve_first(&mut other, second, &mut served);
    let further = go_on(&mut book, first, &mut sent, span, &mut fence);
    let three = serve_first(&mut other, second, &mut served);
    let ended = go_on(&mut book, first, &mut sent, span, &mut fence);
    let four = serve_first(&mut other, second, &mut served);
    Turns {
        fencing: [begun, went_on, further, ended],
        serving: [one, two, three, four],
    }
}

/// The words behind them, where the fence is of 130 pages from page 1 on.
pub fn serve_tour(alloc: Global, layout: Layout) -> Result<(Words, Turns), NoMemory>
    requires limits { IsInLimits layout }
    requires two { 2 ≤ layout.harts }
    ensures count { IfOk result (λ made. length (all_words made.0) ≡ words_of layout) }
{
    let Seats {
        table,
        loader,
        first,
        second,
        monitor,
    } = open_seats(alloc, layout, 7)?;
    let span = Span::Pages {
        page: 1,
        count: 130,
    };
    let mut source = first.pass(&table);
    let mut target = second.pass(&table);
    let turns = fence_beside(&mut source, &mut target, &span);
    let first = source.rest();
    let second = target.rest();
    Ok((close_seats(table, loader, first, second, monitor), turns))
}
