// The own pieces of a fence.
ghost use Rattle.std.specs.Prelude.{◌≡◌, ◌≢◌, ◌≤◌, ◌+◌, OnOk, IfErr, IfNone, IfSome};
ghost use Rattle.step_laws.specs.declared.request.Request.TheVariants.{Drain};
ghost use Rattle.step_laws.specs.Fields.{IsRequest};
ghost use Rattle.guest_ram.specs.Areas.{IsOfTable};
ghost use Rattle.guest_ram.specs.Ports.{GoesBy};
ghost use Rattle.kept_fills.specs.Beside.{IsBeside};
ghost use Rattle.flush.specs.Flushed.{HasBeenBusy, full_steps};
ghost use Rattle.sbi_calls.specs.Fences.{HasBeenBusyAt, HasFlushedPiece, HaveFlushed, piece_steps};
ghost use Rattle.hart_calls.specs.Spans.{IsSpan};
ghost use Rattle.sbi_calls.specs.Spans.{pieces_of};

use crate::spans::{piece, pieces};
use flush::{flush_all, flush_pages};
use guest_ram::Port;
use hart_calls::Span;
use step_laws::Request;
use tlb_entry::Book;
use tlb_lock::Busy;

/// Flushes what a request for a flush names, in the own table.
pub(crate) fn flush_request<P: Port>(
    book: &mut Book,
    port: &mut P,
    request: &Request,
) -> Result<(), Busy>
    requires beside { IsBeside book.old (P.shows port.old) }
    requires request { IsRequest request.now }
    requires flush { request.now ≢ Drain }
    ensures flushed { OnOk result (HasFlushedPiece request.now (P.shows port.old) (P.shows port.new) book.old book.new) }
    ensures busy { IfErr result (λ busy. HasBeenBusy busy.holder (P.shows port.old) (P.shows port.new) book.old book.new) }
    ensures beside { IsBeside book.new (P.shows port.new) }
    ensures goes { GoesBy (piece_steps book.old.large book.old.size request.now) IsOfTable (P.shows port.old) (P.shows port.new) }
{
    match *request {
        Request::FlushPages { page, count } => flush_pages(book, port, page, count),
        _ => flush_all(book, port),
    }
}

/// Flushes the pieces of a span from one number on in the own table, until its lock is held by another. Answers how many are flushed, and
/// who holds it.
pub(crate) fn flush_pieces<P: Port>(
    book: &mut Book,
    port: &mut P,
    span: &Span,
    flushed: u8,
) -> (u8, Option<Busy>)
    requires beside { IsBeside book.old (P.shows port.old) }
    requires span { IsSpan span.now }
    requires flushed { flushed ≤ pieces_of span.now }
    ensures flushed { IfNone result.1 (HaveFlushed span.now flushed (P.shows port.old) book.old result.0 (P.shows port.new) book.new) }
    ensures busy { IfSome result.1 (λ busy. HasBeenBusyAt span.now flushed result.0 busy.holder (P.shows port.old) (P.shows port.new) book.old book.new) }
    ensures all { IfNone result.1 (result.0 ≡ pieces_of span.now) }
    ensures most { result.0 ≤ pieces_of span.now }
    ensures beside { IsBeside book.new (P.shows port.new) }
    ensures goes { GoesBy (full_steps book.old.size + 3089) IsOfTable (P.shows port.old) (P.shows port.new) }
{
    for number in flushed..pieces(span) {
        match flush_request(book, port, &piece(span, number)) {
            Ok(()) => {}
            Err(busy) => return (number, Some(busy)),
        }
    }
    (pieces(span), None)
}
