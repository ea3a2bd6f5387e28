// One request of a source.
ghost use Rattle.std.specs.Prelude.{◌≡◌, ◌≢◌, ◌≤◌, ◌+◌, OnOk, IfErr, false};
ghost use Rattle.step_laws.specs.declared.request.Request.TheVariants.{Drain};
ghost use Rattle.step_laws.specs.Discipline.{IsActor};
ghost use Rattle.step_laws.specs.Fields.{IsRequest};
ghost use Rattle.step_laws.specs.Output.{has_touched};
ghost use Rattle.guest_ram.specs.Areas.{IsOfService, IsOfTable};
ghost use Rattle.guest_ram.specs.Ports.{layout_of, GoesBy};
ghost use Rattle.kept_fills.specs.Beside.{IsBeside};
ghost use Rattle.flush.specs.Flushed.{HasBeenBusy, full_steps};
ghost use Rattle.work_queue.specs.declared.rings.Sent.{Sent as TheSent};
ghost use Rattle.work_queue.specs.Acks.{HasFoundNone, IsLoaded, MayAck};
ghost use Rattle.work_queue.specs.Rings.{IsSentBy, IsServedBy, next_ack};
ghost use Rattle.request_serving.specs.Served.{HasDone, HasFills, HasFlushedFor, HasFoundHeld, HasServed, IfBusy, IfIdle, IfServed, UnlessServed};

use flush::{flush_all, flush_pages};
use guest_ram::Port;
use step_laws::Request;
use tlb_entry::Book;
use tlb_lock::Busy;
use work_queue::{Served, ack, next_request};

/// What a source's turn came to: it had no request; its request was served and acked; or the own lock is held by another.
#[derive(Clone, Copy, Debug, PartialEq, Eq)]
pub enum Serving {
    Idle,
    Served,
    Busy(Busy),
}

/// Flushes what a request asks for. A drain asks for nothing.
fn flush_for<P: Port>(book: &mut Book, port: &mut P, request: &Request) -> Result<(), Busy>
    requires beside { IsBeside book.old (P.shows port.old) }
    requires request { IsRequest request.now }
    ensures flushed { OnOk result (HasFlushedFor request.now (P.shows port.old) (P.shows port.new) book.old book.new) }
    ensures busy { IfErr result (λ busy. HasBeenBusy busy.holder (P.shows port.old) (P.shows port.new) book.old book.new) }
    ensures asks { IfErr result (λ busy. request.now ≢ Drain) }
    ensures size { book.new.size ≤ book.old.size }
    ensures beside { IsBeside book.new (P.shows port.new) }
    ensures goes { GoesBy (full_steps book.old.size + 386) IsOfTable (P.shows port.old) (P.shows port.new) }
{
    match *request {
        Request::FlushAll => flush_all(book, port),
        Request::FlushPages { page, count } => flush_pages(book, port, page, count),
        Request::Drain => Ok(()),
    }
}

/// Serves a request that was loaded from the next place of a source's ring.
fn serve<P: Port>(
    book: &mut Book,
    port: &mut P,
    served: &mut Served,
    source: u8,
    request: &Request,
) -> Result<(), Busy>
    requires beside { IsBeside book.old (P.shows port.old) }
    requires fills { HasFills book.old (P.shows port.old) }
    requires served { IsServedBy served.old (P.shows port.old) }
    requires source { IsActor (layout_of (P.shows port.old)) source }
    requires other { source ≢ (P.shows port.old).own.actor }
    requires untouched { has_touched (P.shows port.old).own.steps ≡ false }
    requires request { IsRequest request.now }
    requires loaded { IsLoaded request.now source (next_ack served.old source) (P.shows port.old) }
    ensures done { OnOk result (HasDone request.now source served.old served.new (P.shows port.old) (P.shows port.new) book.old book.new) }
    ensures busy { IfErr result (λ busy. HasBeenBusy busy.holder (P.shows port.old) (P.shows port.new) book.old book.new) }
    ensures asks { IfErr result (λ busy. request.now ≢ Drain) }
    ensures stays { IfErr result (λ busy. served.new ≡ served.old) }
    ensures sent { (sent : TheSent) → IsSentBy sent (P.shows port.old) → IsSentBy sent (P.shows port.new) }
    ensures ring { IsServedBy served.new (P.shows port.new) }
    ensures fills { HasFills book.new (P.shows port.new) }
    ensures beside { IsBeside book.new (P.shows port.new) }
    ensures untouched { has_touched (P.shows port.new).own.steps ≡ false }
    ensures size { book.new.size ≤ book.old.size }
    ensures goes { GoesBy (full_steps book.old.size + 387) IsOfService (P.shows port.old) (P.shows port.new) }
{
    flush_for(book, port, request)?;
    ack(port, served, source);
    Ok(())
}

/// Serves the next request of a source, another hart or the monitor, where its ring has one: flushes what it asks for in the own table, and
/// acks it. Where another holds the own lock the request stays, and is served by a later call.
pub fn serve_source<P: Port>(
    book: &mut Book,
    port: &mut P,
    served: &mut Served,
    source: u8,
) -> Serving
    requires beside { IsBeside book.old (P.shows port.old) }
    requires fills { HasFills book.old (P.shows port.old) }
    requires served { IsServedBy served.old (P.shows port.old) }
    requires source { IsActor (layout_of (P.shows port.old)) source }
    requires other { source ≢ (P.shows port.old).own.actor }
    requires untouched { has_touched (P.shows port.old).own.steps ≡ false }
    ensures idle { IfIdle result ((HasFoundNone source (next_ack served.old source) (P.shows port.old) (P.shows port.new)) × (book.new ≡ book.old)) }
    ensures served { IfServed result (HasServed source served.old served.new (P.shows port.old) (P.shows port.new) book.old book.new) }
    ensures busy { IfBusy result (λ busy. HasFoundHeld source (next_ack served.old source) busy.holder (P.shows port.old) (P.shows port.new) book.old book.new) }
    ensures stays { UnlessServed result (served.new ≡ served.old) }
    ensures sent { (sent : TheSent) → IsSentBy sent (P.shows port.old) → IsSentBy sent (P.shows port.new) }
    ensures ring { IsServedBy served.new (P.shows port.new) }
    ensures fills { HasFills book.new (P.shows port.new) }
    ensures beside { IsBeside book.new (P.shows port.new) }
    ensures untouched { has_touched (P.shows port.new).own.steps ≡ false }
    ensures size { book.new.size ≤ book.old.size }
    ensures goes { GoesBy (full_steps book.old.size + 388) IsOfService (P.shows port.old) (P.shows port.new) }
{
    match next_request(port, served, source) {
        None => Serving::Idle,
        Some(request) => match serve(book, port, served, source, &request) {
            Ok(()) => Serving::Served,
            Err(busy) => Serving::Busy(busy),
        },
    }
}
