// One request of each source.
ghost use Rattle.std.specs.Prelude.{◌≡◌, ◌≢◌, ◌⊎◌, ◌≤◌, ◌<◌, ◌+◌, ◌*◌, IfErr, IfOk, true, false};
ghost use Rattle.step_laws.specs.Output.{has_touched};
ghost use Rattle.step_laws.specs.Words.{monitor};
ghost use Rattle.guest_ram.specs.Areas.{IsOfService};
ghost use Rattle.guest_ram.specs.Ports.{GoesBy};
ghost use Rattle.kept_fills.specs.Beside.{IsBeside};
ghost use Rattle.flush.specs.Flushed.{full_steps};
ghost use Rattle.work_queue.specs.declared.rings.Sent.{Sent as TheSent};
ghost use Rattle.work_queue.specs.Rings.{IsSentBy, IsServedBy, next_ack};
ghost use Rattle.request_serving.specs.Served.{HasFills, HasFoundHeld, HasGone, HasMoved, HasStopped};

use crate::serving::{Serving, serve_source};
use guest_ram::Port;
use step_laws::MONITOR;
use tlb_entry::Book;
use tlb_lock::Busy;
use work_queue::Served;

/// There is no other actor of this number: it is the own one, or that of a hart that the machine doesn't have.
fn is_absent(source: u8, own: u8, harts: u8) -> bool
    ensures absent { result ≡ true → (source ≡ own) ⊎ ((harts ≤ source) × (source ≢ monitor)) }
    ensures present { result ≡ false → (source ≢ own) × ((source < harts) ⊎ (source ≡ monitor)) }
{
    source == own || (source >= harts && source != MONITOR)
}

/// A source's turn, where there is such a source. Answers whether a request was served so far.
fn serve_next<P: Port>(
    book: &mut Book,
    port: &mut P,
    served: &mut Served,
    source: u8,
    any: bool,
) -> Result<bool, Busy>
    requires beside { IsBeside book.old (P.shows port.old) }
    requires fills { HasFills book.old (P.shows port.old) }
    requires ring { IsServedBy served.old (P.shows port.old) }
    requires untouched { has_touched (P.shows port.old).own.steps ≡ false }
    requires few { source ≤ monitor }
    ensures moved { IfOk result (λ now. HasMoved source served.old (P.shows port.old) book.old any served.new (P.shows port.new) book.new now) }
    ensures busy { IfErr result (λ busy. HasFoundHeld source (next_ack served.new source) busy.holder (P.shows port.old) (P.shows port.new) book.old book.new) }
    ensures stays { IfErr result (λ busy. served.new ≡ served.old) }
    ensures sent { (sent : TheSent) → IsSentBy sent (P.shows port.old) → IsSentBy sent (P.shows port.new) }
    ensures ring { IsServedBy served.new (P.shows port.new) }
    ensures fills { HasFills book.new (P.shows port.new) }
    ensures beside { IsBeside book.new (P.shows port.new) }
    ensures untouched { has_touched (P.shows port.new).own.steps ≡ false }
    ensures size { book.new.size ≤ book.old.size }
    ensures goes { GoesBy (full_steps book.old.size + 388) IsOfService (P.shows port.old) (P.shows port.new) }
{
    if is_absent(source, port.actor(), port.layout().harts) {
        return Ok(any);
    }
    match serve_source(book, port, served, source) {
        Serving::Idle => Ok(any),
        Serving::Served => Ok(true),
        Serving::Busy(busy) => Err(busy),
    }
}

/// Serves one request of each source that has one: of the other harts in their order, and then of the monitor. Answers whether one was served.
/// Where another holds the own lock the round ends, and what stands then is served by a later one.
pub fn serve_round<P: Port>(
    book: &mut Book,
    port: &mut P,
    served: &mut Served,
) -> Result<bool, Busy>
    requires beside { IsBeside book.old (P.shows port.old) }
    requires fills { HasFills book.old (P.shows port.old) }
    requires ring { IsServedBy served.old (P.shows port.old) }
    requires untouched { has_touched (P.shows port.old).own.steps ≡ false }
    ensures gone { IfOk result (λ any. HasGone served.old (P.shows port.old) book.old (monitor + 1) served.new (P.shows port.new) book.new any) }
    ensures busy { IfErr result (λ busy. HasStopped served.old served.new busy.holder (P.shows port.old) (P.shows port.new) book.old book.new) }
    ensures sent { (sent : TheSent) → IsSentBy sent (P.shows port.old) → IsSentBy sent (P.shows port.new) }
    ensures ring { IsServedBy served.new (P.shows port.new) }
    ensures fills { HasFills book.new (P.shows port.new) }
    ensures beside { IsBeside book.new (P.shows port.new) }
    ensures untouched { has_touched (P.shows port.new).own.steps ≡ false }
    ensures size { book.new.size ≤ book.old.size }
    ensures goes { GoesBy (9 * (full_steps book.old.size + 388)) IsOfService (P.shows port.old) (P.shows port.new) }
{
    let mut any = false;
    for source in 0..MONITOR + 1 {
        match serve_next(book, port, served, source, any) {
            Ok(now) => any = now,
            Err(busy) => return Err(busy),
        }
    }
    Ok(any)
}
