// Hart 0 fills its ring at hart 1, and the monitor's drain there goes the whole way.
ghost use Rattle.std.specs.Prelude.{◌≡◌, ◌≢◌, ◌≤◌, ◌<◌, IfOk, length};
ghost use Rattle.step_laws.specs.Layout.{IsInLimits};
ghost use Rattle.step_laws.specs.Steps.{words_of};
ghost use Rattle.guest_ram.specs.Areas.{IsOfPlaces};
ghost use Rattle.guest_ram.specs.Ports.{layout_of, GoesBy};
ghost use Rattle.guest_ram.specs.Shown.{all_words};
ghost use Rattle.guest_ram_cases.specs.Tours.{IsFresh, IsSameSeat};
ghost use Rattle.turn_cases.specs.Queues.{IsSource, IsTarget};
ghost use Rattle.work_queue.specs.Posts.{IsOfPosts};

use guest_ram::{Port, Seen, Words};
use guest_ram_cases::{Seats, close_seats, open_seats};
use std::alloc::Global;
use step_laws::{Layout, MONITOR, NoMemory};
use work_queue::{Request, Sent, Served, ack, next_request, poll_done, post};

/// What the calls on the rings answered.
#[derive(Clone, Copy, Debug, PartialEq, Eq)]
pub struct Asked {
    /// How many flushes of 64 pages hart 0 posted at hart 1 before one was refused.
    pub posted: u8,
    /// What the refused one saw.
    pub full: Option<Seen>,
    /// What hart 0 then saw in its first place.
    pub open: Option<Seen>,
    /// What hart 1 was asked by hart 0.
    pub asked: Option<Request>,
    /// What it was asked by the monitor before that posted, behind that, and behind the ack.
    pub drains: [Option<Request>; 3],
    /// What the monitor saw in its place before the ack, and behind it.
    pub polls: [Option<Seen>; 2],
}

/// Posts flushes of 64 pages each, from page 1 on, at hart 1 until one is refused, nine at most. Answers how many were posted, and what the
/// refused one saw.
fn post_pages<P: Port>(port: &mut P, sent: &mut Sent) -> (u8, Option<Seen>)
    requires source { IsSource sent.old (P.shows port.old) }
    ensures source { IsSource sent.new (P.shows port.new) }
    ensures goes { GoesBy 27 IsOfPosts (P.shows port.old) (P.shows port.new) }
{
    for number in 0..9u8 {
        let request = Request::FlushPages {
            page: 1 + 64 * u64::from(number),
            count: 64,
        };
        match post(port, sent, 1, &request) {
            Ok(_) => {}
            Err(seen) => return (number, Some(seen)),
        }
    }
    (9, None)
}

/// Posts a drain at hart 1. Answers what the next poll of the first place sees.
fn post_drain<P: Port>(port: &mut P, sent: &mut Sent) -> Option<Seen>
    requires source { IsSource sent.old (P.shows port.old) }
    ensures source { IsSource sent.new (P.shows port.new) }
    ensures goes { GoesBy 4 IsOfPosts (P.shows port.old) (P.shows port.new) }
{
    let _place = post(port, sent, 1, &Request::Drain);
    poll_first(port, sent)
}

/// What the first place at hart 1 holds, where it isn't free.
fn poll_first<P: Port>(port: &mut P, sent: &Sent) -> Option<Seen>
    requires source { IsSource sent.now (P.shows port.old) }
    ensures source { IsSource sent.now (P.shows port.new) }
    ensures goes { GoesBy 1 IsOfPlaces (P.shows port.old) (P.shows port.new) }
{
    match poll_done(port, 1, 0) {
        Ok(()) => None,
        Err(seen) => Some(seen),
    }
}

/// What hart 1 is asked by the monitor; a drain is acked.
fn serve_monitor<P: Port>(port: &mut P, served: &mut Served) -> Option<Request>
    requires target { IsTarget served.old (P.shows port.old) }
    ensures target { IsTarget served.new (P.shows port.new) }
    ensures goes { GoesBy 2 IsOfPlaces (P.shows port.old) (P.shows port.new) }
{
    let request = next_request(port, served, MONITOR)?;
    match request {
        Request::Drain => ack(port, served, MONITOR),
        _ => {}
    }
    Some(request)
}

/// What hart 1 is asked by hart 0.
fn asked_by_first<P: Port>(port: &mut P, served: &Served) -> Option<Request>
    requires target { IsTarget served.now (P.shows port.old) }
    ensures target { IsTarget served.now (P.shows port.new) }
    ensures goes { GoesBy 1 IsOfPlaces (P.shows port.old) (P.shows port.new) }
{
    next_request(port, served, 0)
}

fn ask_beside<P: Port, Q: Port, R: Port>(first: &mut P, second: &mut Q, third: &mut R) -> Asked
    requires first { IsFresh (P.shows first.old) }
    requires second { IsFresh (Q.shows second.old) }
    requires third { IsFresh (R.shows third.old) }
    requires first_harts { 1 < (layout_of (P.shows first.old)).harts }
    requires second_harts { 1 < (layout_of (Q.shows second.old)).harts }
    requires third_harts { 1 < (layout_of (R.shows third.old)).harts }
    requires first_other { 1 ≢ (P.shows first.old).own.actor }
    requires second_own { (Q.shows second.old).own.actor ≡ 1 }
    requires third_other { 1 ≢ (R.shows third.old).own.actor }
    ensures first { IsSameSeat (P.shows first.old) (P.shows first.new) }
    ensures second { IsSameSeat (Q.shows second.old) (Q.shows second.new) }
    ensures third { IsSameSeat (R.shows third.old) (R.shows third.new) }
{
    let mut sent = Sent { next: [0; 16] };
    let (posted, full) = post_pages(first, &mut sent);
    let open = poll_first(first, &sent);
    let mut served = Served { next: [0; 17] };
    let asked = asked_by_first(second, &served);
    let before = serve_monitor(second, &mut served);
    let mut drains = Sent { next: [0; 16] };
    let waiting = post_drain(third, &mut drains);
    let drain = serve_monitor(second, &mut served);
    let done = poll_first(third, &drains);
    let behind = serve_monitor(second, &mut served);
    Asked {
        posted,
        full,
        open,
        asked,
        drains: [before, drain, behind],
        polls: [waiting, done],
    }
}

/// The words behind it, and what was answered.
pub fn ask_tour(alloc: Global, layout: Layout) -> Result<(Words, Asked), NoMemory>
    requires limits { IsInLimits layout }
    requires harts { 2 ≤ layout.harts }
    ensures count { IfOk result (λ made. length (all_words made.0) ≡ words_of layout) }
{
    let Seats {
        table,
        loader,
        first,
        second,
        monitor,
    } = open_seats(alloc, layout, 7)?;
    let mut source = first.pass(&table);
    let mut target = second.pass(&table);
    let mut third = monitor.pass(&table);
    let asked = ask_beside(&mut source, &mut target, &mut third);
    let first = source.rest();
    let second = target.rest();
    let monitor = third.rest();
    Ok((close_seats(table, loader, first, second, monitor), asked))
}
