// A need by its kind.
ghost use Rattle.std.specs.Prelude.{◌≡◌, ◌+◌, ◌<◌};
ghost use Rattle.rv64_priv.specs.Csr.{regime};
ghost use Rattle.rv64_exec.specs.Widths.{IsWellFormedNeed};
ghost use Rattle.guest_ram.specs.Areas.{IsOfCalls, IsOfTable};
ghost use Rattle.guest_ram.specs.Ports.{GoesBy, layout_of, IsActing, StandsAs};
ghost use Rattle.guest_access.specs.Accessing.{IsOfMemory};
ghost use Rattle.guest_access.specs.Reaching.{CanAccess, KnowsFills};
ghost use Rattle.guest_access.specs.Touching.{IsOfAccess};
ghost use Rattle.hart_calls.specs.Called.{IsOfHartCalls};
ghost use Rattle.rv64_exec.specs.declared.needs.Need.{Need as TheNeed};
ghost use Rattle.hart_calls.specs.States.{IsRunner};
ghost use Rattle.kept_fills.specs.Beside.{IsBeside};
ghost use Rattle.step_laws.specs.Sections.{MayTouch};
ghost use Rattle.flush.specs.Flushed.{full_steps};
ghost use Rattle.need_serving.specs.Ends.{IsPageOf, IsPageNumber};
ghost use Rattle.need_serving.specs.Serving.{HasFlushedOne, HasUsedPending, IsOfNeeds, IsServed};

use crate::ends::{NeedEnd, of_access, of_call, of_flush};
use flush::{flush_all, flush_pages};
use guest_access::access;
use guest_devices::ipi;
use guest_ram::Port;
use hart_calls::sbi;
use rv64_exec::{Answer, Arch, FlushOf, IpiOp, Need};
use rv64_priv::is_set;
use tlb_entry::Book;

/// Flushes the own TLB, of everything or of one page.
fn flush_own<P: Port>(book: &mut Book, port: &mut P, what: FlushOf) -> NeedEnd
    requires beside { IsBeside book.old (P.shows port.old) }
    requires page { IsPageNumber what }
    ensures flushed { HasFlushedOne (P.shows port.old) (P.shows port.new) book.old book.new what result }
    ensures beside { IsBeside book.new (P.shows port.new) }
    ensures goes { GoesBy (full_steps book.old.size + 8) IsOfTable (P.shows port.old) (P.shows port.new) }
{
    match what {
        FlushOf::All => of_flush(flush_all(book, port)),
        FlushOf::Page(page) => of_flush(flush_pages(book, port, page, 1)),
    }
}

/// Reads or changes the own bit of the pending interrupts, as `sip` shows it.
fn use_pending<P: Port>(port: &mut P, op: IpiOp) -> u64
    requires acting { IsActing (P.shows port.old) }
    requires hart { (P.shows port.old).own.actor < (layout_of (P.shows port.old)).harts }
    requires touch { MayTouch (layout_of (P.shows port.old)) (P.shows port.old).own.actor (P.shows port.old).own.steps }
    ensures used { HasUsedPending (P.shows port.old) (P.shows port.new) op result }
    ensures stands { StandsAs (P.shows port.old) (P.shows port.new) }
    ensures acting { IsActing (P.shows port.new) }
    ensures goes { GoesBy 1 IsOfCalls (P.shows port.old) (P.shows port.new) }
{
    let own = port.actor();
    let found = ipi(port, op, 1 << own);
    if is_set(found, u32::from(own)) { 2 } else { 0 }
}

/// Makes the access that an instruction needs.
fn serve_access<P: Port>(
    book: &mut Book,
    port: &mut P,
    arch: &Arch,
    need: &Need,
    section: bool,
) -> NeedEnd
    requires need { IsOfMemory need.now }
    requires form { IsWellFormedNeed need.now }
    requires access { CanAccess book.old (P.shows port.old) }
    requires fills { KnowsFills book.old (regime arch.now) (P.shows port.old) }
    requires runner { IsRunner (P.shows port.old) }
    ensures served { IsServed (P.shows port.old) (P.shows port.new) book.old book.new arch.now section need.now result }
    ensures goes { GoesBy 34 IsOfAccess (P.shows port.old) (P.shows port.new) }
{
    of_access(access(book, port, arch, need, section))
}

/// Makes the call that the registers ask for.
fn serve_call<P: Port>(book: &Book, port: &mut P, arch: &Arch, section: bool) -> NeedEnd
    requires access { CanAccess book.now (P.shows port.old) }
    requires fills { KnowsFills book.now (regime arch.now) (P.shows port.old) }
    requires runner { IsRunner (P.shows port.old) }
    ensures served { IsServed (P.shows port.old) (P.shows port.new) book.now book.now arch.now section TheNeed.Sbi result }
    ensures goes { GoesBy 769 IsOfHartCalls (P.shows port.old) (P.shows port.new) }
{
    let hart = port.actor();
    of_call(sbi(port, hart, arch, section))
}

/// Serves the one thing that an instruction of a running hart needs: an access to memory or a device, the own software interrupt, a flush of
/// the own TLB, or a call of the execution environment. A trap is its own answer. `section`: the hart is in its section. Where the answer is
/// `Done` or `Stopped` the need is served and the instruction is to be finished; else it is to be made anew, and its hart is as it was.
pub fn serve_need<P: Port>(
    book: &mut Book,
    port: &mut P,
    arch: &Arch,
    need: &Need,
    section: bool,
) -> NeedEnd
    requires form { IsWellFormedNeed need.now }
    requires page { IsPageOf need.now }
    requires access { CanAccess book.old (P.shows port.old) }
    requires fills { KnowsFills book.old (regime arch.now) (P.shows port.old) }
    requires runner { IsRunner (P.shows port.old) }
    ensures served { IsServed (P.shows port.old) (P.shows port.new) book.old book.new arch.now section need.now result }
    ensures goes { GoesBy (full_steps book.old.size + 769) IsOfNeeds (P.shows port.old) (P.shows port.new) }
{
    match *need {
        Need::Nothing => NeedEnd::Done(Answer::Nothing),
        Need::Trap { cause, tval } => NeedEnd::Done(Answer::Fault { cause, tval }),
        Need::Ipi { op } => NeedEnd::Done(Answer::Value(use_pending(port, op))),
        Need::Flush(what) => flush_own(book, port, what),
        Need::Sbi => serve_call(book, port, arch, section),
        Need::Load { .. }
        | Need::Store { .. }
        | Need::Amo { .. }
        | Need::Lr { .. }
        | Need::Sc { .. } => serve_access(book, port, arch, need, section),
    }
}
