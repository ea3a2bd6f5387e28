// How a call ended: its exit code and its line.
ghost use Rattle.std.specs.Prelude.{◌≡◌};
ghost use Rattle.tlbvm.specs.Status.{exit_code_of, kind_number, status_for, status_text};

use crate::items::OrderErr;
use arrayvec::ArrayString;
use elf_load::{BadImage, ImageErr};
use itoa::Buffer;
use ref_machine::Reason;
use rv_asm::AsmErr;
use vm_io::{NoMemory, ReadErr};

/// How a call ended. Of the ends of a machine `Stopped` doesn't come yet: there are no scripts.
#[derive(Clone, Copy, Debug, PartialEq, Eq)]
pub enum Status {
    /// The guest said that it passed, or the listing or the file was written.
    Done,
    /// The words are no command line.
    Usage,
    /// A file could not be read.
    ReadFault,
    /// A file is longer than 67,108,864 bytes.
    TooLong,
    /// The ELF file is no image, by this check.
    BadImage(BadImage),
    /// The order is none, by its line of this number, from 1.
    BadOrder(u64),
    /// The text gives no file, by its line of this number, from 1, and the lowest kind of that line's faults: 1 an unknown
    /// name, 2 a wrong form, 3 a number out of range, 4 an unknown label, 5 a label that was set before, 6 `.org` backward or
    /// an image over the limit.
    BadAsm(u64, u8),
    /// `out` or `log` took no more.
    WriteFault,
    /// There was no memory for the files, the machine or what is made of a file; no turn was taken, and nothing was written.
    NoMemory,
    /// The guest said that it failed, with this code.
    GuestFailed(u16),
    /// This hart reached its limit of instructions.
    Limit(u8),
    /// The console is full.
    OutFull,
    /// All harts are stopped.
    AllStopped,
    /// The order's turns are all taken.
    OrderEnd,
    /// The script stopped the machine.
    Stopped,
}

/// The exit code of a status.
pub fn code(status: &Status) -> u8
    ensures { result ≡ exit_code_of status.now }
{
    match status {
        Status::Done => 0,
        Status::Usage => 2,
        Status::ReadFault => 3,
        Status::TooLong => 4,
        Status::BadImage(_) => 5,
        Status::BadOrder(_) => 6,
        Status::BadAsm(_, _) => 8,
        Status::WriteFault => 9,
        Status::NoMemory => 10,
        Status::GuestFailed(_) => 11,
        Status::Limit(_) => 12,
        Status::OutFull => 13,
        Status::AllStopped => 14,
        Status::OrderEnd => 15,
        Status::Stopped => 16,
    }
}

/// The number that a status line gives to a check of an ELF file: from 1, in the order of the first such checks.
fn kind_number(kind: BadImage) -> u8
    ensures { result ≡ kind_number kind }
{
    match kind {
        BadImage::Short => 1,
        BadImage::NotElf => 2,
        BadImage::NotRv64 => 3,
        BadImage::NotExec => 4,
        BadImage::Compressed => 5,
        BadImage::SegmentOutside => 6,
        BadImage::Overlap => 7,
        BadImage::EntryOutside => 8,
    }
}

/// What the program prints of a status, without a line feed.
pub fn status_line(status: &Status) -> ArrayString<96>
    ensures { result.bytes ≡ status_text status.now }
{
    let mut line = ArrayString::new();
    match status {
        Status::Done => line.push_str("done"),
        Status::Usage => line.push_str("usage: tlbvm plain, sched, run, churn, asm, dis or gen"),
        Status::ReadFault => line.push_str("read failed"),
        Status::TooLong => line.push_str("file too long"),
        Status::BadImage(kind) => {
            line.push_str("bad image: kind ");
            line.push_str(Buffer::new().format(kind_number(*kind)));
        }
        Status::BadOrder(bad) => {
            line.push_str("bad order: line ");
            line.push_str(Buffer::new().format(*bad));
        }
        Status::BadAsm(bad, kind) => {
            line.push_str("bad text: line ");
            line.push_str(Buffer::new().format(*bad));
            line.push_str(" kind ");
            line.push_str(Buffer::new().format(*kind));
        }
        Status::WriteFault => line.push_str("write failed"),
        Status::NoMemory => line.push_str("out of memory"),
        Status::GuestFailed(code) => {
            line.push_str("guest failed: ");
            line.push_str(Buffer::new().format(*code));
        }
        Status::Limit(hart) => {
            line.push_str("limit: hart ");
            line.push_str(Buffer::new().format(*hart));
        }
        Status::OutFull => line.push_str("output full"),
        Status::AllStopped => line.push_str("all harts stopped"),
        Status::OrderEnd => line.push_str("order ended"),
        Status::Stopped => line.push_str("stopped"),
    }
    line
}

/// The status of a machine that ended with this first reason, or with none after its order's last turn.
pub(crate) fn status_of(reason: Option<Reason>) -> Status
    ensures { result ≡ status_for reason }
{
    match reason {
        None => Status::OrderEnd,
        Some(Reason::Pass) => Status::Done,
        Some(Reason::Fail(code)) => Status::GuestFailed(code),
        Some(Reason::Limit(hart)) => Status::Limit(hart),
        Some(Reason::OutFull) => Status::OutFull,
        Some(Reason::AllStopped) => Status::AllStopped,
        Some(Reason::Stopped) => Status::Stopped,
    }
}

impl From<ReadErr> for Status {
    ghost use Rattle.tlbvm.specs.Refused.{status_of_read};

    ghost from_gives = { λ e s. s ≡ status_of_read e };

    fn from(e: ReadErr) -> Status {
        match e {
            ReadErr::ReadFault => Status::ReadFault,
            ReadErr::TooLong => Status::TooLong,
            ReadErr::NoMemory => Status::NoMemory,
        }
    }
}

impl From<ImageErr> for Status {
    ghost use Rattle.tlbvm.specs.Refused.{status_of_image};

    ghost from_gives = { λ e s. s ≡ status_of_image e };

    fn from(e: ImageErr) -> Status {
        match e {
            ImageErr::Bad(kind) => Status::BadImage(kind),
            ImageErr::NoMemory => Status::NoMemory,
        }
    }
}

impl From<OrderErr> for Status {
    ghost use Rattle.tlbvm.specs.Refused.{status_of_order};

    ghost from_gives = { λ e s. s ≡ status_of_order e };

    fn from(e: OrderErr) -> Status {
        match e {
            OrderErr::Bad { line } => Status::BadOrder(line),
            OrderErr::NoMemory => Status::NoMemory,
        }
    }
}

impl From<AsmErr> for Status {
    ghost use Rattle.tlbvm.specs.Refused.{status_of_text};

    ghost from_gives = { λ e s. s ≡ status_of_text e };

    fn from(e: AsmErr) -> Status {
        match e {
            AsmErr::Bad { line, kind } => Status::BadAsm(line, kind),
            AsmErr::NoMemory => Status::NoMemory,
        }
    }
}

impl From<NoMemory> for Status {
    ghost use Rattle.tlbvm.specs.declared.status.Status.TheVariants.{NoMemory as no_memory};

    ghost from_gives = { λ e s. s ≡ no_memory };

    fn from(_: NoMemory) -> Status {
        Status::NoMemory
    }
}
