// The top call.
ghost use Rattle.std.specs.Prelude.{◌≡◌, ◌↔◌, ℕ, List, Option, None, Err, IsTrue, false, map, string_bytes};
ghost use Rattle.machine_model.specs.declared.reason.Reason.{Reason as TheReason};
ghost use Rattle.tlbvm.specs.Options.{Asm, Dis, Gen, Plain, line_of};
ghost use Rattle.tlbvm.specs.Lines.{asked_as, line_as, IsInLimits, IsLineInLimits};
ghost use Rattle.tlbvm.specs.Intake.{name_of, Name};
ghost use Rattle.tlbvm.specs.Status.{status_for, is_end, is_refusal};
ghost use Rattle.tlbvm.specs.Call.{call_of, written_of, CameTo, GetsNothing, OnLine, Written};
ghost use Rattle.tlbvm.specs.Answers.{EndsBy, IsAnswered, IsComplete, IsCut, IsOneText, IsOneRun};

use crate::ending::{write_end, write_made};
use crate::options::{Asked, Line, read_line};
use crate::start::{assembled, listing, start};
use crate::status::{Status, status_of};
use crate::taking::take_turns;
use guest_gen::gen_text;
use std::alloc::Global;
use vm_io::{Images, Sink};

/// Does a `plain` line.
fn plain<F: Images, O: Sink, L: Sink>(
    alloc: Global,
    elf: &str,
    order: &str,
    asked: Asked,
    images: &mut F,
    out: &mut O,
    log: &mut L,
) -> Status
    requires { IsInLimits (asked_as asked) }
    ensures answered { IsAnswered result
        (call_of F.told F.faults O.taken O.faults L.taken L.faults images.old images.new out.old out.new log.old log.new (Plain elf.now order.now (asked_as asked))) }
    ensures untouched { is_end result ≡ false → (out.new ≡ out.old) × (log.new ≡ log.old) }
{
    let mut job = match start(alloc, elf, order, asked, images) {
        Ok(job) => job,
        Err(status) => return status,
    };
    let reason = take_turns(&mut job.machine, asked.harts, job.items.as_slice());
    match write_end(&job.machine, reason, asked.regs, out, log) {
        Ok(()) => status_of(reason),
        Err(_) => Status::WriteFault,
    }
}

/// Does a `dis` line, which leaves `log` as it is.
fn dis<F: Images, O: Sink>(alloc: Global, elf: &str, images: &mut F, out: &mut O) -> Status
    ensures answered { (log : Written) → GetsNothing log → IsAnswered result
        (record { line = Dis elf.now; names = name_of F.told F.faults images.old images.new; out = written_of O.taken O.faults out.old out.new; log = log }) }
    ensures untouched { is_end result ≡ false → out.new ≡ out.old }
{
    match listing(alloc, elf, images) {
        Ok(text) => match write_made(text.as_slice(), out) {
            Ok(()) => Status::Done,
            Err(_) => Status::WriteFault,
        },
        Err(status) => status,
    }
}

/// Does an `asm` line, which leaves `log` as it is.
fn asm<F: Images, O: Sink>(alloc: Global, text: &str, images: &mut F, out: &mut O) -> Status
    ensures answered { (log : Written) → GetsNothing log → IsAnswered result
        (record { line = Asm text.now; names = name_of F.told F.faults images.old images.new; out = written_of O.taken O.faults out.old out.new; log = log }) }
    ensures untouched { is_end result ≡ false → out.new ≡ out.old }
{
    match assembled(alloc, text, images) {
        Ok(file) => match write_made(file.as_slice(), out) {
            Ok(()) => Status::Done,
            Err(_) => Status::WriteFault,
        },
        Err(refused) => refused,
    }
}

/// Does a `gen` line, which reads nothing and leaves `log` as it is.
fn generate<O: Sink>(alloc: Global, number: u32, out: &mut O) -> Status
    ensures answered { (names : List ℕ → Name) (log : Written) → GetsNothing log → IsAnswered result
        (record { line = Gen number; names = names; out = written_of O.taken O.faults out.old out.new; log = log }) }
    ensures untouched { is_end result ≡ false → out.new ≡ out.old }
{
    match gen_text(alloc, number) {
        Ok(text) => match write_made(text.as_slice(), out) {
            Ok(()) => Status::Done,
            Err(_) => Status::WriteFault,
        },
        Err(_) => Status::NoMemory,
    }
}

/// Does a line by its command.
fn run_line<F: Images, O: Sink, L: Sink>(
    alloc: Global,
    line: &Line<'_>,
    images: &mut F,
    out: &mut O,
    log: &mut L,
) -> Status
    requires { IsLineInLimits (line_as line.now) }
    ensures answered { IsAnswered result
        (call_of F.told F.faults O.taken O.faults L.taken L.faults images.old images.new out.old out.new log.old log.new (line_as line.now)) }
    ensures untouched { is_end result ≡ false → (out.new ≡ out.old) × (log.new ≡ log.old) }
{
    match *line {
        Line::Plain { elf, order, asked } => plain(alloc, elf, order, asked, images, out, log),
        Line::Dis { elf } => dis(alloc, elf, images, out),
        Line::Asm { text } => asm(alloc, text, images, out),
        Line::Gen { number } => generate(alloc, number, out),
    }
}

/// Does all that a command line says, on one thread: reads its files by name from `images`, runs the machine to its
/// end, and writes the console's bytes to `out` and then the report to `log`.
///
/// The lines that are built are `plain ELF ORDER`, with the options `--harts N`, `--pages N`, `--limit N` and `--regs`,
/// `dis ELF`, which writes the listing of the file's image to `out`, `asm TEXT`, which writes the ELF file of an
/// assembler's text, and `gen N`, which writes the text of a guest by its number. Checks are made in this order: the words, the read of ELF, the image, the read of ORDER, the order,
/// the machine's or the listing's memory; or the read of TEXT, its lines, the file's memory; the first that fails answers,
/// and then no sink was called. Want of memory comes before the first turn only.
pub fn tlbvm_still<F: Images, O: Sink, L: Sink>(
    alloc: Global,
    words: &[String],
    images: &mut F,
    out: &mut O,
    log: &mut L,
) -> Status
    // The headline: whenever a machine ends, its memory, registers and output are those of one run of the TLB-free
    // machine.
    ensures headline { IsTrue (is_end result) → OnLine
        (call_of F.told F.faults O.taken O.faults L.taken L.faults images.old images.new out.old out.new log.old log.new)
        (map string_bytes words.now) IsOneRun }

    // A `dis` line writes the listing of the image of its file, an `asm` line the file of its text, a `gen` line the text of its number.
    ensures made { IsTrue (is_end result) → OnLine
        (call_of F.told F.faults O.taken O.faults L.taken L.faults images.old images.new out.old out.new log.old log.new)
        (map string_bytes words.now) IsOneText }

    // Before the start: no sink is called, and of words that are no line no file is read.
    ensures usage { (result ≡ Status.Usage) ↔ (line_of (map string_bytes words.now) ≡ None) }
    ensures usage_reads { result ≡ Status.Usage → images.new ≡ images.old }
    ensures untouched { is_end result ≡ false → (out.new ≡ out.old) × (log.new ≡ log.old) }

    // A file that is not read or not accepted: the first of the line's reads and checks that fails.
    ensures refused { IsTrue (is_refusal result) → OnLine
        (call_of F.told F.faults O.taken O.faults L.taken L.faults images.old images.new out.old out.new log.old log.new)
        (map string_bytes words.now) (CameTo (Err result)) }

    // The run's first reason, or none after the order's last turn; `out` has its output and `log` its report. `Done` comes
    // of a listing or a file too, which `out` has, and `log` nothing.
    ensures ended { (reason : Option TheReason) → result ≡ status_for reason → OnLine
        (call_of F.told F.faults O.taken O.faults L.taken L.faults images.old images.new out.old out.new log.old log.new)
        (map string_bytes words.now) (EndsBy reason) }

    // A sink failed: what it took is a part of what was due, and `log` got nothing until `out` was whole.
    ensures write_fault { result ≡ Status.WriteFault → OnLine
        (call_of F.told F.faults O.taken O.faults L.taken L.faults images.old images.new out.old out.new log.old log.new)
        (map string_bytes words.now) IsCut }

    // Files without faults lead to the answer that is theirs, or to want of memory: a file that isn't accepted to its own
    // refusal, others to the machine's end, where both sinks take all.
    ensures complete { OnLine
        (call_of F.told F.faults O.taken O.faults L.taken L.faults images.old images.new out.old out.new log.old log.new)
        (map string_bytes words.now) (IsComplete result) }
{
    match read_line(words) {
        Some(line) => run_line(alloc, &line, images, out, log),
        None => Status::Usage,
    }
}
