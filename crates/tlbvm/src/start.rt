// The reads and checks before the start, in their order, and the machine that they lead to.
ghost use Rattle.std.specs.Prelude.{◌≡◌, ◌≤◌, ℕ, List, IfOk, None, IfErr};
ghost use Rattle.tlbvm.specs.Intake.{layout_of, name_of, asm_intake, dis_intake, plain_intake, WereRead};
ghost use Rattle.tlbvm.specs.Lines.{asked_as, IsInLimits};
ghost use Rattle.tlbvm.specs.Refused.{IsMade, IsRefused, IsStarted, IsUnread};
ghost use Rattle.tlbvm.specs.Turns.{hart_turns, turns_of, AreThere};

use crate::items::{Item, read_order};
use crate::options::Asked;
use crate::status::Status;
use elf_load::parse;
use ref_machine::PlainMachine;
use rv_asm::{assemble, disassemble};
use std::alloc::Global;
use step_laws::Layout;
use vm_io::{Images, read_all};

/// A machine at its first state, and what its order gives turns to.
#[derive(Drop)]
pub(crate) struct Job {
    pub machine: PlainMachine,
    pub items: Vec<Item>,
}

/// Reads a file that a line names.
fn read_file<F: Images>(alloc: Global, images: &mut F, name: &str) -> Result<Vec<u8>, Status>
    ensures ok { IfOk result (λ file. WereRead (name_of F.told F.faults images.old images.new name.now) file.items) }
    ensures err { IfErr result (λ status. IsUnread (name_of F.told F.faults images.old images.new name.now) status) }
    ensures grows { (other : List ℕ) → F.faults images.old other ≤ F.faults images.new other }
    ensures same { (other : List ℕ) → F.told images.new other ≡ F.told images.old other }
{
    Ok(read_all(alloc, images, name)?)
}

/// Reads and checks the files of a `plain` line, and makes their machine.
pub(crate) fn start<F: Images>(
    alloc: Global,
    elf: &str,
    order: &str,
    asked: Asked,
    images: &mut F,
) -> Result<Job, Status>
    requires { IsInLimits (asked_as asked) }
    ensures ok { IfOk result (λ job. IsStarted (name_of F.told F.faults images.old images.new) (plain_intake elf.now order.now (asked_as asked))
        (hart_turns (turns_of asked.harts job.items.items)) asked.regs job.machine) }
    ensures there { IfOk result (λ job. AreThere asked.harts job.items.items) }
    ensures layout { IfOk result (λ job. job.machine.shared.layout ≡ layout_of (asked_as asked)) }
    ensures going { IfOk result (λ job. job.machine.shared.reason ≡ None) }
    ensures err { IfErr result (λ status. IsRefused (name_of F.told F.faults images.old images.new) (plain_intake elf.now order.now (asked_as asked)) status) }
{
    let file = read_file(alloc, images, elf)?;
    let image = parse(alloc, file.as_slice(), asked.pages)?;
    let text = read_file(alloc, images, order)?;
    let items = read_order(alloc, text.as_slice(), asked.harts)?;
    let layout = Layout {
        harts: asked.harts,
        pages: asked.pages,
    };
    let machine = PlainMachine::new(alloc, &image, file.as_slice(), layout, asked.limit)?;
    Ok(Job { machine, items })
}

/// The most pages that a machine can have.
const MOST_PAGES: u32 = 4096;

/// Reads and checks the file of a `dis` line, and makes its listing.
pub(crate) fn listing<F: Images>(
    alloc: Global,
    elf: &str,
    images: &mut F,
) -> Result<Vec<u8>, Status>
    ensures ok { IfOk result (λ text. IsMade (name_of F.told F.faults images.old images.new) (dis_intake elf.now) text.items) }
    ensures err { IfErr result (λ status. IsRefused (name_of F.told F.faults images.old images.new) (dis_intake elf.now) status) }
{
    let file = read_file(alloc, images, elf)?;
    let image = parse(alloc, file.as_slice(), MOST_PAGES)?;
    Ok(disassemble(alloc, &image, file.as_slice())?)
}

/// Reads the text of an `asm` line, and makes its file.
pub(crate) fn assembled<F: Images>(
    alloc: Global,
    text: &str,
    images: &mut F,
) -> Result<Vec<u8>, Status>
    ensures ok { IfOk result (λ file. IsMade (name_of F.told F.faults images.old images.new) (asm_intake text.now) file.items) }
    ensures err { IfErr result (λ status. IsRefused (name_of F.told F.faults images.old images.new) (asm_intake text.now) status) }
{
    let lines = read_file(alloc, images, text)?;
    Ok(assemble(alloc, lines.as_slice())?)
}
