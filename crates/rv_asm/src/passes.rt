// The two passes over a text: its labels, then its bytes.
ghost use Rattle.std.specs.Prelude.{◌≡◌, ◌≤◌, ◌++◌, [], ℕ, IfErr, IfOk, List, None, Ok, Result, Some, if◌then◌else◌};
ghost use Rattle.asm_text.specs.declared.faults.Fault.{Fault as TheFault};
ghost use Rattle.std.specs.Option.{option_map};
ghost use Rattle.asm_text.specs.Action.{kind_of, lower_fault};
ghost use Rattle.asm_text.specs.Values.{found_as, line_as, text_of, IsRead};
ghost use Rattle.text_lines.specs.Lines.{lines_of};
ghost use Rattle.rv_asm.specs.Assembly.{Bad, Set, first_place, image_of_text, is_set, last_place, line_action, line_bytes, lower, set_by, sets_of};
ghost use Rattle.rv_asm.specs.Found.{first_twice, or_later, refused_at, Adds, AreLabels, IsTwice, Refuses};

use crate::actions::push_action;
use crate::assembler::AsmErr;
use crate::labels::Labels;
use crate::places::{ends_within, place_behind};
use crate::refused::Refused;
use asm_text::{Action, Fault, Line, line_of};
use std::alloc::Global;
use text_lines::next_line;
use vm_io::NoMemory;

/// Where the image begins.
const FIRST_PLACE: u64 = 0x8000_0000;

/// The labels of a text, and the first line that sets one again.
#[derive(Drop)]
pub(crate) struct Found<'a> {
    labels: Labels<'a>,
    twice: Option<u64>,
}

/// Sets a line's label, where it has one. Answers whether it was set before.
fn add_label<'a>(
    labels: &mut Labels<'a>,
    place: u64,
    label: Option<&'a [u8]>,
) -> Result<bool, NoMemory>
    ensures { IfOk result (λ twice. (sets : List Set) → AreLabels sets labels.old.places → AreLabels (sets ++ set_by place (option_map text_of label.entry)) labels.new.places × (twice ≡ is_set sets (option_map text_of label.entry))) }
{
    match label {
        Some(name) => labels.add(name, place),
        None => Ok(false),
    }
}

/// The first line that sets a label again, where this one does or not.
fn or_later(twice: Option<u64>, again: bool, number: u64) -> Option<u64>
    ensures { result ≡ or_later twice (if again then Some number else None) }
{
    match twice {
        None if again => Some(number),
        _ => twice,
    }
}

/// The first pass.
pub(crate) fn labels_of<'a>(alloc: Global, text: &'a [u8]) -> Result<Found<'a>, NoMemory>
    ensures labels { IfOk result (λ found. AreLabels (sets_of first_place (lines_of text.entry.now)) found.labels.places) }
    ensures twice { IfOk result (λ found. found.twice ≡ first_twice [] first_place 1 (lines_of text.entry.now)) }
{
    let mut labels = Labels::new(alloc);
    let mut twice = None;
    let mut place = FIRST_PLACE;
    let mut number = 0;
    let mut rest = text;
    while let Some((bytes, behind)) = next_line(rest) {
        number += 1;
        let line = line_of(bytes);
        let again = add_label(&mut labels, place, line.label)?;
        twice = or_later(twice, again, number);
        place = place_behind(place, &line);
        rest = behind;
    }
    Ok(Found { labels, twice })
}

/// The kind of a fault, as a number.
fn kind_of(fault: Fault) -> u8
    ensures { result ≡ kind_of fault }
{
    match fault {
        Fault::NoName => 1,
        Fault::WrongForm => 2,
        Fault::OutOfRange => 3,
        Fault::NoLabel => 4,
        Fault::LabelTwice => 5,
        Fault::OutOfPlace => 6,
    }
}

fn lower_fault(fault: Fault, other: Fault) -> Fault
    ensures { result ≡ lower_fault fault other }
{
    if kind_of(fault) <= kind_of(other) {
        fault
    } else {
        other
    }
}

/// The lowest fault of a line, where a fault applies to it besides.
fn lowered(applies: bool, fault: Fault, added: Result<(), Refused>) -> Result<(), Refused>
    ensures { (found : Result (List ℕ) TheFault) (old new : List ℕ) → Adds found old new added → Adds (lower applies fault found) old new result }
{
    match added {
        Err(Refused::NoMemory) => Err(Refused::NoMemory),
        Err(Refused::Faulty { fault: other }) => {
            let lowest = if applies {
                lower_fault(fault, other)
            } else {
                other
            };
            Err(Refused::Faulty { fault: lowest })
        }
        Ok(()) => {
            if applies {
                Err(Refused::Faulty { fault })
            } else {
                Ok(())
            }
        }
    }
}

fn push_said(
    image: &mut Vec<u8>,
    labels: &Labels<'_>,
    place: u64,
    action: &Result<Action<'_>, Fault>,
) -> Result<(), Refused>
    requires place { place ≤ last_place }
    requires read { IfOk action.now IsRead }
    ensures { (sets : List Set) → AreLabels sets labels.now.places → Adds (line_action sets place (found_as action.now)) image.old.items image.new.items result }
{
    match *action {
        Ok(action) => push_action(image, labels, place, &action),
        Err(fault) => Err(Refused::Faulty { fault }),
    }
}

/// Appends the bytes of a line, which may set a label again.
fn push_line(
    image: &mut Vec<u8>,
    labels: &Labels<'_>,
    place: u64,
    line: &Line<'_>,
    twice: bool,
) -> Result<(), Refused>
    requires place { place ≤ last_place }
    requires read { IfOk line.now.action IsRead }
    ensures { (before sets : List Set) → AreLabels sets labels.now.places → twice ≡ is_set before (line_as line.now).label → Adds (line_bytes before sets place (line_as line.now)) image.old.items image.new.items result }
{
    let ends = ends_within(place, line);
    let added = push_said(image, labels, place, &line.action);
    let added = lowered(twice, Fault::LabelTwice, added);
    lowered(!ends, Fault::OutOfPlace, added)
}

/// The line is the first that sets a label again.
fn is_twice(twice: Option<u64>, number: u64) -> bool
    ensures { IsTwice twice number result }
{
    match twice {
        Some(n) => n == number,
        None => false,
    }
}

/// Why a text gives no file, where a line gives no bytes.
fn refused_at(line: u64, refused: Refused) -> AsmErr
    ensures { result ≡ refused_at line refused }
{
    match refused {
        Refused::Faulty { fault } => AsmErr::Bad {
            line,
            kind: kind_of(fault),
        },
        Refused::NoMemory => AsmErr::NoMemory,
    }
}

/// The second pass.
pub(crate) fn image_of(alloc: Global, text: &[u8], found: &Found<'_>) -> Result<Vec<u8>, AsmErr>
    requires labels { AreLabels (sets_of first_place (lines_of text.now)) found.now.labels.places }
    requires twice { found.now.twice ≡ first_twice [] first_place 1 (lines_of text.now) }
    ensures image { IfOk result (λ image. image_of_text text.now ≡ Ok image.items) }
    ensures refused { IfErr result (Refuses (image_of_text text.now)) }
{
    let mut image = Vec::new(alloc);
    let mut place = FIRST_PLACE;
    let mut number = 0;
    let mut rest = text;
    while let Some((bytes, behind)) = next_line(rest) {
        number += 1;
        let line = line_of(bytes);
        let twice = is_twice(found.twice, number);
        match push_line(&mut image, &found.labels, place, &line, twice) {
            Ok(()) => (),
            Err(refused) => return Err(refused_at(number, refused)),
        }
        place = place_behind(place, &line);
        rest = behind;
    }
    Ok(image)
}
