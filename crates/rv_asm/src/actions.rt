// The bytes of what a line does.
ghost use Rattle.std.specs.Prelude.{◌≡◌, ◌≤◌, ◌<◌, List, Some, IsSome};
ghost use Rattle.asm_text.specs.Table.{shape_of};
ghost use Rattle.asm_text.specs.Operand.{all_numbers};
ghost use Rattle.asm_text.specs.Values.{action_as, or_none, texts_in, values_as, AreRead, IsRead};
ghost use Rattle.rv_asm.specs.Assembly.{Set, action_bytes, address_loaded, can_move, data_bytes, gap_bytes, instr_of, last_place, number_bytes, number_loaded, one_word_of, place_of};
ghost use Rattle.rv_asm.specs.Found.{Adds, AreLabels};

use crate::bytes::{bits_of, low_part, push_bytes, push_two, push_word, push_zeros, upper_part};
use crate::instructions::instr_of;
use crate::labels::Labels;
use crate::ranges::{is_within, upper_immediate};
use crate::refused::{Refused, or_no_memory};
use asm_text::{Action, Coded, Fault, Number, Values, next_number};
use rv64_decode::Instr;

/// Where the longest image ends.
pub(crate) const LAST_PLACE: u64 = 0x8100_0000;

fn push_instr(
    image: &mut Vec<u8>,
    labels: &Labels<'_>,
    place: u64,
    coded: Coded,
    values: &Values<'_>,
) -> Result<(), Refused>
    requires { AreRead values.now }
    ensures { (sets : List Set) → AreLabels sets labels.now.places → Adds (one_word_of (instr_of sets place (shape_of coded.mnemonic) coded.aq coded.rl (values_as values.now))) image.old.items image.new.items result }
{
    match instr_of(labels, place, coded, values) {
        Ok(instr) => { or_no_memory(push_word(image, instr)) }
        Err(fault) => Err(Refused::Faulty { fault }),
    }
}

/// `li` is lui and addiw.
fn push_number_loaded(image: &mut Vec<u8>, rd: u8, n: Number) -> Result<(), Refused>
    requires { rd < 32 }
    ensures { Adds (number_loaded rd n) image.old.items image.new.items result }
{
    if !is_within(0x8000_0000, 0x7fff_ffff, n) {
        return Err(Refused::Faulty {
            fault: Fault::OutOfRange,
        });
    }
    let bits = bits_of(32, n) as u32;
    let upper = Instr::Lui {
        rd,
        imm: upper_immediate(upper_part(bits)),
    };
    let low = Instr::Addiw {
        rd,
        rs1: rd,
        imm: low_part(bits),
    };
    or_no_memory(push_two(image, upper, low))
}

/// `la` is auipc and addi, over the distance to the label.
fn push_address_loaded(
    image: &mut Vec<u8>,
    rd: u8,
    place: u64,
    address: Option<u64>,
) -> Result<(), Refused>
    requires register { rd < 32 }
    requires place { place ≤ last_place }
    ensures { Adds (address_loaded rd place address) image.old.items image.new.items result }
{
    let Some(address) = address else {
        return Err(Refused::Faulty {
            fault: Fault::NoLabel,
        });
    };
    let distance = u128::from(address) + 0x1_0000_0000 - u128::from(place);
    let bits = (distance % 0x1_0000_0000) as u32;
    let upper = Instr::Auipc {
        rd,
        imm: upper_immediate(upper_part(bits)),
    };
    let low = Instr::Addi {
        rd,
        rs1: rd,
        imm: low_part(bits),
    };
    or_no_memory(push_two(image, upper, low))
}

fn push_number(image: &mut Vec<u8>, width: u8, n: Number) -> Result<(), Refused>
    requires some { 0 < width }
    requires narrow { width ≤ 8 }
    ensures { Adds (number_bytes width n) image.old.items image.new.items result }
{
    let bits = 8 * width;
    if !is_within(1u128 << (bits - 1), (1u128 << bits) - 1, n) {
        return Err(Refused::Faulty {
            fault: Fault::OutOfRange,
        });
    }
    or_no_memory(push_bytes(image, width, bits_of(bits, n)))
}

/// Appends numbers of `width` bytes each.
fn push_data(image: &mut Vec<u8>, width: u8, text: &[u8]) -> Result<(), Refused>
    requires some { 0 < width }
    requires narrow { width ≤ 8 }
    requires numbers { IsSome (all_numbers (texts_in text.now)) }
    ensures { Adds (data_bytes width (or_none (all_numbers (texts_in text.now)))) image.old.items image.new.items result }
{
    let mut left = Some(text);
    while let Some(text) = left {
        let Some((n, behind)) = next_number(text) else {
            return Err(Refused::Faulty {
                fault: Fault::WrongForm,
            });
        };
        push_number(image, width, n)?;
        left = behind;
    }
    Ok(())
}

/// The place moves forward, or stays.
pub(crate) fn can_move(place: u64, n: Number) -> bool
    ensures { result ≡ can_move place n }
{
    is_within(0, u128::from(LAST_PLACE), n) && u128::from(place) <= n.magnitude
}

fn push_gap(image: &mut Vec<u8>, place: u64, n: Number) -> Result<(), Refused>
    ensures { Adds (gap_bytes place n) image.old.items image.new.items result }
{
    if !can_move(place, n) {
        return Err(Refused::Faulty {
            fault: Fault::OutOfPlace,
        });
    }
    or_no_memory(push_zeros(image, (n.magnitude - u128::from(place)) as usize))
}

/// Appends the bytes of what a line does at a place.
pub(crate) fn push_action(
    image: &mut Vec<u8>,
    labels: &Labels<'_>,
    place: u64,
    action: &Action<'_>,
) -> Result<(), Refused>
    requires place { place ≤ last_place }
    requires read { IsRead action.now }
    ensures { (sets : List Set) → AreLabels sets labels.now.places → Adds (action_bytes sets place (action_as action.now)) image.old.items image.new.items result }
{
    match *action {
        Action::Nothing => Ok(()),
        Action::Makes { coded, values } => push_instr(image, labels, place, coded, &values),
        Action::LoadsNumber { rd, n } => push_number_loaded(image, rd, n),
        Action::LoadsAddress { rd, label } => {
            push_address_loaded(image, rd, place, labels.place_of(label))
        }
        Action::Data { width, text, .. } => push_data(image, width, text),
        Action::MovesTo { n } => push_gap(image, place, n),
    }
}
