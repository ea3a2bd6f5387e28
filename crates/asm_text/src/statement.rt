// What a line says.
ghost use Rattle.std.specs.Prelude.{◌≡◌, ◌<◌, ◌≤◌, ◌^◌, ◌∷◌, [], MatchOption, IfOk, IfSome, Some, None, Ok, Err, true, false, not, length, IsTrue, if◌then◌else◌, bytes_eq, option_copied};
ghost use Rattle.std.specs.Option.{option_map};
ghost use Rattle.asm_text.specs.declared.faults.Fault.{Fault as TheFault};
ghost use Rattle.asm_text.specs.declared.mnemonic.Coded.{Coded as TheCoded};
ghost use Rattle.asm_text.specs.declared.values.Kind.{Kind as TheKind};
ghost use Rattle.asm_text.specs.Table.{name_of, shape_of};
ghost use Rattle.asm_text.specs.Text.{operands_of};
ghost use Rattle.asm_text.specs.Operand.{all_numbers, numbers_of, values_of};
ghost use Rattle.asm_text.specs.Action.{action_of, coded_of, data_of, directive_of, ends_in, if_atomic, instruction_of, is_atomic, is_named, jump_to, line_of, load_address, load_number, mnemonic_of, move, move_to, ordered_of, with_values, without};
ghost use Rattle.asm_text.specs.Values.{action_as, found_as, line_as, texts_in, texts_left, IsRead};

use crate::faults::Fault;
use crate::lines::{behind_label, body_of, label_of, name_and_operands};
use crate::mnemonic::{Coded, Form, MNEMONICS, Mnemonic, form_of, name_of};
use crate::numbers::Number;
use crate::reading::{
    are_read, next_count, next_label, next_number, next_register, next_target, operands_of,
    values_of,
};
use crate::values::{Value, Values};

/// What a line does.
#[derive(Clone, Copy)]
pub enum Action<'a> {
    /// Nothing, but to set its label.
    Nothing,
    /// One instruction.
    Makes {
        coded: Coded,
        values: Values<'a>,
    },
    /// `li rd, n`.
    LoadsNumber {
        rd: u8,
        n: Number,
    },
    /// `la rd, label`.
    LoadsAddress {
        rd: u8,
        label: &'a [u8],
    },
    /// Numbers of `width` bytes each: `count` of them, in the text that `next_number` reads.
    Data {
        width: u8,
        text: &'a [u8],
        count: u128,
    },
    /// `.org N`.
    MovesTo {
        n: Number,
    },
}

/// A line: its label, and what it does or the fault of its name or form.
#[derive(Clone, Copy)]
pub struct Line<'a> {
    pub label: Option<&'a [u8]>,
    pub action: Result<Action<'a>, Fault>,
}

fn is_named(name: &[u8], mnemonic: Mnemonic) -> bool
    ensures { result ≡ is_named name.now mnemonic }
{
    name == name_of(mnemonic).as_bytes()
}

fn mnemonic_of(name: &[u8]) -> Option<Mnemonic>
    ensures { result ≡ mnemonic_of name.now }
{
    MNEMONICS
        .iter()
        .copied()
        .find(|mnemonic| is_named(name, *mnemonic))
}

/// What stands in front of an end.
fn without<'a>(end: &[u8], name: &'a [u8]) -> Option<&'a [u8]>
    ensures { MatchOption result (ends_in end.now name.now ≡ false) (λ front. (ends_in end.now name.now ≡ true) × (front.now ≡ without end.now name.now)) }
{
    if end.len() >= name.len() {
        return None;
    }
    let (front, rest) = name.split_at(name.len() - end.len());
    if rest == end { Some(front) } else { None }
}

fn is_atomic(form: Form) -> bool
    ensures { result ≡ is_atomic form }
{
    form == Form::Reserve || form == Form::Atomic
}

fn if_atomic(aq: bool, rl: bool, mnemonic: Option<Mnemonic>) -> Option<Coded>
    ensures { result ≡ if_atomic aq rl mnemonic }
{
    let mnemonic = mnemonic?;
    if is_atomic(form_of(mnemonic)) {
        Some(Coded { mnemonic, aq, rl })
    } else {
        None
    }
}

/// An atomic operation with `.aq`, `.rl` or `.aqrl` behind its name.
fn ordered_of(name: &[u8]) -> Option<Coded>
    ensures { result ≡ ordered_of name.now }
{
    if let Some(front) = without(b".aqrl".as_slice(), name) {
        return if_atomic(true, true, mnemonic_of(front));
    }
    if let Some(front) = without(b".aq".as_slice(), name) {
        return if_atomic(true, false, mnemonic_of(front));
    }
    if let Some(front) = without(b".rl".as_slice(), name) {
        return if_atomic(false, true, mnemonic_of(front));
    }
    None
}

fn coded_of(name: &[u8]) -> Option<Coded>
    ensures { result ≡ coded_of name.now }
{
    match mnemonic_of(name) {
        Some(mnemonic) => Some(Coded {
            mnemonic,
            aq: false,
            rl: false,
        }),
        None => ordered_of(name),
    }
}

/// `mv rd, rs`.
fn move_of<'a>(left: Option<&'a [u8]>) -> Result<Action<'a>, Fault>
    ensures action { found_as result ≡ with_values move (values_of (TheKind.Register ∷ TheKind.Register ∷ []) (texts_left left.entry)) }
    ensures read { IfOk result IsRead }
{
    let Some((rd, left)) = next_register(left) else {
        return Err(Fault::WrongForm);
    };
    let Some((rs, left)) = next_register(left) else {
        return Err(Fault::WrongForm);
    };
    if !are_read(left) {
        return Err(Fault::WrongForm);
    }
    let coded = Coded {
        mnemonic: Mnemonic::Addi,
        aq: false,
        rl: false,
    };
    let third = Value::Num {
        n: Number {
            negative: false,
            magnitude: 0,
        },
    };
    let values = Values::Three {
        first: Value::Reg { n: rd },
        second: Value::Reg { n: rs },
        third,
    };
    Ok(Action::Makes { coded, values })
}

/// `j T`.
fn jump_of<'a>(left: Option<&'a [u8]>) -> Result<Action<'a>, Fault>
    ensures action { found_as result ≡ with_values jump_to (values_of (TheKind.Where ∷ []) (texts_left left.entry)) }
    ensures read { IfOk result IsRead }
{
    let Some((target, left)) = next_target(left) else {
        return Err(Fault::WrongForm);
    };
    if !are_read(left) {
        return Err(Fault::WrongForm);
    }
    let coded = Coded {
        mnemonic: Mnemonic::Jal,
        aq: false,
        rl: false,
    };
    let values = Values::Two {
        first: Value::Reg { n: 0 },
        second: Value::To { target },
    };
    Ok(Action::Makes { coded, values })
}

/// `li rd, n`.
fn number_loaded<'a>(left: Option<&'a [u8]>) -> Result<Action<'a>, Fault>
    ensures action { found_as result ≡ with_values load_number (values_of (TheKind.Register ∷ TheKind.Count ∷ []) (texts_left left.entry)) }
    ensures read { IfOk result IsRead }
{
    let Some((rd, left)) = next_register(left) else {
        return Err(Fault::WrongForm);
    };
    let Some((n, left)) = next_count(left) else {
        return Err(Fault::WrongForm);
    };
    if !are_read(left) {
        return Err(Fault::WrongForm);
    }
    Ok(Action::LoadsNumber { rd, n })
}

/// `la rd, label`.
fn address_loaded<'a>(left: Option<&'a [u8]>) -> Result<Action<'a>, Fault>
    ensures action { found_as result ≡ with_values load_address (values_of (TheKind.Register ∷ TheKind.Labelled ∷ []) (texts_left left.entry)) }
    ensures read { IfOk result IsRead }
{
    let Some((rd, left)) = next_register(left) else {
        return Err(Fault::WrongForm);
    };
    let Some((label, left)) = next_label(left) else {
        return Err(Fault::WrongForm);
    };
    if !are_read(left) {
        return Err(Fault::WrongForm);
    }
    Ok(Action::LoadsAddress { rd, label })
}

/// `.org N`.
fn place_moved<'a>(left: Option<&'a [u8]>) -> Result<Action<'a>, Fault>
    ensures action { found_as result ≡ with_values move_to (values_of (TheKind.Count ∷ []) (texts_left left.entry)) }
    ensures read { IfOk result IsRead }
{
    let Some((n, left)) = next_count(left) else {
        return Err(Fault::WrongForm);
    };
    if !are_read(left) {
        return Err(Fault::WrongForm);
    }
    Ok(Action::MovesTo { n })
}

/// How many numbers stand there, where all operands are numbers.
fn count_numbers(text: &[u8]) -> Option<u128>
    ensures value { result ≡ option_map length (all_numbers (texts_in text.now)) }
    ensures few { IfSome result (λ count. count ≤ 2 ^ 64) }
{
    let mut count = 0;
    let mut left = Some(text);
    while let Some(text) = left {
        let Some((_, behind)) = next_number(text) else {
            return None;
        };
        left = behind;
        count += 1;
    }
    Some(count)
}

/// Numbers of `width` bytes each.
fn numbers_in(width: u8, text: &[u8]) -> Result<Action<'_>, Fault>
    requires some { 0 < width }
    requires narrow { width ≤ 8 }
    ensures action { found_as result ≡ data_of width (numbers_of (texts_in text.now)) }
    ensures read { IfOk result IsRead }
{
    match count_numbers(text) {
        Some(count) => Ok(Action::Data { width, text, count }),
        None => Err(Fault::WrongForm),
    }
}

fn data_of<'a>(width: u8, texts: Option<&'a [u8]>) -> Result<Action<'a>, Fault>
    requires some { 0 < width }
    requires narrow { width ≤ 8 }
    ensures action { found_as result ≡ data_of width (numbers_of (texts_left texts.entry)) }
    ensures read { IfOk result IsRead }
{
    match texts {
        Some(text) => numbers_in(width, text),
        None => Err(Fault::WrongForm),
    }
}

/// An instruction of the table.
fn instruction_of<'a>(name: &[u8], left: Option<&'a [u8]>) -> Result<Action<'a>, Fault>
    ensures action { found_as result ≡ instruction_of (coded_of name.now) (texts_left left.entry) }
    ensures read { IfOk result IsRead }
{
    let Some(coded) = coded_of(name) else {
        return Err(Fault::NoName);
    };
    match values_of(form_of(coded.mnemonic), left) {
        Some(values) => Ok(Action::Makes { coded, values }),
        None => Err(Fault::WrongForm),
    }
}

/// A directive, or an instruction of the table.
fn directive_of<'a>(name: &[u8], left: Option<&'a [u8]>) -> Result<Action<'a>, Fault>
    ensures action { found_as result ≡ directive_of name.now (texts_left left.entry) }
    ensures read { IfOk result IsRead }
{
    if name == b".byte".as_slice() {
        data_of(1, left)
    } else if name == b".word".as_slice() {
        data_of(4, left)
    } else if name == b".dword".as_slice() {
        data_of(8, left)
    } else if name == b".org".as_slice() {
        place_moved(left)
    } else {
        instruction_of(name, left)
    }
}

fn action_of<'a>(name: &[u8], left: Option<&'a [u8]>) -> Result<Action<'a>, Fault>
    ensures action { found_as result ≡ action_of name.now (texts_left left.entry) }
    ensures read { IfOk result IsRead }
{
    if name.is_empty() {
        Ok(Action::Nothing)
    } else if name == b"mv".as_slice() {
        move_of(left)
    } else if name == b"j".as_slice() {
        jump_of(left)
    } else if name == b"li".as_slice() {
        number_loaded(left)
    } else if name == b"la".as_slice() {
        address_loaded(left)
    } else {
        directive_of(name, left)
    }
}

/// What a line says.
pub fn line_of(bytes: &[u8]) -> Line<'_>
    ensures line { line_as result ≡ line_of bytes.now }
    ensures read { IfOk result.action IsRead }
{
    let body = body_of(bytes);
    let (name, behind) = name_and_operands(behind_label(body));
    Line {
        label: label_of(body),
        action: action_of(name, operands_of(behind)),
    }
}
