// The operands of a line, one by one.
ghost use Rattle.std.specs.Prelude.{◌≡◌, ◌+◌, ◌<◌, ◌∷◌, [], List, MatchOption, Some, None, IfSome, Option, length, if◌then◌else◌};
ghost use Rattle.std.specs.Option.{option_map};
ghost use Rattle.asm_text.specs.declared.numbers.Number.{Number as TheNumber};
ghost use Rattle.asm_text.specs.declared.values.Kind.{Kind as TheKind};
ghost use Rattle.asm_text.specs.Text.{operands_of};
ghost use Rattle.asm_text.specs.Operand.{all_numbers, Label, Num, Reg, To, values_of, with_number, with_value};
ghost use Rattle.asm_text.specs.Action.{kinds_of};
ghost use Rattle.asm_text.specs.Values.{target_as, texts_in, texts_left, value_as, values_as, AreRead, IsValueRead};

use crate::lines::{is_label, next_piece, operand_in};
use crate::mnemonic::Form;
use crate::numbers::{Number, number_of};
use crate::registers::register_of;
use crate::values::{Kind, Target, Value, Values, target_of, value_of};
use text_lines::next_word;

/// The operands of a text, to be read one by one.
pub(crate) fn operands_of(text: &[u8]) -> Option<&[u8]>
    ensures { texts_left result ≡ operands_of text.now }
{
    match next_word(text) {
        Some(_) => Some(text),
        None => None,
    }
}

/// The first operand, and those behind it.
pub fn next_operand<'a>(left: Option<&'a [u8]>) -> Option<(&'a [u8], Option<&'a [u8]>)>
    ensures { MatchOption result (texts_left left.entry ≡ []) (λ p. texts_left left.entry ≡ p.0.now ∷ texts_left p.1) }
{
    let text = left?;
    let (piece, behind) = next_piece(text);
    Some((operand_in(piece), behind))
}

/// The first operand, as one of this kind, and those behind it.
fn next_value<'a>(kind: Kind, left: Option<&'a [u8]>) -> Option<(Value<'a>, Option<&'a [u8]>)>
    ensures value { MatchOption result ((kinds : List TheKind) → values_of (kind ∷ kinds) (texts_left left.entry) ≡ None)
        (λ p. (kinds : List TheKind) → values_of (kind ∷ kinds) (texts_left left.entry) ≡ with_value (Some (value_as p.0)) (values_of kinds (texts_left p.1))) }
    ensures read { IfSome result (λ p. IsValueRead p.0) }
{
    let (text, behind) = next_operand(left)?;
    let value = value_of(kind, text)?;
    Some((value, behind))
}

/// No operand is left.
#[tactic(auto, using(crate::proofs::Read::one_left))]
pub(crate) fn are_read(left: Option<&[u8]>) -> bool
    ensures { values_of [] (texts_left left.entry) ≡ (if result then Some [] else None) }
{
    match left {
        Some(_) => false,
        None => true,
    }
}

fn no_values<'a>(left: Option<&'a [u8]>) -> Option<Values<'a>>
    ensures values { option_map values_as result ≡ values_of [] (texts_left left.entry) }
    ensures read { IfSome result AreRead }
{
    if are_read(left) {
        Some(Values::Nothing)
    } else {
        None
    }
}

fn two_values<'a>(kind: Kind, other: Kind, left: Option<&'a [u8]>) -> Option<Values<'a>>
    ensures values { option_map values_as result ≡ values_of (kind ∷ other ∷ []) (texts_left left.entry) }
    ensures read { IfSome result AreRead }
{
    let Some((first, left)) = next_value(kind, left) else {
        return None;
    };
    let Some((second, left)) = next_value(other, left) else {
        return None;
    };
    if are_read(left) {
        Some(Values::Two { first, second })
    } else {
        None
    }
}

fn three_values<'a>(
    kind: Kind,
    other: Kind,
    last: Kind,
    left: Option<&'a [u8]>,
) -> Option<Values<'a>>
    ensures values { option_map values_as result ≡ values_of (kind ∷ other ∷ last ∷ []) (texts_left left.entry) }
    ensures read { IfSome result AreRead }
{
    let Some((first, left)) = next_value(kind, left) else {
        return None;
    };
    let Some((second, left)) = next_value(other, left) else {
        return None;
    };
    let Some((third, left)) = next_value(last, left) else {
        return None;
    };
    if are_read(left) {
        Some(Values::Three {
            first,
            second,
            third,
        })
    } else {
        None
    }
}

/// The operands of a form.
pub(crate) fn values_of<'a>(form: Form, left: Option<&'a [u8]>) -> Option<Values<'a>>
    ensures values { option_map values_as result ≡ values_of (kinds_of form) (texts_left left.entry) }
    ensures read { IfSome result AreRead }
{
    match form {
        Form::Alone => no_values(left),
        Form::Upper => two_values(Kind::Register, Kind::Count, left),
        Form::Jump => two_values(Kind::Register, Kind::Where, left),
        Form::Branch => three_values(Kind::Register, Kind::Register, Kind::Where, left),
        Form::Load | Form::Store => two_values(Kind::Register, Kind::Based, left),
        Form::Immediate | Form::Shift => {
            three_values(Kind::Register, Kind::Register, Kind::Count, left)
        }
        Form::Registers => three_values(Kind::Register, Kind::Register, Kind::Register, left),
        Form::Pages => two_values(Kind::Register, Kind::Register, left),
        Form::Csr => three_values(Kind::Register, Kind::Csr, Kind::Register, left),
        Form::CsrValue => three_values(Kind::Register, Kind::Csr, Kind::Count, left),
        Form::Reserve => two_values(Kind::Register, Kind::Base, left),
        Form::Atomic => three_values(Kind::Register, Kind::Register, Kind::Base, left),
    }
}

/// The first operand, as a register, and those behind it.
pub(crate) fn next_register<'a>(left: Option<&'a [u8]>) -> Option<(u8, Option<&'a [u8]>)>
    ensures value { MatchOption result ((kinds : List TheKind) → values_of (TheKind.Register ∷ kinds) (texts_left left.entry) ≡ None)
        (λ p. (kinds : List TheKind) → values_of (TheKind.Register ∷ kinds) (texts_left left.entry) ≡ with_value (Some (Reg p.0)) (values_of kinds (texts_left p.1))) }
    ensures within { IfSome result (λ p. p.0 < 32) }
{
    let (text, behind) = next_operand(left)?;
    let n = register_of(text)?;
    Some((n, behind))
}

/// The first operand, as a count, and those behind it.
pub(crate) fn next_count<'a>(left: Option<&'a [u8]>) -> Option<(Number, Option<&'a [u8]>)>
    ensures { MatchOption result ((kinds : List TheKind) → values_of (TheKind.Count ∷ kinds) (texts_left left.entry) ≡ None)
        (λ p. (kinds : List TheKind) → values_of (TheKind.Count ∷ kinds) (texts_left left.entry) ≡ with_value (Some (Num p.0)) (values_of kinds (texts_left p.1))) }
{
    let (text, behind) = next_operand(left)?;
    let n = number_of(text)?;
    Some((n, behind))
}

/// The first operand, as a target, and those behind it.
pub(crate) fn next_target<'a>(left: Option<&'a [u8]>) -> Option<(Target<'a>, Option<&'a [u8]>)>
    ensures { MatchOption result ((kinds : List TheKind) → values_of (TheKind.Where ∷ kinds) (texts_left left.entry) ≡ None)
        (λ p. (kinds : List TheKind) → values_of (TheKind.Where ∷ kinds) (texts_left left.entry) ≡ with_value (Some (To (target_as p.0))) (values_of kinds (texts_left p.1))) }
{
    let (text, behind) = next_operand(left)?;
    let target = target_of(text)?;
    Some((target, behind))
}

/// The first operand, as a label, and those behind it.
pub(crate) fn next_label<'a>(left: Option<&'a [u8]>) -> Option<(&'a [u8], Option<&'a [u8]>)>
    ensures { MatchOption result ((kinds : List TheKind) → values_of (TheKind.Labelled ∷ kinds) (texts_left left.entry) ≡ None)
        (λ p. (kinds : List TheKind) → values_of (TheKind.Labelled ∷ kinds) (texts_left left.entry) ≡ with_value (Some (To (Label p.0.now))) (values_of kinds (texts_left p.1))) }
{
    let (text, behind) = next_operand(left)?;
    if is_label(text) {
        Some((text, behind))
    } else {
        None
    }
}

/// The first operand of a text, as a number, and those behind it.
pub fn next_number(text: &[u8]) -> Option<(Number, Option<&[u8]>)>
    ensures first { MatchOption result (all_numbers (texts_in text.now) ≡ None) (λ p. all_numbers (texts_in text.now) ≡ with_number (Some p.0) (all_numbers (texts_left p.1))) }
    ensures fewer { IfSome result (λ p. length (texts_in text.now) ≡ length (texts_left p.1) + 1) }
{
    let (piece, behind) = next_piece(text);
    let number = number_of(operand_in(piece))?;
    Some((number, behind))
}
