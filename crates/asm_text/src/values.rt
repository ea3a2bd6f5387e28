// Operands of a text, by the kind that a form asks for.
ghost use Rattle.std.specs.Prelude.{◌≡◌, ◌<◌, ◌∷◌, [], IsTrue, List, IfSome, MatchOption, Some, None, bytes_eq, codes, drop, if◌then◌else◌, length};
ghost use Rattle.asm_text.specs.Text.{begins_with, operands_of};
ghost use Rattle.std.specs.Option.{option_map};
ghost use Rattle.std.specs.List.{before_first, position};
ghost use Rattle.asm_text.specs.declared.values.Kind.{Kind as TheKind};
ghost use Rattle.asm_text.specs.Operand.{base_of, before_close, from_close, is_close, is_open, register_of, target_of, value_of, values_of, with_value};
ghost use Rattle.asm_text.specs.Values.{target_as, texts_left, value_as, IsValueRead};

use crate::lines::{is_label, next_piece, operand_in};
use crate::numbers::{Number, number_of};
use crate::registers::{csr_number_of, register_of};
use text_lines::next_word;

/// A label, or an absolute address.
#[derive(Clone, Copy)]
pub enum Target<'a> {
    Label { name: &'a [u8] },
    Address { number: Number },
}

/// What a form asks an operand to be.
#[derive(Clone, Copy, Debug, PartialEq, Eq)]
pub enum Kind {
    /// A register.
    Register,
    /// `n`.
    Count,
    /// `n(rs1)`.
    Based,
    /// `(rs1)`.
    Base,
    /// `C`.
    Csr,
    /// `T`.
    Where,
    /// A label alone.
    Labelled,
}

/// What an operand says.
#[derive(Clone, Copy)]
pub enum Value<'a> {
    Reg { n: u8 },
    Num { n: Number },
    Off { n: Number, rs1: u8 },
    To { target: Target<'a> },
}

/// The operands of a form.
#[derive(Clone, Copy)]
pub enum Values<'a> {
    Nothing,
    One {
        first: Value<'a>,
    },
    Two {
        first: Value<'a>,
        second: Value<'a>,
    },
    Three {
        first: Value<'a>,
        second: Value<'a>,
        third: Value<'a>,
    },
}

fn close_at(text: &[u8]) -> Option<usize>
    ensures { result ≡ position is_close text.now }
{
    text.iter().position(|byte| *byte == b')')
}

/// What stands in front of the first `)`, and from there on.
fn at_close(text: &[u8]) -> (&[u8], &[u8])
    ensures front { result.0.now ≡ before_close text.now }
    ensures rest { result.1.now ≡ from_close text.now }
{
    let place = match close_at(text) {
        Some(place) => place,
        None => text.len(),
    };
    text.split_at(place)
}

fn begins_with_open(text: &[u8]) -> bool
    ensures value { result ≡ begins_with is_open text.now }
    ensures some { IsTrue result → 0 < length text.now }
{
    match text {
        [first, ..] => *first == b'(',
        [] => false,
    }
}

/// The register of a text that `)` ends.
fn closed_register(text: &[u8]) -> Option<u8>
    ensures value { result ≡ (if bytes_eq (from_close text.now) (codes ")") then register_of (before_close text.now) else None) }
    ensures within { IfSome result (λ n. n < 32) }
{
    let (name, end) = at_close(text);
    if end == b")".as_slice() {
        register_of(name)
    } else {
        None
    }
}

/// The register of `(rs1)`.
fn base_of(text: &[u8]) -> Option<u8>
    ensures value { result ≡ base_of text.now }
    ensures within { IfSome result (λ n. n < 32) }
{
    if begins_with_open(text) {
        closed_register(&text[1..])
    } else {
        None
    }
}

pub(crate) fn target_of(text: &[u8]) -> Option<Target<'_>>
    ensures { option_map target_as result ≡ target_of text.now }
{
    if is_label(text) {
        return Some(Target::Label { name: text });
    }
    let number = number_of(text)?;
    Some(Target::Address { number })
}

fn register_value(text: &[u8]) -> Option<Value<'_>>
    ensures value { option_map value_as result ≡ value_of TheKind.Register text.now }
    ensures read { IfSome result IsValueRead }
{
    let n = register_of(text)?;
    Some(Value::Reg { n })
}

fn base_value(text: &[u8]) -> Option<Value<'_>>
    ensures value { option_map value_as result ≡ value_of TheKind.Base text.now }
    ensures read { IfSome result IsValueRead }
{
    let n = base_of(text)?;
    Some(Value::Reg { n })
}

fn count_value(text: &[u8]) -> Option<Value<'_>>
    ensures value { option_map value_as result ≡ value_of TheKind.Count text.now }
    ensures read { IfSome result IsValueRead }
{
    let n = number_of(text)?;
    Some(Value::Num { n })
}

fn csr_value(text: &[u8]) -> Option<Value<'_>>
    ensures value { option_map value_as result ≡ value_of TheKind.Csr text.now }
    ensures read { IfSome result IsValueRead }
{
    let n = csr_number_of(text)?;
    Some(Value::Num { n })
}

fn target_value(text: &[u8]) -> Option<Value<'_>>
    ensures value { option_map value_as result ≡ value_of TheKind.Where text.now }
    ensures read { IfSome result IsValueRead }
{
    let target = target_of(text)?;
    Some(Value::To { target })
}

fn label_value(text: &[u8]) -> Option<Value<'_>>
    ensures value { option_map value_as result ≡ value_of TheKind.Labelled text.now }
    ensures read { IfSome result IsValueRead }
{
    if is_label(text) {
        let target = Target::Label { name: text };
        Some(Value::To { target })
    } else {
        None
    }
}

/// What stands in front of the first `(`, and from there on.
fn at_open(text: &[u8]) -> (&[u8], &[u8])
    ensures front { result.0.now ≡ before_first is_open text.now }
    ensures rest { result.1.now ≡ drop (length (before_first is_open text.now)) text.now }
{
    let place = match open_at(text) {
        Some(place) => place,
        None => text.len(),
    };
    text.split_at(place)
}

fn open_at(text: &[u8]) -> Option<usize>
    ensures { result ≡ position is_open text.now }
{
    text.iter().position(|byte| *byte == b'(')
}

fn based_value(text: &[u8]) -> Option<Value<'_>>
    ensures value { option_map value_as result ≡ value_of TheKind.Based text.now }
    ensures read { IfSome result IsValueRead }
{
    let (front, rest) = at_open(text);
    let n = number_of(front)?;
    let rs1 = base_of(rest)?;
    Some(Value::Off { n, rs1 })
}

/// The operand of this kind that a text is.
pub fn value_of(kind: Kind, text: &[u8]) -> Option<Value<'_>>
    ensures value { option_map value_as result ≡ value_of kind text.now }
    ensures read { IfSome result IsValueRead }
{
    match kind {
        Kind::Register => register_value(text),
        Kind::Count => count_value(text),
        Kind::Based => based_value(text),
        Kind::Base => base_value(text),
        Kind::Csr => csr_value(text),
        Kind::Where => target_value(text),
        Kind::Labelled => label_value(text),
    }
}
