// A command line: a command, its operands, and options at any place behind the command.
ghost use Rattle.std.specs.Prelude.{◌≡◌, true, false, None, Some, MatchOption, IfSome, map, string_bytes};
ghost use Rattle.std.specs.Option.{option_map};
ghost use Rattle.tlbvm.specs.Lines.{asked_as, line_as, shown, IsInLimits, IsLineInLimits};
ghost use Rattle.tlbvm.specs.Options.{after_operands, after_words, asked_of, asm_from, dis_from, gen_from, has_no_option, has_value, is_dashed, is_operand, line_of, name_in, plain_from, value_in};

mod seen;
mod values;

use seen::Seen;
use text_lines::read_number;
use values::{nothing, with_operand, with_regs, with_value};

/// The machine that a line asks for: harts, pages of 4 KiB, the limit of instructions of each hart; and whether its
/// registers are to be reported.
#[derive(Clone, Copy, Debug, PartialEq, Eq)]
pub struct Asked {
    pub harts: u8,
    pub pages: u32,
    pub limit: u64,
    pub regs: bool,
}

/// What a line says, by its command. The operands are names of files.
#[derive(Clone, Copy)]
pub enum Line<'a> {
    Plain {
        elf: &'a str,
        order: &'a str,
        asked: Asked,
    },
    Dis {
        elf: &'a str,
    },
    Asm {
        text: &'a str,
    },
    Gen {
        number: u32,
    },
}

fn is_dashed(word: &str) -> bool
    ensures { result ≡ is_dashed word.now }
{
    match word.as_bytes() {
        [first, ..] => *first == b'-',
        [] => false,
    }
}

fn is_operand(word: &str) -> bool
    ensures { result ≡ is_operand word.now }
{
    !is_dashed(word) || word == "-"
}

/// The name and the value of an option that has its value behind `=`.
fn name_and_value(word: &str) -> Option<(&str, &str)>
    ensures { MatchOption result (has_value word.now ≡ false)
        (λ parts. (has_value word.now ≡ true) × (parts.0.now ≡ name_in word.now) × (parts.1.now ≡ value_in word.now)) }
{
    word.split_once('=')
}

/// The words behind `--`.
fn read_operands<'a>(mut seen: Seen<'a>, words: &'a [String]) -> Option<Seen<'a>>
    ensures { option_map shown result ≡ after_operands (map string_bytes words.now) (shown seen.entry) }
{
    for word in words {
        seen = with_operand(seen, word.as_str())?;
    }
    Some(seen)
}

/// The words behind the command.
fn read_words<'a>(mut seen: Seen<'a>, words: &'a [String]) -> Option<Seen<'a>>
    ensures { option_map shown result ≡ after_words (map string_bytes words.now) None (shown seen.entry) }
{
    let mut rest = words;
    while let [word, behind @ ..] = rest {
        let word = word.as_str();
        rest = behind;
        if is_operand(word) {
            seen = with_operand(seen, word)?;
        } else if word == "--" {
            return read_operands(seen, rest);
        } else if word == "--regs" {
            seen = with_regs(seen)?;
        } else if let Some((name, value)) = name_and_value(word) {
            seen = with_value(seen, name, value)?;
        } else {
            let [value, behind @ ..] = rest else {
                return None;
            };
            let value = value.as_str();
            if is_dashed(value) {
                return None;
            }
            seen = with_value(seen, word, value)?;
            rest = behind;
        }
    }
    Some(seen)
}

/// An option that is not there has its default.
fn asked_of(seen: &Seen<'_>) -> Asked
    ensures says { asked_as result ≡ asked_of (shown seen.now) }
    ensures limits { IsInLimits (asked_as result) }
{
    Asked {
        harts: seen.harts.unwrap_or(1),
        pages: seen.pages.unwrap_or(1024),
        limit: seen.limit.unwrap_or(50_000_000),
        regs: seen.regs,
    }
}

/// `plain ELF ORDER`.
fn plain_from<'a>(seen: &Seen<'a>) -> Option<Line<'a>>
    ensures says { option_map line_as result ≡ plain_from (shown seen.now).operands (asked_of (shown seen.now)) }
    ensures limits { IfSome result (λ line. IsLineInLimits (line_as line)) }
{
    let [elf, order] = seen.operands.as_slice() else {
        return None;
    };
    Some(Line::Plain {
        elf: *elf,
        order: *order,
        asked: asked_of(seen),
    })
}

/// There is no option.
fn has_no_option(seen: &Seen<'_>) -> bool
    ensures { result ≡ has_no_option (shown seen.now) }
{
    seen.harts.is_none() && seen.pages.is_none() && seen.limit.is_none() && !seen.regs
}

/// `dis ELF`, which has no options.
fn dis_from<'a>(seen: &Seen<'a>) -> Option<Line<'a>>
    ensures says { option_map line_as result ≡ dis_from (shown seen.now).operands (has_no_option (shown seen.now)) }
    ensures limits { IfSome result (λ line. IsLineInLimits (line_as line)) }
{
    if !has_no_option(seen) {
        return None;
    }
    let [elf] = seen.operands.as_slice() else {
        return None;
    };
    Some(Line::Dis { elf: *elf })
}

/// `asm TEXT`, which has no options.
fn asm_from<'a>(seen: &Seen<'a>) -> Option<Line<'a>>
    ensures says { option_map line_as result ≡ asm_from (shown seen.now).operands (has_no_option (shown seen.now)) }
    ensures limits { IfSome result (λ line. IsLineInLimits (line_as line)) }
{
    match seen.operands.as_slice() {
        [text] if has_no_option(seen) => Some(Line::Asm { text: *text }),
        _ => None,
    }
}

/// `gen N`, which has no options.
fn gen_from<'a>(seen: &Seen<'a>) -> Option<Line<'a>>
    ensures says { option_map line_as result ≡ gen_from (shown seen.now).operands (has_no_option (shown seen.now)) }
    ensures limits { IfSome result (λ line. IsLineInLimits (line_as line)) }
{
    match seen.operands.as_slice() {
        [number] if has_no_option(seen) => {
            let number = read_number(number.as_bytes(), 4_294_967_295)? as u32;
            Some(Line::Gen { number })
        }
        _ => None,
    }
}

/// The words of a line, read: the command, its operands, and options at any place behind the command; `None` where they
/// are no line. Behind `--` each word is an operand.
pub fn read_line(words: &[String]) -> Option<Line<'_>>
    ensures says { option_map line_as result ≡ line_of (map string_bytes words.now) }
    ensures limits { IfSome result (λ line. IsLineInLimits (line_as line)) }
{
    let [command, words @ ..] = words else {
        return None;
    };
    let seen = read_words(nothing(), words)?;
    match command.as_str() {
        "plain" => plain_from(&seen),
        "dis" => dis_from(&seen),
        "asm" => asm_from(&seen),
        "gen" => gen_from(&seen),
        _ => None,
    }
}
