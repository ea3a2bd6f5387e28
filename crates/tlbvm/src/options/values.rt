// What one operand or option adds to what was read.
ghost use Rattle.std.specs.Prelude.{◌≡◌, ◌≤◌, IfSome};
ghost use Rattle.std.specs.Option.{option_map};
ghost use Rattle.tlbvm.specs.Lines.{shown};
ghost use Rattle.tlbvm.specs.Options.{nothing, number_between, with_operand, with_regs, with_value};

use crate::options::seen::Seen;
use arrayvec::ArrayVec;
use text_lines::read_number;

/// What is read before the first word.
pub(crate) fn nothing<'a>() -> Seen<'a>
    ensures { shown result ≡ nothing }
{
    Seen {
        operands: ArrayVec::new(),
        harts: None,
        pages: None,
        limit: None,
        regs: false,
    }
}

/// An operand more, where there is room.
pub(crate) fn with_operand<'a>(mut seen: Seen<'a>, word: &'a str) -> Option<Seen<'a>>
    ensures { option_map shown result ≡ with_operand word.now (shown seen.entry) }
{
    seen.operands.try_push(word).ok()?;
    Some(seen)
}

pub(crate) fn with_regs(mut seen: Seen<'_>) -> Option<Seen<'_>>
    ensures { option_map shown result ≡ with_regs (shown seen.entry) }
{
    if seen.regs {
        return None;
    }
    seen.regs = true;
    Some(seen)
}

fn number_between(text: &str, least: u64, most: u64) -> Option<u64>
    ensures value { result ≡ number_between least most text.now }
    ensures within { IfSome result (λ n. (least ≤ n) × (n ≤ most)) }
{
    let number = read_number(text.as_bytes(), most)?;
    if least <= number { Some(number) } else { None }
}

/// An option that takes a number, by its name.
#[tactic(auto, unfolding(crate::specs::Options::with_value))]
pub(crate) fn with_value<'a>(mut seen: Seen<'a>, name: &str, value: &str) -> Option<Seen<'a>>
    ensures { option_map shown result ≡ with_value name.now value.now (shown seen.entry) }
{
    match name {
        "--harts" if seen.harts.is_none() => {
            seen.harts = Some(number_between(value, 1, 8)? as u8);
            Some(seen)
        }
        "--pages" if seen.pages.is_none() => {
            seen.pages = Some(number_between(value, 256, 4096)? as u32);
            Some(seen)
        }
        "--limit" if seen.limit.is_none() => {
            seen.limit = Some(number_between(value, 1, 1_000_000_000_000)?);
            Some(seen)
        }
        _ => None,
    }
}
