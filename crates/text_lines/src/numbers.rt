// Decimal numbers.
ghost use Rattle.std.specs.Prelude.{◌≡◌, ◌<◌, ◌^◌, min};
ghost use Rattle.std.specs.List.{list_all};
ghost use Rattle.std.specs.Char.{is_ascii_digit};
ghost use Rattle.text_lines.specs.Number.{decimal_value, is_number, number_within};

/// The digits that a number may have.
const MOST_DIGITS: usize = 20;

fn are_digits(text: &[u8]) -> bool
    ensures { result ≡ list_all is_ascii_digit text.now }
{
    text.iter().all(|digit| digit.is_ascii_digit())
}

fn is_number(text: &[u8]) -> bool
    ensures { result ≡ is_number text.now }
{
    if text.is_empty() || text.len() > MOST_DIGITS {
        return false;
    }
    are_digits(text)
}

/// The number that digits spell, or `cap` where it is larger.
fn capped_value(digits: &[u8], cap: u128) -> u128
    requires { cap < 2 ^ 100 }
    ensures { result ≡ min (decimal_value digits.now) cap }
{
    let mut value = 0;
    for digit in digits {
        value = (value * 10 + u128::from(digit.saturating_sub(b'0'))).min(cap);
    }
    value
}

/// The number that a text is: 1 to 20 decimal digits, whose value is at most `most`.
pub fn read_number(text: &[u8], most: u64) -> Option<u64>
    ensures { result ≡ number_within text.now most }
{
    if !is_number(text) {
        return None;
    }
    let most = u128::from(most);
    let value = capped_value(text, most + 1);
    if value <= most {
        Some(value as u64)
    } else {
        None
    }
}
