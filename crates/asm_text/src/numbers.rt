// Numbers of a text.
ghost use Rattle.std.specs.Prelude.{◌≡◌, ◌^◌, ◌<◌, min};
ghost use Rattle.std.specs.List.{list_all};
ghost use Rattle.std.specs.Char.{is_ascii_digit};
ghost use Rattle.std.specs.Option.{option_map};
ghost use Rattle.text_lines.specs.Number.{decimal_value};
ghost use Rattle.asm_text.specs.Operand.{hex_digit_value, hex_value, is_hex_digit, magnitude_of, number_of};

/// A number by its sign and its magnitude; 2^64 stands for every magnitude from there on, which no form takes.
#[derive(Clone, Copy, Debug, PartialEq, Eq)]
pub struct Number {
    pub negative: bool,
    pub magnitude: u128,
}

/// What stands for magnitudes that are too large.
const CAP: u128 = 0x1_0000_0000_0000_0000;

fn is_hex_digit(byte: u8) -> bool
    ensures { result ≡ is_hex_digit byte }
{
    byte.is_ascii_digit() || (b'a' <= byte && byte <= b'f') || (b'A' <= byte && byte <= b'F')
}

fn hex_digit_value(byte: u8) -> u8
    ensures { result ≡ hex_digit_value byte }
{
    if b'a' <= byte && byte <= b'f' {
        byte - 87
    } else if b'A' <= byte && byte <= b'F' {
        byte - 55
    } else {
        byte.saturating_sub(b'0')
    }
}

fn are_decimal(digits: &[u8]) -> bool
    ensures { result ≡ list_all is_ascii_digit digits.now }
{
    digits.iter().all(|digit| digit.is_ascii_digit())
}

fn are_hex(digits: &[u8]) -> bool
    ensures { result ≡ list_all is_hex_digit digits.now }
{
    digits.iter().all(|digit| is_hex_digit(*digit))
}

/// The number that decimal digits spell, at most the cap.
fn decimal_value(digits: &[u8]) -> u128
    ensures { result ≡ min (decimal_value digits.now) (2 ^ 64) }
{
    let mut value = 0;
    for digit in digits {
        value = (value * 10 + u128::from(digit.saturating_sub(b'0'))).min(CAP);
    }
    value
}

/// The same in base 16.
fn hex_value(digits: &[u8]) -> u128
    ensures { result ≡ min (hex_value digits.now) (2 ^ 64) }
{
    let mut value = 0;
    for digit in digits {
        value = (value * 16 + u128::from(hex_digit_value(*digit))).min(CAP);
    }
    value
}

fn magnitude_of(text: &[u8]) -> Option<u128>
    ensures { result ≡ magnitude_of text.now }
{
    if let [b'0', b'x', digits @ ..] = text {
        if digits.is_empty() || !are_hex(digits) {
            return None;
        }
        return Some(hex_value(digits));
    }
    if text.is_empty() || !are_decimal(text) {
        return None;
    }
    Some(decimal_value(text))
}

/// The number that a text is: decimal digits, or `0x` and hexadecimal ones, with `-` in front if wanted.
pub fn number_of(text: &[u8]) -> Option<Number>
    ensures { result ≡ number_of text.now }
{
    if let [b'-', rest @ ..] = text {
        let magnitude = magnitude_of(rest)?;
        return Some(Number {
            negative: true,
            magnitude,
        });
    }
    let magnitude = magnitude_of(text)?;
    Some(Number {
        negative: false,
        magnitude,
    })
}
