// Numbers of some of a word's bytes: reading and replacing them.
ghost use Rattle.std.specs.Prelude.{◌≡◌, ◌≤◌, ◌<◌, ◌+◌, ◌-◌, ◌*◌, ◌/◌, ◌%◌, ◌^◌, IsTrue};
ghost use Rattle.rv64_exec.specs.Widths.{is_width};
ghost use Rattle.machine_model.specs.Memory.{number_in, replaced};
ghost use Rattle.machine_model.specs.Perform.{extended};

/// `word` with the byte at `offset` replaced by the low byte of `value`.
#[inline]
fn replace_byte(word: u64, offset: u64, value: u64) -> u64
    requires { offset + 1 ≤ 8 }
    ensures { result ≡ replaced word offset 1 value }
{
    let byte = value % 0x100;
    match offset {
        0 => byte + 0x100 * (word / 0x100),
        1 => word % 0x100 + 0x100 * byte + 0x1_0000 * (word / 0x1_0000),
        2 => word % 0x1_0000 + 0x1_0000 * byte + 0x100_0000 * (word / 0x100_0000),
        3 => word % 0x100_0000 + 0x100_0000 * byte + 0x1_0000_0000 * (word / 0x1_0000_0000),
        4 => word % 0x1_0000_0000
            + 0x1_0000_0000 * byte
            + 0x100_0000_0000 * (word / 0x100_0000_0000),
        5 => word % 0x100_0000_0000
            + 0x100_0000_0000 * byte
            + 0x1_0000_0000_0000 * (word / 0x1_0000_0000_0000),
        6 => word % 0x1_0000_0000_0000
            + 0x1_0000_0000_0000 * byte
            + 0x100_0000_0000_0000 * (word / 0x100_0000_0000_0000),
        _ => word % 0x100_0000_0000_0000 + 0x100_0000_0000_0000 * byte,
    }
}

/// `word` with the two bytes from `offset` on replaced by those of `value`.
#[inline]
fn replace_two(word: u64, offset: u64, value: u64) -> u64
    requires { offset + 2 ≤ 8 }
    ensures { result ≡ replaced word offset 2 value }
{
    let two = value % 0x1_0000;
    match offset {
        0 => two + 0x1_0000 * (word / 0x1_0000),
        1 => word % 0x100 + 0x100 * two + 0x100_0000 * (word / 0x100_0000),
        2 => word % 0x1_0000 + 0x1_0000 * two + 0x1_0000_0000 * (word / 0x1_0000_0000),
        3 => word % 0x100_0000 + 0x100_0000 * two + 0x100_0000_0000 * (word / 0x100_0000_0000),
        4 => word % 0x1_0000_0000
            + 0x1_0000_0000 * two
            + 0x1_0000_0000_0000 * (word / 0x1_0000_0000_0000),
        5 => word % 0x100_0000_0000
            + 0x100_0000_0000 * two
            + 0x100_0000_0000_0000 * (word / 0x100_0000_0000_0000),
        _ => word % 0x1_0000_0000_0000 + 0x1_0000_0000_0000 * two,
    }
}

/// `word` with the four bytes from `offset` on replaced by those of `value`.
#[inline]
fn replace_four(word: u64, offset: u64, value: u64) -> u64
    requires { offset + 4 ≤ 8 }
    ensures { result ≡ replaced word offset 4 value }
{
    let four = value % 0x1_0000_0000;
    match offset {
        0 => four + 0x1_0000_0000 * (word / 0x1_0000_0000),
        1 => word % 0x100 + 0x100 * four + 0x100_0000_0000 * (word / 0x100_0000_0000),
        2 => word % 0x1_0000 + 0x1_0000 * four + 0x1_0000_0000_0000 * (word / 0x1_0000_0000_0000),
        3 => word % 0x100_0000
            + 0x100_0000 * four
            + 0x100_0000_0000_0000 * (word / 0x100_0000_0000_0000),
        _ => word % 0x1_0000_0000 + 0x1_0000_0000 * four,
    }
}

/// `word` with the bytes of an access within it replaced by those of `value`.
#[inline]
pub fn replace_in(word: u64, offset: u64, width: u8, value: u64) -> u64
    requires width { IsTrue (is_width width) }
    requires within { offset + width ≤ 8 }
    ensures { result ≡ replaced word offset width value }
{
    match width {
        1 => replace_byte(word, offset, value),
        2 => replace_two(word, offset, value),
        4 => replace_four(word, offset, value),
        _ => value,
    }
}

/// `word` without its bytes below `offset`.
#[inline]
fn from(word: u64, offset: u64) -> u64
    requires { offset < 8 }
    ensures { result ≡ word / 256 ^ offset }
{
    word >> (8 * offset)
}

/// The number in the bytes of an access within `word`.
#[inline]
pub fn number_in(word: u64, offset: u64, width: u8) -> u64
    requires width { IsTrue (is_width width) }
    requires within { offset + width ≤ 8 }
    ensures number { result ≡ number_in word offset width }
    ensures small { result < 256 ^ width }
{
    let number = from(word, offset);
    match width {
        1 => number % 0x100,
        2 => number % 0x1_0000,
        4 => number % 0x1_0000_0000,
        _ => number,
    }
}

/// A number of so many bytes as a register gets it.
#[inline]
pub fn extended(signed: bool, width: u8, number: u64) -> u64
    requires width { IsTrue (is_width width) }
    requires small { number < 256 ^ width }
    ensures { result ≡ extended signed width number }
{
    let (half, ones) = match width {
        1 => (0x80, 0xffff_ffff_ffff_ff00),
        2 => (0x8000, 0xffff_ffff_ffff_0000),
        4 => (0x8000_0000, 0xffff_ffff_0000_0000),
        _ => return number,
    };
    if signed && number >= half {
        ones + number
    } else {
        number
    }
}

/// The four bytes from `offset` in `first` on, which go on in `second`.
fn four_over(first: u64, second: u64, offset: u64) -> u64
    requires begins { offset < 8 }
    requires ends { 8 < offset + 4 }
    ensures { result ≡ number_in (first + 2 ^ 64 * second) offset 4 }
{
    match offset {
        5 => first / 0x100_0000_0000 + 0x100_0000 * (second % 0x100),
        6 => first / 0x1_0000_0000_0000 + 0x1_0000 * (second % 0x1_0000),
        _ => first / 0x100_0000_0000_0000 + 0x100 * (second % 0x100_0000),
    }
}

/// The eight bytes from `offset` in `first` on, which go on in `second`.
fn eight_over(first: u64, second: u64, offset: u64) -> u64
    requires begins { offset < 8 }
    requires ends { 8 < offset + 8 }
    ensures { result ≡ number_in (first + 2 ^ 64 * second) offset 8 }
{
    match offset {
        1 => first / 0x100 + 0x100_0000_0000_0000 * (second % 0x100),
        2 => first / 0x1_0000 + 0x1_0000_0000_0000 * (second % 0x1_0000),
        3 => first / 0x100_0000 + 0x100_0000_0000 * (second % 0x100_0000),
        4 => first / 0x1_0000_0000 + 0x1_0000_0000 * (second % 0x1_0000_0000),
        5 => first / 0x100_0000_0000 + 0x100_0000 * (second % 0x100_0000_0000),
        6 => first / 0x1_0000_0000_0000 + 0x1_0000 * (second % 0x1_0000_0000_0000),
        _ => first / 0x100_0000_0000_0000 + 0x100 * (second % 0x100_0000_0000_0000),
    }
}

/// The number in the bytes of an access that begins in `first` and goes on in `second`.
pub fn number_over(first: u64, second: u64, offset: u64, width: u8) -> u64
    requires width { IsTrue (is_width width) }
    requires begins { offset < 8 }
    requires ends { 8 < offset + width }
    ensures number { result ≡ number_in (first + 2 ^ 64 * second) offset width }
    ensures small { result < 256 ^ width }
{
    match width {
        2 => first / 0x100_0000_0000_0000 + 0x100 * (second % 0x100),
        4 => four_over(first, second, offset),
        _ => eight_over(first, second, offset),
    }
}

/// Both words with four bytes over their border replaced by those of `value`.
fn replace_four_over(first: u64, second: u64, offset: u64, value: u64) -> (u64, u64)
    requires begins { offset < 8 }
    requires ends { 8 < offset + 4 }
    ensures low { result.0 ≡ replaced (first + 2 ^ 64 * second) offset 4 value % 2 ^ 64 }
    ensures high { result.1 ≡ replaced (first + 2 ^ 64 * second) offset 4 value / 2 ^ 64 }
{
    match offset {
        5 => (
            first % 0x100_0000_0000 + 0x100_0000_0000 * (value % 0x100_0000),
            value % 0x1_0000_0000 / 0x100_0000 + 0x100 * (second / 0x100),
        ),
        6 => (
            first % 0x1_0000_0000_0000 + 0x1_0000_0000_0000 * (value % 0x1_0000),
            value % 0x1_0000_0000 / 0x1_0000 + 0x1_0000 * (second / 0x1_0000),
        ),
        _ => (
            first % 0x100_0000_0000_0000 + 0x100_0000_0000_0000 * (value % 0x100),
            value % 0x1_0000_0000 / 0x100 + 0x100_0000 * (second / 0x100_0000),
        ),
    }
}

/// Both words with eight bytes over their border replaced by those of `value`.
fn replace_eight_over(first: u64, second: u64, offset: u64, value: u64) -> (u64, u64)
    requires begins { offset < 8 }
    requires ends { 8 < offset + 8 }
    ensures low { result.0 ≡ replaced (first + 2 ^ 64 * second) offset 8 value % 2 ^ 64 }
    ensures high { result.1 ≡ replaced (first + 2 ^ 64 * second) offset 8 value / 2 ^ 64 }
{
    match offset {
        1 => (
            first % 0x100 + 0x100 * (value % 0x100_0000_0000_0000),
            value / 0x100_0000_0000_0000 + 0x100 * (second / 0x100),
        ),
        2 => (
            first % 0x1_0000 + 0x1_0000 * (value % 0x1_0000_0000_0000),
            value / 0x1_0000_0000_0000 + 0x1_0000 * (second / 0x1_0000),
        ),
        3 => (
            first % 0x100_0000 + 0x100_0000 * (value % 0x100_0000_0000),
            value / 0x100_0000_0000 + 0x100_0000 * (second / 0x100_0000),
        ),
        4 => (
            first % 0x1_0000_0000 + 0x1_0000_0000 * (value % 0x1_0000_0000),
            value / 0x1_0000_0000 + 0x1_0000_0000 * (second / 0x1_0000_0000),
        ),
        5 => (
            first % 0x100_0000_0000 + 0x100_0000_0000 * (value % 0x100_0000),
            value / 0x100_0000 + 0x100_0000_0000 * (second / 0x100_0000_0000),
        ),
        6 => (
            first % 0x1_0000_0000_0000 + 0x1_0000_0000_0000 * (value % 0x1_0000),
            value / 0x1_0000 + 0x1_0000_0000_0000 * (second / 0x1_0000_0000_0000),
        ),
        _ => (
            first % 0x100_0000_0000_0000 + 0x100_0000_0000_0000 * (value % 0x100),
            value / 0x100 + 0x100_0000_0000_0000 * (second / 0x100_0000_0000_0000),
        ),
    }
}

/// Both words with the bytes of an access over their border replaced by those of `value`.
pub fn replace_over(first: u64, second: u64, offset: u64, width: u8, value: u64) -> (u64, u64)
    requires width { IsTrue (is_width width) }
    requires begins { offset < 8 }
    requires ends { 8 < offset + width }
    ensures low { result.0 ≡ replaced (first + 2 ^ 64 * second) offset width value % 2 ^ 64 }
    ensures high { result.1 ≡ replaced (first + 2 ^ 64 * second) offset width value / 2 ^ 64 }
{
    match width {
        2 => (
            first % 0x100_0000_0000_0000 + 0x100_0000_0000_0000 * (value % 0x100),
            value % 0x1_0000 / 0x100 + 0x100 * (second / 0x100),
        ),
        4 => replace_four_over(first, second, offset, value),
        _ => replace_eight_over(first, second, offset, value),
    }
}
