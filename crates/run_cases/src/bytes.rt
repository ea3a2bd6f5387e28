// Bytes as a case's text says them, and as a difference shows them.
use anyhow::{Context, Result, bail};
use std::alloc::{AllocError, Global};

/// How much of a text a difference shows.
const SHOWN: usize = 120;

/// Where in an escape a text's next byte stands.
#[derive(Clone, Copy)]
enum Place {
    Outside,
    BehindBackslash,
    High,
    Low(u8),
}

fn digit(byte: u8) -> Result<u8> {
    match byte {
        b'0'..=b'9' => Ok(byte - b'0'),
        b'a'..=b'f' => Ok(byte - b'a' + 10),
        _ => bail!("no hexadecimal digit"),
    }
}

fn named(byte: u8) -> Result<u8> {
    match byte {
        b'n' => Ok(b'\n'),
        b'r' => Ok(b'\r'),
        b't' => Ok(b'\t'),
        b'\\' => Ok(b'\\'),
        _ => bail!("no escape"),
    }
}

/// What a text between quotes stands for.
fn unescaped(alloc: Global, text: &str) -> Result<Vec<u8>> {
    let mut bytes = Vec::new(alloc);
    let mut place = Place::Outside;
    for byte in text.bytes() {
        place = match place {
            Place::Outside if byte == b'\\' => Place::BehindBackslash,
            Place::Outside => {
                bytes.push(byte)?;
                Place::Outside
            }
            Place::BehindBackslash if byte == b'x' => Place::High,
            Place::BehindBackslash => {
                bytes.push(named(byte)?)?;
                Place::Outside
            }
            Place::High => Place::Low(digit(byte)?),
            Place::Low(high) => {
                bytes.push(high.wrapping_mul(16) | digit(byte)?)?;
                Place::Outside
            }
        };
    }
    Ok(bytes)
}

/// Appends the bytes of two hexadecimal digits each.
pub(crate) fn push_hex(bytes: &mut Vec<u8>, word: &str) -> Result<()> {
    let mut high = None;
    for byte in word.bytes() {
        high = match high {
            None => Some(digit(byte)?),
            Some(first) => {
                let first: u8 = first;
                bytes.push(first.wrapping_mul(16) | digit(byte)?)?;
                None
            }
        };
    }
    if high.is_some() {
        bail!("half a byte");
    }
    Ok(())
}

/// The first word of a text, and what stands behind it.
pub(crate) fn first_word(text: &str) -> (&str, &str) {
    match text.split_once(' ') {
        Some((word, rest)) => (word, rest.trim_start()),
        None => (text, ""),
    }
}

/// How often an item stands, and what stands behind that.
fn times_of(text: &str) -> Result<(usize, &str)> {
    match text.strip_prefix("x ") {
        Some(rest) => {
            let (word, behind) = first_word(rest);
            let times = word.parse::<usize>().context("no number")?;
            Ok((times, behind))
        }
        None => Ok((1, text)),
    }
}

/// Appends the first item of a text, and answers what stands behind it.
fn push_item<'a>(alloc: Global, bytes: &mut Vec<u8>, text: &'a str) -> Result<&'a str> {
    let mut item = Vec::new(alloc);
    let behind = match text.strip_prefix('"') {
        Some(quoted) => {
            let (inside, behind) = quoted.split_once('"').context("no second quote")?;
            item = unescaped(alloc, inside)?;
            behind.trim_start()
        }
        None => {
            let (word, behind) = first_word(text);
            push_hex(&mut item, word)?;
            behind
        }
    };
    let (times, rest) = times_of(behind)?;
    for _ in 0..times {
        bytes.extend_from_slice(item.as_slice())?;
    }
    Ok(rest)
}

/// Appends the bytes that a text says.
pub(crate) fn push_bytes(alloc: Global, bytes: &mut Vec<u8>, text: &str) -> Result<()> {
    let mut rest = text;
    for _ in 0..text.len() {
        if rest.is_empty() {
            break;
        }
        rest = push_item(alloc, bytes, rest)?;
    }
    Ok(())
}

fn push_shown(shown: &mut String, byte: u8) -> Result<(), AllocError> {
    match byte {
        b'\n' => shown.push_str("\\n"),
        b'\\' => shown.push_str("\\\\"),
        b' '..=b'~' if byte != b'"' => shown.push(char::from(byte)),
        _ => write_hex(shown, byte),
    }
}

fn write_hex(shown: &mut String, byte: u8) -> Result<(), AllocError> {
    write!(shown, "\\x{byte:02x}")
}

/// Bytes as a text in quotes, of which a long one is cut.
pub(crate) fn shown(alloc: Global, bytes: &[u8]) -> Result<String, AllocError> {
    let mut text = String::from_str(alloc, "\"")?;
    for byte in bytes.iter().take(SHOWN) {
        push_shown(&mut text, *byte)?;
    }
    text.push('"')?;
    if SHOWN < bytes.len() {
        let len = bytes.len();
        write!(text, " and so on, {len} bytes")?;
    }
    Ok(text)
}
