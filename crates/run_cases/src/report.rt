// The report's lines of harts, as they are wanted and as they stand.
use anyhow::{Context, Result, bail};
use std::alloc::Global;

/// What is wanted of a hart's line; of a place that isn't named nothing is.
#[derive(Clone, Copy)]
struct Wanted<'a> {
    count: Option<&'a str>,
    pc: Option<u64>,
    x: [Option<u64>; 32],
    rest: Option<u64>,
}

const NOTHING: Wanted<'static> = Wanted {
    count: None,
    pc: None,
    x: [None; 32],
    rest: None,
};

fn value_of(word: &str) -> Result<u64> {
    u64::from_str_radix(word, 16).context("no hexadecimal number")
}

/// The number of a register by its name.
fn register_of(name: &str) -> Result<usize> {
    let number = name.strip_prefix('x').context("no register")?;
    let number = number.parse::<usize>().context("no register's number")?;
    if !(1..32).contains(&number) {
        bail!("no such register");
    }
    Ok(number)
}

fn set<'a>(wanted: &mut Wanted<'a>, name: &str, word: &'a str) -> Result<()> {
    match name {
        "count" => wanted.count = Some(word),
        "pc" => wanted.pc = Some(value_of(word)?),
        "rest" => wanted.rest = Some(value_of(word)?),
        _ => {
            let number = register_of(name)?;
            let value = value_of(word)?;
            if let Some(place) = wanted.x.get_mut(number) {
                *place = Some(value);
            }
        }
    }
    Ok(())
}

/// What a line's names and values say.
fn wanted_of(said: &str) -> Result<Wanted<'_>> {
    let mut wanted = NOTHING;
    let mut name = None;
    for word in said.split_ascii_whitespace() {
        name = match name {
            None => Some(word),
            Some(before) => {
                set(&mut wanted, before, word)?;
                None
            }
        };
    }
    if name.is_some() {
        bail!("a name without a value");
    }
    Ok(wanted)
}

/// A hart's line of a report.
fn line_of<'a>(log: &'a str, hart: &str) -> Option<&'a str> {
    for line in log.lines() {
        let mut words = line.split_ascii_whitespace();
        if words.next() == Some("hart") && words.next() == Some(hart) {
            return Some(line);
        }
    }
    None
}

/// The first place of a hart's line that isn't as wanted, and what stands there.
fn differs<'a>(line: &'a str, wanted: &Wanted<'_>) -> Option<(usize, &'a str)> {
    for (number, word) in line.split_ascii_whitespace().skip(2).enumerate() {
        let value = u64::from_str_radix(word, 16).ok();
        let holds = match number {
            0 => wanted.count.is_none() || wanted.count == Some(word),
            1 => wanted.pc.is_none() || wanted.pc == value,
            _ => {
                let named = wanted.x.get(number - 1).copied().unwrap_or(None);
                let here = named.or(wanted.rest);
                here.is_none() || here == value
            }
        };
        if !holds {
            return Some((number, word));
        }
    }
    None
}

/// The name of a place of a hart's line.
fn name_of(alloc: Global, number: usize) -> Result<String> {
    Ok(match number {
        0 => String::from_str(alloc, "count")?,
        1 => String::from_str(alloc, "pc")?,
        _ => format!(in alloc; "x{}", number.saturating_sub(1))?,
    })
}

/// What of a hart's line isn't as `said`, in words.
pub(crate) fn hart_differs(alloc: Global, log: &str, said: &str) -> Result<Option<String>> {
    let (hart, names) = said.split_once(' ').context("no hart")?;
    let wanted = wanted_of(names)?;
    let Some(line) = line_of(log, hart) else {
        return Ok(Some(format!(in alloc; "no line of hart {hart}")?));
    };
    match differs(line, &wanted) {
        Some((number, word)) => {
            let name = name_of(alloc, number)?;
            Ok(Some(format!(in alloc; "hart {hart} has {name} {word}")?))
        }
        None => Ok(None),
    }
}
