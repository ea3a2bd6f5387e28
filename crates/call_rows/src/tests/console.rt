// Bytes that calls print (SBI, "Debug Console Extension" and "Legacy Extensions").
ghost use Rattle.std.specs.Prelude.{◌≡◌, ◌≤◌, ◌<◌, length};
ghost use Rattle.step_laws.specs.Steps.{words_of};
ghost use Rattle.guest_ram.specs.Shown.{all_words};

use super::{SUCCESS, end_of, plays_on, row};
use crate::Row;
use guest_ram::Words;
use hart_calls::{Reason, SbiEnd};
use sbi_rows::{
    BYTE_WRITES, PUT, PrintRow, Printed, TEXT_BYTES, TEXT_PLACE, WRITE, WRITE_BYTE, WRITES,
};
use std::alloc::{AllocError, Global};
use std::process::Abort;
use std::test::Fail;
use step_laws::{cons_word, console_word, stop_word};

fn print(console: &mut Vec<u8>, printed: Printed) -> Result<(), AllocError> {
    match printed {
        Printed::Nothing => {}
        Printed::Byte(byte) => console.push(byte)?,
        Printed::Text(from, count) => {
            for byte in TEXT_BYTES.iter().skip(from).take(count) {
                console.push(*byte)?;
            }
        }
    }
    Ok(())
}

/// The console has these bytes, and no more.
fn has_printed(rt: &impl Abort, words: &Words, bytes: &[u8])
    requires words { length (all_words words.now) ≡ words_of (record { harts = 8; pages = 1024 }) }
    requires few { length bytes.now < 10000 }
{
    assert_eq!(rt; words.get(cons_word()), bytes.len() as u64);
    for place in 0..bytes.len() {
        let held = words.get(console_word(place as u32));
        assert_eq!(rt; held, u64::from(bytes[place]) + 0x100, "place {place}");
    }
    assert_eq!(rt; words.get(console_word(bytes.len() as u32)), 0);
}

/// Hart 0 of so many makes these calls, in the section or not, and the console has what they print.
fn all_print(
    rt: &impl Abort,
    alloc: Global,
    harts: u8,
    section: bool,
    writes: &[PrintRow],
) -> Result<(), Fail>
    requires some { 1 ≤ harts }
    requires most { harts ≤ 8 }
{
    let mut rows = Vec::new(alloc);
    let mut console = Vec::new(alloc);
    for (called, args, want, printed) in writes {
        rows.push(row(0, *called, *args, section, end_of(*want)))?;
        print(&mut console, *printed)?;
    }
    let words = plays_on(rt, alloc, harts, &rows)?;
    assert!(rt; console.len() < 10_000);
    has_printed(rt, &words, &console);
    Ok(())
}

#[test]
fn bytes_of_memory_are_printed(rt: HostRuntime) -> Result<(), Fail> {
    all_print(&rt, rt.alloc(), 1, true, &WRITES)?;
    all_print(&rt, rt.alloc(), 2, true, &WRITES)
}

#[test]
fn bytes_of_registers_are_printed(rt: HostRuntime) -> Result<(), Fail> {
    for section in [false, true] {
        all_print(&rt, rt.alloc(), 1, section, &BYTE_WRITES)?;
        all_print(&rt, rt.alloc(), 2, section, &BYTE_WRITES)?;
    }
    Ok(())
}

// Outside the section a call that would print bytes of memory prints none; another answers as in it.
#[test]
fn writes_need_the_section(rt: HostRuntime) -> Result<(), Fail> {
    let mut rows = Vec::new(rt.alloc());
    for (called, args, want, printed) in WRITES {
        let end = match printed {
            Printed::Nothing => end_of(want),
            Printed::Byte(_) | Printed::Text(_, _) => SbiEnd::NeedsSection,
        };
        rows.push(row(0, called, args, false, end))?;
    }
    let words = plays_on(&rt, rt.alloc(), 2, &rows)?;
    has_printed(&rt, &words, b"");
    Ok(())
}

// One place is taken, so of the last 256 bytes one finds none. What is printed behind it finds none either.
#[test]
fn a_full_console_ends_the_machine(rt: HostRuntime) -> Result<(), Fail> {
    let mut rows: Vec<Row> = Vec::new(rt.alloc());
    rows.push(row(0, PUT, [0x41, 0, 0, 0], false, SbiEnd::Single(0)))?;
    let args = [256, TEXT_PLACE, 0, 0];
    let printed = SbiEnd::Pair {
        error: 0,
        value: 256,
    };
    for _ in 0..4095 {
        rows.push(row(0, WRITE, args, true, printed))?;
    }
    let full = SbiEnd::Over(Reason::OutFull);
    rows.push(row(0, WRITE, args, true, full))?;
    rows.push(row(0, WRITE_BYTE, [0x42, 0, 0, 0], false, full))?;
    rows.push(row(0, PUT, [0x42, 0, 0, 0], false, full))?;
    // no byte needs no place
    rows.push(row(0, WRITE, [0, TEXT_PLACE, 0, 0], false, SUCCESS))?;
    let words = plays_on(&rt, rt.alloc(), 2, &rows)?;
    // the three bytes for which there was no place drew one each
    assert_eq!(rt; words.get(cons_word()), 1_048_579);
    // an A, and then the text's first 256 bytes again and again
    assert_eq!(rt; words.get(console_word(0)), 0x141);
    assert_eq!(rt; words.get(console_word(1)), 0x100);
    assert_eq!(rt; words.get(console_word(2)), 0x164);
    assert_eq!(rt; words.get(console_word(1_048_328)), 0x160);
    assert_eq!(rt; words.get(console_word(1_048_575)), 0x162);
    // the console is full
    assert_eq!(rt; words.get(stop_word()), 4);
    Ok(())
}
