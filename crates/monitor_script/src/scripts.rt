// The commands of a script: lines `await N`, `dump ADDR LEN` and `stop`.
ghost use Rattle.std.specs.Prelude.{◌≡◌, ◌≤◌, ◌^◌, ◌↔◌, ℕ, IsTrue, Ok, Err, IfOk, min, true};
ghost use Rattle.std.specs.List.{list_all};
ghost use Rattle.std.specs.Option.{option_map};
ghost use Rattle.monitor_script.specs.declared.scripts.ScriptErr.TheVariants.{Bad};
ghost use Rattle.text_lines.specs.Lines.{words_of};
ghost use Rattle.text_lines.specs.Number.{number_within};
ghost use Rattle.monitor_script.specs.Scripts.{address_of, are_in_ram, await_of, command_of, dump_of, if_possible, is_possible, script_of};

use asm_text::number_of;
use std::alloc::Global;
use text_lines::{next_line, next_word, read_number, says_nothing};

/// How many commands a script may have.
const MOST_COMMANDS: usize = 1_000;

/// The bytes that the console takes, for which a script can wait.
const MOST_AWAITED: u64 = 1_048_576;

/// The bytes of one dump.
const MOST_DUMPED: u64 = 4_096;

/// How long the word of an address may be: `0x` and 16 digits.
const LONGEST_ADDRESS: usize = 18;

/// Where RAM begins.
const RAM_BASE: u64 = 0x8000_0000;

/// The bytes of a page.
const PAGE: u64 = 4_096;

/// What the monitor is to do: wait until so many bytes were printed, keep so many bytes of RAM from an address on, or end the machine.
#[derive(Clone, Copy, Debug, PartialEq, Eq)]
pub enum Command {
    Await(u32),
    Dump { at: u64, len: u16 },
    Stop,
}

/// Why a text is no script.
#[derive(Clone, Copy, Debug, PartialEq, Eq)]
pub enum ScriptErr {
    /// The number of the first bad line, from 1.
    Bad { line: u64 },
    NoMemory,
}

/// The address that a word is; 2^64 stands for all from there on.
fn read_address(word: &[u8]) -> Option<u128>
    ensures { result ≡ option_map (λ at. min at (2 ^ 64)) (address_of word.now) }
{
    if word.len() > LONGEST_ADDRESS || !matches!(word, [b'0', b'x', _, ..]) {
        return None;
    }
    let number = number_of(word)?;
    Some(number.magnitude)
}

fn are_in_ram(at: u128, len: u64, pages: u32) -> bool
    requires { len ≤ 4096 }
    ensures { IsTrue result ↔ IsTrue (are_in_ram pages at len) }
{
    let end = RAM_BASE + PAGE * u64::from(pages);
    at >= u128::from(RAM_BASE) && at <= u128::from(end - len)
}

fn read_dump(at: &[u8], len: &[u8], pages: u32) -> Option<Command>
    ensures { result ≡ if_possible pages (dump_of (address_of at.now) (number_within len.now 4096)) }
{
    let at = read_address(at)?;
    let len = read_number(len, MOST_DUMPED)?;
    if len == 0 || !are_in_ram(at, len, pages) {
        return None;
    }
    Some(Command::Dump {
        at: at as u64,
        len: len as u16,
    })
}

fn read_await(count: &[u8]) -> Option<Command>
    ensures { result ≡ await_of (number_within count.now 1048576) }
{
    let count = read_number(count, MOST_AWAITED)?;
    Some(Command::Await(count as u32))
}

fn read_command(line: &[u8], pages: u32) -> Option<Command>
    ensures { result ≡ command_of pages (words_of line.now) }
{
    let (name, line) = next_word(line)?;
    let Some((first, line)) = next_word(line) else {
        return if name == b"stop".as_slice() {
            Some(Command::Stop)
        } else {
            None
        };
    };
    let Some((second, line)) = next_word(line) else {
        return if name == b"await".as_slice() {
            read_await(first)
        } else {
            None
        };
    };
    if name == b"dump".as_slice() && next_word(line).is_none() {
        read_dump(first, second, pages)
    } else {
        None
    }
}

/// The commands of a script for a machine with so many pages of RAM. Its lines are `await N`, with N up to 1,048,576, `dump ADDR LEN`, with 1 to
/// 4,096 bytes that are all in RAM, and `stop`; what stands behind a `stop` is read too. A line without words and one whose first word begins
/// with `#` say nothing.
///
/// # Errors
///
/// `Bad` with the number of the first line that is none of these, or that has the 1,001st command.
#[tactic(auto, using(crate::proofs::Possible::more_possible))]
pub fn read_script(alloc: Global, text: &[u8], pages: u32) -> Result<Vec<Command>, ScriptErr>
    ensures ok { IfOk result (λ commands. script_of text.now pages ≡ Ok commands.items) }
    ensures bad { (line : ℕ) → result ≡ Err (Bad line) → script_of text.now pages ≡ Err line }
    ensures possible { IfOk result (λ commands. list_all (is_possible pages) commands.items ≡ true) }
{
    let mut commands = Vec::new(alloc);
    let mut number = 0;
    let mut rest = text;
    while let Some((line, behind)) = next_line(rest) {
        rest = behind;
        number += 1;
        let bad = ScriptErr::Bad { line: number };
        if says_nothing(line) {
            continue;
        }
        let command = read_command(line, pages).ok_or(bad)?;
        if commands.len() == MOST_COMMANDS {
            return Err(bad);
        }
        if commands.push(command).is_err() {
            return Err(ScriptErr::NoMemory);
        }
    }
    Ok(commands)
}
