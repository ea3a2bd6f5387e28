// The items of an order: lines `turn H N`, `mon N` and `rounds N`.
ghost use Rattle.std.specs.Prelude.{◌≡◌, ◌≤◌, ◌-◌, ◌^◌, ℕ, min, Ok, Err, IfOk};
ghost use Rattle.tlbvm.specs.declared.items.OrderErr.TheVariants.{Bad};
ghost use Rattle.text_lines.specs.Lines.{words_of};
ghost use Rattle.text_lines.specs.Number.{number_within};
ghost use Rattle.tlbvm.specs.Items.{order_of, item_of, turn_of, counted_of, count_of, turns_in};

use std::alloc::Global;
use text_lines::{next_line, next_word, read_number, says_nothing};

/// How many items an order may have.
const MOST_ITEMS: usize = 1_000_000;

/// How many turns an order may give.
const MOST_TURNS: u64 = 1_000_000_000;

/// What a line of an order gives turns to: so many to one hart, or to the monitor, or so many rounds. A round is a turn
/// of each hart, in order, and then one of the monitor.
#[derive(Clone, Copy, Debug, PartialEq, Eq)]
pub enum Item {
    Hart { hart: u8, turns: u64 },
    Monitor { turns: u64 },
    Rounds { rounds: u64 },
}

/// Why a text is no order.
#[derive(Clone, Copy, Debug, PartialEq, Eq)]
pub enum OrderErr {
    /// The number of the first bad line, from 1.
    Bad { line: u64 },
    NoMemory,
}

/// A count of turns or rounds: from 1, and never above the turns of a whole order.
fn read_count(word: &[u8]) -> Option<u64>
    ensures { result ≡ count_of word.now }
{
    let count = read_number(word, MOST_TURNS)?;
    if count == 0 { None } else { Some(count) }
}

fn read_counted(command: &[u8], count: &[u8]) -> Option<Item>
    ensures { result ≡ counted_of command.now (count_of count.now) }
{
    let count = read_count(count)?;
    if command == b"mon".as_slice() {
        Some(Item::Monitor { turns: count })
    } else if command == b"rounds".as_slice() {
        Some(Item::Rounds { rounds: count })
    } else {
        None
    }
}

fn read_turn(hart: &[u8], count: &[u8], harts: u8) -> Option<Item>
    requires { 1 ≤ harts }
    ensures { result ≡ turn_of (number_within hart.now (harts - 1)) (count_of count.now) }
{
    let hart = read_number(hart, u64::from(harts) - 1)? as u8;
    let turns = read_count(count)?;
    Some(Item::Hart { hart, turns })
}

fn read_item(line: &[u8], harts: u8) -> Option<Item>
    requires { 1 ≤ harts }
    ensures { result ≡ item_of harts (words_of line.now) }
{
    let (command, line) = next_word(line)?;
    let (first, line) = next_word(line)?;
    let Some((second, line)) = next_word(line) else {
        return read_counted(command, first);
    };
    if command == b"turn".as_slice() && next_word(line).is_none() {
        read_turn(first, second, harts)
    } else {
        None
    }
}

/// How many turns an item gives, or `u64::MAX` where they are more.
fn turns_in(item: Item, harts: u8) -> u64
    ensures { result ≡ min (turns_in harts item) (2 ^ 64 - 1) }
{
    match item {
        Item::Hart { turns, .. } | Item::Monitor { turns } => turns,
        Item::Rounds { rounds } => rounds.saturating_mul(u64::from(harts) + 1),
    }
}

/// The items of an order for so many harts. Its lines are `turn H N`, `mon N` and `rounds N`, with counts from 1; a line
/// without words and one whose first word begins with `#` say nothing. An order has at most 1,000,000 items and gives at
/// most 1,000,000,000 turns.
///
/// # Errors
///
/// `Bad` with the number of the first line that is none of these, or at which there are too many items or turns.
pub fn read_order(alloc: Global, text: &[u8], harts: u8) -> Result<Vec<Item>, OrderErr>
    requires some { 1 ≤ harts }
    requires few { harts ≤ 8 }
    ensures ok { IfOk result (λ items. order_of text.now harts ≡ Ok items.items) }
    ensures bad { (line : ℕ) → result ≡ Err (Bad line) → order_of text.now harts ≡ Err line }
{
    let mut items = Vec::new(alloc);
    let mut turns = 0;
    let mut number = 0;
    let mut rest = text;
    while let Some((line, behind)) = next_line(rest) {
        rest = behind;
        number += 1;
        let bad = OrderErr::Bad { line: number };
        if says_nothing(line) {
            continue;
        }
        let item = read_item(line, harts).ok_or(bad)?;
        let more = turns_in(item, harts);
        if items.len() == MOST_ITEMS || more > MOST_TURNS - turns {
            return Err(bad);
        }
        if items.push(item).is_err() {
            return Err(OrderErr::NoMemory);
        }
        turns += more;
    }
    Ok(items)
}
