// Accesses of two harts in three parts, and the machine's words behind them.
ghost use Rattle.std.specs.Prelude.{◌≡◌, ◌≤◌, IfOk, IsTrue, false, length};
ghost use Rattle.step_laws.specs.Layout.{IsInLimits};
ghost use Rattle.step_laws.specs.Steps.{words_of};
ghost use Rattle.guest_ram.specs.Shown.{all_words};
ghost use Rattle.guest_ram_cases.specs.Tours.{IsFresh, IsSameSeat};
ghost use Rattle.kept_fills.specs.Beside.{IsBeside};
ghost use Rattle.access_rows.specs.Ready.{IsReady};

use crate::opening::{Loaded, open_loaded};
use crate::rows::{Row, count_right};
use crate::sides::{Side, new_side};
use guest_ram::{Port, Words};
use guest_ram_cases::{Seats, all_out, claim, close_seats, enter};
use std::alloc::Global;
use step_laws::{Layout, NoMemory, ram_word_at};

/// The words that the loader stores, whether the harts' addresses are translated by page tables, whether hart 0 claims the section before it
/// begins, or else enters, and what is done: first by hart 0, then by hart 1, which enters for it, and at the end by hart 0.
#[derive(Clone, Copy)]
pub struct Scene<'a> {
    pub words: &'a [Loaded],
    pub is_paged: bool,
    pub is_alone: bool,
    pub first: &'a [Row],
    pub second: &'a [Row],
    pub last: &'a [Row],
}

/// How many rows of each part came out right before the first that didn't.
#[derive(Clone, Copy, Debug, PartialEq, Eq)]
pub struct Played {
    pub first: usize,
    pub second: usize,
    pub last: usize,
}

/// Enters, or claims the section and finds all others outside. `false`: another is in the way.
pub(crate) fn settle<P: Port>(port: &mut P, side: &Side, is_alone: bool) -> bool
    requires fresh { IsFresh (P.shows port.old) }
    requires beside { IsBeside side.now.book (P.shows port.old) }
    requires large { side.now.book.large ≡ false }
    ensures ready { IsTrue result → IsReady side.now.book side.now.arch (P.shows port.new) }
    ensures seat { IsSameSeat (P.shows port.old) (P.shows port.new) }
{
    if !is_alone {
        return match enter(port) {
            Ok(()) => true,
            Err(_) => false,
        };
    }
    match claim(port) {
        Ok(()) => match all_out(port) {
            Ok(()) => true,
            Err(_) => false,
        },
        Err(_) => false,
    }
}

/// Plays the parts in their order.
fn play<P: Port>(
    port: &mut P,
    side: &mut Side,
    other_port: &mut P,
    other: &mut Side,
    scene: &Scene<'_>,
) -> Played
    requires fresh { IsFresh (P.shows port.old) }
    requires beside { IsBeside side.old.book (P.shows port.old) }
    requires large { side.old.book.large ≡ false }
    requires other_fresh { IsFresh (P.shows other_port.old) }
    requires other_beside { IsBeside other.old.book (P.shows other_port.old) }
    requires other_large { other.old.book.large ≡ false }
    ensures seat { IsSameSeat (P.shows port.old) (P.shows port.new) }
    ensures other_seat { IsSameSeat (P.shows other_port.old) (P.shows other_port.new) }
{
    let mut played = Played {
        first: 0,
        second: 0,
        last: 0,
    };
    if !settle(port, side, scene.is_alone) {
        return played;
    }
    played.first = count_right(port, side, scene.first);
    if !scene.second.is_empty() && settle(other_port, other, false) {
        played.second = count_right(other_port, other, scene.second);
    }
    played.last = count_right(port, side, scene.last);
    played
}

/// The same by the harts of a machine, and its words behind it.
pub fn play_scene(
    alloc: Global,
    layout: Layout,
    scene: &Scene<'_>,
) -> Result<(Played, Words), NoMemory>
    requires limits { IsInLimits layout }
    requires harts { 2 ≤ layout.harts }
    ensures count { IfOk result (λ made. length (all_words made.1) ≡ words_of layout) }
{
    let Seats {
        table,
        loader,
        first,
        second,
        monitor,
    } = open_loaded(alloc, layout, scene.words)?;
    let mut pass = first.pass(&table);
    let mut other_pass = second.pass(&table);
    let mut side = new_side(0, scene.is_paged);
    let mut other = new_side(1, scene.is_paged);
    let played = play(&mut pass, &mut side, &mut other_pass, &mut other, scene);
    let first = pass.rest();
    let second = other_pass.rest();
    Ok((played, close_seats(table, loader, first, second, monitor)))
}

/// The first word of RAM that isn't 0, by its index.
pub fn first_stored(words: &Words, layout: Layout) -> Option<u32>
    requires limits { IsInLimits layout }
    requires count { length (all_words words.now) ≡ words_of layout }
{
    for index in 0..512 * layout.pages {
        if words.get(ram_word_at(index)) != 0 {
            return Some(index);
        }
    }
    None
}
