// Rows of two harts, or of hart 0 alone, and the machine's words behind them.
ghost use Rattle.std.specs.Prelude.{◌≡◌, ◌≤◌, ◌<◌, ◌↔◌, IfOk, IsSome, false, length, true};
ghost use Rattle.step_laws.specs.Layout.{IsInLimits};
ghost use Rattle.step_laws.specs.Steps.{words_of};
ghost use Rattle.guest_ram.specs.Shown.{all_words};
ghost use Rattle.guest_ram_cases.specs.Tours.{IsSameSeat};
ghost use Rattle.call_rows.specs.Standing.{IsEither, IsStanding};

use crate::opening::{Loaded, Pair, close_pair, open_pair};
use crate::rows::{Came, Row, do_deed};
use guest_ram::{Port, Words};
use std::alloc::Global;
use step_laws::{Layout, MONITOR, NoMemory};

/// Whether each hart runs.
#[derive(Clone, Copy)]
pub(crate) struct Runs {
    pub(crate) first: bool,
    pub(crate) second: bool,
}

/// What comes of a row. `None`: it is of neither hart.
pub(crate) fn do_row<P: Port>(
    first: &mut P,
    second: &mut P,
    runs: &mut Runs,
    row: &Row,
) -> Option<Came>
    requires first { IsStanding runs.old.first (P.shows first.old) }
    requires second { IsStanding runs.old.second (P.shows second.old) }
    ensures seated { IsSome result ↔ IsEither row.now.hart (P.shows first.old) (P.shows second.old) }
    ensures first { IsStanding runs.new.first (P.shows first.new) }
    ensures second { IsStanding runs.new.second (P.shows second.new) }
    ensures seat { IsSameSeat (P.shows first.old) (P.shows first.new) }
    ensures second_seat { IsSameSeat (P.shows second.old) (P.shows second.new) }
{
    if row.hart == first.actor() {
        let (came, runs_now) = do_deed(first, row.hart, runs.first, row.deed);
        runs.first = runs_now;
        Some(came)
    } else if row.hart == second.actor() {
        let (came, runs_now) = do_deed(second, row.hart, runs.second, row.deed);
        runs.second = runs_now;
        Some(came)
    } else {
        None
    }
}

/// How many rows come out right before the first that doesn't.
fn play<P: Port>(first: &mut P, second: &mut P, rows: &[Row]) -> usize
    requires first { IsStanding true (P.shows first.old) }
    requires second { IsStanding false (P.shows second.old) }
    ensures most { result ≤ length rows.now }
    ensures seat { IsSameSeat (P.shows first.old) (P.shows first.new) }
    ensures second_seat { IsSameSeat (P.shows second.old) (P.shows second.new) }
{
    let mut runs = Runs {
        first: true,
        second: false,
    };
    for (number, row) in rows.iter().enumerate() {
        if do_row(first, second, &mut runs, row) != Some(row.to) {
            return number;
        }
    }
    rows.len()
}

/// The same by one hart, which runs; a row of another doesn't come out right.
fn play_first<P: Port>(port: &mut P, rows: &[Row]) -> usize
    requires standing { IsStanding true (P.shows port.old) }
    ensures most { result ≤ length rows.now }
    ensures seat { IsSameSeat (P.shows port.old) (P.shows port.new) }
{
    let hart = port.actor();
    let mut runs = true;
    for (number, row) in rows.iter().enumerate() {
        if row.hart != hart {
            return number;
        }
        let (came, runs_now) = do_deed(port, hart, runs, row.deed);
        runs = runs_now;
        if came != row.to {
            return number;
        }
    }
    rows.len()
}

/// Plays rows by hart 0, which runs, and another hart, which is stopped, of a machine that has these words in RAM. How many came out right
/// before the first that didn't, and the machine's words.
pub fn play_rows(
    alloc: Global,
    layout: Layout,
    second: u8,
    words: &[Loaded],
    rows: &[Row],
) -> Result<(usize, Words), NoMemory>
    requires limits { IsInLimits layout }
    requires other { 1 ≤ second }
    requires second { second < layout.harts }
    ensures most { IfOk result (λ made. made.0 ≤ length rows.now) }
    ensures count { IfOk result (λ made. length (all_words made.1) ≡ words_of layout) }
{
    let Pair {
        table,
        loader,
        first,
        second: other,
    } = open_pair(alloc, layout, second, words)?;
    let mut pass = first.pass(&table);
    let mut second_pass = other.pass(&table);
    let right = play(&mut pass, &mut second_pass, rows);
    let first = pass.rest();
    let other = second_pass.rest();
    Ok((right, close_pair(table, loader, first, other)))
}

/// Plays rows by hart 0 alone, whatever harts there are.
pub fn play_alone(
    alloc: Global,
    layout: Layout,
    words: &[Loaded],
    rows: &[Row],
) -> Result<(usize, Words), NoMemory>
    requires limits { IsInLimits layout }
    ensures most { IfOk result (λ made. made.0 ≤ length rows.now) }
    ensures count { IfOk result (λ made. length (all_words made.1) ≡ words_of layout) }
{
    let Pair {
        table,
        loader,
        first,
        second: monitor,
    } = open_pair(alloc, layout, MONITOR, words)?;
    let mut pass = first.pass(&table);
    let right = play_first(&mut pass, rows);
    let first = pass.rest();
    Ok((right, close_pair(table, loader, first, monitor)))
}
