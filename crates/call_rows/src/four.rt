// A machine with the seats of four harts, rows of them all, and the machine's words behind these.
ghost use Rattle.std.specs.Prelude.{◌≡◌, ◌≤◌, ◌∷◌, ◌↔◌, ◌⊎◌, [], IfOk, IsSome, List, false, length, map, true};
ghost use Rattle.step_laws.specs.Joined.{IsJoined};
ghost use Rattle.step_laws.specs.Layout.{IsInLimits};
ghost use Rattle.step_laws.specs.Map.{loader};
ghost use Rattle.step_laws.specs.Steps.{words_of};
ghost use Rattle.step_laws.specs.declared.steps.Record.{Record};
ghost use Rattle.guest_ram.specs.Shown.{all_words, machine_of, seat_shown};
ghost use Rattle.guest_ram_cases.specs.Tours.{IsLeading, IsSameSeat, IsSeatOf, fresh_seat};
ghost use Rattle.call_rows.specs.Standing.{IsEither, IsStanding};

use crate::opening::{Loaded, Pair, open_pair};
use crate::playing::{Runs, do_row};
use crate::rows::{Came, Row};
use guest_ram::{Port, Seat, Table, Words, close};
use std::alloc::Global;
use step_laws::{Layout, NoMemory};

/// The seats of harts 0 to 3, and the loader's.
struct Four {
    table: Table,
    loader: Seat,
    first: Seat,
    second: Seat,
    third: Seat,
    fourth: Seat,
}

/// Opens a machine with these words, and the seats of hart 0, which runs, and of harts 1 to 3, which are stopped.
fn open_four(alloc: Global, layout: Layout, words: &[Loaded]) -> Result<Four, NoMemory>
    requires limits { IsInLimits layout }
    requires harts { 4 ≤ layout.harts }
    ensures layout { IfOk result (λ four. (machine_of four.table).layout ≡ layout) }
    ensures loader { IfOk result (λ four. IsLeading (machine_of four.table) (seat_shown four.loader) (3 ∷ 2 ∷ 1 ∷ 0 ∷ [])) }
    ensures first { IfOk result (λ four. seat_shown four.first ≡ fresh_seat (machine_of four.table) 0 true) }
    ensures second { IfOk result (λ four. seat_shown four.second ≡ fresh_seat (machine_of four.table) 1 false) }
    ensures third { IfOk result (λ four. seat_shown four.third ≡ fresh_seat (machine_of four.table) 2 false) }
    ensures fourth { IfOk result (λ four. seat_shown four.fourth ≡ fresh_seat (machine_of four.table) 3 false) }
{
    let pair = open_pair(alloc, layout, 1, words)?;
    let Pair {
        table,
        loader,
        first,
        second,
    } = pair;
    let mut pass = loader.pass(&table);
    let third = pass.split(2);
    let fourth = pass.split(3);
    let leading = pass.rest();
    Ok(Four {
        table,
        loader: leading,
        first,
        second,
        third,
        fourth,
    })
}

/// The words, once the seats are back.
fn close_four(four: Four) -> Words
    requires leading { IsLeading (machine_of four.table) (seat_shown four.loader) (3 ∷ 2 ∷ 1 ∷ 0 ∷ []) }
    requires first { IsSeatOf (machine_of four.table) 0 (seat_shown four.first) }
    requires second { IsSeatOf (machine_of four.table) 1 (seat_shown four.second) }
    requires third { IsSeatOf (machine_of four.table) 2 (seat_shown four.third) }
    requires fourth { IsSeatOf (machine_of four.table) 3 (seat_shown four.fourth) }
    ensures count { length (all_words result) ≡ words_of (machine_of four.table).layout }
    ensures joined { (records : List Record) × IsJoined (machine_of four.table).layout (all_words result) records × (map (λ r. r.actor) records ≡ loader ∷ 0 ∷ 1 ∷ 2 ∷ 3 ∷ []) }
{
    let Four {
        table,
        loader,
        first,
        second,
        third,
        fourth,
    } = four;
    let mut pass = loader.pass(&table);
    pass.join(first);
    pass.join(second);
    pass.join(third);
    pass.join(fourth);
    let seat = pass.rest();
    close(table, seat)
}

/// Whether each hart runs.
#[derive(Clone, Copy)]
struct FourRun {
    lower: Runs,
    upper: Runs,
}

/// What comes of a row. `None`: it is of none of the four.
fn do_row_of_four<P: Port>(
    first: &mut P,
    second: &mut P,
    third: &mut P,
    fourth: &mut P,
    runs: &mut FourRun,
    row: &Row,
) -> Option<Came>
    requires first { IsStanding runs.old.lower.first (P.shows first.old) }
    requires second { IsStanding runs.old.lower.second (P.shows second.old) }
    requires third { IsStanding runs.old.upper.first (P.shows third.old) }
    requires fourth { IsStanding runs.old.upper.second (P.shows fourth.old) }
    ensures seated { IsSome result ↔ (IsEither row.now.hart (P.shows first.old) (P.shows second.old) ⊎ IsEither row.now.hart (P.shows third.old) (P.shows fourth.old)) }
    ensures first { IsStanding runs.new.lower.first (P.shows first.new) }
    ensures second { IsStanding runs.new.lower.second (P.shows second.new) }
    ensures third { IsStanding runs.new.upper.first (P.shows third.new) }
    ensures fourth { IsStanding runs.new.upper.second (P.shows fourth.new) }
    ensures seat { IsSameSeat (P.shows first.old) (P.shows first.new) }
    ensures second_seat { IsSameSeat (P.shows second.old) (P.shows second.new) }
    ensures third_seat { IsSameSeat (P.shows third.old) (P.shows third.new) }
    ensures fourth_seat { IsSameSeat (P.shows fourth.old) (P.shows fourth.new) }
{
    match do_row(first, second, &mut runs.lower, row) {
        Some(came) => Some(came),
        None => do_row(third, fourth, &mut runs.upper, row),
    }
}

/// How many rows come out right before the first that doesn't.
fn play_by_four<P: Port>(
    first: &mut P,
    second: &mut P,
    third: &mut P,
    fourth: &mut P,
    rows: &[Row],
) -> usize
    requires first { IsStanding true (P.shows first.old) }
    requires second { IsStanding false (P.shows second.old) }
    requires third { IsStanding false (P.shows third.old) }
    requires fourth { IsStanding false (P.shows fourth.old) }
    ensures most { result ≤ length rows.now }
    ensures seat { IsSameSeat (P.shows first.old) (P.shows first.new) }
    ensures second_seat { IsSameSeat (P.shows second.old) (P.shows second.new) }
    ensures third_seat { IsSameSeat (P.shows third.old) (P.shows third.new) }
    ensures fourth_seat { IsSameSeat (P.shows fourth.old) (P.shows fourth.new) }
{
    let mut runs = FourRun {
        lower: Runs {
            first: true,
            second: false,
        },
        upper: Runs {
            first: false,
            second: false,
        },
    };
    for (number, row) in rows.iter().enumerate() {
        if do_row_of_four(first, second, third, fourth, &mut runs, row) != Some(row.to) {
            return number;
        }
    }
    rows.len()
}

/// Plays rows by harts 0 to 3 of a machine that has these words in RAM. Hart 0 runs, and the others are stopped. How many came out right
/// before the first that didn't, and the machine's words.
pub fn play_four(
    alloc: Global,
    layout: Layout,
    words: &[Loaded],
    rows: &[Row],
) -> Result<(usize, Words), NoMemory>
    requires limits { IsInLimits layout }
    requires harts { 4 ≤ layout.harts }
    ensures most { IfOk result (λ made. made.0 ≤ length rows.now) }
    ensures count { IfOk result (λ made. length (all_words made.1) ≡ words_of layout) }
    ensures joined { IfOk result (λ made. (records : List Record) × IsJoined layout (all_words made.1) records × (map (λ r. r.actor) records ≡ loader ∷ 0 ∷ 1 ∷ 2 ∷ 3 ∷ [])) }
{
    let Four {
        table,
        loader,
        first,
        second,
        third,
        fourth,
    } = open_four(alloc, layout, words)?;
    let mut first_pass = first.pass(&table);
    let mut second_pass = second.pass(&table);
    let mut third_pass = third.pass(&table);
    let mut fourth_pass = fourth.pass(&table);
    let right = play_by_four(
        &mut first_pass,
        &mut second_pass,
        &mut third_pass,
        &mut fourth_pass,
        rows,
    );
    let first = first_pass.rest();
    let second = second_pass.rest();
    let third = third_pass.rest();
    let fourth = fourth_pass.rest();
    let behind = Four {
        table,
        loader,
        first,
        second,
        third,
        fourth,
    };
    Ok((right, close_four(behind)))
}
