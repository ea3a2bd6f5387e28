// Turns of hart 0 beside a store of hart 1, which comes between a load and the exchange behind it.
ghost use Rattle.std.specs.Prelude.{◌≡◌, ◌<◌, ◌≤◌, ◌∷◌, [], IfOk, List, length, map};
ghost use Rattle.step_laws.specs.Joined.{IsJoined};
ghost use Rattle.step_laws.specs.Map.{loader, monitor};
ghost use Rattle.step_laws.specs.Steps.{words_of};
ghost use Rattle.step_laws.specs.declared.steps.Record.{Record};
ghost use Rattle.elf_load.specs.ImageOf.{IsImageOf};
ghost use Rattle.guest_ram.specs.Ports.{layout_of};
ghost use Rattle.guest_ram.specs.Shown.{all_words, pass_shown};
ghost use Rattle.guest_ram_cases.specs.Tours.{IsFresh};
ghost use Rattle.hart_turn.specs.Harts.{IsSettled};
ghost use Rattle.turn_rows.specs.Between.{IsBetween};

use crate::opening::open_guest;
use crate::playing::START;
use crate::ports::{Seated, Tried};
use crate::rivals::Rival;
use crate::rows::Row;
use crate::sides::Side;
use access_rows::arm;
use elf_load::Image;
use guest_ram::{Pass, Words};
use guest_ram_cases::{Seats, close_seats};
use hart_turn::Hart;
use std::alloc::Global;
use std::marker::{Brand, PhantomData};
use step_laws::NoMemory;

/// How many instructions hart 0 may end, what turns it makes, and what hart 1 stores in the word of RAM at 0x80020000 right before the first
/// exchange of it.
#[derive(Clone, Copy)]
pub struct Race<'a> {
    pub limit: u64,
    pub rows: &'a [Row],
    pub value: u64,
}

/// How many rows came out right before the first that didn't, hart 0 behind them, and the machine's words.
#[derive(Drop)]
pub struct Raced {
    pub right: usize,
    pub hart: Hart,
    pub words: Words,
}

/// The same, with the passes.
#[derive(Drop)]
struct Behind<'t> {
    right: usize,
    hart: Hart,
    pass: Pass<'t>,
    rival: Pass<'t>,
}

/// How many rows come out right before the first that doesn't.
fn count_right<'t, J: Seated>(side: &mut Side<'t, J, Rival<'t, J>>, rows: &[Row]) -> usize
    requires between { IsBetween side.old.has_ended side.old.hart (pass_shown side.old.port.pass) }
    ensures most { result ≤ length rows.now }
{
    for (number, row) in rows.iter().enumerate() {
        if !side.do_row(row) {
            return number;
        }
    }
    rows.len()
}

/// Hart 1 enters and stands by, and hart 0 makes its turns. Whose pass that of hart 0 is, is picked by the call.
fn run_beside<'t, J: Seated>(
    pass: Pass<'t>,
    mut rival: Pass<'t>,
    hart: Hart,
    plan: &Race<'_>,
) -> Behind<'t>
    requires machine { (pass_shown pass).machine ≡ J.machine }
    requires actor { (pass_shown pass).own.actor ≡ J.actor }
    requires rival_machine { (pass_shown rival).machine ≡ J.machine }
    requires settled { IsSettled hart (pass_shown pass) }
    requires fresh { IsFresh (pass_shown rival) }
    requires one { (pass_shown rival).own.actor ≡ 1 }
    requires harts { 2 ≤ (layout_of (pass_shown rival)).harts }
    ensures machine { (pass_shown result.pass).machine ≡ J.machine }
    ensures actor { (pass_shown result.pass).own.actor ≡ J.actor }
    ensures rival_machine { (pass_shown result.rival).machine ≡ J.machine }
    ensures one { (pass_shown result.rival).own.actor ≡ 1 }
    ensures most { result.right ≤ length plan.now.rows.now }
{
    if !arm(&mut rival) {
        return Behind {
            right: 0,
            hart,
            pass,
            rival,
        };
    }
    let mut side = Side {
        hart,
        port: Tried {
            pass,
            aside: Rival {
                pass: rival,
                value: plan.value,
                left: 1,
                beside: PhantomData::<J>,
            },
            steps: 0,
            seat: PhantomData::<J>,
        },
        has_ended: false,
    };
    let right = count_right(&mut side, plan.rows);
    Behind {
        right,
        hart: side.hart,
        pass: side.port.pass,
        rival: side.port.aside.pass,
    }
}

/// Makes those turns in a machine that has loaded a guest. `limit` is not 0.
pub fn play_race(
    alloc: Global,
    image: &Image,
    file: &[u8],
    plan: &Race<'_>,
) -> Result<Raced, NoMemory>
    requires image { IsImageOf file.now 1024 image.now }
    requires limit { 0 < plan.now.limit }
    ensures most { IfOk result (λ raced. raced.right ≤ length plan.now.rows.now) }
    ensures count { IfOk result (λ raced. length (all_words raced.words) ≡ words_of (record { harts = 2; pages = 1024 })) }
    ensures joined { IfOk result (λ raced. (records : List Record) × IsJoined (record { harts = 2; pages = 1024 }) (all_words raced.words) records × (map (λ r. r.actor) records ≡ loader ∷ 0 ∷ 1 ∷ monitor ∷ [])) }
{
    let Seats {
        table,
        loader,
        first,
        second,
        monitor,
    } = open_guest(alloc, image, file)?;
    let hart = Hart::new(0, START, plan.limit);
    let Behind {
        right,
        hart,
        pass,
        rival,
    } = run_beside::<Brand>(first.pass(&table), second.pass(&table), hart, plan);
    let first = pass.rest();
    let second = rival.rest();
    let words = close_seats(table, loader, first, second, monitor);
    Ok(Raced { right, hart, words })
}
