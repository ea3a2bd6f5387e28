// Scenes of two harts, and the machine's words behind them.
ghost use Rattle.std.specs.Prelude.{◌≡◌, ◌+◌, ◌<◌, ◌≤◌, ◌∷◌, [], IfOk, List, length, map};
ghost use Rattle.step_laws.specs.Joined.{IsJoined};
ghost use Rattle.step_laws.specs.Map.{loader, monitor};
ghost use Rattle.step_laws.specs.Marks.{swapping};
ghost use Rattle.step_laws.specs.Steps.{words_of};
ghost use Rattle.step_laws.specs.declared.steps.Record.{Record};
ghost use Rattle.elf_load.specs.ImageOf.{IsImageOf};
ghost use Rattle.guest_ram.specs.Ports.{layout_of};
ghost use Rattle.guest_ram.specs.Shown.{all_words, pass_shown};
ghost use Rattle.guest_ram_cases.specs.Sweeps.{IsAtStage};
ghost use Rattle.guest_ram_cases.specs.Tours.{IsSameSeat, fresh_seat};
ghost use Rattle.hart_turn.specs.Harts.{IsSettled};
ghost use Rattle.turn_rows.specs.Between.{IsBetween};

use crate::opening::open_guest;
use crate::ports::{Nobody, Seated, Tried};
use crate::rows::Row;
use crate::sides::Side;
use elf_load::Image;
use guest_ram::{Pass, Port, Words};
use guest_ram_cases::{Seats, close_seats, take_words};
use hart_turn::Hart;
use std::alloc::Global;
use std::marker::{Brand, PhantomData};
use step_laws::NoMemory;
use tlb_lock::try_lock;

/// Where the guests begin.
pub(crate) const START: u64 = 0x8000_0000;

/// How many instructions a hart may end, what turns are made, and which behind these, once the monitor holds the lock of hart 0.
#[derive(Clone, Copy)]
pub struct Scene<'a> {
    pub limit: u64,
    pub rows: &'a [Row],
    pub held: &'a [Row],
}

/// How many rows came out right before the first that didn't, the harts behind them, and the machine's words.
#[derive(Drop)]
pub struct Played {
    pub right: usize,
    pub first: Hart,
    pub second: Hart,
    pub words: Words,
}

/// The same, with the passes.
#[derive(Drop)]
struct Behind<'t> {
    right: usize,
    first: Hart,
    second: Hart,
    pass: Pass<'t>,
    other: Pass<'t>,
}

/// How many rows come out right before the first that doesn't.
fn count_right<'t, I: Seated, J: Seated>(
    first: &mut Side<'t, I, Nobody>,
    second: &mut Side<'t, J, Nobody>,
    rows: &[Row],
) -> usize
    requires first { IsBetween first.old.has_ended first.old.hart (pass_shown first.old.port.pass) }
    requires second { IsBetween second.old.has_ended second.old.hart (pass_shown second.old.port.pass) }
    ensures first { IsBetween first.new.has_ended first.new.hart (pass_shown first.new.port.pass) }
    ensures second { IsBetween second.new.has_ended second.new.hart (pass_shown second.new.port.pass) }
    ensures most { result ≤ length rows.now }
{
    for (number, row) in rows.iter().enumerate() {
        let is_right = match row.hart {
            0 => first.do_row(row),
            1 => second.do_row(row),
            _ => false,
        };
        if !is_right {
            return number;
        }
    }
    rows.len()
}

/// Where it is due, the monitor begins a snapshot and takes the lock of hart 0.
fn hold_lock<P: Port>(port: &mut P, is_due: bool)
    requires stage { IsAtStage (P.shows port.old) (swapping 0) }
    requires hart { 0 < (layout_of (P.shows port.old)).harts }
    ensures seat { IsSameSeat (P.shows port.old) (P.shows port.new) }
{
    if !is_due {
        return;
    }
    take_words(port);
    let _taken = try_lock(port, 0);
}

/// Plays the rows of a scene. Whose passes they are is picked by the call.
fn play<'t, I: Seated, J: Seated, P: Port>(
    pass: Pass<'t>,
    other: Pass<'t>,
    third: &mut P,
    harts: (Hart, Hart),
    scene: &Scene<'_>,
) -> Behind<'t>
    requires machine { (pass_shown pass).machine ≡ I.machine }
    requires actor { (pass_shown pass).own.actor ≡ I.actor }
    requires other_machine { (pass_shown other).machine ≡ J.machine }
    requires other_actor { (pass_shown other).own.actor ≡ J.actor }
    requires stage { IsAtStage (P.shows third.old) (swapping 0) }
    requires hart { 0 < (layout_of (P.shows third.old)).harts }
    requires first { IsSettled harts.0 (pass_shown pass) }
    requires second { IsSettled harts.1 (pass_shown other) }
    ensures machine { (pass_shown result.pass).machine ≡ I.machine }
    ensures actor { (pass_shown result.pass).own.actor ≡ I.actor }
    ensures other_machine { (pass_shown result.other).machine ≡ J.machine }
    ensures other_actor { (pass_shown result.other).own.actor ≡ J.actor }
    ensures third { IsSameSeat (P.shows third.old) (P.shows third.new) }
    ensures most { result.right ≤ length scene.now.rows.now + length scene.now.held.now }
{
    let (hart, other_hart) = harts;
    let mut first = Side {
        hart,
        port: Tried {
            pass,
            aside: Nobody,
            steps: 0,
            seat: PhantomData::<I>,
        },
        has_ended: false,
    };
    let mut second = Side {
        hart: other_hart,
        port: Tried {
            pass: other,
            aside: Nobody,
            steps: 0,
            seat: PhantomData::<J>,
        },
        has_ended: false,
    };
    let mut right = count_right(&mut first, &mut second, scene.rows);
    hold_lock(third, !scene.held.is_empty());
    right += count_right(&mut first, &mut second, scene.held);
    Behind {
        right,
        first: first.hart,
        second: second.hart,
        pass: first.port.pass,
        other: second.port.pass,
    }
}

/// Plays the rows of a scene by the harts of a machine that has loaded a guest. `limit` is not 0.
pub fn play_scene(
    alloc: Global,
    image: &Image,
    file: &[u8],
    scene: &Scene<'_>,
) -> Result<Played, NoMemory>
    requires image { IsImageOf file.now 1024 image.now }
    requires limit { 0 < scene.now.limit }
    ensures most { IfOk result (λ played. played.right ≤ length scene.now.rows.now + length scene.now.held.now) }
    ensures count { IfOk result (λ played. length (all_words played.words) ≡ words_of (record { harts = 2; pages = 1024 })) }
    ensures joined { IfOk result (λ played. (records : List Record) × IsJoined (record { harts = 2; pages = 1024 }) (all_words played.words) records × (map (λ r. r.actor) records ≡ loader ∷ 0 ∷ 1 ∷ monitor ∷ [])) }
{
    let Seats {
        table,
        loader,
        first,
        second,
        monitor,
    } = open_guest(alloc, image, file)?;
    let mut third = monitor.pass(&table);
    let harts = (
        Hart::new(0, START, scene.limit),
        Hart::new(1, START, scene.limit),
    );
    let behind = play::<Brand, Brand, _>(
        first.pass(&table),
        second.pass(&table),
        &mut third,
        harts,
        scene,
    );
    let Behind {
        right,
        first: hart,
        second: other_hart,
        pass,
        other,
    } = behind;
    let first = pass.rest();
    let second = other.rest();
    let monitor = third.rest();
    let words = close_seats(table, loader, first, second, monitor);
    Ok(Played {
        right,
        first: hart,
        second: other_hart,
        words,
    })
}
