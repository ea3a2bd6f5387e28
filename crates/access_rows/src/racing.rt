// A hart beside one that makes an access of its own between a load and an exchange.
ghost use Rattle.std.specs.Prelude.{◌≡◌, ◌≤◌, IfOk, false, length};
ghost use Rattle.step_laws.specs.Layout.{IsInLimits};
ghost use Rattle.step_laws.specs.Steps.{words_of};
ghost use Rattle.guest_ram.specs.Ports.{layout_of};
ghost use Rattle.guest_ram.specs.Shown.{all_words, pass_shown};
ghost use Rattle.guest_ram_cases.specs.Tours.{IsFresh, IsSameSeat};
ghost use Rattle.kept_fills.specs.Beside.{IsBeside};

use crate::opening::open_loaded;
use crate::playing::settle;
use crate::rivals::{Racing, arm};
use crate::rows::{Row, count_right};
use crate::sides::{Side, new_side};
use guest_ram::{Pass, Words};
use guest_ram_cases::{Seats, close_seats};
use std::alloc::Global;
use step_laws::{Layout, NoMemory};

/// Both harts enter. Hart 0 does the rows, and hart 1 stores the value right before the first exchange of the word. How many rows came out right
/// before the first that didn't, and the passes.
fn race<'t>(
    mut pass: Pass<'t>,
    mut side: Side,
    mut rival: Pass<'t>,
    rows: &[Row],
    value: u64,
) -> (usize, Pass<'t>, Pass<'t>)
    requires fresh { IsFresh (pass_shown pass) }
    requires beside { IsBeside side.book (pass_shown pass) }
    requires large { side.book.large ≡ false }
    requires rival_fresh { IsFresh (pass_shown rival) }
    requires one { (pass_shown rival).own.actor ≡ 1 }
    requires harts { 2 ≤ (layout_of (pass_shown rival)).harts }
    requires machine { (pass_shown rival).machine ≡ (pass_shown pass).machine }
    ensures seat { IsSameSeat (pass_shown pass.entry) (pass_shown result.1) }
    ensures rival_seat { IsSameSeat (pass_shown rival.entry) (pass_shown result.2) }
{
    if !settle(&mut pass, &side, false) {
        return (0, pass, rival);
    }
    if !arm(&mut rival) {
        return (0, pass, rival);
    }
    let mut racing = Racing {
        pass,
        rival,
        value,
        left: 1,
    };
    let right = count_right(&mut racing, &mut side, rows);
    let Racing {
        pass,
        rival,
        value: _,
        left: _,
    } = racing;
    (right, pass, rival)
}

/// The same in a machine without page tables, and its words behind it.
pub fn play_race(
    alloc: Global,
    layout: Layout,
    rows: &[Row],
    value: u64,
) -> Result<(usize, Words), NoMemory>
    requires limits { IsInLimits layout }
    requires harts { 2 ≤ layout.harts }
    ensures count { IfOk result (λ made. length (all_words made.1) ≡ words_of layout) }
{
    let Seats {
        table,
        loader,
        first,
        second,
        monitor,
    } = open_loaded(alloc, layout, &[])?;
    let pass = first.pass(&table);
    let rival = second.pass(&table);
    let (right, pass, rival) = race(pass, new_side(0, false), rival, rows, value);
    let first = pass.rest();
    let second = rival.rest();
    Ok((right, close_seats(table, loader, first, second, monitor)))
}
