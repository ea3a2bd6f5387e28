// A machine with two harts, each on a thread.
ghost use Rattle.std.specs.Prelude.{◌≡◌, ◌≤◌, ◌<◌, ◌⊎◌, ◌∷◌, [], List, IfOk, IsTrue, false, length, map};
ghost use Rattle.step_laws.specs.Joined.{IsJoined};
ghost use Rattle.step_laws.specs.Layout.{IsInLimits};
ghost use Rattle.step_laws.specs.Map.{loader};
ghost use Rattle.step_laws.specs.Sections.{IsOut};
ghost use Rattle.step_laws.specs.Steps.{words_of};
ghost use Rattle.step_laws.specs.declared.steps.Record.{Record};
ghost use Rattle.guest_ram.specs.Areas.{AnyWord};
ghost use Rattle.guest_ram.specs.Ports.{layout_of, IsActing, GoesBy};
ghost use Rattle.guest_ram.specs.Shown.{all_words};
ghost use Rattle.guest_ram_cases.specs.Made.{HasVisited, IsSentAway};

use crate::booting::boot_words;
use crate::entering::{enter, leave};
use crate::inside::{add_to_row, put_byte};
use crate::marking::mark;
use guest_ram::{Port, Words, close, open_machine};
use std::alloc::Global;
use std::thread::{Threads, join_mut};
use step_laws::{Layout, NoMemory};

/// Marks the first page, enters, adds 1 to the first eight words of RAM, puts a byte on the console and leaves. `false`: another actor
/// has claimed the section.
pub fn visit<P: Port>(port: &mut P, byte: u8) -> bool
    requires acting { IsActing (P.shows port.old) }
    requires hart { (P.shows port.old).own.actor < (layout_of (P.shows port.old)).harts }
    requires out { IsOut (P.shows port.old).own.steps }
    ensures visited { IsTrue result → HasVisited (P.shows port.old) (P.shows port.new) byte }
    ensures sent_away { result ≡ false → IsSentAway (P.shows port.old) (P.shows port.new) }
    ensures out { IsOut (P.shows port.new).own.steps }
    ensures acting { IsActing (P.shows port.new) }
    ensures goes { GoesBy 15 AnyWord (P.shows port.old) (P.shows port.new) }
{
    mark(port, 0);
    if enter(port).is_err() {
        return false;
    }
    add_to_row(port, 0, 8, 1);
    let _put = put_byte(port, byte);
    leave(port);
    true
}

/// The words of a machine behind two harts, each on a thread that holds its pass. One list of steps gives them and all records.
pub fn two_harts<R: Threads + Sync>(
    rt: &R,
    alloc: Global,
    layout: Layout,
) -> Result<Words, NoMemory>
    requires limits { IsInLimits layout }
    requires harts { 2 ≤ layout.harts }
    ensures count { IfOk result (λ words. length (all_words words) ≡ words_of layout) }
    ensures joined { IfOk result (λ words. (records : List Record) × IsJoined layout (all_words words) records × (map (λ r. r.actor) records ≡ loader ∷ 0 ∷ 1 ∷ [])) }
{
    let (table, seat) = open_machine(alloc, layout)?;
    let mut loader = seat.pass(&table);
    boot_words(&mut loader);
    let first = loader.split(0);
    let second = loader.split(1);
    let mut left = first.pass(&table);
    let mut right = second.pass(&table);
    join_mut(
        rt,
        &mut || {
            visit(&mut left, b'0');
        },
        &mut || {
            visit(&mut right, b'1');
        },
    );
    loader.join(left.rest());
    loader.join(right.rest());
    let seat = loader.rest();
    Ok(close(table, seat))
}
