// What a monitor comes to beside a hart, by passes of one table.
ghost use Rattle.std.specs.Prelude.{◌≡◌, IfOk, length, true};
ghost use Rattle.std.specs.List.{list_all};
ghost use Rattle.step_laws.specs.Steps.{words_of};
ghost use Rattle.guest_ram.specs.Shown.{all_words};
ghost use Rattle.guest_ram_cases.specs.Tours.{IsFresh, IsSameSeat};
ghost use Rattle.monitor.specs.Steps.{GoesWith};
ghost use Rattle.monitor_script.specs.Scripts.{is_possible};

use exclusive::{claim, enter, leave, release};
use guest_devices::{put_byte, set_stop};
use guest_ram::{Port, Words};
use guest_ram_cases::{Seats, close_seats, open_seats};
use machine_model::Reason;
use monitor::{Command, MonTurn, Monitor, monitor_turn};
use std::alloc::Global;
use step_laws::{Layout, NoMemory};

pub(crate) const LAYOUT: Layout = Layout {
    harts: 2,
    pages: 256,
};

/// What word 16 of RAM holds, whose bytes begin at 0x80000080.
pub(crate) const VALUE: u64 = 0x0807_0605_0403_0201;

/// What hart 0 does: nothing, or something between the first turn of the monitor and the second.
#[derive(Clone, Copy, Debug, PartialEq, Eq)]
pub(crate) enum Beside {
    Nothing,
    /// It prints a byte.
    Prints,
    /// It is inside for the monitor's first turn, and leaves.
    IsInside,
    /// It ends the machine before it leaves.
    Ends,
    /// It stays inside, and the monitor takes no more turns.
    StaysInside,
    /// It claims the section before the monitor's first turn, and gives it back.
    Claims,
    /// It keeps it, and the monitor takes no more turns.
    KeepsClaim,
}

/// The answers of up to three turns.
pub(crate) type Answers = [Option<MonTurn>; 3];

/// What came of a scene.
#[derive(Drop)]
pub(crate) struct Scene {
    pub answers: Answers,
    pub monitor: Monitor,
    pub words: Words,
}

/// A turn. `Err` is one that ended with its machine.
fn go<P: Port>(monitor: &mut Monitor, port: &mut P) -> Result<MonTurn, MonTurn>
    requires with { GoesWith monitor.old (P.shows port.old) }
    ensures with { IfOk result (λ _. GoesWith monitor.new (P.shows port.new)) }
    ensures seat { IsSameSeat (P.shows port.old) (P.shows port.new) }
{
    match monitor_turn(monitor, port) {
        MonTurn::Ended(reason) => Err(MonTurn::Ended(reason)),
        MonTurn::Did => Ok(MonTurn::Did),
        MonTurn::Waiting(seen) => Ok(MonTurn::Waiting(seen)),
        MonTurn::Finished => Ok(MonTurn::Finished),
    }
}

/// Two turns behind a first one.
fn go_twice<P: Port>(monitor: &mut Monitor, port: &mut P, first: MonTurn) -> Answers
    requires with { GoesWith monitor.old (P.shows port.old) }
    ensures seat { IsSameSeat (P.shows port.old) (P.shows port.new) }
{
    match go(monitor, port) {
        Err(end) => [Some(first), Some(end), None],
        Ok(second) => match go(monitor, port) {
            Ok(third) => [Some(first), Some(second), Some(third)],
            Err(third) => [Some(first), Some(second), Some(third)],
        },
    }
}

/// Hart 0 does nothing, or prints a byte.
fn beside_output<P: Port, Q: Port>(
    monitor: &mut Monitor,
    port: &mut P,
    other: &mut Q,
    prints: bool,
) -> Answers
    requires with { GoesWith monitor.old (P.shows port.old) }
    requires other { IsFresh (Q.shows other.old) }
    ensures seat { IsSameSeat (P.shows port.old) (P.shows port.new) }
    ensures other_seat { IsSameSeat (Q.shows other.old) (Q.shows other.new) }
{
    match go(monitor, port) {
        Err(end) => [Some(end), None, None],
        Ok(first) => {
            if prints {
                match enter(other) {
                    Err(_) => {}
                    Ok(()) => {
                        let _put = put_byte(other, b'x');
                        leave(other);
                    }
                }
            }
            go_twice(monitor, port, first)
        }
    }
}

/// Hart 0 is inside.
fn beside_inside<P: Port, Q: Port>(
    monitor: &mut Monitor,
    port: &mut P,
    other: &mut Q,
    beside: Beside,
) -> Answers
    requires with { GoesWith monitor.old (P.shows port.old) }
    requires other { IsFresh (Q.shows other.old) }
    ensures seat { IsSameSeat (P.shows port.old) (P.shows port.new) }
    ensures other_seat { IsSameSeat (Q.shows other.old) (Q.shows other.new) }
{
    match enter(other) {
        Err(_) => return [None, None, None],
        Ok(()) => {}
    }
    match go(monitor, port) {
        Err(end) => [Some(end), None, None],
        Ok(first) => {
            if beside == Beside::StaysInside {
                return [Some(first), None, None];
            }
            if beside == Beside::Ends {
                set_stop(other, Reason::Pass);
            }
            leave(other);
            go_twice(monitor, port, first)
        }
    }
}

/// Hart 0 has claimed the section.
fn beside_claim<P: Port, Q: Port>(
    monitor: &mut Monitor,
    port: &mut P,
    other: &mut Q,
    keeps: bool,
) -> Answers
    requires with { GoesWith monitor.old (P.shows port.old) }
    requires other { IsFresh (Q.shows other.old) }
    ensures seat { IsSameSeat (P.shows port.old) (P.shows port.new) }
    ensures other_seat { IsSameSeat (Q.shows other.old) (Q.shows other.new) }
{
    match claim(other) {
        Err(_) => return [None, None, None],
        Ok(()) => {}
    }
    match go(monitor, port) {
        Err(end) => [Some(end), None, None],
        Ok(first) => {
            if keeps {
                return [Some(first), None, None];
            }
            release(other);
            go_twice(monitor, port, first)
        }
    }
}

fn play<P: Port, Q: Port>(
    monitor: &mut Monitor,
    port: &mut P,
    other: &mut Q,
    beside: Beside,
) -> Answers
    requires with { GoesWith monitor.old (P.shows port.old) }
    requires other { IsFresh (Q.shows other.old) }
    ensures seat { IsSameSeat (P.shows port.old) (P.shows port.new) }
    ensures other_seat { IsSameSeat (Q.shows other.old) (Q.shows other.new) }
{
    match beside {
        Beside::Nothing => beside_output(monitor, port, other, false),
        Beside::Prints => beside_output(monitor, port, other, true),
        Beside::IsInside | Beside::Ends | Beside::StaysInside => {
            beside_inside(monitor, port, other, beside)
        }
        Beside::Claims => beside_claim(monitor, port, other, false),
        Beside::KeepsClaim => beside_claim(monitor, port, other, true),
    }
}

/// A monitor with these commands, on a machine of two harts.
pub(crate) fn make_scene(
    alloc: Global,
    commands: Vec<Command>,
    beside: Beside,
) -> Result<Scene, NoMemory>
    requires { list_all (is_possible 256) commands.items ≡ true }
    ensures count { IfOk result (λ scene. length (all_words scene.words) ≡ words_of (record { harts = 2; pages = 256 })) }
{
    let mut monitor = Monitor::new(alloc, commands)?;
    let Seats {
        table,
        loader,
        first,
        second,
        monitor: third,
    } = open_seats(alloc, LAYOUT, VALUE)?;
    let mut pass = third.pass(&table);
    let mut other = first.pass(&table);
    let answers = play(&mut monitor, &mut pass, &mut other, beside);
    let third = pass.rest();
    let first = other.rest();
    let words = close_seats(table, loader, first, second, third);
    Ok(Scene {
        answers,
        monitor,
        words,
    })
}
