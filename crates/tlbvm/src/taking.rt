// The turns of an order, one by one.
ghost use Rattle.std.specs.Prelude.{◌≡◌, ◌<◌, ◌≤◌, None, length, replicate};
ghost use Rattle.ref_machine.specs.Ran.{Ran};
ghost use Rattle.tlbvm.specs.Turns.{hart_turns, harts_once, item_turns, rounds, turns_of, AreThere, IsItemThere};

use crate::items::Item;
use ref_machine::{PlainMachine, Reason};

/// Takes so many turns of a hart, or fewer where the machine ends; answers its first reason.
fn take_times(machine: &mut PlainMachine, hart: u8, count: u64) -> Option<Reason>
    requires hart { hart < machine.old.shared.layout.harts }
    requires going { machine.old.shared.reason ≡ None }
    ensures ran { Ran (replicate count hart) machine.old machine.new }
    ensures reason { result ≡ machine.new.shared.reason }
    ensures layout { machine.new.shared.layout ≡ machine.old.shared.layout }
{
    let mut left = count;
    while left > 0 {
        let taken = machine.run(hart, left);
        left -= taken;
        if left > 0 {
            if let Some(reason) = machine.turn(hart) {
                return Some(reason);
            }
            left -= 1;
        }
    }
    None
}

/// Takes a turn of each hart in order, and none of the monitor.
fn take_round(machine: &mut PlainMachine, harts: u8) -> Option<Reason>
    requires harts { harts ≡ machine.old.shared.layout.harts }
    requires going { machine.old.shared.reason ≡ None }
    ensures ran { Ran (harts_once harts) machine.old machine.new }
    ensures reason { result ≡ machine.new.shared.reason }
    ensures layout { machine.new.shared.layout ≡ machine.old.shared.layout }
{
    for hart in 0..harts {
        if let Some(reason) = take_times(machine, hart, 1) {
            return Some(reason);
        }
    }
    None
}

fn take_rounds(machine: &mut PlainMachine, harts: u8, count: u64) -> Option<Reason>
    requires few { harts ≤ 8 }
    requires harts { harts ≡ machine.old.shared.layout.harts }
    requires going { machine.old.shared.reason ≡ None }
    ensures ran { Ran (hart_turns (rounds harts count)) machine.old machine.new }
    ensures reason { result ≡ machine.new.shared.reason }
    ensures layout { machine.new.shared.layout ≡ machine.old.shared.layout }
{
    for _round in 0..count {
        if let Some(reason) = take_round(machine, harts) {
            return Some(reason);
        }
    }
    None
}

fn take_item(machine: &mut PlainMachine, harts: u8, item: &Item) -> Option<Reason>
    requires few { harts ≤ 8 }
    requires harts { harts ≡ machine.old.shared.layout.harts }
    requires there { IsItemThere harts item.now }
    requires going { machine.old.shared.reason ≡ None }
    ensures ran { Ran (hart_turns (item_turns harts item.now)) machine.old machine.new }
    ensures reason { result ≡ machine.new.shared.reason }
    ensures layout { machine.new.shared.layout ≡ machine.old.shared.layout }
{
    match *item {
        Item::Hart { hart, turns } => take_times(machine, hart, turns),
        Item::Monitor { .. } => None,
        Item::Rounds { rounds } => take_rounds(machine, harts, rounds),
    }
}

/// Takes the turns of an order, or fewer where the machine ends; answers its first reason.
pub(crate) fn take_turns(machine: &mut PlainMachine, harts: u8, items: &[Item]) -> Option<Reason>
    requires few { harts ≤ 8 }
    requires harts { harts ≡ machine.old.shared.layout.harts }
    requires there { AreThere harts items.now }
    requires going { machine.old.shared.reason ≡ None }
    ensures ran { Ran (hart_turns (turns_of harts items.now)) machine.old machine.new }
    ensures reason { result ≡ machine.new.shared.reason }
    ensures layout { machine.new.shared.layout ≡ machine.old.shared.layout }
{
    for item in items {
        if let Some(reason) = take_item(machine, harts, item) {
            return Some(reason);
        }
    }
    None
}
