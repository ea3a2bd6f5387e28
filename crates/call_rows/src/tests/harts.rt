// Harts that start, stop and start again (SBI, "Hart State Management Extension").
ghost use Rattle.std.specs.Prelude.{◌≡◌, ◌≤◌, ◌<◌, IfOk, length};
ghost use Rattle.step_laws.specs.Steps.{words_of};
ghost use Rattle.guest_ram.specs.Shown.{all_words};

use super::{SUCCESS, begins, end_of, plays_on, plays_with, row};
use crate::{Came, Row, play_four};
use guest_ram::Words;
use sbi_rows::Want::{Gives, Stops};
use sbi_rows::{
    ALL, ALL_RUN, BEGIN, BEGINS, BOTH_RUN, FIRST_STARTED_AGAIN, FIRST_STOPS_FIRST, HartRow,
    LAST_STOPS_AT_LIMIT, LONE_STOP, NEVER_BEGUN, NO_ARGS, PAGES, PENDING_AT_LIMIT, PENDING_AT_STOP,
    RUNNING_AT_LIMIT, SECOND_STOPS, SECOND_STOPS_FIRST, SENT, START, STARTED, STATES, STATUS, STOP,
    STOPS_IN_NO_ORDER, Want,
};
use std::alloc::Global;
use std::process::Abort;
use std::test::Fail;
use step_laws::{
    Layout, hsm_word, ipi_word, live_word, opaque_word, run_word, start_word, stop_word,
};

fn is_success(want: Want) -> bool {
    matches!(want, Gives(_))
}

/// The steps of these harts, without those of others, which have no seat. A hart whose start is pending looks before its next call whether
/// it is to begin, and finds what the start gave.
pub(super) fn push_steps(
    rows: &mut Vec<Row>,
    seated: &[u8],
    steps: &[HartRow],
) -> Result<(), Fail> {
    let mut pending = [None; 4];
    for (hart, called, args, want) in steps {
        if !seated.contains(hart) {
            continue;
        }
        let begun = pending.get_mut(usize::from(*hart)).and_then(Option::take);
        if let Some((at, opaque)) = begun {
            rows.push(begins(*hart, Came::Began { at, opaque }))?;
        }
        let [target, at, opaque, _] = *args;
        if *called == START && is_success(*want) {
            let place = usize::try_from(target).unwrap_or(usize::MAX);
            if let Some(start) = pending.get_mut(place) {
                *start = Some((at, opaque));
            }
        }
        rows.push(row(*hart, *called, *args, false, end_of(*want)))?;
    }
    Ok(())
}

/// Plays steps of harts 0 and 1, of so many.
fn steps_play(rt: &impl Abort, alloc: Global, harts: u8, steps: &[HartRow]) -> Result<Words, Fail>
    requires some { 1 ≤ harts }
    requires most { harts ≤ 8 }
    ensures { IfOk result (λ words. length (all_words words) ≡ words_of (record { harts = 8; pages = 1024 })) }
{
    let mut rows = Vec::new(alloc);
    push_steps(&mut rows, &[0, 1], steps)?;
    plays_on(rt, alloc, harts, &rows)
}

/// Plays steps of all of four harts.
fn four_play(rt: &impl Abort, alloc: Global, steps: &[HartRow]) -> Result<Words, Fail>
    ensures { IfOk result (λ words. length (all_words words) ≡ words_of (record { harts = 8; pages = 1024 })) }
{
    let mut rows = Vec::new(alloc);
    push_steps(&mut rows, &[0, 1, 2, 3], steps)?;
    let layout = Layout {
        harts: 4,
        pages: PAGES,
    };
    let (right, words) = play_four(alloc, layout, &[], &rows)?;
    assert_eq!(rt; right, rows.len());
    Ok(words)
}

/// How many harts are not stopped, the states of harts 0 and 1, and why the machine has ended.
fn compare(rt: &impl Abort, words: &Words, live: u64, states: [u64; 2], stop: u64)
    requires { length (all_words words.now) ≡ words_of (record { harts = 8; pages = 1024 }) }
{
    assert_eq!(rt; words.get(live_word()), live);
    assert_eq!(rt; [words.get(hsm_word(0)), words.get(hsm_word(1))], states);
    assert_eq!(rt; words.get(stop_word()), stop);
}

/// The same of four harts.
fn compare_four(rt: &impl Abort, words: &Words, live: u64, states: [u64; 4], stop: u64)
    requires { length (all_words words.now) ≡ words_of (record { harts = 8; pages = 1024 }) }
{
    assert_eq!(rt; words.get(live_word()), live);
    let found = [
        words.get(hsm_word(0)),
        words.get(hsm_word(1)),
        words.get(hsm_word(2)),
        words.get(hsm_word(3)),
    ];
    assert_eq!(rt; found, states);
    assert_eq!(rt; words.get(stop_word()), stop);
}

/// All harts are stopped: what STOP has then.
const ALL_STOPPED: u64 = 5;

#[test]
fn harts_go_through_their_states(rt: HostRuntime) -> Result<(), Fail> {
    let words = steps_play(&rt, rt.alloc(), 2, &STATES)?;
    compare(&rt, &words, 2, [0, 0], 0);
    assert_eq!(rt; words.get(start_word(1)), BEGIN);
    // the fifth call of hart 1's list
    assert_eq!(rt; words.get(opaque_word(1)), 0x8003_1100);
    Ok(())
}

// A hart looks in vain before its start; it begins a second life elsewhere, with another value.
#[test]
fn a_second_life_begins_elsewhere(rt: HostRuntime) -> Result<(), Fail> {
    let rows = [
        begins(1, Came::Nothing),
        row(0, START, [1, BEGIN, 77, 0], false, SUCCESS),
        begins(
            1,
            Came::Began {
                at: BEGIN,
                opaque: 77,
            },
        ),
        row(1, STOP, NO_ARGS, false, end_of(Stops)),
        begins(1, Came::Nothing),
        row(0, START, [1, BEGIN + 4, ALL, 0], false, SUCCESS),
        row(0, STATUS, [1, 0, 0, 0], false, end_of(Gives(2))),
        begins(
            1,
            Came::Began {
                at: BEGIN + 4,
                opaque: ALL,
            },
        ),
        row(1, STATUS, [0, 0, 0, 0], false, SUCCESS),
        row(0, STATUS, [1, 0, 0, 0], false, SUCCESS),
    ];
    let words = plays_on(&rt, rt.alloc(), 2, &rows)?;
    compare(&rt, &words, 2, [0, 0], 0);
    assert_eq!(rt; words.get(start_word(1)), BEGIN + 4);
    assert_eq!(rt; words.get(opaque_word(1)), ALL);
    Ok(())
}

#[test]
fn the_first_hart_stops_and_starts(rt: HostRuntime) -> Result<(), Fail> {
    let words = steps_play(&rt, rt.alloc(), 2, &FIRST_STARTED_AGAIN)?;
    compare(&rt, &words, 0, [1, 1], ALL_STOPPED);
    Ok(())
}

#[test]
fn the_last_to_stop_ends_the_machine(rt: HostRuntime) -> Result<(), Fail> {
    let alloc = rt.alloc();
    for steps in [
        FIRST_STOPS_FIRST.as_slice(),
        SECOND_STOPS_FIRST.as_slice(),
        PENDING_AT_STOP.as_slice(),
    ] {
        let words = steps_play(&rt, alloc, 2, steps)?;
        compare(&rt, &words, 0, [1, 1], ALL_STOPPED);
    }
    Ok(())
}

// Harts that were never started are stopped.
#[test]
fn a_lone_hart_ends_the_machine(rt: HostRuntime) -> Result<(), Fail> {
    let alloc = rt.alloc();
    for steps in [LONE_STOP, LAST_STOPS_AT_LIMIT] {
        let words = steps_play(&rt, alloc, 1, &steps)?;
        compare(&rt, &words, 0, [1, 0], ALL_STOPPED);
        for harts in [2, 4, 8] {
            let words = steps_play(&rt, alloc, harts, &steps)?;
            compare(&rt, &words, 0, [1, 1], ALL_STOPPED);
        }
    }
    Ok(())
}

#[test]
fn harts_run_or_stand_still(rt: HostRuntime) -> Result<(), Fail> {
    let alloc = rt.alloc();
    for (steps, live, states) in [
        (NEVER_BEGUN.as_slice(), 1, [0, 1]),
        (STARTED.as_slice(), 2, [0, 2]),
        (BOTH_RUN.as_slice(), 2, [0, 0]),
        (SECOND_STOPS.as_slice(), 1, [0, 1]),
        (PENDING_AT_LIMIT.as_slice(), 1, [1, 2]),
        (RUNNING_AT_LIMIT.as_slice(), 1, [1, 0]),
    ] {
        let words = steps_play(&rt, alloc, 2, steps)?;
        compare(&rt, &words, live, states, 0);
    }
    Ok(())
}

#[test]
fn harts_begin_with_what_they_were_given(rt: HostRuntime) -> Result<(), Fail> {
    for (hart, at, opaque) in BEGINS {
        let target = u64::from(hart);
        let rows = [
            row(0, START, [target, at, opaque, 0], false, SUCCESS),
            row(0, STATUS, [target, 0, 0, 0], false, end_of(Gives(2))),
            begins(hart, Came::Began { at, opaque }),
            row(0, STATUS, [target, 0, 0, 0], false, SUCCESS),
        ];
        assert!(rt; 1 <= hart && hart < 4, "a hart that there is");
        let words = plays_with(&rt, rt.alloc(), 4, hart, &rows)?;
        assert_eq!(rt; words.get(live_word()), 2);
        assert_eq!(rt; words.get(start_word(hart)), at);
        assert_eq!(rt; words.get(opaque_word(hart)), opaque);
    }
    Ok(())
}

// A third hart has no seat. Where all run, each of the others has one in its turn.
#[test]
fn harts_start_one_another(rt: HostRuntime) -> Result<(), Fail> {
    let alloc = rt.alloc();
    for (second, states) in [(1, [0, 0, 2, 2]), (2, [0, 2, 0, 2]), (3, [0, 2, 2, 0])] {
        let mut rows = Vec::new(alloc);
        push_steps(&mut rows, &[0, second], &ALL_RUN)?;
        assert!(rt; 1 <= second && second < 4, "a hart that there is");
        let words = plays_with(&rt, alloc, 4, second, &rows)?;
        compare_four(&rt, &words, 4, states, 0);
    }
    Ok(())
}

// Hart 3 starts hart 1, whose start stays pending: it is not stopped, so the other two may stop in any order.
#[test]
fn two_of_four_stop(rt: HostRuntime) -> Result<(), Fail> {
    let mut rows = Vec::new(rt.alloc());
    push_steps(&mut rows, &[0, 3], &STOPS_IN_NO_ORDER)?;
    let words = plays_with(&rt, rt.alloc(), 4, 3, &rows)?;
    compare_four(&rt, &words, 1, [1, 2, 1, 1], 0);
    Ok(())
}

// Each of the four is started by another, begins, and stops. The last to stop ends the machine.
#[test]
fn harts_stop_in_no_order(rt: HostRuntime) -> Result<(), Fail> {
    let words = four_play(&rt, rt.alloc(), &STOPS_IN_NO_ORDER)?;
    compare_four(&rt, &words, 0, [1, 1, 1, 1], ALL_STOPPED);
    for (hart, start, opaque) in [
        (0, 0, 0),
        (1, BEGIN, 0x8003_1000),
        (2, BEGIN, 0x8003_2000),
        (3, BEGIN, 0x8003_3000),
    ] {
        assert_eq!(rt; words.get(start_word(hart)), start);
        assert_eq!(rt; words.get(opaque_word(hart)), opaque);
        // each entered for its calls, and has left
        assert_eq!(rt; words.get(run_word(hart)), 0);
    }
    Ok(())
}

// All four run, and so each of them calls.
#[test]
fn one_hart_starts_all(rt: HostRuntime) -> Result<(), Fail> {
    let words = four_play(&rt, rt.alloc(), &ALL_RUN)?;
    compare_four(&rt, &words, 4, [0, 0, 0, 0], 0);
    Ok(())
}

// One sent to a hart that has not begun, or is stopped, is a success too.
#[test]
fn interrupts_are_sent_to_any_hart(rt: HostRuntime) -> Result<(), Fail> {
    let words = steps_play(&rt, rt.alloc(), 2, &SENT)?;
    compare(&rt, &words, 1, [0, 1], 0);
    assert_eq!(rt; words.get(ipi_word()), 3);
    Ok(())
}
