//! Scripts that are read and done, with what they leave.

ghost use Rattle.std.specs.Prelude.{◌≡◌, IfOk, length};
ghost use Rattle.step_laws.specs.Steps.{words_of};
ghost use Rattle.guest_ram.specs.Shown.{all_words};

use crate::scenes::{Answers, Beside, LAYOUT, Scene, make_scene};
use guest_ram::Seen;
use machine_model::Reason;
use monitor::{MonTurn, Outcome};
use monitor_script::read_script;
use std::alloc::Global;
use std::test::Fail;
use step_laws::{cons_word, done_word, kick_word, pend_word, run_word, stop_word};

/// A script, done beside a hart.
fn done(alloc: Global, text: &[u8], beside: Beside) -> Result<Scene, Fail>
    ensures count { IfOk result (λ scene. length (all_words scene.words) ≡ words_of (record { harts = 2; pages = 256 })) }
{
    let commands = read_script(alloc, text, LAYOUT.pages)?;
    Ok(make_scene(alloc, commands, beside)?)
}

fn waits(word: u32, value: u64) -> Option<MonTurn> {
    Some(MonTurn::Waiting(Seen { word, value }))
}

// The monitor is actor 8.
#[test]
fn turns_end_as_the_script_says(rt: HostRuntime) -> Result<(), Fail> {
    let did = Some(MonTurn::Did);
    let finished = Some(MonTurn::Finished);
    let rows: [(&[u8], Beside, Answers); 12] = [
        (b"", Beside::Nothing, [finished, finished, finished]),
        (b"await 0", Beside::Nothing, [did, finished, finished]),
        (
            b"stop\nawait 9",
            Beside::Nothing,
            [did, Some(MonTurn::Ended(Reason::Stopped)), None],
        ),
        (
            b"await 1",
            Beside::Nothing,
            [
                waits(cons_word(), 0),
                waits(cons_word(), 0),
                waits(cons_word(), 0),
            ],
        ),
        (
            b"await 1\nawait 2",
            Beside::Prints,
            [waits(cons_word(), 0), did, waits(cons_word(), 1)],
        ),
        (
            b"await 1\nstop",
            Beside::Prints,
            [waits(cons_word(), 0), did, did],
        ),
        (
            b"dump 0x80000080 8\ndump 0x80000000 1",
            Beside::Nothing,
            [did, did, finished],
        ),
        (
            b"dump 0x80000080 8",
            Beside::IsInside,
            [waits(run_word(0), 1), did, finished],
        ),
        (
            b"dump 0x80000080 8",
            Beside::Ends,
            [
                waits(run_word(0), 1),
                Some(MonTurn::Ended(Reason::Pass)),
                None,
            ],
        ),
        (
            b"dump 0x80000080 8",
            Beside::Claims,
            [waits(pend_word(), 1), did, finished],
        ),
        (
            b"await 0",
            Beside::Claims,
            [waits(pend_word(), 1), did, finished],
        ),
        (b"await 0", Beside::IsInside, [did, finished, finished]),
    ];
    for (text, beside, answers) in rows {
        assert_eq!(rt; done(rt.alloc(), text, beside)?.answers, answers);
    }
    Ok(())
}

// DONE is 1 behind the last step, STOP 6 where the script says stop and 1 where the guest passed. PEND has the claimant's number and 1.
#[test]
fn words_are_left_so(rt: HostRuntime) -> Result<(), Fail> {
    let rows: [(&[u8], Beside, [u64; 6]); 8] = [
        (b"", Beside::Nothing, [1, 0, 0, 0, 0, 0]),
        (b"stop", Beside::Nothing, [1, 6, 0, 0, 0, 0]),
        (b"await 1", Beside::Nothing, [0, 0, 0, 0, 0, 0]),
        (
            b"dump 0x80000080 8\nawait 1",
            Beside::Nothing,
            [0, 0, 0, 1, 1, 0],
        ),
        // a claim calls both harts out, and stays while the dump waits
        (
            b"dump 0x80000080 8",
            Beside::StaysInside,
            [0, 0, 9, 1, 1, 0],
        ),
        // what can't be claimed calls nobody out: hart 1 was called by hart 0
        (b"dump 0x80000080 8", Beside::KeepsClaim, [0, 0, 1, 0, 1, 0]),
        (b"await 0", Beside::KeepsClaim, [0, 0, 1, 0, 1, 0]),
        // a dump that waits gives the section back at the machine's end
        (b"dump 0x80000080 8", Beside::Ends, [1, 1, 0, 1, 1, 0]),
    ];
    for (text, beside, wanted) in rows {
        let words = done(rt.alloc(), text, beside)?.words;
        let left = [
            words.get(done_word(8)),
            words.get(stop_word()),
            words.get(pend_word()),
            words.get(kick_word(0)),
            words.get(kick_word(1)),
            words.get(run_word(8)),
        ];
        assert_eq!(rt; left, wanted);
    }
    Ok(())
}

// The 8 bytes from 0x80000080 on are 1 to 8, and all others of RAM 0.
#[test]
fn dumps_keep_bytes(rt: HostRuntime) -> Result<(), Fail> {
    let text = b"dump 0x80000083 9\ndump 0x8000007f 2";
    let made = done(rt.alloc(), text, Beside::Nothing)?;
    let outcomes = [
        Outcome::Bytes {
            at: 0x8000_0083,
            len: 9,
            from: 0,
        },
        Outcome::Bytes {
            at: 0x8000_007f,
            len: 2,
            from: 9,
        },
    ];
    assert_eq!(rt; made.monitor.outcomes(), outcomes.as_slice());
    assert_eq!(rt;
        made.monitor.bytes(),
        [4, 5, 6, 7, 8, 0, 0, 0, 0, 0, 1].as_slice()
    );
    Ok(())
}

#[test]
fn the_longest_dump_is_whole(rt: HostRuntime) -> Result<(), Fail> {
    let made = done(rt.alloc(), b"dump 0x80000001 4096", Beside::Nothing)?;
    assert_eq!(rt;
        made.answers,
        [
            Some(MonTurn::Did),
            Some(MonTurn::Finished),
            Some(MonTurn::Finished)
        ]
    );
    let bytes = made.monitor.bytes();
    assert_eq!(rt; bytes.len(), 4_096);
    assert_eq!(rt; bytes[126], 0);
    assert_eq!(rt; &bytes[127..135], [1, 2, 3, 4, 5, 6, 7, 8].as_slice());
    Ok(())
}

#[test]
fn a_dump_that_waits_has_kept_nothing(rt: HostRuntime) -> Result<(), Fail> {
    let made = done(rt.alloc(), b"dump 0x80000080 8", Beside::StaysInside)?;
    assert_eq!(rt; made.monitor.outcomes().len(), 0);
    assert_eq!(rt; made.monitor.bytes().len(), 0);
    Ok(())
}
