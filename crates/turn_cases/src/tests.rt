// What claims and requests answer, and the words that they leave.
use crate::{Asked, Claims, ask_tour, fence_tour, section_tour};
use guest_ram::Seen;
use sbi_calls::Fencing;
use std::test::Fail;
use step_laws::{
    Layout, TlbField, kick_word, lock_word, pend_word, place_word, run_word, tlb_word,
};
use work_queue::{Request, request_word};

const TWO_HARTS: Layout = Layout {
    harts: 2,
    pages: 256,
};

fn seen(word: u32, value: u64) -> Option<Seen> {
    Some(Seen { word, value })
}

#[test]
fn a_hart_inside_is_waited_for_and_kicked(rt: HostRuntime) -> Result<(), Fail> {
    let (words, claims) = section_tour(rt.alloc(), TWO_HARTS)?;
    // RUN of hart 1 is word 24, PEND is word 1 and holds hart 0's number and 1
    let wanted = Claims {
        enters: None,
        claims: None,
        waits: seen(24, 1),
        second: seen(1, 1),
        again: seen(1, 1),
        alone: None,
    };
    assert!(rt; claims == wanted);
    assert_eq!(rt; words.get(kick_word(1)), 1);
    assert_eq!(rt; words.get(kick_word(0)), 0);
    // the entry that was refused has left RUN 0, and the section is given back
    assert_eq!(rt; words.get(run_word(1)), 0);
    assert_eq!(rt; words.get(pend_word()), 0);
    Ok(())
}

#[test]
fn a_full_ring_refuses_the_ninth(rt: HostRuntime) -> Result<(), Fail> {
    let (words, asked) = ask_tour(rt.alloc(), TWO_HARTS)?;
    // the places of hart 0 at hart 1 are words 224 to 231; those of the monitor there are words 288 to 295
    let wanted = Asked {
        posted: 8,
        full: seen(224, 0x1202),
        open: seen(224, 0x1202),
        asked: Some(Request::FlushPages { page: 1, count: 64 }),
        drains: [None, Some(Request::Drain), None],
        polls: [seen(288, 3), None],
    };
    assert!(rt; asked == wanted);
    assert_eq!(rt; words.get(224), 0x1202);
    assert_eq!(rt; words.get(225), 0x41202);
    assert_eq!(rt; words.get(231), 0x1c1202);
    assert_eq!(rt; words.get(place_word(1, 8, 0)), 0);
    // posts call their target out
    assert_eq!(rt; words.get(kick_word(1)), 1);
    Ok(())
}

#[test]
fn requests_are_words(rt: HostRuntime) {
    let rows = [
        (Request::FlushAll, 0x1),
        (Request::FlushPages { page: 1, count: 1 }, 0x100a),
        (
            Request::FlushPages {
                page: 0xf_ffff_c000_0000,
                count: 64,
            },
            0xffff_fc00_0000_0202,
        ),
        (Request::Drain, 0x3),
    ];
    for (request, word) in rows {
        assert_eq!(rt; request_word(&request), word);
    }
}

#[test]
fn a_fence_is_posted_in_pieces(rt: HostRuntime) -> Result<(), Fail> {
    // 130 pages from page 1 on, at hart 1: two pieces of 64 pages and one of 2
    let (words, fencing) = fence_tour(rt.alloc(), TWO_HARTS, 2)?;
    let wanted = Fencing::Waiting(Seen {
        word: 224,
        value: 0x1202,
    });
    assert!(rt; fencing == wanted);
    assert_eq!(rt; words.get(224), 0x1202);
    assert_eq!(rt; words.get(225), 0x41202);
    assert_eq!(rt; words.get(226), 0x81012);
    assert_eq!(rt; words.get(227), 0);
    assert_eq!(rt; words.get(kick_word(1)), 1);
    // both harts: the own one is flushed at once, and the other's place awaited
    let (words, fencing) = fence_tour(rt.alloc(), TWO_HARTS, 3)?;
    assert!(rt; fencing == wanted);
    assert_eq!(rt; words.get(lock_word(0)), 0);
    // the own hart alone: done in one turn, and nobody is asked or called
    let (words, fencing) = fence_tour(rt.alloc(), TWO_HARTS, 1)?;
    assert!(rt; fencing == Fencing::Done);
    assert_eq!(rt; words.get(224), 0);
    assert_eq!(rt; words.get(kick_word(1)), 0);
    assert_eq!(rt; words.get(tlb_word(0, 1, TlbField::Read)), 1);
    // none
    let (_, fencing) = fence_tour(rt.alloc(), TWO_HARTS, 0)?;
    assert!(rt; fencing == Fencing::Done);
    Ok(())
}
