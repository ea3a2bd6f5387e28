// A fence of 130 pages goes in three pieces, each of which the other hart serves in its own time.
use crate::serve_tour;
use guest_ram::Seen;
use request_serving::Serving::{Idle, Served};
use sbi_calls::Fencing::{Done, Waiting};
use std::test::Fail;
use step_laws::{Layout, lock_word};

#[test]
fn a_fence_is_served_piece_by_piece(rt: HostRuntime) -> Result<(), Fail> {
    let layout = Layout {
        harts: 2,
        pages: 256,
    };
    let (words, turns) = serve_tour(rt.alloc(), layout)?;
    // two pieces of 64 pages and one of 2, in the first three places of hart 0 at hart 1
    let pieces = [(224, 0x1202), (225, 0x4_1202), (226, 0x8_1012)].map(|(word, value)| Waiting(
        Seen { word, value },
    ));
    assert_eq!(rt; turns.fencing, [pieces[0], pieces[1], pieces[2], Done]);
    assert_eq!(rt; turns.serving, [Served, Served, Served, Idle]);
    assert_eq!(rt; [words.get(224), words.get(225), words.get(226)], [0, 0, 0]);
    assert_eq!(rt; words.get(lock_word(1)), 0);
    Ok(())
}
