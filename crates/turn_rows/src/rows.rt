// What turns are to come to.

use hart_turn::TurnEnd;

/// So many turns of a hart, one behind another, each of which is to end so, and in so many steps where that is said.
#[derive(Clone, Copy, Debug)]
pub struct Row {
    pub hart: u8,
    pub times: u32,
    pub to: TurnEnd,
    pub steps: Option<u64>,
}
