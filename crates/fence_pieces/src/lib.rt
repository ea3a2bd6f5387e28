//! What a remote fence of `sbi_calls` is to the log of the hart that makes it: what it asked others for, its own flushes, its turns, and
//! its execution once it is done.
#![tactic(auto)]

mod laws;

pub use laws::{law_asked, law_asks, law_behind, law_done, law_own, law_turns};
