//! The dirty bits of RAM's pages, 64 pages a word: harts mark the pages that they store on, and the monitor takes the marks.
#![tactic(auto)]

mod dirty;

pub use dirty::{is_marked, mark, take_word};
