//! Entries of a TLB: their compare words, what they hold of a leaf, and what a hart knows of its own table.
#![tactic(auto)]

mod books;
mod entries;
mod laws;

pub use books::{Book, Hit};
pub use entries::{Entry, compare_field, entry_of, hits};
pub use laws::law_entry_words;
