//! Sections: who enters works beside others; who claims the section, and finds all others outside, is alone until it is released.
#![tactic(auto)]

mod claiming;
mod entering;
mod kicking;

pub use claiming::{all_out, claim, release};
pub use entering::{enter, leave};
pub use guest_ram::Seen;
pub use kicking::kick;
