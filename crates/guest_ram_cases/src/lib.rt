//! Callers of a port, and a machine with two harts on two threads.
#![tactic(auto)]

mod booting;
mod claiming;
mod draining;
mod ending;
mod entering;
mod exchanging;
mod filling;
mod inside;
mod kicking;
mod locking;
mod looking;
mod marking;
mod operating;
mod posting;
mod ringing;
mod running;
mod seating;
mod serving;
mod sizing;
mod snapshotting;
mod starting;
mod sweeping;
mod threads;
mod touring;
mod tracking;

pub use booting::{boot_ram, boot_words};
pub use claiming::{all_out, claim, release};
pub use draining::{await_drain, drain};
pub use ending::{begin_turn, end_machine, sign_off};
pub use entering::{enter, leave};
pub use exchanging::{Rings, are_done, post_flushes, ring_tour, serve_flushes};
pub use filling::{Entry, fill};
pub use inside::{add_to_row, interrupt, put_byte, read_console};
pub use kicking::{kick, take_kick};
pub use locking::{lock, unlock};
pub use looking::{first_size, write_word};
pub use marking::{dirty_slot, mark};
pub use operating::{combine_all, store_all};
pub use posting::{poll_done, post};
pub use ringing::{post_drains, serve_drains};
pub use running::{Started, run_and_stop, start_tour, start_twice, stop_last};
pub use seating::{Seats, close_seats, open_seats};
pub use serving::{serve_drain, serve_flush};
pub use sizing::double_size;
pub use snapshotting::{await_drains, begin_snapshot};
pub use starting::{hart_state, start_hart, stop_self, take_start};
pub use sweeping::{sweep, take_words};
pub use threads::{two_harts, visit};
pub use touring::tour;
pub use tracking::{Tracked, dirty_victim, snapshot_tour, store_on_page, wait_for_both};

#[cfg(test)]
mod tests;
