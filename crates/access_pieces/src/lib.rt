//! What an access of `guest_access` is to its hart's log of steps and events: the execution of its instruction, placed among its steps.
#![tactic(auto)]

mod laws;

pub use laws::{
    law_give_ups, law_loads, law_operations, law_reservations, law_stores, law_translations,
};
