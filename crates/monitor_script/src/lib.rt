//! The text of a monitor's script, and the commands that it spells.
#![tactic(auto)]

mod scripts;
#[cfg(test)]
mod tests;

pub use scripts::{Command, ScriptErr, read_script};
