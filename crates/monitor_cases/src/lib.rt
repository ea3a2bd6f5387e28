//! Turns of the monitor over a real table: what it answers, keeps and leaves in the words, beside a hart.
#![tactic(auto)]

#[cfg(test)]
mod scenes;
#[cfg(test)]
mod tests;
