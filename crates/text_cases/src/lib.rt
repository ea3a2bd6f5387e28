//! Tests of the commands on texts of guests, by whole calls of the program's top with files and output in memory.
//! Expected words are those that GNU as makes of the same lines.
#![tactic(auto)]

#[cfg(test)]
mod assembling;
#[cfg(test)]
mod call;
#[cfg(test)]
mod generating;
#[cfg(test)]
mod listing;
#[cfg(test)]
mod refusals;
