//! Tests of the lines and orders that the program reads, beside a well-kept reader of command lines, and of the lines that it says at its
//! end.
#![tactic(auto)]

#[cfg(test)]
mod items;
#[cfg(test)]
mod lines;
#[cfg(test)]
mod statuses;
#[cfg(test)]
mod texts;
#[cfg(test)]
mod words;
