//! Tests of the assembler: texts with the words that they give, and texts with a fault.
//! Expected words are those that GNU as makes of the same lines, or that the standard gives.
#![tactic(auto)]

#[cfg(test)]
mod faults;
#[cfg(test)]
mod files;
#[cfg(test)]
mod words;
