//! Tests of the loader over a real table: which words hold what when a machine begins.
#![tactic(auto)]

#[cfg(test)]
mod tests;
