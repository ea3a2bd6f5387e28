//! Tests of the reference machine itself: turns, traps, page tables and SBI calls. Expected values come from the RISC-V ISA manual and
//! the SBI.
#![tactic(auto)]

#[cfg(test)]
mod machine;
#[cfg(test)]
mod sbi;
#[cfg(test)]
mod supervisor;
