//! What the lines of an assembler's text say: labels, names and operands, by one table of mnemonics.
#![tactic(auto)]

mod faults;
mod lines;
mod mnemonic;
mod numbers;
mod reading;
mod registers;
mod statement;
mod values;

pub use faults::Fault;
pub use lines::{behind_label, body_of, label_of, name_and_operands};
pub use mnemonic::{Coded, Form, Mnemonic, form_of, name_of};
pub use numbers::{Number, number_of};
pub use reading::next_number;
pub use statement::{Action, Line, line_of};
pub use values::{Kind, Target, Value, Values};
