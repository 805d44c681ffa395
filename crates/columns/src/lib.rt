//! The lines of a column text: numbers in columns, the kinds of lines, and which is due.
#![tactic(auto)]

pub mod column;
pub mod line;
pub mod theorems;
