//! The column text of a sequence table: its reader, and what holds of every text.
#![tactic(auto)]

mod lines;
pub mod matrix;
pub mod table;
pub mod theorems;
