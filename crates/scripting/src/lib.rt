//! Scripts of calls on a shelf: a text with a call to a line is read whole, then performed, and each outcome is shown.
#![tactic(auto)]

pub mod mistake;
pub mod order;
pub mod outcomes;
pub mod performing;
pub mod reading;
pub mod verb;
pub mod words;
