//! Rows in echelon form: each has one at its pivot, and every later row has zero there.
#![tactic(auto)]

pub mod echelon;
