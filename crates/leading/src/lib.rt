//! The forward pass of a reduction, which finds the leading words and their coefficients through the spanning columns.
#![tactic(auto)]

pub mod forward;
mod tracking;
pub mod vectors;
pub mod view;
