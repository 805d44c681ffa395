//! The walk through the tried words of two tables, which keeps words and stops at the first that weighs differently.
#![tactic(auto)]

pub mod links;
pub mod pairs;
pub mod walk;
