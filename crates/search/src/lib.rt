//! The comparison of two tables, and the word that it reports. It knows nothing of places, entries or refusals.
#![tactic(auto)]

pub mod compare;
pub mod word;
