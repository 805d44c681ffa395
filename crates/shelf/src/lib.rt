//! A shelf of eight tables: a directory that holds how many states and letters each has, and the calls that make, read
//! and clear tables in memory that the caller lends.
#![tactic(auto)]

mod checks;
mod clearing;
pub mod directory;
pub mod entry;
mod making;
pub mod memory;
mod performing;
mod place;
mod reading;
pub mod theorems;
