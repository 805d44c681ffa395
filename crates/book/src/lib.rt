//! What the calls on a shelf of tables mean, and the law that every list of them follows. Here are the types of calls,
//! outcomes and verdicts; the crate `shelf` carries out the calls. A theorem is a function without arguments that does
//! nothing: its contract is the theorem.
#![tactic(auto)]

pub mod call;
pub mod outcome;
pub mod refusal;
pub mod theorems;
pub mod verdict;
