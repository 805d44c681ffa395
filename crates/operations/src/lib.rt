//! The tables that sum, scale, multiply, after and turn define, each written into a slice that is exactly as long, from
//! tables that are only read.
#![tactic(auto)]

pub mod addition;
pub mod adjusting;
pub mod multiplication;
pub mod turning;
