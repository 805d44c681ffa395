//! The backward pass of a reduction, which finds columns that span the columns of all words. What a reduction finds lies in lent
//! slices that do not overlap.
#![tactic(auto)]

use arrayvec::ArrayVec;

pub mod backward;

/// How many elements a column or row of at most 16 takes.
pub const WIDTH: usize = 16;

/// The pivots of the rows in echelon form, one for each vector that is found.
pub type Pivots = ArrayVec<usize, 32>;
