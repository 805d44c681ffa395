//! The result of packing a table.
use book::verdict::Verdict;

/// The state counts of the table and of the packed table, how many bytes the packed text has, and the verdict on the two
/// tables.
#[derive(Clone, Copy)]
pub struct Packed {
    pub before: usize,
    pub after: usize,
    pub bytes: usize,
    pub verdict: Verdict,
}
