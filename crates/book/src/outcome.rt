//! What comes of a call.
use crate::refusal::Refusal;
use crate::verdict::Verdict;

/// What an accepted call returns: weigh a code, compare a copy of the verdict that it wrote, write a count of bytes, and
/// every other call nothing. The verdict is copied because several compares in a list may write into one record.
#[derive(Clone, Copy, Debug, PartialEq, Eq)]
pub enum Answer {
    Done,
    Code(u64),
    Told(Verdict),
    Count(usize),
}

/// A call is accepted, with its answer, or refused.
pub type Outcome = Result<Answer, Refusal>;
