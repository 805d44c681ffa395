//! A shelf with the memory that its calls are lent, and checks of what the calls come to.
ghost use Rattle.std.specs.Prelude.{◌≡◌, length};

use crate::calls::{load, sum};
use crate::texts::{ONES, PAIR};
use book::call::{Call, Request};
use book::outcome::{Answer, Outcome};
use book::refusal::Refusal;
use book::verdict::{Kind, Verdict};
use columns::column::put_number;
use field::Field;
use shelf::directory::Directory;
use shelf::memory::{SHELF, WORK};
use std::process::Abort;
use writer::LONGEST;

/// How much of the bench's memory a call is lent, from the front.
#[derive(Clone, Copy)]
pub struct Lent {
    pub shelf: usize,
    pub work: usize,
    pub output: usize,
}

/// All that the bench has: what the largest call asks for.
pub const ALL: Lent = Lent {
    shelf: SHELF,
    work: WORK,
    output: LONGEST,
};

/// No memory.
pub const NOTHING: Lent = Lent {
    shelf: 0,
    work: 0,
    output: 0,
};

/// An accepted call that returns nothing.
pub const DONE: Outcome = Ok(Answer::Done);

/// A verdict record that no compare writes.
pub const ODD_VERDICT: Verdict = Verdict {
    kind: Kind::Other(9),
    tried: 9,
    kept: 9,
    length: 9,
    first: 9,
    second: 9,
    letters: [77; 31],
};

/// The directory of a shelf, all that its calls are lent, and the handle that assertions need.
#[derive(Drop)]
pub struct Bench<F, A> {
    pub rt: A,
    directory: Directory,
    // Arrays of fixed size, as a caller without a heap lends them; two of elements, since a call reads shelf memory while it
    // writes work memory.
    pub shelf: [F; SHELF],
    work: [F; WORK],
    pub output: [u8; LONGEST],
    pub verdict: Verdict,
}

impl<F: Field, A: Abort + Copy> Bench<F, A> {
    /// A bench without a table, and with an output of nothing but this byte.
    pub fn new(rt: A, byte: u8) -> Bench<F, A> {
        Bench {
            rt,
            directory: Directory::open(),
            shelf: [F::zero(); SHELF],
            work: [F::zero(); WORK],
            output: [byte; LONGEST],
            verdict: ODD_VERDICT,
        }
    }

    /// The text over the bench's field: q stands in columns 24 to 34 of the first line.
    pub fn over_field<const N: usize>(&self, text: [u8; N]) -> [u8; N]
        ensures as_long { length result ≡ N }
    {
        let order = F::order();
        assert!(self.rt; order < 10_000_000_000);
        assert!(self.rt; N >= 34);
        let mut changed = text;
        let bytes = &mut changed[..];
        put_number(&mut bytes[23..34], order);
        changed
    }

    /// Empties the directory; memory keeps what it has.
    pub fn open(&mut self) {
        self.directory = Directory::open();
    }

    /// Tables of 1, 2, 4, 8 and 9 states with one letter at places 1 to 5, of 8 states with two letters at place 6, and
    /// no others.
    pub fn fill(&mut self) {
        self.open();
        self.load_least();
        self.check(
            ALL,
            &[
                (sum(1, 1, 2), DONE),
                (sum(2, 2, 3), DONE),
                (sum(3, 3, 4), DONE),
                (sum(4, 1, 5), DONE),
                (sum(6, 6, 6), DONE),
                (sum(6, 6, 6), DONE),
                (sum(6, 6, 6), DONE),
            ],
        );
    }

    // Tables of one state, with one letter at place 1 and with two letters at place 6.
    fn load_least(&mut self) {
        let ones = self.over_field(ONES);
        self.check(ALL, &[(load(&ones, 1), DONE)]);
        let pair = self.over_field(PAIR);
        self.check(ALL, &[(load(&pair, 6), DONE)]);
    }

    // Makes one call, which leaves the verdict record as it was: no compare that is made here is accepted.
    fn make(&mut self, lent: Lent, call: &Call<&[u8]>) -> Outcome {
        self.verdict = ODD_VERDICT;
        let shelf = &mut self.shelf[..];
        let work = &mut self.work[..];
        let output = &mut self.output[..];
        let elements = lent.shelf.min(shelf.len());
        let work_elements = lent.work.min(work.len());
        let bytes = lent.output.min(output.len());
        let outcome = self.directory.make(
            &mut shelf[..elements],
            &mut work[..work_elements],
            &mut output[..bytes],
            &mut self.verdict,
            call,
        );
        assert_eq!(self.rt; self.verdict, ODD_VERDICT, "after {outcome:?}");
        outcome
    }

    /// Makes the requested calls as one list, and returns how many were made.
    pub fn perform(&mut self, requests: &[Request<'_>], outcomes: &mut [Outcome]) -> usize {
        self.verdict = ODD_VERDICT;
        self.directory.perform(
            &mut self.shelf,
            &mut self.work,
            &mut self.output,
            &mut self.verdict,
            requests,
            outcomes,
        )
    }

    /// Each call comes to the outcome beside it.
    pub fn check(&mut self, lent: Lent, cases: &[(Call<&[u8]>, Outcome)]) {
        for (i, (call, outcome)) in cases.iter().enumerate() {
            let made = self.make(lent, call);
            assert_eq!(self.rt; made, *outcome, "call {i}");
        }
    }

    /// Each call is refused for this reason.
    pub fn check_refused(&mut self, lent: Lent, refusal: Refusal, calls: &[Call<&[u8]>]) {
        for (i, call) in calls.iter().enumerate() {
            let made = self.make(lent, call);
            assert_eq!(self.rt; made, Err(refusal), "call {i}");
        }
    }
}
