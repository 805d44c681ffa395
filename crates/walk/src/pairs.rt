//! Pair rows: the rows of two tables after one word, side by side.
ghost use Rattle.std.specs.Prelude.{◌≡◌, ◌≤◌, [], length, ⊤};

use field::Field;
use rows::table::TableRef;
use std::alloc::AllocError;

/// Two tables with one letter count.
pub struct Pair<'a, F> {
    pub left: TableRef<'a, F>,
    pub right: TableRef<'a, F>,
    ghost same_letters: { right.shape.letters ≡ left.shape.letters },
}

// Written by hand: neither is derived on a generic struct with a ghost field.
impl<'a, F> Clone for Pair<'a, F> {
    ghost is_clone = { λ p r. r ≡ p };

    ghost is_infallible = { λ _. ⊤ };

    fn clone(&self) -> Result<Pair<'a, F>, AllocError> {
        Ok(*self)
    }
}

impl<'a, F> Copy for Pair<'a, F> {}

/// The codes of two weights.
#[derive(Clone, Copy, Debug, PartialEq, Eq)]
pub struct Weights {
    pub left: u64,
    pub right: u64,
}

impl<'a, F: Field> Pair<'a, F> {
    ghost use Rattle.walk.specs.Pairs.{width, PairRow, Steps, ComparesOutcomes};

    /// How long a pair row is.
    pub(crate) fn width(self) -> usize
        ensures both_tables_states { result ≡ width self.entry }
        ensures at_most_32 { result ≤ 32 }
    {
        self.left.states() + self.right.states()
    }

    /// Writes to `to` the pair row of the empty word.
    // With rows' `write_beside` in place of the two copies, long walks took 6 to 8 percent longer.
    pub fn start_row(self, to: &mut [F])
        requires as_long { length to.old ≡ width self }
        ensures pair_row_of_empty_word { PairRow F.field F.value self.entry [] to.new }
    {
        let (left, right) = to.split_at_mut(self.left.states());
        left.copy_from_slice(self.left.start());
        right.copy_from_slice(self.right.start());
    }

    /// Writes to `to` the row times the two matrices of the letter, each part times that of its table: of the pair row of a
    /// word, that of the word and one letter more.
    pub fn step_row(self, row: &[F], letter: usize, to: &mut [F])
        requires row_as_long { length row.now ≡ width self }
        requires as_long { length to.old ≡ width self }
        requires letter_of_tables { (1 ≤ letter) × (letter ≤ self.left.shape.letters) }
        ensures one_letter_further { Steps F.field F.value self.entry letter row.now to.new }
    {
        let n = self.left.states();
        let (left, right) = row.split_at(n);
        let (to_left, to_right) = to.split_at_mut(n);
        F::row_times_matrix(left, self.left.matrix(letter), to_left);
        F::row_times_matrix(right, self.right.matrix(letter), to_right);
    }

    /// The codes of the row's outcomes, each part of it times the end column of its table, if they are not the same. The outcomes
    /// of the pair row of a word are its weights.
    pub fn difference(self, row: &[F]) -> Option<Weights>
        requires row_as_long { length row.now ≡ width self }
        ensures compares_outcomes { ComparesOutcomes F.field F.value self.entry row.now result }
    {
        let (left, right) = row.split_at(self.left.states());
        let left = F::dot(left, self.left.end(), 0, 1);
        let right = F::dot(right, self.right.end(), 0, 1);
        if left.same(right) {
            return None;
        }
        Some(Weights {
            left: left.code(),
            right: right.code(),
        })
    }
}
