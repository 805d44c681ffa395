//! Tables in lent memory: their shape, and a table seen whole and by its parts.
ghost use Rattle.std.specs.Prelude.{◌≡◌, ◌+◌, ◌*◌, ◌<◌, ◌≤◌, length, slice_range, MatchOption, ⊤};
ghost use Rattle.rows.specs.Layout.{table_size};

use field::Field;
use std::alloc::AllocError;

/// How many elements the largest table takes, one of 16 states and 6 letters.
pub const LARGEST: usize = 1568;

const _: () = prove!(LARGEST == 16 + 6 * (16 * 16) + 16);

/// How many states and letters a table has: from 0 to 16 states and from 1 to 6 letters; no other shape can be made.
#[derive(Clone, Copy, Debug, PartialEq, Eq)]
pub struct Shape {
    pub states: usize,
    pub letters: usize,
    ghost few_states: { states ≤ 16 },
    ghost some_letter: { 1 ≤ letters },
    ghost few_letters: { letters ≤ 6 },
}

impl Shape {
    pub fn new(states: usize, letters: usize) -> Shape
        requires states_within { states ≤ 16 }
        requires letters_within { (1 ≤ letters) × (letters ≤ 6) }
        ensures of_states { result.states ≡ states }
        ensures of_letters { result.letters ≡ letters }
    {
        Shape { states, letters }
    }

    pub fn states(self) -> usize
        ensures told { result ≡ self.states }
        ensures at_most_16 { result ≤ 16 }
    {
        self.states
    }

    pub fn letters(self) -> usize
        ensures told { result ≡ self.letters }
        ensures from_1_to_6 { (1 ≤ result) × (result ≤ 6) }
    {
        self.letters
    }

    /// How many elements a table of this shape takes.
    pub fn size(self) -> usize
        ensures is_table_size { result ≡ table_size self.states self.letters }
        ensures at_most_largest { result ≤ LARGEST }
    {
        let n = self.states;
        n + self.letters * (n * n) + n
    }
}

/// A table of a shape that lies in memory from the element `base` on: its start row, its matrices by letter and then by
/// row, and its end column.
// It keeps the whole memory and where the table begins, so that a contract can name the place at which a shelf holds it.
pub struct TableRef<'a, F> {
    memory: &'a [F],
    base: usize,
    shape: Shape,
    ghost within: { base + table_size shape.states shape.letters ≤ length memory.now },
}

// Written by hand: neither is derived on a generic struct with a ghost field.
impl<'a, F> Clone for TableRef<'a, F> {
    ghost is_clone = { λ t r. r ≡ t };

    ghost is_infallible = { λ _. ⊤ };

    fn clone(&self) -> Result<TableRef<'a, F>, AllocError> {
        Ok(*self)
    }
}

impl<'a, F> Copy for TableRef<'a, F> {}

impl<'a, F: Field> TableRef<'a, F> {
    ghost use Rattle.field.specs.Rows.{RowOf};
    ghost use Rattle.rows.specs.Layout.{matrix_offset, end_offset};
    ghost use Rattle.rows.specs.Seen.{table_of, PartOf, SquareOf, HoldsTable};

    /// The table at the front of memory.
    pub fn new(memory: &'a [F], shape: Shape) -> TableRef<'a, F>
        requires whole { table_size shape.states shape.letters ≤ length memory.now }
        ensures of_shape { result.shape ≡ shape }
        ensures in_front { (result.memory.now ≡ memory.now) × (result.base ≡ 0) }
    {
        TableRef::at(memory, 0, shape)
    }

    /// The table that begins at the element `base`.
    pub fn at(memory: &'a [F], base: usize, shape: Shape) -> TableRef<'a, F>
        requires within { base + table_size shape.states shape.letters ≤ length memory.now }
        ensures of_shape { result.shape ≡ shape }
        ensures lies_there { (result.memory.now ≡ memory.now) × (result.base ≡ base) }
    {
        TableRef {
            memory,
            base,
            shape,
        }
    }

    pub fn shape(self) -> Shape
        ensures told { result ≡ self.entry.shape }
    {
        self.shape
    }

    pub fn states(self) -> usize
        ensures told { result ≡ self.entry.shape.states }
        ensures at_most_16 { result ≤ 16 }
    {
        self.shape.states
    }

    pub fn letters(self) -> usize
        ensures told { result ≡ self.entry.shape.letters }
        ensures from_1_to_6 { (1 ≤ result) × (result ≤ 6) }
    {
        self.shape.letters
    }

    /// The letter of a byte, if it is one of the table's.
    pub fn letter(self, byte: u8) -> Option<usize>
        ensures one_of_the_letters { MatchOption result ((1 ≤ byte) × (byte ≤ self.entry.shape.letters) → ⊥) (λ a. (a ≡ byte) × (1 ≤ a) × (a ≤ self.entry.shape.letters)) }
    {
        let letter = usize::from(byte);
        (1..=self.shape.letters).contains(&letter).then_some(letter)
    }

    /// All its elements.
    pub fn elements(self) -> &'a [F]
        ensures very_elements { result.now ≡ slice_range self.entry.memory.now self.entry.base (self.entry.base + table_size self.entry.shape.states self.entry.shape.letters) }
        ensures holds_it { HoldsTable F.field F.value (table_of F.field F.value self.entry) result.now }
    {
        &self.memory[self.base..self.base + self.shape.size()]
    }

    pub fn start(self) -> &'a [F]
        ensures very_elements { PartOf self.entry.memory.now self.entry.base self.entry.shape.states result.now }
        ensures start_row { RowOf F.field F.value self.entry.shape.states (table_of F.field F.value self.entry).start result.now }
    {
        &self.memory[self.base..self.base + self.shape.states]
    }

    /// The matrix of a letter, row by row.
    pub fn matrix(self, letter: usize) -> &'a [F]
        requires letter_of_table { (1 ≤ letter) × (letter ≤ self.shape.letters) }
        ensures very_elements { PartOf self.entry.memory.now
            (matrix_offset self.entry.base self.entry.shape.states letter)
            (self.entry.shape.states * self.entry.shape.states) result.now }
        ensures matrix_of_letter { SquareOf F.field F.value self.entry.shape.states ((table_of F.field F.value self.entry).step letter) result.now }
    {
        let n = self.shape.states;
        let from = self.base + n + (letter - 1) * (n * n);
        &self.memory[from..from + n * n]
    }

    /// A row, from 0, of the matrix of a letter.
    pub fn matrix_row(self, letter: usize, row: usize) -> &'a [F]
        requires letter_of_table { (1 ≤ letter) × (letter ≤ self.shape.letters) }
        requires row_of_table { row < self.shape.states }
        ensures very_elements { PartOf self.entry.memory.now
            (matrix_offset self.entry.base self.entry.shape.states letter + row * self.entry.shape.states)
            self.entry.shape.states result.now }
        ensures row_of_matrix { RowOf F.field F.value self.entry.shape.states ((table_of F.field F.value self.entry).step letter row) result.now }
    {
        let n = self.shape.states;
        &self.matrix(letter)[row * n..row * n + n]
    }

    pub fn end(self) -> &'a [F]
        ensures very_elements { PartOf self.entry.memory.now
            (end_offset self.entry.base self.entry.shape.states self.entry.shape.letters)
            self.entry.shape.states result.now }
        ensures end_column { RowOf F.field F.value self.entry.shape.states (table_of F.field F.value self.entry).end result.now }
    {
        let n = self.shape.states;
        let from = self.base + n + self.shape.letters * (n * n);
        &self.memory[from..from + n]
    }
}
