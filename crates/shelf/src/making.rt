//! The calls that make a table at a place. It is built at the front of work memory and copied last, so that it may be
//! made of the table that it replaces, and a refusal writes nothing.
ghost use Rattle.std.specs.Prelude.{◌≤◌, length};
ghost use Rattle.book.specs.Calls.{load, sum, scale, multiply, after, turn, reduce};
ghost use Rattle.shelf.specs.Views.{shelf_of, work_state, outcome_of};
ghost use Rattle.shelf.specs.Performing.{Performs, Keeps};

use crate::checks::room;
use crate::directory::Directory;
use crate::entry::Entry;
use crate::place::Place;
use book::refusal::Refusal;
use field::Field;
use operations::{addition, adjusting, multiplication, turning};
use rows::row::copy_row;
use rows::table::{Shape, TableRef};
use text::table::read_table;

impl Directory {
    // Copies a finished table to a place, and writes its shape into the entry.
    fn keep<F: Field>(&mut self, shelf: &mut [F], made: TableRef<'_, F>, to: Place)
        requires shelf_whole { 12544 ≤ length shelf.old }
        ensures kept { Keeps F.field F.value made.entry to
            (shelf_of self.old shelf.old) (shelf_of self.new shelf.new) }
    {
        let shape = made.shape();
        let base = to.begins();
        copy_row(made.elements(), &mut shelf[base..base + shape.size()]);
        self.set(to, Entry::of(shape));
    }

    /// Makes the table of a place turned: it weighs each word as that one weighs the word read backwards.
    pub fn turn<F: Field>(
        &mut self,
        shelf: &mut [F],
        work: &mut [F],
        place: usize,
        to: usize,
    ) -> Result<(), Refusal>
        ensures does { Performs F.field F.value (turn place to) (outcome_of result)
            (work_state self.old shelf.old work.old) (work_state self.new shelf.new work.new) }
    {
        let (table, to) = self.one_table(shelf, work, place, to)?;
        let shape = table.shape();
        let turned = &mut work[0..shape.size()];
        turning::turn(table, turned);
        self.keep(shelf, TableRef::new(turned, shape), to);
        Ok(())
    }

    /// Makes the reduced form of the table of a place: the least table with its weights.
    pub fn reduce<F: Field>(
        &mut self,
        shelf: &mut [F],
        work: &mut [F],
        place: usize,
        to: usize,
    ) -> Result<(), Refusal>
        ensures does { Performs F.field F.value (reduce place to) (outcome_of result)
            (work_state self.old shelf.old work.old) (work_state self.new shelf.new work.new) }
    {
        let (table, to) = self.one_table(shelf, work, place, to)?;
        let letters = table.letters();
        let states = reduction::reduce(work, table);
        let shape = Shape::new(states, letters);
        self.keep(shelf, TableRef::new(work, shape), to);
        Ok(())
    }

    /// Makes the table of a place scaled: each weight times the element of a code.
    pub fn scale<F: Field>(
        &mut self,
        shelf: &mut [F],
        work: &mut [F],
        place: usize,
        code: u64,
        to: usize,
    ) -> Result<(), Refusal>
        ensures does { Performs F.field F.value (scale place code to) (outcome_of result)
            (work_state self.old shelf.old work.old) (work_state self.new shelf.new work.new) }
    {
        let (table, to) = self.one_table(shelf, work, place, to)?;
        let factor = F::from_code(code).ok_or(Refusal::CodeOutside)?;
        let shape = table.shape();
        let scaled = &mut work[0..shape.size()];
        adjusting::scale(table, factor, scaled);
        self.keep(shelf, TableRef::new(scaled, shape), to);
        Ok(())
    }

    /// Makes the table of a place after a letter: it weighs each word as that one weighs the letter and then the word.
    pub fn after<F: Field>(
        &mut self,
        shelf: &mut [F],
        work: &mut [F],
        place: usize,
        letter: u8,
        to: usize,
    ) -> Result<(), Refusal>
        ensures does { Performs F.field F.value (after place letter to) (outcome_of result)
            (work_state self.old shelf.old work.old) (work_state self.new shelf.new work.new) }
    {
        let (table, to) = self.one_table(shelf, work, place, to)?;
        let outside = Refusal::LetterOutside { position: 1 };
        let letter = table.letter(letter).ok_or(outside)?;
        let shape = table.shape();
        let following = &mut work[0..shape.size()];
        adjusting::after(table, letter, following);
        self.keep(shelf, TableRef::new(following, shape), to);
        Ok(())
    }

    /// Makes the table of a text.
    pub fn load<F: Field>(
        &mut self,
        shelf: &mut [F],
        work: &mut [F],
        text: &[u8],
        to: usize,
    ) -> Result<(), Refusal>
        ensures does { Performs F.field F.value (load text.now to) (outcome_of result)
            (work_state self.old shelf.old work.old) (work_state self.new shelf.new work.new) }
    {
        let to = Place::try_from(to)?;
        room(shelf.len(), work.len())?;
        let shape = read_table(text, work)?;
        self.keep(shelf, TableRef::new(work, shape), to);
        Ok(())
    }

    /// Makes the sum of the tables of two places: it weighs each word as both together.
    pub fn sum<F: Field>(
        &mut self,
        shelf: &mut [F],
        work: &mut [F],
        first: usize,
        second: usize,
        to: usize,
    ) -> Result<(), Refusal>
        ensures does { Performs F.field F.value (sum first second to) (outcome_of result)
            (work_state self.old shelf.old work.old) (work_state self.new shelf.new work.new) }
    {
        let (both, to) = self.two_tables(shelf, work, first, second, to)?;
        let states = both.left.states() + both.right.states();
        if states > 16 {
            return Err(Refusal::StatesOver);
        }
        let shape = Shape::new(states, both.left.letters());
        let sum = &mut work[0..shape.size()];
        addition::sum(both.left, both.right, sum);
        self.keep(shelf, TableRef::new(sum, shape), to);
        Ok(())
    }

    /// Makes the product of the tables of two places: the weight of each word is the product of their two.
    pub fn multiply<F: Field>(
        &mut self,
        shelf: &mut [F],
        work: &mut [F],
        first: usize,
        second: usize,
        to: usize,
    ) -> Result<(), Refusal>
        ensures does { Performs F.field F.value (multiply first second to) (outcome_of result)
            (work_state self.old shelf.old work.old) (work_state self.new shelf.new work.new) }
    {
        let (both, to) = self.two_tables(shelf, work, first, second, to)?;
        let states = both.left.states() * both.right.states();
        if states > 16 {
            return Err(Refusal::StatesOver);
        }
        let shape = Shape::new(states, both.left.letters());
        let product = &mut work[0..shape.size()];
        multiplication::multiply(both.left, both.right, product);
        self.keep(shelf, TableRef::new(product, shape), to);
        Ok(())
    }
}
