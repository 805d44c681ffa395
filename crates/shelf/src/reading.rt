//! The calls that read tables and leave the shelf as it is.
ghost use Rattle.std.specs.Prelude.{◌≡◌, length};
ghost use Rattle.book.specs.Calls.{weigh, compare, write};
ghost use Rattle.book.specs.declared.outcome.Answer.TheVariants.{Code, Told, Count};
ghost use Rattle.shelf.specs.Views.{work_state, output_state, verdict_state, outcome_by, verdict_on};
ghost use Rattle.shelf.specs.Performing.{Performs};

use crate::directory::Directory;
use crate::memory::SHELF;
use crate::place::Place;
use book::refusal::Refusal;
use book::verdict::{Kind, Verdict};
use field::Field;
use rows::weight;
use search::compare::Comparison;
use writer::{text_size, write_table};

// The verdict record of a comparison.
fn verdict_of(found: Comparison) -> Verdict
    ensures tells { result ≡ verdict_on found }
    ensures letters_31 { length result.letters ≡ 31 }
{
    match found {
        Comparison::Alike { tried, kept } => Verdict {
            tried,
            kept,
            ..Verdict::blank()
        },
        Comparison::Differs {
            word,
            tried,
            left,
            right,
        } => {
            let letters = word.letters;
            Verdict {
                kind: Kind::Differs,
                tried,
                kept: 0,
                length: word.length,
                first: left,
                second: right,
                letters,
            }
        }
    }
}

impl Directory {
    /// Returns the code of a word's weight under the table of a place.
    pub fn weigh<F: Field>(
        &self,
        shelf: &[F],
        work: &mut [F],
        place: usize,
        word: &[u8],
    ) -> Result<u64, Refusal>
        ensures does { Performs F.field F.value (weigh place word.now) (outcome_by Code result)
            (work_state self.now shelf.now work.old) (work_state self.now shelf.now work.new) }
    {
        let (table, _) = self.one_table(shelf, work, place, place)?;
        let weight = weight::weigh(table, word, work)?;
        Ok(weight.code())
    }

    /// Writes the text of the table of a place to the front of the output, and returns how many bytes it has.
    pub fn write<F: Field>(
        &self,
        shelf: &[F],
        place: usize,
        output: &mut [u8],
    ) -> Result<usize, Refusal>
        ensures does { Performs F.field F.value (write place) (outcome_by Count result)
            (output_state self.now shelf.now output.old)
            (output_state self.now shelf.now output.new) }
    {
        let place = Place::try_from(place)?;
        if shelf.len() < SHELF {
            return Err(Refusal::MemoryShort);
        }
        let table = self.table(shelf, place)?;
        if output.len() < text_size(table.shape()) {
            return Err(Refusal::OutputShort);
        }
        Ok(write_table(table, output))
    }

    /// Compares the tables of two places, and writes the verdict on them.
    pub fn compare<F: Field>(
        &self,
        shelf: &[F],
        work: &mut [F],
        first: usize,
        second: usize,
        verdict: &mut Verdict,
    ) -> Result<(), Refusal>
        ensures does { Performs F.field F.value
            (compare first second) (outcome_by (λ _. Told verdict.new) result)
            (verdict_state self.now shelf.now work.old verdict.old)
            (verdict_state self.now shelf.now work.new verdict.new) }
    {
        let (both, _) = self.two_tables(shelf, work, first, second, second)?;
        let found = search::compare::compare(work, both);
        *verdict = verdict_of(found);
        Ok(())
    }
}
