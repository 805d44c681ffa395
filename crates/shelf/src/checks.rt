//! The checks that the calls on a shelf have in common, made in the order of their refusals.
ghost use Rattle.std.specs.Prelude.{◌≡◌, ◌≤◌, length, IfOk, IfErr, OnOk};
ghost use Rattle.shelf.specs.Views.{work_state};
ghost use Rattle.shelf.specs.Checking.{ChecksOne, ChecksTwo, Found, Vacant, FoundBoth, Room, Short};

use crate::directory::Directory;
use crate::memory::{SHELF, WORK};
use crate::place::Place;
use book::refusal::Refusal;
use field::Field;
use rows::table::TableRef;
use walk::pairs::Pair;

/// Whether shelf memory and work memory have the elements that a call asks for.
pub fn room(shelf: usize, work: usize) -> Result<(), Refusal>
    ensures ok { OnOk result (Room shelf work) }
    ensures err { IfErr result (Short shelf work) }
{
    if shelf < SHELF {
        return Err(Refusal::MemoryShort);
    }
    if work < WORK {
        return Err(Refusal::WorkShort);
    }
    Ok(())
}

impl Directory {
    /// The table at a place of shelf memory.
    pub(crate) fn table<'a, F: Field>(
        &self,
        shelf: &'a [F],
        place: Place,
    ) -> Result<TableRef<'a, F>, Refusal>
        requires shelf_whole { 12544 ≤ length shelf.now }
        ensures ok { IfOk result (Found self.now shelf.now place.number) }
        ensures err { IfErr result (Vacant self.now place.number) }
    {
        let shape = self.shape_at(place).ok_or(Refusal::PlaceEmpty)?;
        Ok(TableRef::at(shelf, place.begins(), shape))
    }

    /// The checks of a call that reads one table and names one place more, which is returned with the table.
    pub(crate) fn one_table<'a, F: Field>(
        &self,
        shelf: &'a [F],
        work: &[F],
        place: usize,
        to: usize,
    ) -> Result<(TableRef<'a, F>, Place), Refusal>
        ensures checked { ChecksOne F.field (work_state self.now shelf.now work.now)
            place to result }
        ensures found { IfOk result (λ r. Found self.now shelf.now place r.0) }
        ensures named { IfOk result (λ r. r.1.number ≡ to) }
        ensures room { OnOk result (Room (length shelf.now) (length work.now)) }
    {
        let place = Place::try_from(place)?;
        let to = Place::try_from(to)?;
        room(shelf.len(), work.len())?;
        let table = self.table(shelf, place)?;
        Ok((table, to))
    }

    /// The checks of a call that reads two tables, which have to have one letter count, and names one place more,
    /// which is returned with the tables.
    pub(crate) fn two_tables<'a, F: Field>(
        &self,
        shelf: &'a [F],
        work: &[F],
        first: usize,
        second: usize,
        to: usize,
    ) -> Result<(Pair<'a, F>, Place), Refusal>
        ensures checked { ChecksTwo F.field (work_state self.now shelf.now work.now)
            first second to result }
        ensures found { IfOk result (λ r. FoundBoth self.now shelf.now first second r.0) }
        ensures named { IfOk result (λ r. r.1.number ≡ to) }
        ensures room { OnOk result (Room (length shelf.now) (length work.now)) }
    {
        let first = Place::try_from(first)?;
        let second = Place::try_from(second)?;
        let to = Place::try_from(to)?;
        room(shelf.len(), work.len())?;
        let left = self.table(shelf, first)?;
        let right = self.table(shelf, second)?;
        if left.letters() != right.letters() {
            return Err(Refusal::LettersDiffer);
        }
        Ok((Pair { left, right }, to))
    }
}
