//! The call that empties a place.
ghost use Rattle.shelf.specs.Clearing.{Clears};

use crate::directory::Directory;
use crate::entry::Entry;
use crate::place::Place;
use book::refusal::Refusal;

impl Directory {
    /// Empties the entry of a place. No memory is lent to it: of every shelf memory it writes no element.
    pub fn clear(&mut self, place: usize) -> Result<(), Refusal>
        ensures clears { Clears self.old place result self.new }
    {
        let place = Place::try_from(place)?;
        self.shape_at(place).ok_or(Refusal::PlaceEmpty)?;
        self.set(place, Entry::EMPTY);
        Ok(())
    }
}
