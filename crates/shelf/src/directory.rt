//! The directory of a shelf: an entry for each of its eight places.
ghost use Rattle.std.specs.Prelude.{◌≡◌, List, map, length, replicate};
ghost use Rattle.book.specs.Shelves.{Entry, at_place, with_place, empty};
ghost use Rattle.shelf.specs.Views.{entry_of};

use crate::entry::Entry;
use crate::place::Place;
use rows::table::Shape;
use std::marker::Model;

/// Eight entries, of which only the calls on the shelf change any.
#[derive(Drop)]
pub struct Directory {
    entries: [Entry; 8],
}

impl Model for Directory {
    ghost Value = { List Entry };

    ghost view = { λ d. map entry_of d.entries };

    ghost invariant = { λ d. length d.entries ≡ 8 };
}

impl Directory {
    /// Eight empty entries.
    pub fn open() -> Directory
        ensures all_empty { result ≡ replicate 8 empty }
    {
        Directory {
            entries: [Entry::EMPTY; 8],
        }
    }

    /// The shape of the table at a place, or nothing where there is none: an empty place, or one outside 1 to 8.
    pub fn shape(&self, place: usize) -> Option<Shape>
        ensures told { at_place empty self.now place ≡ entry_of result }
        ensures eight { length self.now ≡ 8 }
    {
        // So that the check knows of the eight entries where the place is refused too.
        let _ = &self.entries;
        self.shape_at(Place::try_from(place).ok()?)
    }

    // The same of a place that is known to be one.
    pub(crate) fn shape_at(&self, place: Place) -> Option<Shape>
        ensures told { at_place empty self.now place.number ≡ entry_of result }
    {
        self.entries[place.index()].shape()
    }

    /// Changes the entry of one place, and no other.
    pub(crate) fn set(&mut self, place: Place, e: Entry)
        ensures one_entry_changed { self.new ≡ with_place self.old place.number (entry_of e) }
    {
        self.entries[place.index()] = e;
    }
}
