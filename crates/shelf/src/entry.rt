//! The directory's entry for a place.
ghost use Rattle.std.specs.Prelude.{◌≡◌, Some, Option};
ghost use Rattle.rows.specs.declared.table.Shape.{Shape};

use rows::table::Shape;
use std::marker::Model;

/// Empty, or the shape of the table at the place.
// The directory's form, an array of eight entry structs, is the product's.
#[derive(Clone, Copy)]
pub struct Entry {
    shape: Option<Shape>,
}

impl Model for Entry {
    ghost Value = { Option Shape };

    ghost view = { λ e. e.shape };

    ghost inverse = { λ o. record { shape = o } };
}

impl Entry {
    /// The entry of a place without a table.
    pub const EMPTY: Entry = Entry { shape: None };

    /// The entry of a place with a table of this shape.
    pub fn of(shape: Shape) -> Entry
        ensures holds { result ≡ Some shape }
    {
        Entry { shape: Some(shape) }
    }

    /// The shape of the table, if there is one.
    pub fn shape(self) -> Option<Shape>
        ensures told { result ≡ self }
    {
        self.shape
    }
}
