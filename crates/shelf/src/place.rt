//! The places of a shelf.
ghost use Rattle.std.specs.Prelude.{◌≡◌, ◌-◌, ◌<◌, MatchResult};
ghost use Rattle.book.specs.Shelves.{Place as IsPlace, begins};
ghost use Rattle.book.specs.declared.refusal.Refusal.TheVariants.{PlaceOutside};

use crate::memory::TABLE;
use book::refusal::Refusal;

/// A place, one of 1 to 8.
#[derive(Clone, Copy)]
pub(crate) struct Place {
    number: usize,
    ghost within: { IsPlace number },
}

impl TryFrom<usize> for Place {
    type Error = Refusal;

    ghost try_from_gives = { λ number r.
        MatchResult r (λ place. place.number ≡ number) (λ f. (f ≡ PlaceOutside) × ¬ (IsPlace number)) };

    fn try_from(number: usize) -> Result<Place, Refusal> {
        if number < 1 || number > 8 {
            return Err(Refusal::PlaceOutside);
        }
        Ok(Place { number })
    }
}

impl Place {
    /// The index of its entry in the directory.
    pub(crate) fn index(self) -> usize
        ensures from_zero { result ≡ self.number - 1 }
        ensures one_of_eight { result < 8 }
    {
        self.number - 1
    }

    /// The element of shelf memory at which its table begins.
    pub(crate) fn begins(self) -> usize
        ensures told { result ≡ begins self.number }
    {
        self.index() * TABLE
    }
}
