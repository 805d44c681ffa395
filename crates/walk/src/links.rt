//! The kept words, each noted by its link to an earlier one.
ghost use Rattle.std.specs.Prelude.{◌≡◌, ◌<◌, length};

use arrayvec::ArrayVec;

/// A word, as the number of the kept word that it is without its last letter, and that letter. The empty word's is never read.
#[derive(Clone, Copy, Debug, Default, PartialEq, Eq)]
pub struct Link {
    pub parent: usize,
    pub letter: u8,
}

/// The kept words so far: the pivots of the rows in echelon form, and the words' links.
// Two vectors, since the pivots are read as a slice.
#[derive(Drop)]
pub struct Walk {
    pub pivots: ArrayVec<usize, 32>,
    pub links: ArrayVec<Link, 32>,
    ghost one_each: { length links.items ≡ length pivots.items },
}

impl Walk {
    ghost use Rattle.walk.specs.Walking.{kept, Noted};

    /// No word is kept yet.
    pub fn new() -> Walk
        ensures no_word { kept result ≡ 0 }
    {
        Walk {
            pivots: ArrayVec::new(),
            links: ArrayVec::new(),
        }
    }

    /// How many words are kept.
    pub fn count(&self) -> usize
        ensures told { result ≡ kept self.now }
    {
        self.pivots.len()
    }

    /// Notes one kept word more.
    pub(crate) fn note(&mut self, pivot: usize, link: Link)
        requires room { kept self.old < 32 }
        ensures noted { Noted self.old self.new pivot link }
    {
        self.pivots.push(pivot);
        self.links.push(link);
    }
}
