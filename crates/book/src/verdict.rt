//! The verdict on two tables.
ghost use Rattle.std.specs.Prelude.{◌≡◌};
ghost use Rattle.book.specs.Verdicts.{kind_number, unwritten};

/// Whether two tables weigh all words alike, or some word differently. A record that is lent to compare may hold any other
/// number before.
#[derive(Clone, Copy, Debug, PartialEq, Eq)]
pub enum Kind {
    Alike,
    Differs,
    Other(u8),
}

impl Kind {
    /// The kind's number: 0 or 1 of what compare writes.
    pub fn number(self) -> u8
        ensures numbered { result ≡ kind_number self }
    {
        match self {
            Kind::Alike => 0,
            Kind::Differs => 1,
            Kind::Other(number) => number,
        }
    }
}

/// The record that compare writes. Alike: so many words were tried and kept, and the rest is 0. Differs: the word
/// reported, with its length, the codes of its weights and its letters, unused places 0; tried counts up to it, itself
/// counted, and kept is 0.
// The record's form, with zeros in unused places, is the product's.
#[derive(Clone, Copy, Debug, PartialEq, Eq)]
pub struct Verdict {
    pub kind: Kind,
    pub tried: usize,
    pub kept: usize,
    pub length: usize,
    pub first: u64,
    pub second: u64,
    // 31 places: a reported word has fewer letters than both tables have states together, which is at most 32.
    pub letters: [u8; 31],
}

impl Verdict {
    /// A record to which nothing is written yet.
    pub fn blank() -> Verdict
        ensures all_zero { result ≡ unwritten }
    {
        Verdict {
            kind: Kind::Alike,
            tried: 0,
            kept: 0,
            length: 0,
            first: 0,
            second: 0,
            letters: [0; 31],
        }
    }
}
