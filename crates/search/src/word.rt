//! The reported word, spelt out from the links of the kept words.
ghost use Rattle.std.specs.Prelude.{ℕ, [], ◌∷◌, ◌++◌};
ghost use Rattle.series.specs.Words.{Word};
ghost use Rattle.walk.specs.Walking.{kept, Linked};
ghost use Rattle.search.specs.Spelling.{Spellable, Spells};

use walk::links::{Link, Walk};

/// A word of at most 31 letters; the places behind them are 0.
// An array, as in a verdict's record, which has 31 places with zeros behind the letters.
#[derive(Clone, Copy, Debug, PartialEq, Eq)]
pub struct ReportedWord {
    pub length: usize,
    pub letters: [u8; 31],
}

/// The empty word.
pub fn empty_word() -> ReportedWord
    ensures spells_nothing { Spells result [] }
{
    ReportedWord {
        length: 0,
        letters: [0; 31],
    }
}

/// The word of the link: a kept word and one letter more.
pub fn spell(walk: &Walk, last: Link) -> ReportedWord
    requires spellable { Spellable walk.now last.parent }
    ensures spells_word { (words : ℕ → Word) → Linked (kept walk.now) words walk.now.links.items → Spells result (words last.parent ++ last.letter ∷ []) }
{
    let mut letters = [0; 31];
    letters[0] = last.letter;
    let mut length = 1;
    let mut j = last.parent;
    while j > 0 {
        let link = walk.links[j];
        letters[length] = link.letter;
        length += 1;
        j = link.parent;
    }
    letters[..length].reverse();
    ReportedWord { length, letters }
}
