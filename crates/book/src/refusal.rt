//! Why a call is refused.
ghost use Rattle.std.specs.Prelude.{◌≡◌, Some};
ghost use Rattle.book.specs.Refusals.{refusal_number, refusal_position};
ghost use Rattle.book.specs.Reasons.{refusal_reason};
ghost use Rattle.book.specs.declared.refusal.Refusal.TheVariants.{LetterOutside as LetterRefused, Unreadable};

use faults::LoadFault;
use rows::weight::LetterOutside;
use std::fmt;

/// Why a call is refused. `LetterOutside` has the letter's position in the word, from 1; `Unreadable` has the text's
/// fault with its line and column.
#[derive(Clone, Copy, Debug, PartialEq, Eq)]
pub enum Refusal {
    PlaceOutside,
    MemoryShort,
    WorkShort,
    PlaceEmpty,
    LettersDiffer,
    StatesOver,
    LetterOutside { position: usize },
    CodeOutside,
    OutputShort,
    Unreadable(LoadFault),
}

impl From<LoadFault> for Refusal {
    ghost from_gives = { λ fault r. r ≡ Unreadable fault };

    fn from(found: LoadFault) -> Refusal {
        Refusal::Unreadable(found)
    }
}

impl From<LetterOutside> for Refusal {
    ghost from_gives = { λ letter r. r ≡ LetterRefused letter.position };

    fn from(letter: LetterOutside) -> Refusal {
        Refusal::LetterOutside {
            position: letter.position,
        }
    }
}

impl fmt::Display for Refusal {
    ghost output = { λ refusal. Some (refusal_reason refusal) };

    fn fmt<W: fmt::Write>(&self, f: &mut fmt::Formatter<W>) -> fmt::Result {
        f.write_str(self.reason())
    }
}

impl Refusal {
    /// The refusal's number, 1 to 15.
    // The numbers are the product's: the report, the C interface and the programs use them.
    pub fn number(&self) -> u8
        ensures numbered { result ≡ refusal_number self.now }
    {
        match self {
            Refusal::PlaceOutside => 1,
            Refusal::MemoryShort => 2,
            Refusal::WorkShort => 3,
            Refusal::PlaceEmpty => 4,
            Refusal::LettersDiffer => 5,
            Refusal::StatesOver => 6,
            Refusal::LetterOutside { .. } => 7,
            Refusal::CodeOutside => 8,
            Refusal::OutputShort => 9,
            Refusal::Unreadable(fault) => fault.refusal(),
        }
    }

    /// The line and column of an unreadable text's fault, both from 1; (0, 0) for every other refusal.
    pub fn position(&self) -> (u32, u32)
        ensures line_and_column { result ≡ refusal_position self.now }
    {
        match self {
            Refusal::Unreadable(fault) => fault.position(),
            _ => (0, 0),
        }
    }

    /// Why the call is refused, for a person: one reason for each number.
    pub fn reason(&self) -> &'static str
        ensures in_words { result.now ≡ refusal_reason self.now }
    {
        match self {
            Refusal::PlaceOutside => "a place is outside 1 to 8",
            Refusal::MemoryShort => "shelf memory is too short",
            Refusal::WorkShort => "work memory is too short",
            Refusal::PlaceEmpty => "a place is empty",
            Refusal::LettersDiffer => "the letter counts differ",
            Refusal::StatesOver => "the result has over 16 states",
            Refusal::LetterOutside { .. } => "a letter is outside the table's letters",
            Refusal::CodeOutside => "the code is not one of the field's",
            Refusal::OutputShort => "the output is too short",
            Refusal::Unreadable(fault) => fault.reason(),
        }
    }
}
