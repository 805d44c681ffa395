//! What is wrong with a line of a script.
ghost use Rattle.std.specs.Prelude.{◌≡◌, Some};
ghost use Rattle.scripting.specs.Telling.{mistake_text, reason_text};
ghost use Rattle.scripting.specs.declared.mistake.Reason.TheVariants.{NumberTooLarge, FieldNotOffered, NoMemory};

use command::field_choice::NotOffered;
use std::alloc::{AllocError, AllocFailed};
use std::fmt;
use std::num::TryFromIntError;

/// Why a line is not performed.
#[derive(Clone, Copy, Debug, PartialEq, Eq)]
pub enum Reason {
    NoCall,
    WordMissing,
    WordExtra,
    NoNumber,
    NumberTooLarge,
    FieldNotOffered,
    TextCutShort,
    TextNotEnded,
    FileUnreadable,
    NoMemory,
}

impl From<TryFromIntError> for Reason {
    ghost from_gives = { λ _ r. r ≡ NumberTooLarge };

    fn from(_e: TryFromIntError) -> Reason {
        Reason::NumberTooLarge
    }
}

impl From<NotOffered> for Reason {
    ghost from_gives = { λ _ r. r ≡ FieldNotOffered };

    fn from(_e: NotOffered) -> Reason {
        Reason::FieldNotOffered
    }
}

impl From<AllocError> for Reason {
    ghost from_gives = { λ _ r. r ≡ NoMemory };

    fn from(_e: AllocError) -> Reason {
        Reason::NoMemory
    }
}

impl<T: Drop> From<AllocFailed<T>> for Reason {
    ghost from_gives = { λ _ r. r ≡ NoMemory };

    fn from(_e: AllocFailed<T>) -> Reason {
        Reason::NoMemory
    }
}

impl Reason {
    /// The reason, for a person.
    pub fn text(self) -> &'static str
        ensures in_words { result.now ≡ reason_text self }
    {
        match self {
            Reason::NoCall => "unknown command",
            Reason::WordMissing => "an argument is missing",
            Reason::WordExtra => "too many arguments",
            Reason::NoNumber => "expected a number",
            Reason::NumberTooLarge => "a number is too large",
            Reason::FieldNotOffered => "unknown field",
            Reason::TextCutShort => "the script ends inside the text",
            Reason::TextNotEnded => "expected a newline after the text",
            Reason::FileUnreadable => "the file cannot be read",
            Reason::NoMemory => "out of memory",
        }
    }
}

impl fmt::Display for Reason {
    ghost output = { λ reason. Some (reason_text reason) };

    fn fmt<W: fmt::Write>(&self, f: &mut fmt::Formatter<W>) -> fmt::Result {
        f.write_str(self.text())
    }
}

/// A line of a script, and what is wrong with it.
#[derive(Clone, Copy, Debug, PartialEq, Eq)]
pub struct Mistake {
    pub line: usize,
    pub reason: Reason,
}

impl fmt::Display for Mistake {
    ghost output = { λ mistake. Some (mistake_text mistake) };

    fn fmt<W: fmt::Write>(&self, f: &mut fmt::Formatter<W>) -> fmt::Result {
        write!(f, "line {}: {}", self.line, self.reason)
    }
}
