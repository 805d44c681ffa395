//! Why a table is not packed.
ghost use Rattle.std.specs.Prelude.{◌≡◌, Some};
ghost use Rattle.book.specs.Reasons.{refusal_reason};
ghost use Rattle.packing.specs.Errors.{refusal_of};
ghost use Rattle.packing.specs.declared.error.PackError.TheVariants.{Refused};

use book::refusal::Refusal;
use std::error::Error;
use std::fmt;

/// Why a table is not packed, and what shelf memory then holds. The output is unchanged in both cases.
#[derive(Clone, Copy, Debug, PartialEq, Eq)]
pub enum PackError {
    /// A memory is too short, or the text cannot be read. Shelf memory is unchanged.
    Refused(Refusal),
    /// The packed text has more bytes than the output. Both tables lie in shelf memory.
    OutputShort,
}

impl From<Refusal> for PackError {
    ghost from_gives = { λ refusal e. e ≡ Refused refusal };

    fn from(refusal: Refusal) -> PackError {
        PackError::Refused(refusal)
    }
}

impl PackError {
    /// The refusal, which has a number, a reason and, where the text is at fault, a position.
    pub fn refusal(&self) -> Refusal
        ensures refusal { result ≡ refusal_of self.now }
    {
        match self {
            PackError::Refused(refusal) => *refusal,
            PackError::OutputShort => Refusal::OutputShort,
        }
    }
}

impl fmt::Display for PackError {
    ghost output = { λ e. Some (refusal_reason (refusal_of e)) };

    fn fmt<W: fmt::Write>(&self, f: &mut fmt::Formatter<W>) -> fmt::Result {
        f.write_str(self.refusal().reason())
    }
}

impl Error for PackError {}
