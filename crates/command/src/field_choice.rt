//! The fields that the programs offer.
ghost use Rattle.std.specs.Prelude.{ℕ, ◌*◌, ◌^◌, ◌<◌, ◌≡◌, ◌≢◌, MatchOption, MatchResult, slice_range};
ghost use Rattle.std.specs.Mem.{type_size};
ghost use Rattle.command.specs.Choices.{column_of, q_of};
ghost use Rattle.command.specs.declared.field_choice.FieldChoice.{FieldChoice};

use byte::Byte;
use field::Field;
use residue::{Bit, Fermat};

/// GF(2), GF(256) and GF(65537).
#[derive(Clone, Copy, Debug, PartialEq, Eq)]
pub enum FieldChoice {
    Bits,
    Bytes,
    Fermat,
}

/// No offered field has so many elements.
#[derive(Clone, Copy, Debug, PartialEq, Eq)]
pub struct NotOffered;

impl FieldChoice {
    /// How many elements the field has.
    pub fn order(self) -> u64
        ensures elements { result ≡ q_of self }
    {
        match self {
            FieldChoice::Bits => 2,
            FieldChoice::Bytes => 256,
            FieldChoice::Fermat => 65537,
        }
    }

    /// The field that the first line of a table's text names, if it is offered: its third number, in columns 24 to 34.
    pub fn named_in(text: &[u8]) -> Option<FieldChoice>
        ensures by_column { MatchOption result ((f : FieldChoice) → slice_range text.now 23 34 ≢ column_of f) (λ f. slice_range text.now 23 34 ≡ column_of f) }
    {
        match text.get(23..34)? {
            b"          2" => Some(FieldChoice::Bits),
            b"        256" => Some(FieldChoice::Bytes),
            b"      65537" => Some(FieldChoice::Fermat),
            _ => None,
        }
    }
}

/// The field with so many elements, if it is offered.
impl TryFrom<u64> for FieldChoice {
    type Error = NotOffered;

    ghost try_from_gives = { λ q r. MatchResult r (λ f. q_of f ≡ q) (λ _. (f : FieldChoice) → q_of f ≢ q) };

    fn try_from(q: u64) -> Result<FieldChoice, NotOffered> {
        match q {
            2 => Ok(FieldChoice::Bits),
            256 => Ok(FieldChoice::Bytes),
            65537 => Ok(FieldChoice::Fermat),
            _ => Err(NotOffered),
        }
    }
}

/// A step that can be taken over each field: a closure cannot be generic.
pub trait OverField {
    type Output;

    // What can come of the step over a field with so many elements.
    ghost gives: { ℕ → Self → Self.Output → Type 0 };

    // A step may hold the shelf's memory, an array of elements, whose size in bytes has to fit the machine. The size of an
    // element is known here, where the field is chosen.
    fn over<F: Field>(self) -> Self::Output
        requires elements_fit { 12544 * type_size F.row < 2 ^ 63 }
        ensures taken { gives F.field.q self result };
}

/// Takes a step over the field that is chosen.
pub fn with_field<S: OverField>(choice: FieldChoice, step: S) -> S::Output
    ensures taken { S.gives (q_of choice) step result }
{
    match choice {
        FieldChoice::Bits => step.over::<Bit>(),
        FieldChoice::Bytes => step.over::<Byte>(),
        FieldChoice::Fermat => step.over::<Fermat>(),
    }
}
