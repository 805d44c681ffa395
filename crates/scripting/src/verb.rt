//! The words that a line of a script can begin with.
ghost use Rattle.std.specs.Prelude.{◌≡◌, MatchResult, ◌≢◌, Some};
ghost use Rattle.scripting.specs.Naming.{name_of};
ghost use Rattle.scripting.specs.Calling.{verb_of};
ghost use Rattle.scripting.specs.declared.mistake.Reason.TheVariants.{NoCall};
ghost use Rattle.scripting.specs.declared.verb.Verb.{Verb};

use crate::mistake::Reason;
use book::call::Call;
use std::fmt;

/// What a line says to do.
#[derive(Clone, Copy, Debug, PartialEq, Eq)]
pub enum Verb {
    Field,
    Open,
    Lend,
    Text,
    Load,
    Sum,
    Scale,
    Multiply,
    After,
    Turn,
    Reduce,
    Weigh,
    Compare,
    Write,
    Clear,
}

impl Verb {
    /// All of them.
    pub const ALL: [Verb; 15] = [
        Verb::Field,
        Verb::Open,
        Verb::Lend,
        Verb::Text,
        Verb::Load,
        Verb::Sum,
        Verb::Scale,
        Verb::Multiply,
        Verb::After,
        Verb::Turn,
        Verb::Reduce,
        Verb::Weigh,
        Verb::Compare,
        Verb::Write,
        Verb::Clear,
    ];

    /// Its word.
    pub fn name(self) -> &'static str
        ensures named { result.now ≡ name_of self }
    {
        match self {
            Verb::Field => "field",
            Verb::Open => "open",
            Verb::Lend => "lend",
            Verb::Text => "text",
            Verb::Load => "load",
            Verb::Sum => "sum",
            Verb::Scale => "scale",
            Verb::Multiply => "multiply",
            Verb::After => "after",
            Verb::Turn => "turn",
            Verb::Reduce => "reduce",
            Verb::Weigh => "weigh",
            Verb::Compare => "compare",
            Verb::Write => "write",
            Verb::Clear => "clear",
        }
    }
}

impl fmt::Display for Verb {
    ghost output = { λ verb. Some (name_of verb) };

    fn fmt<W: fmt::Write>(&self, f: &mut fmt::Formatter<W>) -> fmt::Result {
        f.write_str(self.name())
    }
}

/// The verb of this word, if there is one.
impl TryFrom<&[u8]> for Verb {
    type Error = Reason;

    ghost try_from_gives = { λ word r. MatchResult r (λ v. name_of v ≡ word.now) (λ why. (why ≡ NoCall) × ((v : Verb) → name_of v ≢ word.now)) };

    fn try_from(word: &[u8]) -> Result<Verb, Reason> {
        let found = Verb::ALL.iter().find(|verb| verb.name().as_bytes() == word);
        found.copied().ok_or(Reason::NoCall)
    }
}

/// The verb that a script has for a call.
impl<B> From<&Call<B>> for Verb {
    ghost from_gives = { λ call verb. verb ≡ verb_of call.now };

    fn from(call: &Call<B>) -> Verb {
        match call {
            Call::Load { .. } => Verb::Load,
            Call::Sum { .. } => Verb::Sum,
            Call::Scale { .. } => Verb::Scale,
            Call::Multiply { .. } => Verb::Multiply,
            Call::After { .. } => Verb::After,
            Call::Turn { .. } => Verb::Turn,
            Call::Reduce { .. } => Verb::Reduce,
            Call::Weigh { .. } => Verb::Weigh,
            Call::Compare { .. } => Verb::Compare,
            Call::Write { .. } => Verb::Write,
            Call::Clear { .. } => Verb::Clear,
        }
    }
}
