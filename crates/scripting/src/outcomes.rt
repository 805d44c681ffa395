//! Outcomes of calls, shown for a person.
ghost use Rattle.std.specs.Prelude.{◌≡◌, Some};
ghost use Rattle.book.specs.Verdicts.{reported};
ghost use Rattle.scripting.specs.Showing.{word_text, verdict_text, answer_text, refusal_text, outcome_text};

use book::outcome::{Answer, Outcome};
use book::refusal::Refusal;
use book::verdict::{Kind, Verdict};
use std::fmt;

/// A value as a script shows it.
#[derive(Clone, Copy)]
pub struct Shown<T>(pub T);

// A word by its letters.
#[derive(Clone, Copy)]
struct Word<'a>(&'a [u8]);

impl fmt::Display for Word<'_> {
    ghost output = { λ word. Some (word_text word.0.now) };

    fn fmt<W: fmt::Write>(&self, f: &mut fmt::Formatter<W>) -> fmt::Result {
        let [first, rest @ ..] = self.0 else {
            return write!(f, "the empty word");
        };
        write!(f, "{first}")?;
        for a in rest {
            write!(f, " {a}")?;
        }
        Ok(())
    }
}

// The word that a verdict reports.
fn reported_word(verdict: &Verdict) -> &[u8]
    ensures reported { result.now ≡ reported verdict.now }
{
    let letters = &verdict.letters;
    &letters[..verdict.length.min(letters.len())]
}

/// What compare found.
impl fmt::Display for Shown<Verdict> {
    ghost output = { λ shown. Some (verdict_text shown.0) };

    fn fmt<W: fmt::Write>(&self, f: &mut fmt::Formatter<W>) -> fmt::Result {
        let Verdict {
            tried,
            kept,
            first,
            second,
            ..
        } = self.0;
        match self.0.kind {
            Kind::Alike => write!(f, "alike, {tried} tried, {kept} kept"),
            Kind::Differs | Kind::Other(_) => {
                let word = Word(reported_word(&self.0));
                write!(
                    f,
                    "differs at {word}, weighs {first} and {second}, {tried} tried"
                )
            }
        }
    }
}

/// What an accepted call returned.
impl fmt::Display for Shown<Answer> {
    ghost output = { λ shown. Some (answer_text shown.0) };

    fn fmt<W: fmt::Write>(&self, f: &mut fmt::Formatter<W>) -> fmt::Result {
        match self.0 {
            Answer::Done => write!(f, "done"),
            Answer::Code(code) => write!(f, "{code}"),
            Answer::Told(verdict) => Shown(verdict).fmt(f),
            Answer::Count(count) => write!(f, "{count} bytes"),
        }
    }
}

/// A refusal with its number, its position if it has one, and the reason.
impl fmt::Display for Shown<Refusal> {
    ghost output = { λ shown. Some (refusal_text shown.0) };

    fn fmt<W: fmt::Write>(&self, f: &mut fmt::Formatter<W>) -> fmt::Result {
        let refusal = self.0;
        let number = refusal.number();
        match refusal {
            Refusal::LetterOutside { position } => {
                write!(f, "refused {number} at position {position}, {refusal}")
            }
            Refusal::Unreadable(fault) => {
                let (line, column) = fault.position();
                write!(
                    f,
                    "refused {number} at line {line}, column {column}, {refusal}"
                )
            }
            _ => write!(f, "refused {number}, {refusal}"),
        }
    }
}

/// What came of a call.
impl fmt::Display for Shown<Outcome> {
    ghost output = { λ shown. Some (outcome_text shown.0) };

    fn fmt<W: fmt::Write>(&self, f: &mut fmt::Formatter<W>) -> fmt::Result {
        match self.0 {
            Ok(answer) => Shown(answer).fmt(f),
            Err(refusal) => Shown(refusal).fmt(f),
        }
    }
}
