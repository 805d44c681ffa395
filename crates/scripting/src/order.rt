//! What single lines of a script say.
ghost use Rattle.std.specs.Prelude.{◌≡◌, [], ◌∷◌, MatchResult};
ghost use Rattle.command.specs.Choices.{q_of};
ghost use Rattle.scripting.specs.Numerals.{Numbers};
ghost use Rattle.scripting.specs.Calling.{verb_of};
ghost use Rattle.scripting.specs.Arguments.{Arguments, Opened, Named, Takes, verb_in, Says};
ghost use Rattle.scripting.specs.Refusing.{NotNamed, NotWeighed, WrongArguments, Wrong};
ghost use Rattle.scripting.specs.declared.order.Order.TheVariants.{Call as Called};
ghost use Rattle.scripting.specs.declared.order.Said.TheVariants.{Order as Ordered};
ghost use Rattle.scripting.specs.declared.verb.Verb.TheVariants.{Field as VerbField, Open as VerbOpen, After as VerbAfter, Weigh as VerbWeigh};

use crate::mistake::Reason;
use crate::verb::Verb;
use crate::words::{letters, next_word, numbers, size, word};
use book::call::Call;
use command::field_choice::FieldChoice;
use shelf::memory::SHELF;
use std::alloc::Global;

/// How much of work memory and output each call is given.
#[derive(Clone, Copy)]
pub struct Given {
    pub work: usize,
    pub output: usize,
}

/// What is performed. A call owns its text or word.
#[derive(Drop)]
pub enum Order {
    Field(FieldChoice),
    Open { elements: usize },
    Lend(Given),
    Call(Call<Vec<u8>>),
}

/// What a line says. A text and the name in a load are looked up by whoever reads the lines in turn.
#[derive(Drop)]
pub enum Said<'a> {
    Text { name: &'a [u8], size: usize },
    Load { name: &'a [u8], to: usize },
    Order(Order),
}

// How many elements a shelf is opened with: all where the line is empty.
fn elements(line: &[u8]) -> Result<usize, Reason>
    ensures read { MatchResult result (λ n. Opened line.now n) (λ r. WrongArguments VerbOpen line.now r) }
{
    if next_word(line).is_none() {
        return Ok(SHELF);
    }
    let [count] = numbers::<1>(line)?;
    if count > SHELF {
        return Err(Reason::NumberTooLarge);
    }
    Ok(count)
}

// The field that the line names by its number of elements.
fn field(line: &[u8]) -> Result<FieldChoice, Reason>
    ensures read { MatchResult result (λ o. Numbers line.now (q_of o ∷ [])) (λ r. WrongArguments VerbField line.now r) }
{
    let [q] = numbers::<1>(line)?;
    Ok(FieldChoice::try_from(q as u64)?)
}

// The name and the number that the line is.
fn named(line: &[u8]) -> Result<(&[u8], usize), Reason>
    ensures read { MatchResult result (λ x. Named line.now x.0.now x.1) (λ r. NotNamed line.now r) }
{
    let (name, rest) = word(line)?;
    let [number] = numbers::<1>(rest)?;
    Ok((name, number))
}

// The place, the letter and the place that the line is.
fn after(line: &[u8]) -> Result<Call<Vec<u8>>, Reason>
    ensures read { MatchResult result (λ a. (verb_of a ≡ VerbAfter) × Arguments a line.now) (λ r. WrongArguments VerbAfter line.now r) }
{
    let [place, letter, to] = numbers::<3>(line)?;
    let letter = u8::try_from(letter)?;
    Ok(Call::After { place, letter, to })
}

// The place and the letters that the line is.
fn weigh(heap: Global, line: &[u8]) -> Result<Call<Vec<u8>>, Reason>
    ensures read { MatchResult result (λ a. (verb_of a ≡ VerbWeigh) × Arguments a line.now) (λ r. NotWeighed line.now r) }
{
    let (first, rest) = word(line)?;
    let place = size(first)?;
    let word = letters(heap, rest)?;
    Ok(Call::Weigh { place, word })
}

// A call as what a line says.
fn asked<'a>(call: Call<Vec<u8>>) -> Said<'a>
    ensures call { result ≡ Ordered (Called call) }
{
    Said::Order(Order::Call(call))
}

// What the verb and the rest of its line say.
fn arguments<'a>(heap: Global, verb: Verb, rest: &'a [u8]) -> Result<Said<'a>, Reason>
    ensures said { MatchResult result (λ s. (verb_in s ≡ verb) × Takes s rest.now) (λ r. WrongArguments verb rest.now r) }
{
    match verb {
        Verb::Field => Ok(Said::Order(Order::Field(field(rest)?))),
        Verb::Open => {
            let elements = elements(rest)?;
            Ok(Said::Order(Order::Open { elements }))
        }
        Verb::Lend => {
            let [work, output] = numbers::<2>(rest)?;
            Ok(Said::Order(Order::Lend(Given { work, output })))
        }
        Verb::Text => {
            let (name, size) = named(rest)?;
            Ok(Said::Text { name, size })
        }
        Verb::Load => {
            let (name, to) = named(rest)?;
            Ok(Said::Load { name, to })
        }
        Verb::Sum => {
            let [first, second, to] = numbers::<3>(rest)?;
            Ok(asked(Call::Sum { first, second, to }))
        }
        Verb::Scale => {
            let [place, code, to] = numbers::<3>(rest)?;
            let code = code as u64;
            Ok(asked(Call::Scale { place, code, to }))
        }
        Verb::Multiply => {
            let [first, second, to] = numbers::<3>(rest)?;
            Ok(asked(Call::Multiply { first, second, to }))
        }
        Verb::After => Ok(asked(after(rest)?)),
        Verb::Turn => {
            let [place, to] = numbers::<2>(rest)?;
            Ok(asked(Call::Turn { place, to }))
        }
        Verb::Reduce => {
            let [place, to] = numbers::<2>(rest)?;
            Ok(asked(Call::Reduce { place, to }))
        }
        Verb::Weigh => Ok(asked(weigh(heap, rest)?)),
        Verb::Compare => {
            let [first, second] = numbers::<2>(rest)?;
            Ok(asked(Call::Compare { first, second }))
        }
        Verb::Write => {
            let [place] = numbers::<1>(rest)?;
            Ok(asked(Call::Write { place }))
        }
        Verb::Clear => {
            let [place] = numbers::<1>(rest)?;
            Ok(asked(Call::Clear { place }))
        }
    }
}

/// What a line says; a blank line and a comment say nothing.
pub fn read_line(heap: Global, line: &[u8]) -> Result<Option<Said<'_>>, Reason>
    ensures read { MatchResult result (λ s. Says line.now s) (λ r. Wrong line.now r) }
{
    let Some((first, rest)) = next_word(line) else {
        return Ok(None);
    };
    if let [b'#', ..] = first {
        return Ok(None);
    }
    let verb = Verb::try_from(first)?;
    Ok(Some(arguments(heap, verb, rest)?))
}
