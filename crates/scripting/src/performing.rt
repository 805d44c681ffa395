//! Performs a script, a request at a time, since what write wrote is shown before the next call.
ghost use Rattle.std.specs.Prelude.{◌≡◌, ◌*◌, ◌^◌, ◌<◌, ◌++◌, length, IfOk, OnOk};
ghost use Rattle.std.specs.Mem.{type_size};
ghost use Rattle.book.specs.Running.{CarriesOut};
ghost use Rattle.book.specs.declared.call.Request.{Request};
ghost use Rattle.shelf.specs.Views.{state};
ghost use Rattle.scripting.specs.Performing.{shown_of, Requests, ShowsFrom};
ghost use Rattle.scripting.specs.Closing.{opened, Passed, Leads, Performs, PerformsOver};
ghost use Rattle.scripting.specs.Judging.{Judged, JudgedAsRead};
ghost use Rattle.scripting.specs.declared.performing.Failure.TheVariants.{NoMemory};

use crate::mistake::Mistake;
use crate::order::{Given, Order};
use crate::outcomes::Shown;
use crate::reading::{Entry, Line, Script, read};
use crate::verb::Verb;
use book::call::{Call, Request};
use book::outcome::{Answer, Outcome};
use book::verdict::Verdict;
use byte::Byte;
use command::field_choice::FieldChoice;
use field::Field;
use residue::{Bit, Fermat};
use shelf::directory::Directory;
use shelf::memory::{SHELF, WORK};
use std::alloc::{AllocError, Global};
use std::error::Error;
use std::fmt;
use writer::LONGEST;

/// A shelf to open: over which field, and with how many elements.
#[derive(Clone, Copy)]
pub struct Opening {
    pub field: FieldChoice,
    pub elements: usize,
}

/// A call to make: the number of its line, and how much it is given.
#[derive(Clone, Copy)]
pub struct Task<'a> {
    pub number: usize,
    pub call: &'a Call<Vec<u8>>,
    pub given: Given,
}

impl Task<'_> {
    // Makes the call on a shelf. All memory is lent, as to the shelf.
    fn make<F: Field>(
        &self,
        directory: &mut Directory,
        shelf: &mut [F],
        work: &mut [F],
        output: &mut [u8],
        verdict: &mut Verdict,
    ) -> Outcome
        ensures carried_out { (r : Request) × Requests self.now r × CarriesOut F.field F.value
            (state directory.old shelf.old (length work.old) output.old verdict.old)
            r result
            (state directory.new shelf.new (length work.new) output.new verdict.new) }
    {
        let request = Request {
            call: self.call.borrowed(),
            work: self.given.work,
            output: self.given.output,
        };
        directory.take_up(shelf, work, output, verdict, &request)
    }

    // Adds the line that shows what came of the call, and what it wrote.
    fn show(
        &self,
        heap: Global,
        shown: &mut Vec<u8>,
        outcome: Outcome,
        output: &[u8],
    ) -> Result<(), AllocError>
        ensures shown { OnOk result (shown.new.items ≡ shown.old.items ++ shown_of self.now outcome output.now) }
    {
        let number = self.number;
        let verb = Verb::from(self.call);
        let told = Shown(outcome);
        let line = format!(in heap; "{number} {verb}: {told}\n")?;
        shown.extend_from_slice(line.as_bytes())?;
        match outcome {
            Ok(Answer::Count(count)) => {
                shown.extend_from_slice(&output[..count.min(output.len())])
            }
            _ => Ok(()),
        }
    }
}

// What closes a shelf: a line that opens another, or the end of the script.
#[derive(Clone, Copy)]
enum Close {
    Field(FieldChoice),
    Open { elements: usize },
    End,
}

impl Close {
    // The shelf that is opened, where one over this field was open.
    fn opening(self, field: FieldChoice) -> Option<Opening>
        ensures opened { result ≡ opened field self }
    {
        match self {
            Close::Field(field) => Some(Opening {
                field,
                elements: SHELF,
            }),
            Close::Open { elements } => Some(Opening { field, elements }),
            Close::End => None,
        }
    }
}

// What comes next: a call to make on the shelf that is open, or what closes it.
#[derive(Clone, Copy)]
enum Next<'a> {
    Call(Task<'a>),
    Close(Close),
}

// The lines that are still to be performed, and what the next call is given.
#[derive(Clone, Copy)]
struct Rest<'a> {
    lines: &'a [Line],
    given: Given,
}

impl<'a> Rest<'a> {
    // Goes on to behind the next line that is a call or opens a shelf, or to the end.
    fn next(&mut self) -> Next<'a>
        ensures leads { Leads self.old.given self.old.lines.now result self.new.given self.new.lines.now }
    {
        while let [line, behind @ ..] = self.lines {
            self.lines = behind;
            match &line.entry {
                Entry::Order(Order::Field(field)) => return Next::Close(Close::Field(*field)),
                Entry::Order(Order::Open { elements }) => {
                    return Next::Close(Close::Open {
                        elements: *elements,
                    });
                }
                Entry::Order(Order::Lend(given)) => {
                    self.given = *given;
                }
                Entry::Order(Order::Call(call)) => {
                    return Next::Call(Task {
                        number: line.number,
                        call,
                        given: self.given,
                    });
                }
                Entry::File { .. } => {}
                Entry::Mistaken(_) => {}
            }
        }
        Next::Close(Close::End)
    }
}

// Makes the calls on a shelf over F that is opened for them, and adds what they show. Returns what closes it.
fn perform_on<F: Field>(
    heap: Global,
    elements: usize,
    rest: &mut Rest<'_>,
    work: &mut [F; WORK],
    output: &mut [u8; LONGEST],
    shown: &mut Vec<u8>,
) -> Result<Close, AllocError>
    requires elements_fit { 12544 * type_size F.row < 2 ^ 63 }
    ensures performs { IfOk result (λ close. PerformsOver F.field F.value elements rest.old.given rest.old.lines.now close rest.new.given rest.new.lines.now shown.old.items shown.new.items) }
    ensures passed { IfOk result (λ close. Passed close rest.old.lines.now rest.new.lines.now) }
{
    let mut memory = [F::zero(); SHELF];
    let shelf = &mut memory[..elements.min(SHELF)];
    let mut directory = Directory::open();
    let mut verdict = Verdict::blank();
    loop {
        match rest.next() {
            Next::Call(task) => {
                let outcome = task.make(&mut directory, shelf, work, output, &mut verdict);
                task.show(heap, shown, outcome, output)?;
            }
            Next::Close(close) => return Ok(close),
        }
    }
}

// Makes the calls on a shelf over F with so many elements, and on those that are opened over the same field behind it. All
// are lent the same work memory and output. Returns what closes the last shelf.
fn perform_over<F: Field>(
    heap: Global,
    elements: usize,
    rest: &mut Rest<'_>,
    shown: &mut Vec<u8>,
) -> Result<Close, AllocError>
    requires elements_fit { 12544 * type_size F.row < 2 ^ 63 }
    ensures performs { IfOk result (λ close. PerformsOver F.field F.value elements rest.old.given rest.old.lines.now close rest.new.given rest.new.lines.now shown.old.items shown.new.items) }
    ensures passed { IfOk result (λ close. Passed close rest.old.lines.now rest.new.lines.now) }
{
    let mut work = [F::zero(); WORK];
    let mut output = [0u8; LONGEST];
    let mut close = perform_on(heap, elements, rest, &mut work, &mut output, shown)?;
    while let Close::Open { elements } = close {
        close = perform_on(heap, elements, rest, &mut work, &mut output, shown)?;
    }
    Ok(close)
}

impl Opening {
    // Opens the shelf, and makes the calls on it and on those over the same field behind it. Returns what closes the last.
    fn perform(
        self,
        heap: Global,
        rest: &mut Rest<'_>,
        shown: &mut Vec<u8>,
    ) -> Result<Close, AllocError>
        ensures performs { IfOk result (λ close. Performs self rest.old.given rest.old.lines.now (opened self.field close) rest.new.given rest.new.lines.now shown.old.items shown.new.items) }
        ensures passed { IfOk result (λ close. Passed close rest.old.lines.now rest.new.lines.now) }
    {
        match self.field {
            FieldChoice::Bits => perform_over::<Bit>(heap, self.elements, rest, shown),
            FieldChoice::Bytes => perform_over::<Byte>(heap, self.elements, rest, shown),
            FieldChoice::Fermat => perform_over::<Fermat>(heap, self.elements, rest, shown),
        }
    }
}

/// Performs a script that begins with a shelf over a field, and returns what it shows. Lines that are mistakes are passed
/// over.
pub fn perform(heap: Global, field: FieldChoice, script: &Script) -> Result<Vec<u8>, AllocError>
    ensures shows { IfOk result (λ shown. ShowsFrom field script.now.lines.items shown.items) }
{
    let mut rest = Rest {
        lines: script.lines.as_slice(),
        given: Given {
            work: WORK,
            output: LONGEST,
        },
    };
    let mut shown = Vec::new(heap);
    let mut opening = Opening {
        field,
        elements: SHELF,
    };
    let mut close = opening.perform(heap, &mut rest, &mut shown)?;
    while let Some(next) = close.opening(opening.field) {
        opening = next;
        close = opening.perform(heap, &mut rest, &mut shown)?;
    }
    Ok(shown)
}

/// Why a script is not performed: it has mistakes, or there is no memory for what it shows.
#[derive(Debug, Drop)]
pub enum Failure {
    Mistaken(Vec<Mistake>),
    NoMemory(AllocError),
}

impl From<AllocError> for Failure {
    ghost from_gives = { λ e failure. failure ≡ NoMemory e };

    fn from(e: AllocError) -> Failure {
        Failure::NoMemory(e)
    }
}

impl fmt::Display for Failure {
    fn fmt<W: fmt::Write>(&self, f: &mut fmt::Formatter<W>) -> fmt::Result {
        match self {
            Failure::Mistaken(_) => write!(f, "the script has mistakes"),
            Failure::NoMemory(e) => write!(f, "{e}"),
        }
    }
}

impl Error for Failure {}

/// Performs a script unless it has a mistake, and returns what its calls show. It begins with a shelf over the field.
pub fn run(heap: Global, field: FieldChoice, script: &Script) -> Result<Vec<u8>, Failure>
    ensures judged { Judged field script.now.lines.items result }
{
    let mistakes = script.mistakes(heap)?;
    if mistakes.is_empty() {
        Ok(perform(heap, field, script)?)
    } else {
        Err(Failure::Mistaken(mistakes))
    }
}

/// Reads and performs a script that names no file, and begins with a shelf over GF(65537).
pub fn run_script(heap: Global, script: &[u8]) -> Result<Vec<u8>, Failure>
    ensures judged { JudgedAsRead script.now result }
{
    let script = read(heap, script)?;
    run(heap, FieldChoice::Fermat, &script)
}
