//! Weighs words under a table: reads a word from each line of standard input, its letters as digits, and prints it with
//! the code of its weight, or with its first letter that the table lacks.
#![tactic(auto)]

ghost use Rattle.std.specs.Prelude.{◌≡◌, ◌+◌, ◌*◌, ◌-◌, ◌^◌, ◌<◌, ◌≤◌, map, length, slice_get, IfOk, MatchOption, MatchResult};
ghost use Rattle.std.specs.Mem.{type_size};
ghost use Rattle.series.specs.Tables.{weight};
ghost use Rattle.rows.specs.Seen.{table_of};
ghost use Rattle.rows.specs.Weighing.{FirstOutside};
ghost use Rattle.weigh.specs.Letters.{letter};

use command::arguments::{Accepted, Options, name_or};
use command::error::Error;
use command::field_choice::{FieldChoice, OverField, with_field};
use command::files::{TEXT_LIMIT, read_error, read_file};
use command::program::Program;
use command::refused::Refused;
use command::status::Status;
use faults::LoadFault;
use field::Field;
use rows::table::{LARGEST, TableRef};
use rows::weight::{LetterOutside, weigh};
use std::alloc::{AllocError, Global};
use std::process::ExitCode;
use text::table::read_table;

const HELP: &str = "usage: weigh [--field Q] [FILE]

Reads the text of a table from FILE (default: the file table), and words from
standard input: one to a line, each letter a digit from 1, with nothing between
them. Prints each word with the code of its weight.

  --field Q      the field: 2, 256 or 65537 elements (default: the one that the
                 first line of the text names)
  -h, --help     prints this
  -V, --version  prints the version

Exit status: 0 if all words were read, 1 if the text is refused or cannot be
read, 2 if the command line is wrong.";

const WEIGH: Program<'static> = Program {
    name: "weigh",
    usage: HELP,
    accepted: Accepted {
        files: 1,
        compares: false,
    },
};

// The letter of a byte: a digit's number, and 0, which is no letter of any table, for any other byte. The weighing reports
// the first letter that the table lacks.
fn letter_of(b: u8) -> u8
    ensures by_digit { result ≡ letter b }
{
    if b.is_ascii_digit() { b - b'0' } else { 0 }
}

// The letters of a line.
fn letters(heap: Global, line: &[u8]) -> Result<Vec<u8>, AllocError>
    ensures letter_by_letter { IfOk result (λ v. v.items ≡ map letter line.now) }
{
    line.iter().map(|b| letter_of(*b)).collect(heap)
}

// The code of a word's weight, or its first letter that the table lacks.
fn weight_code<F: Field>(
    table: TableRef<'_, F>,
    word: &[u8],
    rows: &mut [F],
) -> Result<u64, LetterOutside>
    requires two_rows_fit { table.shape.states + table.shape.states ≤ length rows.old }
    ensures code_or_first_letter_outside { MatchResult result (λ c. c ≡ F.field.code (weight F.field (table_of F.field F.value table.entry) word.now)) (λ e. FirstOutside table.entry.shape.letters word.now e.position) }
{
    weigh(table, word, rows).map(F::code)
}

// What stands at a position, from 1, of a line.
fn shown(line: &[u8], position: usize) -> char
    ensures at_position { 1 ≤ position → MatchOption (slice_get line.now (position - 1)) (result ≡ 63) (λ b. result ≡ b) }
{
    line.get(position.wrapping_sub(1))
        .map_or('?', |b| char::from(*b))
}

// Weighs the words of standard input.
fn weigh_words<F: Field>(rt: &HostRuntime, table: TableRef<'_, F>) -> Result<(), Error>
    requires elements_fit { 12544 * type_size F.row < 2 ^ 63 }
{
    for line in rt.lines(rt.alloc()) {
        let line = line.map_err(|e| read_error(rt.alloc(), "-", e))?;
        let word = letters(rt.alloc(), line.as_bytes())?;
        let mut rows = [F::zero(); 32];
        match weight_code(table, word.as_slice(), &mut rows) {
            Ok(code) => println!(rt; "{line}: {code}")?,
            Err(LetterOutside { position }) => {
                let letter = shown(line.as_bytes(), position);
                println!(rt; "{line}: the table lacks the letter {letter} at position {position}")?
            }
        }
    }
    Ok(())
}

// The words of standard input, to be weighed under the table of a text.
#[derive(Clone, Copy)]
struct Weighing<'a> {
    rt: &'a HostRuntime,
    named: Option<FieldChoice>,
    text: &'a [u8],
    name: &'a str,
}

impl Weighing<'_> {
    // Why the text is refused.
    fn refused(&self, fault: LoadFault) -> Error {
        Error::new(
            self.rt.alloc(),
            Refused {
                name: self.name,
                text: self.text,
                refusal: fault.refusal(),
                position: fault.position(),
                field: self.named,
            },
        )
    }
}

impl OverField for Weighing<'_> {
    type Output = Result<Status, Error>;

    // What is printed is no part of the result.
    ghost gives = { λ q weighing done. Unit {0} };

    fn over<F: Field>(self) -> Result<Status, Error> {
        let mut memory = [F::zero(); LARGEST];
        let shape = read_table(self.text, &mut memory).map_err(|fault| self.refused(fault))?;
        weigh_words(self.rt, TableRef::new(&memory, shape))?;
        Ok(Status::Success)
    }
}

// Reads the table's text, and weighs the words over the field that is named, in the command line or else in the text.
fn work(rt: &HostRuntime, options: Options) -> Result<Status, Error> {
    let name = name_or(options.files.as_slice(), 0, "table");
    if name == "-" {
        eprintln!(rt; "weigh: FILE cannot be -: words are read from standard input")?;
        return Ok(Status::Trouble);
    }
    let text = read_file(rt, name, TEXT_LIMIT).map_err(|e| read_error(rt.alloc(), name, e))?;
    let text = text.as_slice();
    let named = options.field.or(FieldChoice::named_in(text));
    let weighing = Weighing {
        rt,
        named,
        text,
        name,
    };
    with_field(named.unwrap_or(FieldChoice::Fermat), weighing)
}

fn main(rt: HostRuntime) -> ExitCode {
    WEIGH.main(&rt, |options| work(&rt, options))
}
