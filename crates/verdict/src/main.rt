//! Compares two tables: reads their texts, and prints the line that reports on them.
#![tactic(auto)]

ghost use Rattle.std.specs.Prelude.{◌≡◌, ◌≤◌, vec_len, IfOk};
ghost use Rattle.verdict.specs.Reporting.{ReportsOver, status_by};

use byte::Byte;
use command::arguments::{Accepted, Options, name_or};
use command::error::Error;
use command::field_choice::FieldChoice;
use command::files::{TEXT_LIMIT, read_error, read_if_there, read_input, shown, write_error};
use command::program::Program;
use command::refused::{Refused, letters_in};
use command::status::Status;
use report::{LONGEST, report_over};
use residue::{Bit, Fermat};
use std::fmt::Display;
use std::io::Write;
use std::process::ExitCode;
use std::str;

const HELP: &str = "usage: verdict [--field Q] [--status] [-q] [FIRST SECOND]

Reads the texts of two tables from FIRST and SECOND (default: the files first
and second, where a missing file counts as an empty text), and prints one line,
numbers in 11 columns each. - stands for standard input.

  Q TRIED KEPT                       every word has the same weight in both
  D TRIED LENGTH CODE CODE LETTER..  the first word that has not, with the codes
                                     of its two weights
  R TEXT REFUSAL LINE COLUMN         text 1 or 2 is refused
  R 0 5 0 0                          the tables have different letter counts

  --field Q      the field: 2, 256 or 65537 elements (default: 65537)
  --status       ends with status 0 after Q, 1 after D, 2 after R or an error
  -q, --quiet    prints no line
  -h, --help     prints this
  -V, --version  prints the version

A refusal is explained on standard error.

Exit status without --status: 0 if the line was printed, 1 if a file cannot be
read, 2 if the command line is wrong.";

const VERDICT: Program<'static> = Program {
    name: "verdict",
    usage: HELP,
    accepted: Accepted {
        files: 2,
        compares: true,
    },
};

// Writes the line that reports on two texts, over a field that is offered, and returns how many bytes it has.
fn report_offered(field: FieldChoice, first: &[u8], second: &[u8], line: &mut [u8]) -> usize
    ensures reports { ReportsOver field first.now second.now line.old result line.new }
    ensures at_most_387 { result ≤ 387 }
{
    match field {
        FieldChoice::Bits => report_over::<Bit>(first, second, line),
        FieldChoice::Bytes => report_over::<Byte>(first, second, line),
        FieldChoice::Fermat => report_over::<Fermat>(first, second, line),
    }
}

// A text, and the name of its file.
#[derive(Clone, Copy)]
struct Named<'a> {
    name: &'a str,
    text: &'a [u8],
}

// A number of a report line, from 0.
fn number(line: &[u8], i: usize) -> Option<u32> {
    let first = i.checked_mul(11)?.checked_add(1)?;
    let columns = line.get(first..first.checked_add(11)?)?;
    str::from_utf8(columns)
        .ok()?
        .trim_start()
        .parse::<u32>()
        .ok()
}

// What a refusal's line says: the text, the refusal's number, line and column.
#[derive(Clone, Copy)]
struct Refusal {
    text: u32,
    number: u8,
    position: (u32, u32),
}

impl Refusal {
    // Nothing where the line does not begin with R.
    fn of(line: &[u8]) -> Option<Refusal> {
        if !line.starts_with(b"R") {
            return None;
        }
        Some(Refusal {
            text: number(line, 0)?,
            number: u8::try_from(number(line, 1)?).ok()?,
            position: (number(line, 2)?, number(line, 3)?),
        })
    }
}

// Prints a message on standard error. The line is printed before; a message that cannot be is no error.
fn explain<D: Display + Drop>(rt: &HostRuntime, message: D) {
    let name = VERDICT.name;
    let _ = eprintln!(rt; "{name}: {message}");
}

// Explains that two tables have different letter counts.
fn explain_letters(rt: &HostRuntime, first: Named<'_>, second: Named<'_>) {
    let left = letters_in(first.text).unwrap_or(0);
    let right = letters_in(second.text).unwrap_or(0);
    let names = (shown(first.name), shown(second.name));
    explain(
        rt,
        format_args!(
            "the letter counts differ: {left} in {}, {right} in {}",
            names.0, names.1
        ),
    );
}

// Names the option that reads both texts, if they are over one field that is offered, another than GF(65537).
fn suggest_field(rt: &HostRuntime, first: Named<'_>, second: Named<'_>) {
    let over = FieldChoice::named_in(first.text);
    match over {
        None | Some(FieldChoice::Fermat) => {}
        Some(_) if over != FieldChoice::named_in(second.text) => {}
        Some(field) => {
            let q = field.order();
            explain(
                rt,
                format_args!("both tables are over {q} elements; --field {q} reads them"),
            );
        }
    }
}

// Explains a refusal.
fn explain_refusal(
    rt: &HostRuntime,
    refusal: Refusal,
    field: Option<FieldChoice>,
    first: Named<'_>,
    second: Named<'_>,
) {
    let refused = match refusal.text {
        1 => first,
        2 => second,
        _ => return explain_letters(rt, first, second),
    };
    explain(
        rt,
        Refused {
            name: refused.name,
            text: refused.text,
            refusal: refusal.number,
            position: refusal.position,
            field: Some(field.unwrap_or(FieldChoice::Fermat)),
        },
    );
    if field.is_none() {
        suggest_field(rt, first, second);
    }
}

// Reads a file that the command line names, or else the one that stands in for it, which may be missing.
fn read(rt: &HostRuntime, files: &[String], i: usize, default: &str) -> Result<Vec<u8>, Error>
    ensures within { IfOk result (λ text. vec_len text ≤ 19594) }
{
    let name = name_or(files, i, default);
    let text = if i < files.len() {
        read_input(rt, name, TEXT_LIMIT)
    } else {
        read_if_there(rt, name, TEXT_LIMIT)
    };
    text.map_err(|e| read_error(rt.alloc(), name, e))
}

// How the program ends under --status: by the first byte of the line.
fn status_of(line: &[u8]) -> Status
    ensures by_first_byte { result ≡ status_by line.now }
{
    match line {
        [b'Q', ..] => Status::Success,
        [b'D', ..] => Status::Failure,
        _ => Status::Trouble,
    }
}

// Reads both texts, and prints the line; a refusal is explained.
fn work(rt: &HostRuntime, options: Options) -> Result<Status, Error> {
    let heap = rt.alloc();
    let files = options.files.as_slice();
    let names = (name_or(files, 0, "first"), name_or(files, 1, "second"));
    let first = read(rt, files, 0, "first")?;
    let second = read(rt, files, 1, "second")?;
    let mut line = [0u8; LONGEST];
    let field = options.field.unwrap_or(FieldChoice::Fermat);
    let count = report_offered(field, first.as_slice(), second.as_slice(), &mut line);
    let line = &line[..count];
    if !options.quiet {
        rt.stdout()
            .write_all(line)
            .map_err(|e| write_error(heap, "-", e))?;
    }
    if let Some(refusal) = Refusal::of(line) {
        let first = Named {
            name: names.0,
            text: first.as_slice(),
        };
        let second = Named {
            name: names.1,
            text: second.as_slice(),
        };
        explain_refusal(rt, refusal, options.field, first, second);
    }
    if options.status {
        return Ok(status_of(line));
    }
    Ok(Status::Success)
}

fn main(rt: HostRuntime) -> ExitCode {
    VERDICT.main(&rt, |options| work(&rt, options))
}
