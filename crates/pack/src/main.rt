//! Packs a table: reads its text, reduces it, compares the two, and writes the text of the reduced form.
#![tactic(auto)]

use book::refusal::Refusal;
use book::verdict::Kind;
use command::arguments::{Accepted, Options, name_or};
use command::error::Error;
use command::field_choice::{FieldChoice, OverField, with_field};
use command::files::{TEXT_LIMIT, read_error, read_input, shown, write_error, write_file};
use command::program::Program;
use command::refused::Refused;
use command::status::Status;
use field::Field;
use packing::error::PackError;
use packing::pack;
use packing::packed::Packed;
use shelf::memory::{SHELF, WORK};
use std::fmt;
use std::process::ExitCode;
use writer::LONGEST;

const HELP: &str = "usage: pack [--field Q] [FILE [OUT]]

Reads the text of a table from FILE (default: the file table), and writes the
text of the smallest table that gives every word the same weight to OUT
(default: standard output). - stands for standard input or output. Prints a
summary on standard error.

  --field Q      the field: 2, 256 or 65537 elements (default: the one that the
                 first line of the text names)
  -h, --help     prints this
  -V, --version  prints the version

OUT may be FILE. It is replaced once the new text is written, and stays as it is
after an error.

Exit status: 0 if the table was packed, 1 if the text is refused or a file
cannot be read or written, 2 if the command line is wrong.";

const PACK: Program<'static> = Program {
    name: "pack",
    usage: HELP,
    accepted: Accepted {
        files: 2,
        compares: false,
    },
};

// What was done with the text of a file, over a field of so many elements.
#[derive(Clone, Copy)]
struct Summary<'a> {
    name: &'a str,
    order: u64,
    done: Packed,
}

impl fmt::Display for Summary<'_> {
    fn fmt<W: fmt::Write>(&self, f: &mut fmt::Formatter<W>) -> fmt::Result {
        let Summary { name, order, done } = self;
        let (before, after, bytes) = (done.before, done.after, done.bytes);
        writeln!(
            f,
            "{name}: {before} states packed to {after} over GF({order}), {bytes} bytes"
        )?;
        let (tried, kept) = (done.verdict.tried, done.verdict.kept);
        write!(f, "all words weigh alike: {tried} tried, {kept} kept")
    }
}

// A text that is to be packed over the field that is chosen; `named` is nothing where neither the command line nor the text
// names a field.
#[derive(Clone, Copy)]
struct Packing<'a> {
    rt: &'a HostRuntime,
    named: Option<FieldChoice>,
    text: &'a [u8],
    name: &'a str,
    out: &'a str,
}

impl Packing<'_> {
    // Why the text is not packed.
    fn refused(&self, error: PackError) -> Error {
        let heap = self.rt.alloc();
        match error {
            PackError::Refused(Refusal::Unreadable(fault)) => Error::new(
                heap,
                Refused {
                    name: self.name,
                    text: self.text,
                    refusal: fault.refusal(),
                    position: fault.position(),
                    field: self.named,
                },
            ),
            _ => Error::new(heap, error),
        }
    }
}

impl OverField for Packing<'_> {
    type Output = Result<Status, Error>;

    // What is written is no part of the result.
    ghost gives = { λ q packing done. Unit {0} };

    // Packs the text, and writes what came of it.
    fn over<F: Field>(self) -> Result<Status, Error> {
        let rt = self.rt;
        let mut shelf = [F::zero(); SHELF];
        let mut work = [F::zero(); WORK];
        let mut output = [0u8; LONGEST];
        let done = pack(&mut shelf, &mut work, &mut output, self.text).map_err(|error| self.refused(
            error,
        ))?;
        // By the contract of `pack` neither can be; the text is not written where one is.
        if done.verdict.kind != Kind::Alike || done.bytes > output.len() {
            return Err(Error::new(rt.alloc(), "the packed table weighs some word differently"));
        }
        write_file(rt, self.out, &output[..done.bytes]).map_err(|e| write_error(
            rt.alloc(),
            self.out,
            e,
        ))?;
        let name = shown(self.name);
        let order = F::order();
        // The text is written; a summary that cannot be is no error.
        let _ = eprintln!(rt; "{}", Summary { name, order, done });
        Ok(Status::Success)
    }
}

// Reads the text, and packs it over the field that is named, in the command line or else in the text.
fn work(rt: &HostRuntime, options: Options) -> Result<Status, Error> {
    let files = options.files.as_slice();
    let name = name_or(files, 0, "table");
    let text = read_input(rt, name, TEXT_LIMIT).map_err(|e| read_error(rt.alloc(), name, e))?;
    let text = text.as_slice();
    let named = options.field.or(FieldChoice::named_in(text));
    let packing = Packing {
        rt,
        named,
        text,
        name,
        out: name_or(files, 1, "-"),
    };
    with_field(named.unwrap_or(FieldChoice::Fermat), packing)
}

fn main(rt: HostRuntime) -> ExitCode {
    PACK.main(&rt, |options| work(&rt, options))
}
