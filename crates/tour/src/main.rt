//! A tour of the library: multiplies a table by itself, packs the product, compares, and prints what it found and the packed
//! table's text.
#![tactic(auto)]

ghost use Rattle.std.specs.Prelude.{◌≡◌, ◌*◌, ◌≤◌, length};

use command::arguments::{Accepted, Options};
use command::error::Error;
use command::field_choice::{FieldChoice, OverField, with_field};
use command::files::{TEXT_LIMIT, read_error, read_input, write_error};
use command::program::Program;
use command::refused::Refused;
use command::status::Status;
use faults::LoadFault;
use field::Field;
use operations::multiplication::multiply;
use reduction::reduce;
use rows::table::{LARGEST, Shape, TableRef};
use search::compare::{Comparison, compare};
use std::fmt;
use std::io::Write;
use std::process::ExitCode;
use text::table::read_table;
use walk::pairs::Pair;
use writer::{LONGEST, write_table};

const HELP: &str = "usage: tour [--field Q] [FILE]

Shows the parts of the library at work: reads the text of a table from FILE
(default: the table of the Fibonacci numbers), multiplies the table by itself,
packs the product, compares the two, compares the table with its square, and
prints what it found and the text of the packed product. - stands for standard
input.

  --field Q      the field: 2, 256 or 65537 elements (default: the one that the
                 first line of the text names)
  -h, --help     prints this
  -V, --version  prints the version

Exit status: 0 after the tour, 1 if the text is refused or cannot be read, or if
the product has over 16 states, 2 if the command line is wrong.";

const TOUR: Program<'static> = Program {
    name: "tour",
    usage: HELP,
    accepted: Accepted {
        files: 1,
        compares: false,
    },
};

// How many elements of work memory comparing and reducing ask for: the shelf's number, which is that of a crate above these.
const WORK: usize = 8192;

// The text after the number of the field. Start (1, 0), matrix rows (0, 1) and (1, 1), end (0, 1): the word of m letters
// weighs the m-th Fibonacci number.
const FIBONACCI: &str =
    "S          1          0\nM          1          1          0          1\nM          1          2          1          1\nE          0          1\nZ\n";

// What a comparison found.
#[derive(Clone, Copy)]
struct Found(Comparison);

impl fmt::Display for Found {
    fn fmt<W: fmt::Write>(&self, f: &mut fmt::Formatter<W>) -> fmt::Result {
        match self.0 {
            Comparison::Alike { tried, kept } => {
                write!(f, "all words weigh alike: {tried} tried, {kept} kept")
            }
            Comparison::Differs {
                word,
                tried,
                left,
                right,
            } => {
                write!(
                    f,
                    "the first word that differs has {} letters, ",
                    word.length
                )?;
                write!(
                    f,
                    "weighs {left} and {right}, and is number {tried} of those tried"
                )
            }
        }
    }
}

// Prints the text of a table.
fn print_table<F: Field>(rt: &HostRuntime, table: TableRef<'_, F>) -> Result<(), Error> {
    let mut output = [0u8; LONGEST];
    let count = write_table(table, &mut output);
    let printed = rt.stdout().write_all(&output[0..count]);
    printed.map_err(|e| write_error(rt.alloc(), "-", e))
}

// The table of a text, to be shown over the field that is chosen.
#[derive(Clone, Copy)]
struct Touring<'a> {
    rt: &'a HostRuntime,
    named: Option<FieldChoice>,
    text: &'a [u8],
    name: &'a str,
}

impl Touring<'_> {
    // Why the text is refused.
    fn refused(&self, fault: LoadFault) -> Error {
        Error::new(
            self.rt.alloc(),
            Refused {
                name: self.name,
                text: self.text,
                refusal: fault.refusal(),
                position: fault.position(),
                field: self.named,
            },
        )
    }
}

// Multiplies a table by itself, and writes the product to the front of `squared`: its shape.
fn square_into<F: Field>(table: TableRef<'_, F>, squared: &mut [F]) -> Shape
    requires few { table.shape.states ≤ 4 }
    requires room { 1568 ≤ length squared.old }
    ensures squared { result.states ≡ table.entry.shape.states * table.entry.shape.states }
    ensures same_letters { result.letters ≡ table.entry.shape.letters }
{
    let shape = table.shape();
    let product = Shape::new(shape.states * shape.states, shape.letters);
    multiply(table, table, &mut squared[0..product.size()]);
    product
}

impl OverField for Touring<'_> {
    type Output = Result<Status, Error>;

    // What is printed is no part of the result.
    ghost gives = { λ q touring done. Unit {0} };

    // Squares the table, packs the square, and compares.
    fn over<F: Field>(self) -> Result<Status, Error> {
        let rt = self.rt;
        let mut memory = [F::zero(); LARGEST];
        let shape = read_table(self.text, &mut memory).map_err(|fault| self.refused(fault))?;
        if shape.states > 4 {
            return Err(Error::new(
                rt.alloc(),
                format_args!(
                    "the table has {} states, and its square over 16",
                    shape.states
                ),
            ));
        }
        let mut squared = [F::zero(); LARGEST];
        let mut work = [F::zero(); WORK];
        let square_shape = square_into(TableRef::new(&memory, shape), &mut squared);
        let states = reduce(&mut work, TableRef::new(&squared, square_shape));
        let packed_shape = Shape::new(states, shape.letters);
        let mut packed = [F::zero(); LARGEST];
        let (form, _) = work.split_at(LARGEST);
        packed.copy_from_slice(form);
        println!(rt;
            "states: {} squared to {}, packed to {}",
            shape.states, square_shape.states, states
        )?;
        let same = Pair {
            left: TableRef::new(&squared, square_shape),
            right: TableRef::new(&packed, packed_shape),
        };
        println!(rt; "{}", Found(compare(&mut work, same)))?;
        let other = Pair {
            left: TableRef::new(&memory, shape),
            right: TableRef::new(&squared, square_shape),
        };
        println!(rt; "{}", Found(compare(&mut work, other)))?;
        print_table(rt, TableRef::new(&packed, packed_shape))?;
        Ok(Status::Success)
    }
}

// Reads the text, and shows its table over the field that is named, in the command line or else in the text.
fn work(rt: &HostRuntime, options: Options) -> Result<Status, Error> {
    let heap = rt.alloc();
    match options.files.first() {
        Some(name) => {
            let name = name.as_str();
            let text = read_input(rt, name, TEXT_LIMIT).map_err(|e| read_error(heap, name, e))?;
            let text = text.as_slice();
            let named = options.field.or(FieldChoice::named_in(text));
            let touring = Touring {
                rt,
                named,
                text,
                name,
            };
            with_field(named.unwrap_or(FieldChoice::Fermat), touring)
        }
        None => {
            let field = options.field.unwrap_or(FieldChoice::Fermat);
            let text = format!(in heap;
                "T          2          1{:>11}\n{FIBONACCI}",
                field.order()
            )?;
            let touring = Touring {
                rt,
                named: Some(field),
                text: text.as_bytes(),
                name: "the table of the Fibonacci numbers",
            };
            with_field(field, touring)
        }
    }
}

fn main(rt: HostRuntime) -> ExitCode {
    TOUR.main(&rt, |options| work(&rt, options))
}
