//! Messages about refused texts: where the fault is, what was found there and what was expected.
use crate::field_choice::FieldChoice;
use crate::files::shown;
use std::{fmt, str};

/// A text that is refused: the name of its file, the refusal's number, 10 to 15, its line and column, and the field, or
/// nothing where any field that the programs offer would do.
#[derive(Clone, Copy)]
pub struct Refused<'a> {
    pub name: &'a str,
    pub text: &'a [u8],
    pub refusal: u8,
    pub position: (u32, u32),
    pub field: Option<FieldChoice>,
}

/// What follows so many lines of a text.
pub fn skip_lines(text: &[u8], count: usize) -> &[u8] {
    let mut rest = text;
    for _ in 0..count {
        let line = first_line(rest).len();
        rest = rest.get(line..).unwrap_or(&[]);
        rest = rest.get(1..).unwrap_or(&[]);
    }
    rest
}

/// The first line of a text, without its newline.
pub fn first_line(text: &[u8]) -> &[u8] {
    let newline = text.iter().position(|b| *b == b'\n');
    newline.and_then(|i| text.get(..i)).unwrap_or(text)
}

// The line of a text, from 1.
fn line_at(text: &[u8], line: usize) -> &[u8] {
    first_line(skip_lines(text, line.saturating_sub(1)))
}

// The number in the 11 columns of a line that begin at this one, from 1.
fn number_at(line: &[u8], column: usize) -> Option<u64> {
    let first = column.checked_sub(1)?;
    let columns = line.get(first..first.checked_add(11)?)?;
    str::from_utf8(columns)
        .ok()?
        .trim_start()
        .parse::<u64>()
        .ok()
}

/// How many letters the first line of a text says that the table has.
pub fn letters_in(text: &[u8]) -> Option<u64> {
    number_at(line_at(text, 1), 13)
}

// A byte that was found, or the end of the text.
#[derive(Clone, Copy)]
struct Found(Option<u8>);

impl fmt::Display for Found {
    fn fmt<W: fmt::Write>(&self, f: &mut fmt::Formatter<W>) -> fmt::Result {
        match self.0 {
            None => f.write_str("the end of the text"),
            Some(b'\n') => f.write_str("the end of the line"),
            Some(b'\r') => f.write_str("a carriage return"),
            Some(b'\t') => f.write_str("a tab"),
            Some(b' ') => f.write_str("a space"),
            Some(b) if b.is_ascii_graphic() => write!(f, "\"{}\"", char::from(b)),
            Some(b) => write!(f, "byte {b}"),
        }
    }
}

// What is due in a line of a table's text: its kind, and how many numbers.
#[derive(Clone, Copy)]
struct DueLine {
    kind: &'static str,
    numbers: usize,
}

// A row of a letter's matrix, both from 1.
#[derive(Clone, Copy)]
struct MatrixRow {
    letter: usize,
    row: usize,
}

// A table's size by the first line of its text.
#[derive(Clone, Copy)]
struct Size {
    states: usize,
    letters: usize,
}

// At most so many.
fn at_most(number: Option<u64>, limit: u64) -> usize {
    // `as`: std has no From from u64 to usize.
    number.unwrap_or(0).min(limit) as usize
}

impl Size {
    // At most the largest table's, whatever the text says.
    fn of(text: &[u8]) -> Size {
        let first = line_at(text, 1);
        Size {
            states: at_most(number_at(first, 2), 16),
            letters: at_most(number_at(first, 13), 6),
        }
    }

    // What is due in a line.
    fn due(self, line: usize) -> DueLine {
        let rows = self.states.saturating_mul(self.letters);
        let (kind, numbers) = match line {
            0 | 1 => ("a T line", 3),
            2 => ("an S line", self.states),
            line if line <= rows.saturating_add(2) => {
                ("an M line", self.states.saturating_add(2))
            }
            line if line == rows.saturating_add(3) => ("an E line", self.states),
            _ => ("a Z line", 0),
        };
        DueLine { kind, numbers }
    }

    // The matrix row of a line, if it has one.
    fn matrix_row(self, line: usize) -> Option<MatrixRow> {
        let index = line.checked_sub(3)?;
        let letter = index.checked_div(self.states)?.saturating_add(1);
        let row = index.checked_rem(self.states)?.saturating_add(1);
        if letter > self.letters {
            return None;
        }
        Some(MatrixRow { letter, row })
    }
}

impl Refused<'_> {
    // Line and column.
    fn place(&self) -> (usize, usize) {
        // `as`: std has no From from u32 to usize.
        (self.position.0 as usize, self.position.1 as usize)
    }

    // The byte at the fault, unless the text ends there.
    fn byte(&self) -> Option<u8> {
        let (line, column) = self.place();
        let bytes = line_at(self.text, line);
        match bytes.get(column.checked_sub(1)?) {
            Some(b) => Some(*b),
            None if self.refusal == 10 => None,
            None => Some(b'\n'),
        }
    }

    // The text ends where a byte is due.
    fn write_ended<W: fmt::Write>(&self, f: &mut fmt::Formatter<W>) -> fmt::Result {
        if self.text.is_empty() {
            return f.write_str("the text is empty");
        }
        let (line, column) = self.place();
        let due = Size::of(self.text).due(line);
        if column <= 1 {
            return write!(f, "the text ends, expected {}", due.kind);
        }
        if column.saturating_sub(2) / 11 < due.numbers {
            f.write_str("the text ends, expected a number")
        } else {
            f.write_str("the text ends, expected the end of the line")
        }
    }

    // Another kind of line.
    fn write_other_kind<W: fmt::Write>(&self, f: &mut fmt::Formatter<W>) -> fmt::Result {
        let (line, _) = self.place();
        let kind = Size::of(self.text).due(line).kind;
        write!(f, "expected {kind}, found ")?;
        match self.byte() {
            Some(b'\n') => f.write_str("an empty line"),
            Some(b'T') => f.write_str("a T line"),
            Some(b'S') => f.write_str("an S line"),
            Some(b'M') => f.write_str("an M line"),
            Some(b'E') => f.write_str("an E line"),
            Some(b'Z') => f.write_str("a Z line"),
            found => write!(f, "{}", Found(found)),
        }
    }

    // A byte that cannot stand in its column of a number.
    fn write_no_number<W: fmt::Write>(&self, f: &mut fmt::Formatter<W>) -> fmt::Result {
        let (line, column) = self.place();
        let index = column.saturating_sub(1);
        let in_number = column.saturating_sub(2) % 11;
        let before = line_at(self.text, line)
            .get(index.saturating_sub(in_number)..index)
            .unwrap_or(&[]);
        let after_digits = before.iter().any(|b| b.is_ascii_digit());
        match self.byte() {
            Some(b'0') if !after_digits && in_number > 0 => f.write_str("a number begins with 0"),
            found if in_number == 0 => write!(
                f,
                "expected a space before a number of at most 10 digits, found {}",
                Found(found)
            ),
            found if after_digits || in_number == 10 => {
                write!(f, "expected a digit, found {}", Found(found))
            }
            found => write!(f, "expected a digit or a space, found {}", Found(found)),
        }
    }

    // A number that is not the one due, or not within its limits.
    fn write_other_value<W: fmt::Write>(&self, f: &mut fmt::Formatter<W>) -> fmt::Result {
        let (line, column) = self.place();
        let found = number_at(line_at(self.text, line), column).unwrap_or(0);
        match (line, column) {
            (1, 2) => write!(f, "n must be at most 16, found {found}"),
            (1, 13) => write!(f, "k must be from 1 to 6, found {found}"),
            (1, _) => {
                write!(f, "the table is over {found} elements, expected ")?;
                match self.field {
                    Some(field) => write!(f, "{}", field.order()),
                    None => f.write_str("2, 256 or 65537"),
                }
            }
            (_, column) => match (Size::of(self.text).matrix_row(line), column) {
                (Some(due), 2) => write!(f, "expected letter {}, found {found}", due.letter),
                (Some(due), 13) => write!(f, "expected row {}, found {found}", due.row),
                _ => match self.field {
                    Some(field) => write!(
                        f,
                        "a code must be below {}, found {found}",
                        field.order()
                    ),
                    None => write!(f, "the code {found} is too large"),
                },
            },
        }
    }
}

/// The file, line and column, and the reason.
impl fmt::Display for Refused<'_> {
    fn fmt<W: fmt::Write>(&self, f: &mut fmt::Formatter<W>) -> fmt::Result {
        let (line, column) = self.position;
        write!(f, "{}:{line}:{column}: ", shown(self.name))?;
        let found = self.byte();
        match self.refusal {
            11 | 12 | 14 if found == Some(b'\r') => {
                f.write_str("carriage return: the text has Windows line ends")
            }
            10 => self.write_ended(f),
            11 => self.write_other_kind(f),
            12 => self.write_no_number(f),
            13 => self.write_other_value(f),
            14 => write!(f, "expected the end of the line, found {}", Found(found)),
            15 if found == Some(b'\n') => {
                f.write_str("expected the end of the text, found an empty line")
            }
            15 => write!(f, "expected the end of the text, found {}", Found(found)),
            number => write!(f, "refused {number}"),
        }
    }
}
