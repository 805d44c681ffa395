//! The kinds of lines, the order in which they come, and how a line is written.
ghost use Rattle.std.specs.Prelude.{◌≡◌, MatchOption, MatchResult, ◌≢◌, ℕ, List, ◌+◌, ◌*◌, length};
ghost use Rattle.std.specs.Iterator.{IsFinite};
ghost use Rattle.columns.specs.Lines.{letter as letter_of, due_letter, row_due, next, line as line_of, Gives, TenDigits};

use crate::column::put_numbers;

/// The kinds of lines, by their first byte T, S, M, E or Z.
#[derive(Clone, Copy, Debug, PartialEq, Eq)]
pub enum Kind {
    Table,
    Start,
    Matrix,
    End,
    Close,
}

/// A letter that no kind of line begins with.
#[derive(Clone, Copy, Debug, PartialEq, Eq)]
pub struct UnknownKind;

/// The line that is due: one of a kind, or none after the last line.
#[derive(Clone, Copy, Debug, PartialEq, Eq)]
pub enum Due {
    Table,
    Start,
    Matrix,
    End,
    Close,
    Nothing,
}

/// The kind of a line that begins with this letter.
impl TryFrom<char> for Kind {
    type Error = UnknownKind;

    ghost use Rattle.columns.specs.declared.line.Kind.{Kind};

    ghost try_from_gives = { λ letter r. MatchResult r (λ k. letter_of k ≡ letter) (λ _. (k : Kind) → letter_of k ≢ letter) };

    fn try_from(letter: char) -> Result<Kind, UnknownKind> {
        match letter {
            'T' => Ok(Kind::Table),
            'S' => Ok(Kind::Start),
            'M' => Ok(Kind::Matrix),
            'E' => Ok(Kind::End),
            'Z' => Ok(Kind::Close),
            _ => Err(UnknownKind),
        }
    }
}

/// The first byte of a line of this kind.
impl From<Kind> for u8 {
    ghost from_gives = { λ kind byte. byte ≡ letter_of kind };

    fn from(kind: Kind) -> u8 {
        match kind {
            Kind::Table => b'T',
            Kind::Start => b'S',
            Kind::Matrix => b'M',
            Kind::End => b'E',
            Kind::Close => b'Z',
        }
    }
}

// Returns the line due after a start or matrix line that `rows` matrix lines follow.
fn after_row(rows: usize) -> Due
    ensures row_or_end { result ≡ row_due rows }
{
    if rows > 0 { Due::Matrix } else { Due::End }
}

/// Returns the line due after a line of this kind, or `None` where `due` is another one. `rows` counts the matrix lines
/// that follow it.
pub fn turn(due: Due, kind: Kind, rows: usize) -> Option<Due>
    ensures due_comes { MatchOption result (letter_of kind ≢ due_letter due) (λ then. (letter_of kind ≡ due_letter due) × (then ≡ next rows due)) }
{
    match (due, kind) {
        (Due::Table, Kind::Table) => Some(Due::Start),
        (Due::Start, Kind::Start) => Some(after_row(rows)),
        (Due::Matrix, Kind::Matrix) => Some(after_row(rows)),
        (Due::End, Kind::End) => Some(Due::Close),
        (Due::Close, Kind::Close) => Some(Due::Nothing),
        _ => None,
    }
}

/// Writes a line: its first byte, the values in their columns, and a newline.
pub fn put_line<I: Iterator<Item = u64> + Drop>(out: &mut [u8], first: u8, values: I)
    requires can { I.can_next values }
    requires ends { IsFinite (I.remaining values) }
    requires fill { (vs : List ℕ) × Gives I.next_gives values vs × TenDigits vs × (length out.old ≡ 2 + 11 * length vs) }
    ensures written { (vs : List ℕ) → Gives I.next_gives values vs → out.new ≡ line_of first vs }
{
    let end = out.len() - 1;
    out[0] = first;
    put_numbers(&mut out[1..end], values);
    out[end] = b'\n';
}
