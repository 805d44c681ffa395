//! A number in its eleven columns.
ghost use Rattle.std.specs.Prelude.{◌≡◌, ℕ, ◌*◌, ◌^◌, ◌<◌, ◌≤◌, List, length, MatchOption, IfOk, OnOk, IfErr};
ghost use Rattle.std.specs.Iterator.{IsFinite};
ghost use Rattle.columns.specs.Numbers.{Begins, FirstBroken, IsNumber, number};
ghost use Rattle.columns.specs.Prefixes.{Extends, Holds, value_of};
ghost use Rattle.columns.specs.Lines.{numbers, Gives, TenDigits};

use faults::{ColumnFault, Position};

// The last column, counted from 0. It alone can hold a 0 with no digit before it, and it cannot hold a space.
const LAST: usize = 10;

/// The columns of a number that are read so far: spaces alone, or spaces and the digits of this value.
#[derive(Clone, Copy)]
pub enum Prefix {
    Spaces,
    Digits(u64),
}

impl Prefix {
    // Adds the byte at column `i`, counted from 0, if it can stand there.
    fn with(self, i: usize, byte: u8) -> Option<Prefix>
        requires small { value_of self < 10 ^ 10 }
        ensures extended { MatchOption result ((q : Prefix) → Extends i self byte q → ⊥) (Extends i self byte) }
    {
        match self {
            Prefix::Spaces => match byte {
                b' ' if i < LAST => Some(Prefix::Spaces),
                b'0' if i == LAST => Some(Prefix::Digits(0)),
                b'1'..=b'9' if i > 0 => Some(Prefix::Digits(u64::from(byte - b'0'))),
                _ => None,
            },
            Prefix::Digits(value) => match byte {
                b'0'..=b'9' => Some(Prefix::Digits(value * 10 + u64::from(byte - b'0'))),
                _ => None,
            },
        }
    }

    // The value of the digits; 0 while there are none.
    fn value(self) -> u64
        ensures value { result ≡ value_of self }
    {
        match self {
            Prefix::Spaces => 0,
            Prefix::Digits(value) => value,
        }
    }
}

// Reads the columns of a number, or the first of them.
fn scan(bytes: &[u8], start: Position) -> Result<Prefix, ColumnFault>
    requires columns_of_one { length bytes.now ≤ 11 }
    requires narrow { start.column < 2 ^ 31 }
    ensures held { IfOk result (Holds bytes.now) }
    ensures first_broken { IfErr result (FirstBroken start bytes.now) }
{
    let mut prefix = Prefix::Spaces;
    for (i, byte) in bytes.iter().enumerate() {
        let Some(longer) = prefix.with(i, *byte) else {
            // `as`: std has no From from usize to u32, and `i` is at most 10
            let position = Position {
                column: start.column + i as u32,
                ..start
            };
            return Err(ColumnFault { position });
        };
        prefix = longer;
    }
    Ok(prefix)
}

/// Reads the number in the eleven columns; `start` is the position of the first.
pub fn read_number(columns: &[u8; 11], start: Position) -> Result<u64, ColumnFault>
    requires narrow { start.column < 2 ^ 31 }
    ensures number { IfOk result (IsNumber columns.now) }
    ensures first_broken { IfErr result (FirstBroken start columns.now) }
{
    Ok(scan(columns, start)?.value())
}

/// Checks that the bytes, with which the text ends inside a number, begin one; `start` is the position of the first.
pub fn check_partial_number(bytes: &[u8], start: Position) -> Result<(), ColumnFault>
    requires columns_of_one { length bytes.now ≤ 11 }
    requires narrow { start.column < 2 ^ 31 }
    ensures begins { OnOk result (Begins bytes.now) }
    ensures first_broken { IfErr result (FirstBroken start bytes.now) }
{
    scan(bytes, start)?;
    Ok(())
}

/// Writes the number into its eleven columns.
pub fn put_number(columns: &mut [u8], value: u64)
    requires eleven { length columns.old ≡ 11 }
    requires ten_digits { value < 10 ^ 10 }
    ensures written { columns.new ≡ number value }
{
    let mut rest = value;
    // An index, since after a loop over `iter_mut().rev()` nothing is known of the elements.
    for i in (0..11).rev() {
        columns[i] = if rest == 0 && i < 10 {
            b' '
        } else {
            // `as`: std has no From from u64 to u8
            b'0' + (rest % 10) as u8
        };
        rest /= 10;
    }
}

/// Writes the values into their columns, one after another.
pub fn put_numbers<I: Iterator<Item = u64> + Drop>(out: &mut [u8], values: I)
    requires can { I.can_next values }
    requires ends { IsFinite (I.remaining values) }
    requires fill { (vs : List ℕ) × Gives I.next_gives values vs × TenDigits vs × (length out.old ≡ 11 * length vs) }
    ensures written { (vs : List ℕ) → Gives I.next_gives values vs → out.new ≡ numbers vs }
{
    let mut at = 0;
    for value in values {
        put_number(&mut out[at..at + 11], value);
        at += 11;
    }
}
