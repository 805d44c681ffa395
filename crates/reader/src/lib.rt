//! A text read in place, item by item: what is due, and where a reader stops.
#![tactic(auto)]

ghost use Rattle.std.specs.Prelude.{◌≡◌, ℕ, ◌-◌, ◌^◌, ◌<◌, ◌≤◌, [], ◌∷◌, length, OnOk, IfOk, OnErr, IfErr};
ghost use Rattle.columns.specs.Numbers.{number};
ghost use Rattle.columns.specs.Lines.{due_letter};
ghost use Rattle.reader.specs.Items.{first, close, ranged, after};
ghost use Rattle.reader.specs.Steps.{left, Starts, Able, Turned, SameLine};
ghost use Rattle.reader.specs.Steps.{Went, WentAlong, HaltsAt, StoppedAt};
ghost use Rattle.faults.specs.declared.LoadFault.TheVariants.{Beyond};

use columns::column::{check_partial_number, read_number};
use columns::line::{Due, Kind, turn};
use faults::{LineFault, LoadFault, Position};
use field::Field;

/// The rest of a text, the position of its first byte, and the line that is due, which `rows` matrix lines follow.
// The clause `able` of the methods bounds line and column, since a long text could take them past any limit.
#[derive(Clone, Copy)]
pub struct Reader<'a> {
    rest: &'a [u8],
    position: Position,
    due: Due,
    rows: usize,
}

impl<'a> Reader<'a> {
    /// Returns a reader at the start of the text.
    pub fn new(text: &'a [u8]) -> Reader<'a>
        ensures at_the_start { Starts result text.now }
    {
        Reader {
            rest: text,
            position: Position { line: 1, column: 1 },
            due: Due::Table,
            rows: 0,
        }
    }
}

impl Reader<'_> {
    /// Checks that the text ends here.
    pub fn finish(&self) -> Result<(), LoadFault>
        ensures over { OnOk result (left self.now ≡ []) }
        ensures beyond { IfErr result (λ f. (0 < length (left self.now)) × (f ≡ Beyond self.now.position)) }
    {
        if !self.rest.is_empty() {
            return Err(LoadFault::Beyond(self.position));
        }
        Ok(())
    }

    /// Sets the number of matrix lines that follow the line due.
    pub fn expect_rows(&mut self, rows: usize)
        ensures expected { self.new ≡ record self.old { rows = rows } }
    {
        self.rows = rows;
    }

    /// Reads the first byte of the line due. The line after it is due then.
    pub fn head(&mut self) -> Result<(), LineFault>
        requires able { Able self.old }
        ensures first_byte { OnOk result (WentAlong self.old self.new (due_letter self.old.due ∷ []) 1) }
        ensures turned { OnOk result (Turned self.old self.new) }
        ensures halts { IfErr result (HaltsAt self.old (first (due_letter self.old.due))) }
        ensures unchanged { OnErr result (self.new ≡ self.old) }
    {
        let (letter, rest) = self
            .rest
            .split_first()
            .ok_or(LineFault::Ends(self.position))?;
        let unexpected = LineFault::Unexpected(self.position);
        let kind = Kind::try_from(char::from(*letter)).or(Err(unexpected))?;
        let then = turn(self.due, kind, self.rows).ok_or(unexpected)?;
        self.rest = rest;
        self.position.column += 1;
        self.due = then;
        self.rows = self.rows.saturating_sub(1);
        Ok(())
    }

    /// Reads the end of a line.
    pub fn newline(&mut self) -> Result<(), LineFault>
        requires able { Able self.old }
        ensures next_line { OnOk result (Went self.old self.new (10 ∷ []) (after close self.old.position)) }
        ensures same_line { OnOk result (SameLine self.old self.new) }
        ensures halts { IfErr result (HaltsAt self.old close) }
        ensures unchanged { OnErr result (self.new ≡ self.old) }
    {
        match self.rest {
            [] => Err(LineFault::Ends(self.position)), // a newline is due
            [b'\n', rest @ ..] => {
                self.rest = rest;
                self.position = Position {
                    line: self.position.line + 1,
                    column: 1,
                };
                Ok(())
            }
            _ => Err(LineFault::Unended(self.position)),
        }
    }

    /// Reads a number.
    pub fn number(&mut self) -> Result<u64, LineFault>
        requires able { Able self.old }
        ensures number { IfOk result (λ v. (v < 10 ^ 10) × WentAlong self.old self.new (number v) 11) }
        ensures same_line { OnOk result (SameLine self.old self.new) }
        ensures halts { IfErr result (λ f. (low high : ℕ) → HaltsAt self.old (ranged low high) f) }
        ensures unchanged { OnErr result (self.new ≡ self.old) }
    {
        let Some((columns, rest)) = self.rest.split_first_chunk::<11>() else {
            check_partial_number(self.rest, self.position)?;
            // `as`: std has no From from usize to u32, and fewer than 11 bytes are left
            let column = self.position.column + self.rest.len() as u32;
            return Err(LineFault::Ends(Position {
                column,
                ..self.position
            }));
        };
        let value = read_number(columns, self.position)?;
        self.rest = rest;
        self.position.column += 11;
        Ok(value)
    }

    /// Reads a number from `low` to `high`.
    pub fn within(&mut self, low: u64, high: u64) -> Result<u64, LoadFault>
        requires able { Able self.old }
        ensures in_range { IfOk result (λ v. (v < 10 ^ 10) × (low ≤ v) × (v ≤ high)) }
        ensures value { IfOk result (λ v. WentAlong self.old self.new (number v) 11) }
        ensures same_line { OnOk result (SameLine self.old self.new) }
        ensures stops { IfErr result (StoppedAt self.old (ranged low high)) }
        ensures unchanged { OnErr result (self.new ≡ self.old) }
    {
        let mut after = *self;
        let found = after.number()?;
        if !(low..=high).contains(&found) {
            return Err(LoadFault::Value(self.position));
        }
        *self = after;
        Ok(found)
    }

    /// Reads a code and returns its element.
    pub fn element<F: Field>(&mut self) -> Result<F, LoadFault>
        requires able { Able self.old }
        ensures element { IfOk result (λ x. WentAlong self.old self.new (number (F.field.code (F.value x))) 11) }
        ensures same_line { OnOk result (SameLine self.old self.new) }
        ensures stops { IfErr result (StoppedAt self.old (ranged 0 (F.field.q - 1))) }
        ensures unchanged { OnErr result (self.new ≡ self.old) }
    {
        let mut after = *self;
        let code = after.number()?;
        let element = F::from_code(code).ok_or(LoadFault::Value(self.position))?;
        *self = after;
        Ok(element)
    }
}
