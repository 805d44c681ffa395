//! What a text is refused for, and where.
#![tactic(auto)]

ghost use Rattle.std.specs.Prelude.{◌≡◌, Some};
ghost use Rattle.faults.specs.declared.LineFault.TheVariants.{Column};
ghost use Rattle.faults.specs.declared.LoadFault.TheVariants.{Line};
ghost use Rattle.faults.specs.Refusals.{column_position, line_position, load_position, column_refusal, line_refusal, load_refusal};
ghost use Rattle.faults.specs.Reasons.{column_reason, line_reason, load_reason};

use std::fmt;

/// A place in a text: its line and its column, both counted from 1.
#[derive(Clone, Copy, Debug, PartialEq, Eq)]
pub struct Position {
    pub line: u32,
    pub column: u32,
}

/// A byte that cannot stand in its column.
#[derive(Clone, Copy, Debug, PartialEq, Eq)]
pub struct ColumnFault {
    pub position: Position,
}

/// What is wrong with a line: a column of it, its end before a byte that is due, its first byte, or a byte in the place
/// of its newline.
#[derive(Clone, Copy, Debug, PartialEq, Eq)]
pub enum LineFault {
    Column(ColumnFault),
    Ends(Position),
    Unexpected(Position),
    Unended(Position),
}

/// What is wrong with a text: a line of it, a number that is not the one due or not within its limits, or bytes after
/// its last line.
#[derive(Clone, Copy, Debug, PartialEq, Eq)]
pub enum LoadFault {
    Line(LineFault),
    Value(Position),
    Beyond(Position),
}

impl From<ColumnFault> for LineFault {
    ghost from_gives = { λ fault r. r ≡ Column fault };

    fn from(column: ColumnFault) -> LineFault {
        LineFault::Column(column)
    }
}

impl From<LineFault> for LoadFault {
    ghost from_gives = { λ fault r. r ≡ Line fault };

    fn from(line: LineFault) -> LoadFault {
        LoadFault::Line(line)
    }
}

impl fmt::Display for ColumnFault {
    ghost output = { λ fault. Some (column_reason fault) };

    fn fmt<W: fmt::Write>(&self, f: &mut fmt::Formatter<W>) -> fmt::Result {
        f.write_str(self.reason())
    }
}

impl fmt::Display for LineFault {
    ghost output = { λ fault. Some (line_reason fault) };

    fn fmt<W: fmt::Write>(&self, f: &mut fmt::Formatter<W>) -> fmt::Result {
        f.write_str(self.reason())
    }
}

impl fmt::Display for LoadFault {
    ghost output = { λ fault. Some (load_reason fault) };

    fn fmt<W: fmt::Write>(&self, f: &mut fmt::Formatter<W>) -> fmt::Result {
        f.write_str(self.reason())
    }
}

impl ColumnFault {
    /// The line and column of the byte, both counted from 1.
    pub fn position(&self) -> (u32, u32)
        ensures line_and_column { result ≡ column_position self.now }
    {
        (self.position.line, self.position.column)
    }

    /// The number of the refusal, from 10 to 15.
    pub fn refusal(&self) -> u8
        ensures numbered { result ≡ column_refusal self.now }
    {
        12
    }

    /// The reason in words.
    pub fn reason(&self) -> &'static str
        ensures in_words { result.now ≡ column_reason self.now }
    {
        "a byte cannot stand in its column"
    }
}

impl LineFault {
    /// The line and column of the fault, both counted from 1.
    pub fn position(&self) -> (u32, u32)
        ensures line_and_column { result ≡ line_position self.now }
    {
        match self {
            LineFault::Column(fault) => fault.position(),
            LineFault::Ends(at) | LineFault::Unexpected(at) | LineFault::Unended(at) => {
                (at.line, at.column)
            }
        }
    }

    /// The number of the refusal, from 10 to 15.
    pub fn refusal(&self) -> u8
        ensures numbered { result ≡ line_refusal self.now }
    {
        match self {
            LineFault::Column(fault) => fault.refusal(),
            LineFault::Ends(_) => 10,
            LineFault::Unexpected(_) => 11,
            LineFault::Unended(_) => 14,
        }
    }

    /// The reason in words.
    pub fn reason(&self) -> &'static str
        ensures in_words { result.now ≡ line_reason self.now }
    {
        match self {
            LineFault::Column(fault) => fault.reason(),
            LineFault::Ends(_) => "the text ends where a byte is due",
            LineFault::Unexpected(_) => "another kind of line is due",
            LineFault::Unended(_) => "the line should end here",
        }
    }
}

impl LoadFault {
    /// The line and column of the fault, both counted from 1.
    pub fn position(&self) -> (u32, u32)
        ensures line_and_column { result ≡ load_position self.now }
    {
        match self {
            LoadFault::Line(fault) => fault.position(),
            LoadFault::Value(at) | LoadFault::Beyond(at) => (at.line, at.column),
        }
    }

    /// The number of the refusal, from 10 to 15.
    pub fn refusal(&self) -> u8
        ensures numbered { result ≡ load_refusal self.now }
    {
        match self {
            LoadFault::Line(fault) => fault.refusal(),
            LoadFault::Value(_) => 13,
            LoadFault::Beyond(_) => 15,
        }
    }

    /// The reason in words.
    pub fn reason(&self) -> &'static str
        ensures in_words { result.now ≡ load_reason self.now }
    {
        match self {
            LoadFault::Line(fault) => fault.reason(),
            LoadFault::Value(_) => "a number is not the one due or not within its limits",
            LoadFault::Beyond(_) => "nothing may follow the last line",
        }
    }
}
