//! Verdicts, shown, counted and mixed into one number.

use faults::{LineFault, LoadFault};
use residue::Fermat;
use rows::table::{LARGEST, Shape};
use std::fmt;
use text::table::read_table;

/// A text's table's size, or why the text is refused.
#[derive(Clone, Copy)]
pub struct Verdict(pub Result<Shape, LoadFault>);

impl Verdict {
    /// The verdict on a text.
    pub fn on(text: &[u8], work: &mut [Fermat; LARGEST]) -> Verdict {
        Verdict(read_table::<Fermat>(text, work))
    }

    /// The refusal's number, line and column; 0, states and letters for an accepted text.
    fn numbers(&self) -> (u64, u64, u64) {
        match &self.0 {
            // `as`: std has no From between usize and u64.
            Ok(shape) => (0, shape.states as u64, shape.letters as u64),
            Err(fault) => {
                let (line, column) = fault.position();
                (
                    u64::from(fault.refusal()),
                    u64::from(line),
                    u64::from(column),
                )
            }
        }
    }
}

impl fmt::Display for Verdict {
    fn fmt<W: fmt::Write>(&self, f: &mut fmt::Formatter<W>) -> fmt::Result {
        let (number, first, second) = self.numbers();
        write!(f, "{number} {first} {second}")
    }
}

/// How often each verdict came, and all in their order mixed into one number.
#[derive(Clone, Copy)]
pub struct Tally {
    accepted: u64,
    ends: u64,
    unexpected: u64,
    columns: u64,
    values: u64,
    unended: u64,
    beyond: u64,
    mixed: u64,
}

impl Tally {
    pub fn new() -> Tally {
        Tally {
            accepted: 0,
            ends: 0,
            unexpected: 0,
            columns: 0,
            values: 0,
            unended: 0,
            beyond: 0,
            mixed: 1,
        }
    }

    /// Counts one more verdict.
    pub fn add(&mut self, verdict: Verdict) {
        let count = match verdict.0 {
            Ok(_) => &mut self.accepted,
            Err(LoadFault::Line(LineFault::Ends(_))) => &mut self.ends,
            Err(LoadFault::Line(LineFault::Unexpected(_))) => &mut self.unexpected,
            Err(LoadFault::Line(LineFault::Column(_))) => &mut self.columns,
            Err(LoadFault::Value(_)) => &mut self.values,
            Err(LoadFault::Line(LineFault::Unended(_))) => &mut self.unended,
            Err(LoadFault::Beyond(_)) => &mut self.beyond,
        };
        *count = count.wrapping_add(1);
        let (number, first, second) = verdict.numbers();
        let mark = number
            .wrapping_mul(1000003)
            .wrapping_add(first.wrapping_mul(1009))
            .wrapping_add(second);
        self.mixed = self
            .mixed
            .wrapping_mul(6364136223846793005)
            .wrapping_add(mark);
    }
}

impl fmt::Display for Tally {
    fn fmt<W: fmt::Write>(&self, f: &mut fmt::Formatter<W>) -> fmt::Result {
        write!(
            f,
            "{} {} {} {} {} {} {}, {}",
            self.accepted,
            self.ends,
            self.unexpected,
            self.columns,
            self.values,
            self.unended,
            self.beyond,
            self.mixed
        )
    }
}
