//! Writes the line that reports what was found.
ghost use Rattle.std.specs.Prelude.{◌≤◌, ◌++◌, length, IfOk};
ghost use Rattle.columns.specs.Lines.{line};
ghost use Rattle.report.specs.Reports.{refused_line, Reports};
ghost use Rattle.columns.specs.Lines.{TenDigits};
ghost use Rattle.report.specs.Findings.{AtFront, Fits, finding_line, verdict_line};
ghost use Rattle.report.specs.Memory.{AllZero};

use crate::finding::{Rejection, find};
use crate::line::put_line;
use book::refusal::Refusal;
use book::verdict::{Kind, Verdict};
use field::Field;

/// The longest line: a first byte, four numbers, 31 letters and byte 10.
pub const LONGEST: usize = 387;

// A number has 11 columns.
const _: () = prove!(LONGEST == 1 + 11 * (4 + 31) + 1);

// Writes a line to the front of the output, and returns how many bytes it has.
fn put_in_front(out: &mut [u8; LONGEST], first: u8, values: &[u64], letters: &[u8]) -> usize
    requires few { length values.now ≤ 4 }
    requires ten_digits { TenDigits values.now }
    requires few_letters { length letters.now ≤ 31 }
    ensures line_in_front { AtFront (line first (values.now ++ letters.now)) out.old result out.new }
    ensures at_most { result ≤ 387 }
{
    let count = 2 + 11 * (values.len() + letters.len());
    put_line(&mut out[..count], first, values, letters);
    count
}

// Writes the line of a refused text, or of the two together, and returns its length; `text` is 1, 2 or 0.
fn put_refused(out: &mut [u8; LONGEST], text: u8, refusal: &Refusal) -> usize
    ensures line_in_front { AtFront (refused_line text refusal.now) out.old result out.new }
    ensures at_most { result ≤ 387 }
{
    let (line, column) = refusal.position();
    let values = [
        u64::from(text),
        u64::from(refusal.number()),
        u64::from(line),
        u64::from(column),
    ];
    put_in_front(out, b'R', &values, b"")
}

// Writes the line of a verdict, and returns how many bytes it has.
fn put_verdict(out: &mut [u8; LONGEST], verdict: &Verdict) -> usize
    requires fits { Fits verdict.now }
    ensures line_in_front { AtFront (verdict_line verdict.now.kind verdict.now) out.old result out.new }
    ensures at_most { result ≤ 387 }
{
    // `as`, since there is no `From<usize>` for u64.
    match verdict.kind {
        Kind::Alike => {
            let values = [verdict.tried as u64, verdict.kept as u64];
            put_in_front(out, b'Q', &values, b"")
        }
        Kind::Differs | Kind::Other(_) => {
            let (left, right) = (verdict.first, verdict.second);
            let values = [verdict.tried as u64, verdict.length as u64, left, right];
            put_in_front(out, b'D', &values, &verdict.letters[..verdict.length])
        }
    }
}

// Writes the line that reports what was found, and returns how many bytes it has.
fn put_finding(out: &mut [u8; LONGEST], found: &Result<Verdict, Rejection>) -> usize
    requires fits { IfOk found.now (λ v. Fits v) }
    ensures line_in_front { AtFront (finding_line found.now) out.old result out.new }
    ensures at_most { result ≤ 387 }
{
    match found {
        Ok(verdict) => put_verdict(out, verdict),
        Err(Rejection::First(refusal)) => put_refused(out, 1, refusal),
        Err(Rejection::Second(refusal)) => put_refused(out, 2, refusal),
        Err(Rejection::Together(refusal)) => put_refused(out, 0, refusal),
    }
}

/// Reports on two texts with the given memory: writes the line, and returns how many bytes it has, or 0 where the output is
/// too short for some lines.
pub fn tell<F: Field>(
    shelf: &mut [F],
    work: &mut [F],
    first: &[u8],
    second: &[u8],
    out: &mut [u8],
) -> usize
    requires shelf_enough { 12544 ≤ length shelf.old }
    requires work_enough { 8192 ≤ length work.old }
    requires shelf_zero { AllZero F.field F.value shelf.old }
    requires work_zero { AllZero F.field F.value work.old }
    ensures reports { Reports F.field first.now second.now out.old result out.new }
    ensures at_most { result ≤ 387 }
{
    let Some(line) = out.first_chunk_mut::<LONGEST>() else {
        return 0;
    };
    let finding = find(shelf, work, first, second);
    put_finding(line, &finding)
}
