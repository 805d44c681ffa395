//! Reads two texts and compares their tables.
ghost use Rattle.std.specs.Prelude.{◌≤◌, length, IfOk};
ghost use Rattle.report.specs.Reports.{ReportLine};
ghost use Rattle.report.specs.Findings.{finding_line, Fits};

use book::refusal::Refusal;
use book::verdict::Verdict;
use field::Field;
use shelf::directory::Directory;

/// Why two texts are not compared: the first is refused, or the second, or the two tables together.
#[derive(Clone, Copy)]
pub enum Rejection {
    First(Refusal),
    Second(Refusal),
    Together(Refusal),
}

/// Loads the first text, then the second, and compares the two tables.
pub fn find<F: Field>(
    shelf: &mut [F],
    work: &mut [F],
    first: &[u8],
    second: &[u8],
) -> Result<Verdict, Rejection>
    requires shelf_enough { 12544 ≤ length shelf.old }
    requires work_enough { 8192 ≤ length work.old }
    ensures reports { ReportLine F.field first.now second.now (finding_line result) }
    ensures fits { IfOk result (λ v. Fits v) }
{
    let mut directory = Directory::open();
    directory
        .load(shelf, work, first, 1)
        .map_err(Rejection::First)?;
    directory
        .load(shelf, work, second, 2)
        .map_err(Rejection::Second)?;
    let mut verdict = Verdict::blank();
    directory
        .compare(shelf, work, 1, 2, &mut verdict)
        .map_err(Rejection::Together)?;
    Ok(verdict)
}
