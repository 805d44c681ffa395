//! Rows in echelon form, one behind the other in a slice: what they leave of a row, and one row more behind them.
ghost use Rattle.std.specs.Prelude.{◌+◌, ◌*◌, ◌≤◌, length, MatchOption, slice_index};
ghost use Rattle.field.specs.Rows.{at, row_at, square_at};
ghost use Rattle.rows.specs.Memory.{Frame};
ghost use Rattle.elimination.specs.Elimination.{RowsInEchelon, OnesAtPivots, Remainder, NothingLeft, NewRow};

use field::Field;
use rows::row::{copy_row, first_nonzero, scale_row};

/// Takes from the row what the rows of `basis`, as many as there are pivots, take of it: it is zero at their pivots then.
pub fn reduce_row<F: Field>(row: &mut [F], basis: &[F], pivots: &[usize])
    requires rows_within { length pivots.now * length row.old ≤ length basis.now }
    requires echelon_form { RowsInEchelon F.field F.value (length row.old) pivots.now basis.now (length row.old) }
    requires ones_at_pivots { OnesAtPivots F.field F.value (length row.old) pivots.now basis.now }
    ensures remainder { Remainder F.field (length row.old) (length pivots.now) (square_at F.field F.value basis.now 0 (length row.old)) (λ b. slice_index pivots.now b) (at F.field F.value row.old) (at F.field F.value row.new) }
{
    F::subtract_rows(row, basis, pivots);
}

/// Copies the row to behind the rows of `echelon`, as many as there are pivots, and reduces it there. If something is left
/// of it, makes it one at a pivot, which is returned: the rows with the new one are in echelon form again.
pub fn keep_row<F: Field>(row: &[F], echelon: &mut [F], pivots: &[usize]) -> Option<usize>
    requires room { length pivots.now * length row.now + length row.now ≤ length echelon.old }
    requires echelon_form { RowsInEchelon F.field F.value (length row.now) pivots.now echelon.old (length row.now) }
    requires ones_at_pivots { OnesAtPivots F.field F.value (length row.now) pivots.now echelon.old }
    ensures nothing_left_or_new_row { MatchOption result
        (NothingLeft F.field (length row.now) (length pivots.now) (square_at F.field F.value echelon.old 0 (length row.now)) (λ b. slice_index pivots.now b) (at F.field F.value row.now))
        (λ p. NewRow F.field (length row.now) (length pivots.now) (square_at F.field F.value echelon.old 0 (length row.now)) (λ b. slice_index pivots.now b) (at F.field F.value row.now) p (row_at F.field F.value echelon.new (length pivots.now * length row.now))) }
    ensures all_else_unchanged { Frame (length pivots.now * length row.now) (length row.now) echelon.old echelon.new }
{
    let n = row.len();
    let (basis, rest) = echelon.split_at_mut(pivots.len() * n);
    let new = &mut rest[..n];
    copy_row(row, new);
    reduce_row(new, basis, pivots);
    let pivot = first_nonzero(new)?;
    let factor = new[pivot].inverse()?;
    scale_row(new, factor);
    Some(pivot)
}
