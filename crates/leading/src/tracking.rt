//! Elimination with tracked coefficients: which combination of the rows so far a row is.
ghost use Rattle.std.specs.Prelude.{◌≡◌, ◌*◌, ◌<◌, ◌≤◌, length, MatchOption, slice_index};
ghost use Rattle.field.specs.Rows.{at, square_at};
ghost use Rattle.elimination.specs.Elimination.{RowsInEchelon, OnesAtPivots};
ghost use Rattle.leading.specs.Tracking.{Bare, Combines, Extends};

use elimination::echelon::reduce_row;
use field::Field;
use rows::row::{first_nonzero, scale_row};
use spanning::WIDTH;

/// How many elements a tracked row takes: 16 numbers, then 16 coefficients by which they are made of the leading words'
/// products.
pub const TRACKED: usize = 2 * WIDTH;

/// Reduces the row, which has d numbers in front and no coefficients yet, by the tracked rows, as many as there are pivots. If a
/// number is left, makes it one at a pivot, which is returned; if none is, the row's coefficients are the opposites of those that
/// it then has.
pub fn track_row<F: Field>(
    row: &mut [F],
    tracked: &[F],
    pivots: &[usize],
    d: usize,
) -> Option<usize>
    requires small { (d ≤ 16) × (length pivots.now ≤ d) }
    requires wide { length row.old ≡ 32 }
    requires rows_within { length pivots.now * 32 ≤ length tracked.now }
    requires echelon { RowsInEchelon F.field F.value 32 pivots.now tracked.now d }
    requires ones_at_pivots { OnesAtPivots F.field F.value 32 pivots.now tracked.now }
    requires no_coefficients { Bare F.field 0 (at F.field F.value row.old) }
    ensures combination_or_new_row { MatchOption result
        (Combines F.field d (length pivots.now) (square_at F.field F.value tracked.now 0 32) (λ b. slice_index pivots.now b) (at F.field F.value row.old) (at F.field F.value row.new))
        (λ p. Extends F.field d (length pivots.now) (square_at F.field F.value tracked.now 0 32) (λ b. slice_index pivots.now b) (at F.field F.value row.old) p (at F.field F.value row.new)) }
    ensures pivot_and_room { MatchOption result (length pivots.now ≤ d) (λ p. (p < d) × (length pivots.now < d)) }
{
    reduce_row(row, tracked, pivots);
    let pivot = first_nonzero(&row[..d])?;
    let factor = row[pivot].inverse()?;
    scale_row(row, factor);
    row[WIDTH + pivots.len()] = factor;
    Some(pivot)
}
