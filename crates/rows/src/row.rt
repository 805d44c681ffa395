//! Arithmetic on rows: each row, column and matrix is a slice of its own.
ghost use Rattle.std.specs.Prelude.{◌≡◌, ℕ, ◌+◌, ◌*◌, ◌<◌, ◌++◌, length, MatchOption};
ghost use Rattle.field.specs.Sums.{dot as product, move};
ghost use Rattle.field.specs.Rows.{Agree, at, square_at, RowOf};
ghost use Rattle.rows.specs.Arithmetic.{multiple, FirstNonzero};

use field::Field;

/// Writes to `to` the matrix of as many rows and columns times the column.
pub fn matrix_times_column<F: Field>(matrix: &[F], column: &[F], to: &mut [F])
    requires square { length matrix.now ≡ length column.now * length column.now }
    requires as_long { length to.old ≡ length column.now }
    ensures product_written { RowOf F.field F.value (length column.now) (λ i. product F.field (length column.now) (square_at F.field F.value matrix.now 0 (length column.now) i) (at F.field F.value column.now)) to.new }
{
    let n = column.len();
    for (i, x) in to.iter_mut().enumerate() {
        *x = F::dot(&matrix[i * n..i * n + n], column, 0, 1);
    }
}

/// Copies the elements of a row.
// In the place of `copy_from_slice`, which the compiler turns into a call of memmove: a library for C would need it.
pub fn copy_row<F: Field>(from: &[F], to: &mut [F])
    requires as_long { length to.old ≡ length from.now }
    ensures very_elements { to.new ≡ from.now }
{
    for (j, x) in to.iter_mut().enumerate() {
        *x = from[j];
    }
}

/// Writes to `to` two rows side by side.
pub fn write_beside<F: Field>(left: &[F], right: &[F], to: &mut [F])
    requires as_long { length to.old ≡ length left.now + length right.now }
    ensures rows_beside { to.new ≡ left.now ++ right.now }
{
    let (front, back) = to.split_at_mut(left.len());
    front.copy_from_slice(left);
    back.copy_from_slice(right);
}

/// Multiplies the row by `factor`.
pub fn scale_row<F: Field>(row: &mut [F], factor: F)
    ensures multiple_written { RowOf F.field F.value (length row.old) (multiple F.field (F.value factor) (at F.field F.value row.old)) row.new }
{
    for x in row.iter_mut() {
        *x = factor.mul(*x);
    }
}

/// Fills the row with zero.
// `fill` requires that a clone cannot fail and is the same element, which is not known of every field.
pub fn clear_row<F: Field>(to: &mut [F])
    ensures zeros_written { RowOf F.field F.value (length to.old) (λ _. F.field.zero) to.new }
{
    let zero = F::zero();
    for x in to.iter_mut() {
        *x = zero;
    }
}

/// The first column of the row that is not zero.
pub fn first_nonzero<F: Field>(row: &[F]) -> Option<usize>
    ensures first_or_all_zero { MatchOption result (Agree (length row.now) (at F.field F.value row.now) (λ _. F.field.zero)) (λ p. FirstNonzero F.field (length row.now) (at F.field F.value row.now) p) }
{
    let zero = F::zero();
    row.iter().position(|x| !x.same(zero))
}
