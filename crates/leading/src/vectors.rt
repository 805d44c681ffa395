//! Rows that a reduction writes: products with columns, opposites, and unit rows.
ghost use Rattle.std.specs.Prelude.{◌≡◌, ◌*◌, ◌≤◌, length};
ghost use Rattle.field.specs.Sums.{dot as product};
ghost use Rattle.field.specs.Rows.{at, RowOf};
ghost use Rattle.spanning.specs.Views.{columns_of};
ghost use Rattle.leading.specs.Units.{unit};

use field::Field;
use spanning::WIDTH;

/// Writes to `to` the products of the row with the first of the columns, which take 16 elements each.
pub fn project_row<F: Field>(row: &[F], columns: &[F], to: &mut [F])
    requires short { length row.now ≤ 16 }
    requires columns_within { length to.old * 16 ≤ length columns.now }
    ensures products_written { RowOf F.field F.value (length to.old) (λ j. product F.field (length row.now) (at F.field F.value row.now) (columns_of F.field F.value columns.now j)) to.new }
{
    for (j, x) in to.iter_mut().enumerate() {
        *x = F::dot(row, columns, j * WIDTH, 1);
    }
}

/// Writes to `to` the opposites of the row.
pub fn negate_row<F: Field>(row: &[F], to: &mut [F])
    requires as_long { length to.old ≡ length row.now }
    ensures opposites_written { RowOf F.field F.value (length row.now) (λ j. F.field.opposite (at F.field F.value row.now j)) to.new }
{
    to.copy_from_slice(row);
    for x in to.iter_mut() {
        *x = x.neg();
    }
}

/// Writes to `to` the row that is one at `place`, if it is that long, and zero elsewhere.
pub fn unit_row<F: Field>(to: &mut [F], place: usize)
    ensures unit_written { RowOf F.field F.value (length to.old) (unit F.field place) to.new }
{
    for (j, x) in to.iter_mut().enumerate() {
        *x = if j == place { F::one() } else { F::zero() };
    }
}
