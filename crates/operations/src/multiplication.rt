//! The product of two tables.
ghost use Rattle.std.specs.Prelude.{◌≡◌, ◌*◌, ◌<◌, ◌≤◌, length};
ghost use Rattle.series.specs.Tables.{weight};
ghost use Rattle.series.specs.Operations.{product_table, crossed};
ghost use Rattle.field.specs.Rows.{at, RowOf};
ghost use Rattle.rows.specs.Layout.{table_size, table_at};
ghost use Rattle.rows.specs.Seen.{table_of, HoldsTable};
ghost use Rattle.rows.specs.Tables.{Weighs};

use field::Field;
use rows::table::{Shape, TableRef};
use rows::table_parts::write_table;

// The products of the entries of two rows, those of the first entry of the first row first.
fn write_products<F: Field>(left: &[F], right: &[F], to: &mut [F])
    requires as_long { length to.old ≡ length left.now * length right.now }
    ensures products_written { RowOf F.field F.value (length left.now * length right.now) (crossed F.field (length right.now) (at F.field F.value left.now) (at F.field F.value right.now)) to.new }
{
    let m = right.len();
    for (p, x) in to.iter_mut().enumerate() {
        *x = left[p / m].mul(right[p % m]);
    }
}

// A row of a letter's matrix of the product: of the state (i, j) the products of row i of the first table and row j of
// the second.
fn write_product_row<F: Field>(
    left: TableRef<'_, F>,
    right: TableRef<'_, F>,
    letter: usize,
    state: usize,
    to: &mut [F],
)
    requires letter_of_both { (1 ≤ letter) × ((letter ≤ left.shape.letters) × (letter ≤ right.shape.letters)) }
    requires state_of_product { state < left.shape.states * right.shape.states }
    requires as_long { length to.old ≡ left.shape.states * right.shape.states }
    ensures row_of_product_table { RowOf F.field F.value (left.entry.shape.states * right.entry.shape.states) ((product_table F.field (table_of F.field F.value left.entry) (table_of F.field F.value right.entry)).step letter state) to.new }
{
    let m = right.states();
    write_products(
        left.matrix_row(letter, state / m),
        right.matrix_row(letter, state % m),
        to,
    );
}

/// The product of two tables: a state for each pair of states, and each number the product of the two tables' numbers.
pub fn multiply<F: Field>(left: TableRef<'_, F>, right: TableRef<'_, F>, to: &mut [F])
    requires same_letters { left.shape.letters ≡ right.shape.letters }
    requires few_states { left.shape.states * right.shape.states ≤ 16 }
    requires as_long { length to.old ≡ table_size (left.shape.states * right.shape.states) left.shape.letters }
    ensures product_written { HoldsTable F.field F.value (product_table F.field (table_of F.field F.value left.entry) (table_of F.field F.value right.entry)) to.new }
    ensures weighs_the_product { Weighs F.field (table_at F.field F.value to.new 0 (left.entry.shape.states * right.entry.shape.states) left.entry.shape.letters) (λ w. F.field.times (weight F.field (table_of F.field F.value left.entry) w) (weight F.field (table_of F.field F.value right.entry) w)) }
{
    let shape = Shape::new(left.states() * right.states(), left.letters());
    let (left_start, right_start) = (left.start(), right.start());
    let (left_end, right_end) = (left.end(), right.end());
    write_table(
        shape,
        to,
        |start| write_products(left_start, right_start, start),
        |letter, state, row| write_product_row(left, right, letter, state, row),
        |end| write_products(left_end, right_end, end),
    );
}
