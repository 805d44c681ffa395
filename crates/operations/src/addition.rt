//! The sum of two tables.
ghost use Rattle.std.specs.Prelude.{◌≡◌, ◌+◌, ◌<◌, ◌≤◌, length};
ghost use Rattle.series.specs.Tables.{weight};
ghost use Rattle.series.specs.Operations.{sum_table};
ghost use Rattle.rows.specs.Layout.{table_size, table_at};
ghost use Rattle.field.specs.Rows.{RowOf};
ghost use Rattle.rows.specs.Seen.{table_of, HoldsTable};
ghost use Rattle.rows.specs.Tables.{Weighs};

use field::Field;
use rows::row::{clear_row, write_beside};
use rows::table::{Shape, TableRef};
use rows::table_parts::write_table;

// A row of a letter's matrix of the sum: a row of one of the two tables, with zeros beside it.
fn write_sum_row<F: Field>(
    left: TableRef<'_, F>,
    right: TableRef<'_, F>,
    letter: usize,
    row: usize,
    to: &mut [F],
)
    requires letter_of_both { (1 ≤ letter) × ((letter ≤ left.shape.letters) × (letter ≤ right.shape.letters)) }
    requires row_of_sum { row < left.shape.states + right.shape.states }
    requires as_long { length to.old ≡ left.shape.states + right.shape.states }
    ensures row_of_sum_table { RowOf F.field F.value (left.entry.shape.states + right.entry.shape.states) ((sum_table F.field (table_of F.field F.value left.entry) (table_of F.field F.value right.entry)).step letter row) to.new }
{
    let n = left.states();
    let (front, back) = to.split_at_mut(n);
    if row < n {
        front.copy_from_slice(left.matrix_row(letter, row));
        clear_row(back);
    } else {
        clear_row(front);
        back.copy_from_slice(right.matrix_row(letter, row - n));
    }
}

/// The sum of two tables: the first table's states, then the second's.
pub fn sum<F: Field>(left: TableRef<'_, F>, right: TableRef<'_, F>, to: &mut [F])
    requires same_letters { left.shape.letters ≡ right.shape.letters }
    requires few_states { left.shape.states + right.shape.states ≤ 16 }
    requires as_long { length to.old ≡ table_size (left.shape.states + right.shape.states) left.shape.letters }
    ensures sum_written { HoldsTable F.field F.value (sum_table F.field (table_of F.field F.value left.entry) (table_of F.field F.value right.entry)) to.new }
    ensures weighs_the_sum { Weighs F.field (table_at F.field F.value to.new 0 (left.entry.shape.states + right.entry.shape.states) left.entry.shape.letters) (λ w. F.field.plus (weight F.field (table_of F.field F.value left.entry) w) (weight F.field (table_of F.field F.value right.entry) w)) }
{
    let shape = Shape::new(left.states() + right.states(), left.letters());
    let (left_start, right_start) = (left.start(), right.start());
    let (left_end, right_end) = (left.end(), right.end());
    write_table(
        shape,
        to,
        |start| write_beside(left_start, right_start, start),
        |letter, i, row| write_sum_row(left, right, letter, i, row),
        |end| write_beside(left_end, right_end, end),
    );
}
