//! The reduced form, written out as a table: start row, matrices by letter and then by row, end column.
ghost use Rattle.std.specs.Prelude.{◌≡◌, ◌<◌, ◌≤◌, length};
ghost use Rattle.series.specs.Tables.{SameTable};
ghost use Rattle.field.specs.Rows.{row_at, RowOf};
ghost use Rattle.rows.specs.Layout.{table_size, table_at};
ghost use Rattle.rows.specs.Seen.{table_of};
ghost use Rattle.spanning.specs.Places.{coefficients_at};
ghost use Rattle.reduction.specs.Result.{form_of};

use field::Field;
use leading::forward::COEFFICIENTS;
use leading::vectors::{project_row, unit_row};
use rows::table::{Shape, TableRef};
use rows::table_parts::write_table;
use spanning::WIDTH;

// Writes a row of a letter's matrix: the coefficients of leading word i followed by the letter.
fn write_coefficients<F: Field>(coefficients: &[F], letter: usize, i: usize, row: &mut [F])
    requires small { (i < 16) × (letter ≤ 6) }
    requires short { length row.old ≤ 16 }
    requires coefficients_within { 2048 ≤ length coefficients.now }
    ensures coefficients_written { RowOf F.field F.value (length row.old) (row_at F.field F.value coefficients.now (coefficients_at i letter)) row.new }
{
    let from = i * COEFFICIENTS + letter * WIDTH;
    row.copy_from_slice(&coefficients[from..from + row.len()]);
}

/// Writes the table of this shape that leading words of `table`, one for each state, their coefficients and their weights are.
pub fn write_form<F: Field>(
    form: &mut [F],
    shape: Shape,
    table: TableRef<'_, F>,
    rows: &[F],
    coefficients: &[F],
)
    requires same_letters { shape.letters ≡ table.shape.letters }
    requires whole { length form.old ≡ table_size shape.states shape.letters }
    requires rows_within { 256 ≤ length rows.now }
    requires coefficients_within { 2048 ≤ length coefficients.now }
    ensures form_written { SameTable (table_at F.field F.value form.new 0 shape.states table.entry.shape.letters) (form_of F.field F.value (table_of F.field F.value table.entry) shape.states rows.now coefficients.now) }
{
    let column = table.end();
    write_table(
        shape,
        form,
        |start| unit_row(start, 0),
        |letter, i, row| write_coefficients(coefficients, letter, i, row),
        // A word's weight is its row times the end column, in either order: the words' rows lie as columns do, 16 elements apart.
        |end| project_row(column, rows, end),
    );
}
