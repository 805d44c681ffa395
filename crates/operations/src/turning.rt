//! A table turned, which reads words backwards.
ghost use Rattle.std.specs.Prelude.{◌≡◌, reverse, ◌<◌, ◌≤◌, length};
ghost use Rattle.series.specs.Tables.{weight};
ghost use Rattle.series.specs.Operations.{turned_table};
ghost use Rattle.rows.specs.Layout.{table_size, table_at};
ghost use Rattle.field.specs.Rows.{RowOf};
ghost use Rattle.rows.specs.Seen.{table_of, HoldsTable};
ghost use Rattle.rows.specs.Tables.{Weighs};

use field::Field;
use rows::table::TableRef;
use rows::table_parts::write_table;

// A row of a letter's mirrored matrix: a column of its matrix.
fn write_turned_row<F: Field>(table: TableRef<'_, F>, letter: usize, row: usize, to: &mut [F])
    requires letter_of_table { (1 ≤ letter) × (letter ≤ table.shape.letters) }
    requires row_of_table { row < table.shape.states }
    requires as_long { length to.old ≡ table.shape.states }
    ensures row_of_turned_table { RowOf F.field F.value table.entry.shape.states ((turned_table F.field (table_of F.field F.value table.entry)).step letter row) to.new }
{
    let n = table.states();
    let matrix = table.matrix(letter);
    for (j, x) in to.iter_mut().enumerate() {
        *x = matrix[j * n + row];
    }
}

/// A table turned: start and end exchanged, matrices mirrored in the diagonal.
pub fn turn<F: Field>(table: TableRef<'_, F>, to: &mut [F])
    requires as_long { length to.old ≡ table_size table.shape.states table.shape.letters }
    ensures turned_written { HoldsTable F.field F.value (turned_table F.field (table_of F.field F.value table.entry)) to.new }
    ensures weighs_words_backwards { Weighs F.field (table_at F.field F.value to.new 0 table.entry.shape.states table.entry.shape.letters) (λ w. weight F.field (table_of F.field F.value table.entry) (reverse w)) }
{
    let (start, end) = (table.start(), table.end());
    write_table(
        table.shape(),
        to,
        |row| row.copy_from_slice(end),
        |letter, i, row| write_turned_row(table, letter, i, row),
        |column| column.copy_from_slice(start),
    );
}
