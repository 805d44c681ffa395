//! Tables that differ from one that is read in one row only: scaled, or after a letter.
ghost use Rattle.std.specs.Prelude.{◌≡◌, ◌∷◌, ◌≤◌, length};
ghost use Rattle.series.specs.Tables.{weight};
ghost use Rattle.series.specs.Operations.{scaled_table, after_table};
ghost use Rattle.rows.specs.Layout.{table_size, table_at};
ghost use Rattle.rows.specs.Seen.{table_of, HoldsTable};
ghost use Rattle.rows.specs.Tables.{Weighs};

use field::Field;
use rows::row::scale_row;
use rows::table::TableRef;

/// A table scaled: its end column times `factor`.
pub fn scale<F: Field>(table: TableRef<'_, F>, factor: F, to: &mut [F])
    requires as_long { length to.old ≡ table_size table.shape.states table.shape.letters }
    ensures scaled_written { HoldsTable F.field F.value (scaled_table F.field (F.value factor) (table_of F.field F.value table.entry)) to.new }
    ensures weighs_the_multiple { Weighs F.field (table_at F.field F.value to.new 0 table.entry.shape.states table.entry.shape.letters) (λ w. F.field.times (F.value factor) (weight F.field (table_of F.field F.value table.entry) w)) }
{
    to.copy_from_slice(table.elements());
    let end = to.len() - table.states();
    scale_row(&mut to[end..], factor);
}

/// A table after a letter: its start row times the letter's matrix, the rest as it is.
pub fn after<F: Field>(table: TableRef<'_, F>, letter: usize, to: &mut [F])
    requires letter_of_table { (1 ≤ letter) × (letter ≤ table.shape.letters) }
    requires as_long { length to.old ≡ table_size table.shape.states table.shape.letters }
    ensures after_written { HoldsTable F.field F.value (after_table F.field letter (table_of F.field F.value table.entry)) to.new }
    ensures weighs_what_follows_the_letter { Weighs F.field (table_at F.field F.value to.new 0 table.entry.shape.states table.entry.shape.letters) (λ w. weight F.field (table_of F.field F.value table.entry) (letter ∷ w)) }
{
    let n = table.states();
    let (start, rest) = to.split_at_mut(n);
    F::row_times_matrix(table.start(), table.matrix(letter), start);
    rest.copy_from_slice(&table.elements()[n..]);
}
