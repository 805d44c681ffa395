//! The backward pass: columns that span the columns of all words, found from the end column by letters before a word.
ghost use Rattle.std.specs.Prelude.{◌≡◌, [], ◌+◌, ◌<◌, ◌≤◌, length};
ghost use Rattle.rows.specs.Seen.{table_of};
ghost use Rattle.spanning.specs.Views.{Spanned};
ghost use Rattle.spanning.specs.Backward.{ColumnDue};

use crate::{Pivots, WIDTH};
use elimination::echelon::keep_row;
use field::Field;
use rows::row::matrix_times_column;
use rows::table::TableRef;

// Tries the column of word i with one letter before it.
fn try_column<F: Field>(
    columns: &mut [F],
    echelon: &mut [F],
    pivots: &mut Pivots,
    i: usize,
    letter: usize,
    table: TableRef<'_, F>,
)
    requires letter_of_table { (1 ≤ letter) × (letter ≤ table.shape.letters) }
    requires word_found { i < length pivots.old.items }
    requires due { ColumnDue F.field F.value (table_of F.field F.value table) i letter pivots.old.items columns.old echelon.old }
    ensures next_due { ColumnDue F.field F.value (table_of F.field F.value table.entry) i (letter + 1) pivots.new.items columns.new echelon.new }
    ensures word_found { i < length pivots.new.items }
{
    let n = table.states();
    let (found, rest) = columns.split_at_mut(pivots.len() * WIDTH);
    let next = &mut rest[..n];
    matrix_times_column(table.matrix(letter), &found[i * WIDTH..i * WIDTH + n], next);
    if let Some(pivot) = keep_row(next, echelon, pivots) {
        pivots.push(pivot);
    }
}

// Tries the column of word i with each letter before it.
fn try_columns<F: Field>(
    columns: &mut [F],
    echelon: &mut [F],
    pivots: &mut Pivots,
    i: usize,
    table: TableRef<'_, F>,
)
    requires word_found { i < length pivots.old.items }
    requires due { ColumnDue F.field F.value (table_of F.field F.value table) i 1 pivots.old.items columns.old echelon.old }
    ensures all_tried { ColumnDue F.field F.value (table_of F.field F.value table.entry) i (table.entry.shape.letters + 1) pivots.new.items columns.new echelon.new }
    ensures word_found { i < length pivots.new.items }
{
    for letter in 1..=table.letters() {
        try_column(columns, echelon, pivots, i, letter, table);
    }
}

// Tries the column of each word with each letter before it, those too that are found on the way.
fn close_columns<F: Field>(
    columns: &mut [F],
    echelon: &mut [F],
    pivots: &mut Pivots,
    table: TableRef<'_, F>,
)
    requires due { ColumnDue F.field F.value (table_of F.field F.value table) 0 1 pivots.old.items columns.old echelon.old }
    ensures spanned { Spanned F.field F.value (table_of F.field F.value table.entry) (length pivots.new.items) columns.new }
    ensures few { length pivots.new.items ≤ table.entry.shape.states }
{
    // the loop itself adds words, so their count is not known before it
    let mut i = 0;
    while i < pivots.len() {
        try_columns(columns, echelon, pivots, i, table);
        i += 1;
    }
}

// Tries the end column, which is the empty word's.
fn try_end<F: Field>(
    columns: &mut [F],
    echelon: &mut [F],
    pivots: &mut Pivots,
    table: TableRef<'_, F>,
)
    requires room { (272 ≤ length columns.old) × (272 ≤ length echelon.old) }
    requires none_found { pivots.old.items ≡ [] }
    ensures due { ColumnDue F.field F.value (table_of F.field F.value table.entry) 0 1 pivots.new.items columns.new echelon.new }
{
    let first = &mut columns[..table.states()];
    first.copy_from_slice(table.end());
    if let Some(pivot) = keep_row(first, echelon, pivots) {
        pivots.push(pivot);
    }
}

/// Finds columns that span the columns of all words, and returns how many there are. Each takes 16 elements of `columns`, where
/// there is room for one more than there can be; `echelon` is for the search.
pub fn spanning_columns<F: Field>(
    columns: &mut [F],
    echelon: &mut [F],
    table: TableRef<'_, F>,
) -> usize
    requires room { (272 ≤ length columns.old) × (272 ≤ length echelon.old) }
    ensures spanned { Spanned F.field F.value (table_of F.field F.value table.entry) result columns.new }
    ensures few { result ≤ table.entry.shape.states }
{
    let mut pivots = Pivots::new();
    try_end(columns, echelon, &mut pivots, table);
    close_columns(columns, echelon, &mut pivots, table);
    pivots.len()
}
