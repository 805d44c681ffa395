//! The forward pass: the leading words, found in order through the spanning columns, and the coefficients of each followed by
//! each letter.
ghost use Rattle.std.specs.Prelude.{◌≡◌, [], ◌+◌, ◌*◌, ◌<◌, ◌≤◌, List, length};
ghost use Rattle.field.specs.Sums.{dot as product, move};
ghost use Rattle.field.specs.Rows.{Agree, at, row_at};
ghost use Rattle.rows.specs.Memory.{Written};
ghost use Rattle.rows.specs.Seen.{table_of};
ghost use Rattle.spanning.specs.Places.{vector_at};
ghost use Rattle.spanning.specs.Views.{columns_of, Spanned};
ghost use Rattle.leading.specs.Tracking.{Bare};
ghost use Rattle.leading.specs.Forward.{viewed, Trying, Walked, Finished};

use crate::tracking::{TRACKED, track_row};
use crate::vectors::{negate_row, project_row, unit_row};
use crate::view::View;
use field::Field;
use rows::row::clear_row;
use spanning::{Pivots, WIDTH};

/// How many elements the coefficients of a leading word take: 16 for each letter, from letter 0 on, which is none.
pub const COEFFICIENTS: usize = 128;

// Writes to `seen` the products of the row with the columns of the view, and no coefficients behind them.
fn see_row<F: Field>(row: &[F], view: &View<'_, F>, seen: &mut [F])
    requires short { length row.now ≤ 16 }
    requires wide { length seen.old ≡ 32 }
    ensures products_written { Agree view.now.count (at F.field F.value seen.new) (λ j. product F.field (length row.now) (at F.field F.value row.now) (columns_of F.field F.value view.now.columns.now j)) }
    ensures no_coefficients { Bare F.field 0 (at F.field F.value seen.new) }
{
    let (numbers, coefficients) = seen.split_at_mut(WIDTH);
    project_row(row, view.columns, &mut numbers[..view.count]);
    clear_row(coefficients);
}

// Writes the row of word i followed by a letter behind the rows of `count` words, and to `seen` what the view shows of it.
fn next_row<F: Field>(
    rows: &mut [F],
    count: usize,
    i: usize,
    letter: usize,
    view: &View<'_, F>,
    seen: &mut [F],
)
    requires room { 272 ≤ length rows.old }
    requires wide { length seen.old ≡ 32 }
    requires small { (count ≤ 16) × (i < count) }
    requires letter_of_table { (1 ≤ letter) × (letter ≤ view.now.table.shape.letters) }
    ensures row_written { Written F.field F.value (vector_at count) view.now.table.shape.states (move F.field view.now.table.shape.states ((viewed F.field F.value view.now).step letter) (row_at F.field F.value rows.old (vector_at i))) rows.old rows.new }
    ensures products_written { Agree view.now.count (at F.field F.value seen.new) (λ j. product F.field view.now.table.shape.states (row_at F.field F.value rows.new (vector_at count)) (columns_of F.field F.value view.now.columns.now j)) }
    ensures no_coefficients { Bare F.field 0 (at F.field F.value seen.new) }
{
    let n = view.table.states();
    let (found, rest) = rows.split_at_mut(count * WIDTH);
    let next = &mut rest[..n];
    F::row_times_matrix(
        &found[i * WIDTH..i * WIDTH + n],
        view.table.matrix(letter),
        next,
    );
    see_row(next, view, seen);
}

// Tries word i followed by one letter, and writes its coefficients.
fn try_letter<F: Field>(
    rows: &mut [F],
    tracked: &mut [F],
    coefficients: &mut [F],
    pivots: &mut Pivots,
    i: usize,
    letter: usize,
    view: &View<'_, F>,
)
    requires letter_of_table { (1 ≤ letter) × (letter ≤ view.now.table.shape.letters) }
    requires due { Trying F.field F.value view.now i letter pivots.old.items rows.old tracked.old coefficients.old }
    ensures next_due { Trying F.field F.value view.now i (letter + 1) pivots.new.items rows.new tracked.new coefficients.new }
{
    let count = pivots.len();
    let (basis, rest) = tracked.split_at_mut(count * TRACKED);
    let seen = &mut rest[..TRACKED];
    next_row(rows, count, i, letter, view, seen);
    let from = i * COEFFICIENTS + letter * WIDTH;
    let to = &mut coefficients[from..from + WIDTH];
    match track_row(seen, basis, pivots, view.count) {
        None => negate_row(&rest[WIDTH..TRACKED], to),
        Some(pivot) => {
            unit_row(to, count);
            pivots.push(pivot);
        }
    }
}

// Tries word i followed by each letter.
fn try_letters<F: Field>(
    rows: &mut [F],
    tracked: &mut [F],
    coefficients: &mut [F],
    pivots: &mut Pivots,
    i: usize,
    view: &View<'_, F>,
)
    requires due { Trying F.field F.value view.now i 1 pivots.old.items rows.old tracked.old coefficients.old }
    ensures all_tried { Trying F.field F.value view.now i (view.now.table.shape.letters + 1) pivots.new.items rows.new tracked.new coefficients.new }
{
    for letter in 1..=view.table.letters() {
        try_letter(rows, tracked, coefficients, pivots, i, letter, view);
    }
}

// Tries each leading word followed by each letter, those too that are found on the way.
fn follow_words<F: Field>(
    rows: &mut [F],
    tracked: &mut [F],
    coefficients: &mut [F],
    pivots: &mut Pivots,
    view: &View<'_, F>,
)
    requires begun { Walked F.field F.value view.now 0 pivots.old.items rows.old tracked.old coefficients.old }
    ensures walked { Walked F.field F.value view.now (length pivots.new.items) pivots.new.items rows.new tracked.new coefficients.new }
{
    // the loop itself adds words, so their count is not known before it
    let mut i = 0;
    while i < pivots.len() {
        try_letters(rows, tracked, coefficients, pivots, i, view);
        i += 1;
    }
}

// Tries the empty word. No coefficients are written.
fn try_empty<F: Field>(rows: &mut [F], tracked: &mut [F], pivots: &mut Pivots, view: &View<'_, F>)
    requires room { (272 ≤ length rows.old) × (544 ≤ length tracked.old) }
    requires none_found { pivots.old.items ≡ [] }
    requires spanned { Spanned F.field F.value (table_of F.field F.value view.now.table) view.now.count view.now.columns.now }
    ensures begun { (coefficients : List F) → 2048 ≤ length coefficients → Walked F.field F.value view.now 0 pivots.new.items rows.new tracked.new coefficients }
{
    let first = &mut rows[..view.table.states()];
    first.copy_from_slice(view.table.start());
    let seen = &mut tracked[..TRACKED];
    see_row(first, view, seen);
    if let Some(pivot) = track_row(seen, &[], pivots, view.count) {
        pivots.push(pivot);
    }
}

/// Finds the leading words, in order, with their rows, 16 elements each, and the coefficients of each followed by each letter.
/// Returns how many there are. `tracked` is for the search.
pub fn leading_words<F: Field>(
    rows: &mut [F],
    tracked: &mut [F],
    coefficients: &mut [F],
    view: &View<'_, F>,
) -> usize
    requires room { (272 ≤ length rows.old) × ((544 ≤ length tracked.old) × (2048 ≤ length coefficients.old)) }
    requires spanned { Spanned F.field F.value (table_of F.field F.value view.now.table) view.now.count view.now.columns.now }
    ensures finished { Finished F.field F.value view.now result rows.new coefficients.new }
{
    let mut pivots = Pivots::new();
    try_empty(rows, tracked, &mut pivots, view);
    follow_words(rows, tracked, coefficients, &mut pivots, view);
    pivots.len()
}
