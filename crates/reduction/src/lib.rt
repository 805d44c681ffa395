//! The reduced form of a table: the least table with its weights, written in lent memory. It knows nothing of places,
//! entries or refusals.
#![tactic(auto)]

ghost use Rattle.std.specs.Prelude.{◌≡◌, ◌≤◌, List, ◌++◌, length};
ghost use Rattle.series.specs.Reducing.{Reduced};
ghost use Rattle.series.specs.Tables.{weight};
ghost use Rattle.rows.specs.Layout.{table_at};
ghost use Rattle.rows.specs.Seen.{table_of};
ghost use Rattle.reduction.specs.Promises.{SameWeights, Least, AllZero};

use crate::result::write_form;
use field::Field;
use leading::forward::leading_words;
use leading::view::View;
use rows::table::{Shape, TableRef};
use spanning::backward::spanning_columns;

mod result;

// Writes the reduced form of a table to the front of `form`, and returns its number of states. Nothing is promised of what
// `rest` holds then.
fn reduce_into<F: Field>(form: &mut [F], rest: &mut [F], table: TableRef<'_, F>) -> usize
    requires room { (2048 ≤ length form.old) × (6144 ≤ length rest.old) }
    ensures reduced_form { (behind : List F) → Reduced F.field table.entry.shape.letters (weight F.field (table_of F.field F.value table.entry)) (table_at F.field F.value (form.new ++ behind) 0 result table.entry.shape.letters) }
    ensures no_more_states { result ≤ table.entry.shape.states }
{
    // What is found for at most 16 states takes up to 17 vectors of its kind, since the last is the one being tried, and the
    // coefficients of up to 16 words.
    let (columns, rest) = rest.split_at_mut(512);
    let (rows, rest) = rest.split_at_mut(512);
    let (tracked, rest) = rest.split_at_mut(1024);
    let (coefficients, echelon) = rest.split_at_mut(2048);
    let count = spanning_columns(columns, echelon, table);
    let view = View {
        table,
        columns,
        count,
    };
    let found = leading_words(rows, tracked, coefficients, &view);
    let shape = Shape::new(found, table.letters());
    write_form(&mut form[..shape.size()], shape, table, rows, coefficients);
    found
}

/// Reduces a table: writes its reduced form to work memory, as a table at element 0, and returns its number of states. Nothing
/// is promised of the rest of work memory.
pub fn reduce<F: Field>(work: &mut [F], table: TableRef<'_, F>) -> usize
    requires room { 8192 ≤ length work.old }
    ensures reduced_form { Reduced F.field table.entry.shape.letters (weight F.field (table_of F.field F.value table.entry)) (table_at F.field F.value work.new 0 result table.entry.shape.letters) }
    ensures no_more_states { result ≤ table.entry.shape.states }
    ensures same_weights { SameWeights F.field (table_of F.field F.value table.entry) (table_at F.field F.value work.new 0 result table.entry.shape.letters) }
    ensures least { Least F.field (table_of F.field F.value table.entry) (table_at F.field F.value work.new 0 result table.entry.shape.letters) }
    ensures no_states_for_zero { AllZero F.field (table_of F.field F.value table.entry) → result ≡ 0 }
{
    // The form takes at most 1,568 elements.
    let (form, rest) = work.split_at_mut(2048);
    reduce_into(form, rest, table)
}
