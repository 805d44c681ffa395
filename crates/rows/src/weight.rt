//! The weight of a word under a table that lies in memory.
ghost use Rattle.std.specs.Prelude.{◌+◌, ◌≤◌, length};
ghost use Rattle.rows.specs.Memory.{Frame};
ghost use Rattle.rows.specs.Seen.{table_of};
ghost use Rattle.rows.specs.Weighing.{Weighed};

use crate::table::TableRef;
use field::Field;

/// The first letter of a word that a table lacks, by its position, from 1.
#[derive(Clone, Copy, Debug, PartialEq, Eq)]
pub struct LetterOutside {
    pub position: usize,
}

/// The weight of a word, or its first letter that the table lacks. The row that the word has led to lies at the front of
/// `work`, and the next one behind it.
pub fn weigh<F: Field>(
    table: TableRef<'_, F>,
    word: &[u8],
    work: &mut [F],
) -> Result<F, LetterOutside>
    requires two_rows_fit { table.shape.states + table.shape.states ≤ length work.old }
    ensures weight_or_first_letter_outside { Weighed F.field F.value (table_of F.field F.value table.entry) word.now result }
    ensures two_rows_used { Frame 0 (table.entry.shape.states + table.entry.shape.states) work.old work.new }
{
    let n = table.states();
    let (row, rest) = work.split_at_mut(n);
    let next = &mut rest[0..n];
    row.copy_from_slice(table.start());
    for (i, a) in word.iter().enumerate() {
        let letter = table.letter(*a).ok_or(LetterOutside { position: i + 1 })?;
        F::row_times_matrix(row, table.matrix(letter), next);
        row.copy_from_slice(next);
    }
    Ok(F::dot(row, table.end(), 0, 1))
}
