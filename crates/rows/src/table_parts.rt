//! A table written part by part: its start row, the rows of its matrices, and its end column.
ghost use Rattle.std.specs.Prelude.{◌≡◌, ◌*◌, length};
ghost use Rattle.rows.specs.Layout.{table_size, end_offset};
ghost use Rattle.rows.specs.Writing.{TakesPart, WritesPart, TakesRows, WritesRows};

use crate::table::Shape;

/// Writes a table of a shape into a slice that is exactly as long: `write_start` writes the start row, `write_row` each
/// row of each matrix, given its letter and its number from 0, and `write_end` the end column.
pub fn write_table<T, S: FnOnce(&mut [T]), R: Fn(usize, usize, &mut [T]), E: FnOnce(&mut [T])>(
    shape: Shape,
    to: &mut [T],
    write_start: S,
    write_row: R,
    write_end: E,
)
    requires as_long { length to.old ≡ table_size shape.states shape.letters }
    requires start_taken { TakesPart S.FnOnce write_start shape.states }
    requires rows_taken { TakesRows R.Fn write_row shape.states shape.letters }
    requires end_taken { TakesPart E.FnOnce write_end shape.states }
    ensures start_written { WritesPart S.FnOnce write_start shape.states 0 to.old to.new }
    ensures rows_written { WritesRows R.Fn write_row shape.states shape.letters shape.states to.old to.new }
    ensures end_written { WritesPart E.FnOnce write_end shape.states (end_offset 0 shape.states shape.letters) to.old to.new }
{
    let n = shape.states();
    let (start, rest) = to.split_at_mut(n);
    let inner = rest.len() - n;
    let (rows, end) = rest.split_at_mut(inner);
    write_start(start);
    write_rows(shape, rows, write_row);
    write_end(end);
}

// The rows of all matrices, one after another.
// By an index: after a loop over `chunks_exact_mut` a proof knows none of the elements, and a chunk cannot be empty.
fn write_rows<T, R: Fn(usize, usize, &mut [T])>(shape: Shape, to: &mut [T], write_row: R)
    requires as_long { length to.old ≡ shape.letters * shape.states * shape.states }
    requires rows_taken { TakesRows R.Fn write_row shape.states shape.letters }
    ensures rows_written { WritesRows R.Fn write_row shape.states shape.letters 0 to.old to.new }
{
    let n = shape.states();
    for r in 0..shape.letters() * n {
        write_row(r / n + 1, r % n, &mut to[r * n..r * n + n]);
    }
}
