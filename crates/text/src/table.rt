//! A whole text read into memory.
ghost use Rattle.std.specs.Prelude.{◌≡◌, ◌+◌, ◌*◌, ◌≤◌, false, length, is_ok, OnOk, IfOk, OnErr, IfErr, ◌≢◌};
ghost use Rattle.series.specs.Tables.{Table};
ghost use Rattle.rows.specs.Memory.{Frame};
ghost use Rattle.rows.specs.Layout.{table_size, table_at};
ghost use Rattle.reader.specs.Steps.{AtLine, Expects, WentLines, StopsAt};
ghost use Rattle.text.specs.Texts.{text_of, body_of, body_items};
ghost use Rattle.columns.specs.declared.line.Due.TheVariants as due;
ghost use Rattle.text.specs.Readings.{Sized, Accepts, Refuses};

use super::lines::{codes_line, matrices, table_line};
use faults::LoadFault;
use field::Field;
use reader::Reader;
use rows::table::Shape;

/// Reads the lines after the first; the elements take the table's values.
fn body<F: Field>(
    reader: &mut Reader<'_>,
    shape: Shape,
    elements: &mut [F],
) -> Result<(), LoadFault>
    requires starts { AtLine reader.old 100 }
    requires start_due { Expects reader.old due.Start (shape.letters * shape.states) }
    requires room { length elements.old ≡ table_size shape.states shape.letters }
    ensures lines { OnOk result (WentLines reader.old reader.new (body_of F.field (table_at F.field F.value elements.new 0 shape.states shape.letters)) (3 + shape.letters * shape.states)) }
    ensures stops { IfErr result (StopsAt reader.old (body_items F.field shape.states shape.letters)) }
{
    let n = shape.states;
    let (start, rest) = elements.split_at_mut(n);
    let (rows, end) = rest.split_at_mut(shape.letters * n * n);
    codes_line(reader, &[], start)?;
    matrices(reader, shape, rows)?;
    codes_line(reader, &[], end)?;
    reader.head()?;
    reader.newline()?;
    Ok(())
}

/// Reads the table of a text into the front of `work` and returns its shape, or why the text is refused.
// `work` has room for the largest table, since the table's size is known only from the text.
pub fn read_table<F: Field>(text: &[u8], work: &mut [F]) -> Result<Shape, LoadFault>
    requires room { 1568 ≤ length work.old }
    ensures accepted { IfOk result (λ shape. Accepts F.field F.value text.now shape work.new) }
    ensures refused { IfErr result (Refuses F.field text.now) }
    ensures refused_has_no_table { is_ok result ≡ false → (T : Table F.Value) → Sized T → text.now ≢ text_of F.field T }
    ensures table_alone_written { IfOk result (λ shape. Frame 0 (table_size shape.states shape.letters) work.old work.new) }
    ensures front_alone_written { OnErr result (Frame 0 1568 work.old work.new) }
{
    let mut reader = Reader::new(text);
    let shape = table_line::<F>(&mut reader)?;
    body(&mut reader, shape, &mut work[0..shape.size()])?;
    reader.finish()?;
    Ok(shape)
}
