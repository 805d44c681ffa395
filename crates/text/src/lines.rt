//! The lines of a table's text, read in place.
ghost use Rattle.std.specs.Prelude.{◌≡◌, ◌+◌, ◌*◌, ◌≤◌, [], ◌∷◌, ◌++◌, length, OnOk, IfOk, IfErr};
ghost use Rattle.columns.specs.Lines.{letter as letter_of, due_letter, numbers, TenDigits};
ghost use Rattle.reader.specs.Items.{exact_items, line_items};
ghost use Rattle.reader.specs.Steps.{Able, AtLine, Expects, Turned, SameLine, RowsDue};
ghost use Rattle.reader.specs.Steps.{WentAlong, WentLine, WentLines, StopsAt};
ghost use Rattle.text.specs.Texts.{code_items, table_items};
ghost use Rattle.text.specs.Rows.{codes_of, row_lines, row_items};
ghost use Rattle.columns.specs.declared.line.Kind.TheVariants as kind;
ghost use Rattle.columns.specs.declared.line.Due.TheVariants as due;

use super::matrix::heads;
use faults::LoadFault;
use field::Field;
use reader::Reader;
use rows::table::Shape;

/// Reads a number for each of the values, which must be that value.
// A slice has no `Shape`, so clauses here and below bound its length.
fn exactly(reader: &mut Reader<'_>, values: &[u64]) -> Result<(), LoadFault>
    requires able { Able reader.old }
    requires narrow { reader.old.position.column ≤ 100 }
    requires few { length values.now ≤ 16 }
    ensures same_line { OnOk result (SameLine reader.old reader.new) }
    ensures ten_digits { OnOk result (TenDigits values.now) }
    ensures values { OnOk result (WentAlong reader.old reader.new (numbers values.now) (11 * length values.now)) }
    ensures stops { IfErr result (StopsAt reader.old (exact_items values.now)) }
{
    for value in values {
        reader.within(*value, *value)?;
    }
    Ok(())
}

/// Reads a code for each of the elements, which take their values.
fn codes<F: Field>(reader: &mut Reader<'_>, elements: &mut [F]) -> Result<(), LoadFault>
    requires able { Able reader.old }
    requires narrow { reader.old.position.column ≤ 100 }
    requires few { length elements.old ≤ 16 }
    ensures same_line { OnOk result (SameLine reader.old reader.new) }
    ensures row { OnOk result (WentAlong reader.old reader.new (numbers (codes_of F.field F.value elements.new)) (11 * length elements.old)) }
    ensures stops { IfErr result (StopsAt reader.old (code_items F.field (length elements.old))) }
{
    for x in elements.iter_mut() {
        *x = reader.element()?;
    }
    Ok(())
}

/// Reads the line due: the numbers `heads`, and then a code for each of the elements, which take their values.
pub fn codes_line<F: Field>(
    reader: &mut Reader<'_>,
    heads: &[u64],
    elements: &mut [F],
) -> Result<(), LoadFault>
    requires starts { AtLine reader.old 10000 }
    requires few_heads { length heads.now ≤ 2 }
    requires few { length elements.old ≤ 16 }
    ensures line { OnOk result (WentLine reader.old reader.new (due_letter reader.old.due) (heads.now ++ codes_of F.field F.value elements.new)) }
    ensures turned { OnOk result (Turned reader.old reader.new) }
    ensures stops { IfErr result (StopsAt reader.old (line_items (due_letter reader.old.due) (exact_items heads.now ++ code_items F.field (length elements.old)))) }
{
    reader.head()?;
    exactly(reader, heads)?;
    codes(reader, elements)?;
    reader.newline()?;
    Ok(())
}

/// Reads the first line and returns the table's shape; the start line is due then.
pub fn table_line<F: Field>(reader: &mut Reader<'_>) -> Result<Shape, LoadFault>
    requires starts { AtLine reader.old 10000 }
    requires table_due { reader.old.due ≡ due.Table }
    ensures shape { IfOk result (λ shape. WentLine reader.old reader.new (letter_of kind.Table) (shape.states ∷ shape.letters ∷ F.field.q ∷ [])) }
    ensures start_due { IfOk result (λ shape. Expects reader.new due.Start (shape.letters * shape.states)) }
    ensures stops { IfErr result (StopsAt reader.old (table_items F.field)) }
{
    reader.head()?;
    let states = reader.within(0, 16)?;
    let letters = reader.within(1, 6)?;
    let order = F::order();
    reader.within(order, order)?;
    reader.newline()?;
    // `as`: std has no From from u64 to usize
    let shape = Shape {
        states: states as usize,
        letters: letters as usize,
    };
    reader.expect_rows(shape.letters * shape.states);
    Ok(shape)
}

/// Reads the lines of all matrix rows of a table of this shape; the elements take their values. The end line is due then.
pub fn matrices<F: Field>(
    reader: &mut Reader<'_>,
    shape: Shape,
    elements: &mut [F],
) -> Result<(), LoadFault>
    requires starts { AtLine reader.old 1000 }
    requires rows_due { RowsDue reader.old (shape.letters * shape.states) }
    requires room { length elements.old ≡ shape.letters * shape.states * shape.states }
    ensures lines { OnOk result (WentLines reader.old reader.new (row_lines shape.states (codes_of F.field F.value elements.new) (shape.letters * shape.states)) (shape.letters * shape.states)) }
    ensures end_due { OnOk result (RowsDue reader.new 0) }
    ensures stops { IfErr result (StopsAt reader.old (row_items F.field shape.states (shape.letters * shape.states))) }
{
    let n = shape.states;
    // an index, since after `chunks_exact_mut` nothing is known of the elements
    for j in 0..shape.letters * n {
        let elements = &mut elements[j * n..j * n + n];
        codes_line(reader, &heads(shape, j), elements)?;
    }
    Ok(())
}
