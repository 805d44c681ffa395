//! The text of a table, written into lent bytes.
#![tactic(auto)]

ghost use Rattle.std.specs.Prelude.{◌≡◌, ◌+◌, ◌*◌, ◌≤◌, [], ◌∷◌, ◌++◌, length, take, drop};
ghost use Rattle.rows.specs.Layout.{table_size, table_at};
ghost use Rattle.rows.specs.Seen.{table_of};
ghost use Rattle.columns.specs.Lines.{letter as letter_of, line as line_of, TenDigits};
ghost use Rattle.text.specs.Texts.{text_size, text_of, body_of};
ghost use Rattle.text.specs.Rows.{codes_of, row_lines};

use columns::column::put_numbers;
use columns::line::Kind;
use field::Field;
use rows::table::{Shape, TableRef};
use text::matrix::heads;

/// The length in bytes of the longest text: that of a table with 16 states and 6 letters.
pub const LONGEST: usize = 19593;

const _: () = prove!(LONGEST == 41 + 22 * 16 + 6 * 16 * (24 + 11 * 16));

/// Writes a line of the numbers `heads` and then of the elements' codes.
fn put_codes_line<F: Field>(out: &mut [u8], kind: Kind, heads: &[u64], elements: &[F])
    requires ten_digits { TenDigits heads.now }
    requires room { length out.old ≡ 2 + 11 * (length heads.now + length elements.now) }
    ensures written { out.new ≡ line_of (letter_of kind) (heads.now ++ codes_of F.field F.value elements.now) }
{
    let codes_at = 1 + 11 * heads.len();
    let end = out.len() - 1;
    out[0] = u8::from(kind);
    // Two loops: one over a chain would ask at each number which part it is in, and would not know how small codes are.
    put_numbers(&mut out[1..codes_at], heads.iter().copied());
    put_numbers(&mut out[codes_at..end], elements.iter().map(|x| x.code()));
    out[end] = b'\n';
}

/// Writes the first line: the table's sizes and the field's q.
fn put_table_line<F: Field>(out: &mut [u8], shape: Shape)
    requires room { length out.old ≡ 35 }
    ensures written { out.new ≡ line_of (letter_of Kind.Table) (shape.states ∷ shape.letters ∷ F.field.q ∷ []) }
{
    // `as`: std has no From from usize to u64
    let sizes = [shape.states as u64, shape.letters as u64, F::order()];
    put_codes_line::<F>(out, Kind::Table, &sizes, &[]);
}

/// Writes the lines of all matrix rows of a table of this shape.
fn put_matrices<F: Field>(out: &mut [u8], shape: Shape, elements: &[F])
    requires all { length elements.now ≡ shape.letters * shape.states * shape.states }
    requires room { length out.old ≡ shape.letters * shape.states * (24 + 11 * shape.states) }
    ensures written { out.new ≡ row_lines shape.states (codes_of F.field F.value elements.now) (shape.letters * shape.states) }
{
    let n = shape.states;
    let width = 24 + 11 * n;
    // an index, since after `chunks_exact_mut` nothing is known of the bytes
    for j in 0..shape.letters * n {
        let row = &elements[j * n..j * n + n];
        let line = &mut out[j * width..j * width + width];
        put_codes_line(line, Kind::Matrix, &heads(shape, j), row);
    }
}

/// Writes the lines after the first.
fn put_body<F: Field>(out: &mut [u8], shape: Shape, elements: &[F])
    requires all { length elements.now ≡ table_size shape.states shape.letters }
    requires room { length out.old + 35 ≡ text_size shape.states shape.letters }
    ensures written { out.new ≡ body_of F.field (table_at F.field F.value elements.now 0 shape.states shape.letters) }
{
    let n = shape.states;
    let count = shape.letters * n;
    let (start, rest) = elements.split_at(n);
    let (rows, end) = rest.split_at(count * n);
    let (start_line, out) = out.split_at_mut(2 + 11 * n);
    let (row_lines, out) = out.split_at_mut(count * (24 + 11 * n));
    let (end_line, close_line) = out.split_at_mut(2 + 11 * n);
    put_codes_line(start_line, Kind::Start, &[], start);
    put_matrices(row_lines, shape, rows);
    put_codes_line(end_line, Kind::End, &[], end);
    put_codes_line::<F>(close_line, Kind::Close, &[], &[]);
}

/// Returns the length in bytes of the text of a table of this shape.
pub fn text_size(shape: Shape) -> usize
    ensures counted { result ≡ text_size shape.states shape.letters }
    ensures at_most { result ≤ 19593 }
{
    let n = shape.states;
    let size = 41 + 22 * n + shape.letters * n * (24 + 11 * n);
    prove!(size <= LONGEST);
    size
}

/// Writes the text of a table to the front of `output` and returns its length in bytes.
pub fn write_table<F: Field>(table: TableRef<'_, F>, output: &mut [u8]) -> usize
    requires room { text_size table.shape.states table.shape.letters ≤ length output.old }
    ensures counted { result ≡ text_size table.entry.shape.states table.entry.shape.letters }
    ensures written { take result output.new ≡ text_of F.field (table_of F.field F.value table.entry) }
    ensures later_bytes_kept { drop result output.new ≡ drop result output.old }
{
    let shape = table.shape();
    let size = text_size(shape);
    let (text, _) = output.split_at_mut(size);
    let (table_line, lines) = text.split_at_mut(35);
    put_table_line::<F>(table_line, shape);
    put_body(lines, shape, table.elements());
    size
}
