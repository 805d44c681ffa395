//! What the bench times besides `report`, exported to C: a text read and written again, and the report over GF(256).
#![tactic(auto)]

ghost use Rattle.std.specs.Prelude.{◌≡◌, ◌≤◌, ◌↔◌, length, slice_index};
ghost use Rattle.residue.specs.Delivered.{fermat};
ghost use Rattle.byte.specs.Bytes.{bytes};
ghost use Rattle.report.specs.Reports.{Reports, WeighAlike, OneLine};
ghost use Rattle.bench_c.specs.Rewriting.{Rewrites};

use byte::Byte;
use field::Field;
use report::report_over;
use residue::Fermat;
use rows::table::{LARGEST, TableRef};
use text::table::read_table;
use writer::{text_size, write_table};

// Reads the text into memory, and writes the table's text to the front of the output.
fn read_and_write<F: Field>(memory: &mut [F], text: &[u8], out: &mut [u8]) -> usize
    requires room { 1568 ≤ length memory.old }
    ensures rewrites { Rewrites F.field text.now out.old result out.new }
{
    let Ok(shape) = read_table(text, memory) else {
        return 0;
    };
    if out.len() < text_size(shape) {
        return 0;
    }
    write_table(TableRef::new(memory, shape), out)
}

/// Reads the text of a table over GF(65537), writes it to the front of the output, and returns how many bytes it has: 0,
/// which no text has, where it is refused or the output is too short.
#[unsafe(no_mangle)]
pub extern "C" fn rewrite(text: &[u8], out: &mut [u8]) -> usize
    ensures rewrites { Rewrites fermat text.now out.old result out.new }
{
    let zero = Fermat::zero();
    let mut memory = [zero; LARGEST];
    read_and_write(&mut memory, text, out)
}

/// Reports on two texts over GF(256), as `report` does over GF(65537).
#[unsafe(no_mangle)]
pub extern "C" fn report_bytes(first: &[u8], second: &[u8], out: &mut [u8]) -> usize
    ensures reports { Reports bytes first.now second.now out.old result out.new }
    ensures at_most_387 { result ≤ 387 }
    ensures q_exactly_where_alike { 387 ≤ length out.old → (slice_index out.new 0 ≡ 81) ↔ WeighAlike bytes first.now second.now }
    ensures one_line { OneLine bytes }
{
    report_over::<Byte>(first, second, out)
}
