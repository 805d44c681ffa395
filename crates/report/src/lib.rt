//! Reports on the texts of two tables in one line: whether they weigh every word alike, the first word that they do not,
//! or why they cannot be compared. The crate `report_c` exports it to C.
#![tactic(auto)]

ghost use Rattle.std.specs.Prelude.{◌≡◌, ◌*◌, ◌^◌, ◌<◌, ◌≤◌, ◌↔◌, length, slice_index};
ghost use Rattle.std.specs.Mem.{type_size};
ghost use Rattle.residue.specs.Delivered.{fermat};
ghost use Rattle.report.specs.Memory.{AllZero};
ghost use Rattle.report.specs.Reports.{Reports, WeighAlike, OneLine};

mod finding;
mod line;
mod telling;
pub mod theorems;

use field::Field;
use residue::Fermat;
use shelf::memory::{SHELF, WORK};
pub use telling::LONGEST;
use telling::tell;
use theorems::{one_line, q_where_alike};

// Memory of N elements, every one zero.
fn zeros<F: Field, const N: usize>() -> [F; N]
    requires elements_fit { N * type_size F.row < 2 ^ 63 }
    ensures all_zero { AllZero F.field F.value result }
{
    [F::zero(); N]
}

/// Reports on two texts over a field: writes one line to the front of the output, and returns how many bytes it has. An
/// output below 387 bytes, which not every line fits into, gives 0 before anything is read, and is unchanged.
// The memory for the tables lies in two arrays, so their size has to be one of the machine's; the check computes that
// where the field is chosen.
pub fn report_over<F: Field>(first: &[u8], second: &[u8], out: &mut [u8]) -> usize
    requires elements_fit { 12544 * type_size F.row < 2 ^ 63 }
    ensures reports { Reports F.field first.now second.now out.old result out.new }
    ensures at_most_387 { result ≤ 387 }
    ensures q_exactly_where_alike { 387 ≤ length out.old → (slice_index out.new 0 ≡ 81) ↔ WeighAlike F.field first.now second.now }
    ensures one_line { OneLine F.field }
{
    let mut shelf = zeros::<F, SHELF>();
    let mut work = zeros::<F, WORK>();
    // These calls do nothing; their contracts are the last two clauses.
    q_where_alike::<F>();
    one_line::<F>();
    tell(&mut shelf, &mut work, first, second, out)
}

/// Reports on two texts over GF(65537).
pub fn report(first: &[u8], second: &[u8], out: &mut [u8]) -> usize
    ensures reports { Reports fermat first.now second.now out.old result out.new }
    ensures at_most_387 { result ≤ 387 }
    ensures q_exactly_where_alike { 387 ≤ length out.old → (slice_index out.new 0 ≡ 81) ↔ WeighAlike fermat first.now second.now }
    ensures one_line { OneLine fermat }
{
    report_over::<Fermat>(first, second, out)
}
