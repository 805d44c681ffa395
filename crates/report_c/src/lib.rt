//! The report over GF(65537), exported to C under two names.
#![tactic(auto)]

ghost use Rattle.std.specs.Prelude.{◌≡◌, ◌≤◌, ◌↔◌, length, slice_index};
ghost use Rattle.residue.specs.Delivered.{fermat};
ghost use Rattle.report.specs.Reports.{Reports, WeighAlike, OneLine};

/// Reports on two texts over GF(65537): writes one line to the front of the output, and returns how many bytes it has. An
/// output below 387 bytes, which not every line fits into, gives 0 before anything is read, and is unchanged.
#[unsafe(no_mangle)]
pub extern "C" fn gorvaneth_report(first: &[u8], second: &[u8], out: &mut [u8]) -> usize
    ensures reports { Reports fermat first.now second.now out.old result out.new }
    ensures at_most_387 { result ≤ 387 }
    ensures q_exactly_where_alike { 387 ≤ length out.old → (slice_index out.new 0 ≡ 81) ↔ WeighAlike fermat first.now second.now }
    ensures one_line { OneLine fermat }
{
    report::report(first, second, out)
}

/// The same function under a shorter name.
#[unsafe(no_mangle)]
pub extern "C" fn report(first: &[u8], second: &[u8], out: &mut [u8]) -> usize
    ensures reports { Reports fermat first.now second.now out.old result out.new }
    ensures at_most_387 { result ≤ 387 }
    ensures q_exactly_where_alike { 387 ≤ length out.old → (slice_index out.new 0 ≡ 81) ↔ WeighAlike fermat first.now second.now }
    ensures one_line { OneLine fermat }
{
    gorvaneth_report(first, second, out)
}
