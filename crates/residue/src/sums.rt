//! Sums of products of residues in 64 bits, reduced once at the end.
ghost use Rattle.std.specs.Prelude.{◌≡◌, ℕ, ◌+◌, ◌*◌, ◌^◌, ◌<◌, ◌≤◌, length};
ghost use Rattle.residue.specs.Operations.{residue_of};
ghost use Rattle.residue.specs.Sums.{UpTo, DotSummed, MultipleAdded, ResiduesWritten, value_of};

use crate::{PrimeModulus, Residue};
use field::Field;

/// A sum up to this has room for many more products of two numbers up to 65537.
const ROOM: u64 = 4_611_686_018_427_387_904; // 2^62

/// The residue of a number.
pub fn residue<const P: u32>(n: u64) -> Residue<P>
where
    Residue<P>: PrimeModulus<P>,
    ensures is_residue { value_of result ≡ residue_of P bound-1.prime n }
{
    Residue {
        n: (n % Residue::<P>::order()) as u32,
    }
}

/// A number with the same residue and room for more: the sum, or its remainder where it is large.
pub fn with_room<const P: u32>(sum: u64) -> u64
where
    Residue<P>: PrimeModulus<P>,
    ensures room { result ≤ 2 ^ 62 }
    ensures same_residue { residue_of P bound-1.prime result ≡ residue_of P bound-1.prime sum }
{
    if sum > ROOM {
        sum % Residue::<P>::order()
    } else {
        sum
    }
}

/// A number whose residue is the row times the column of `ys` whose elements lie `step` apart from
/// `column` on. All products of a row of up to 32 elements fit in one sum, so it is not tested in
/// between.
pub fn narrow_dot<const P: u32>(
    row: &[Residue<P>],
    ys: &[Residue<P>],
    column: usize,
    step: usize,
) -> u64
where
    Residue<P>: PrimeModulus<P>,
    requires narrow { length row.now ≤ 32 }
    requires column_within { (i : ℕ) → i < length row.now → column + i * step < length ys.now }
    ensures is_dot_product { DotSummed bound-1.prime row.now ys.now column step result }
{
    let mut sum = 0;
    for (i, x) in row.iter().enumerate() {
        sum += u64::from(x.n) * u64::from(ys[column + i * step].n);
    }
    sum
}

/// Adds to each sum `factor` times the element of the row at its index.
pub fn add_multiple<const P: u32>(sums: &mut [u64], factor: u32, row: &[Residue<P>])
where
    Residue<P>: PrimeModulus<P>,
    requires as_long { length row.now ≡ length sums.old }
    requires small_factor { factor ≤ 65537 }
    requires room { UpTo (2 ^ 62) sums.old }
    ensures multiple_added { MultipleAdded bound-1.prime factor row.now sums.old sums.new }
    ensures grown_by_one_product { (b : ℕ) → UpTo b sums.old → UpTo (b + 65537 * 65537) sums.new }
{
    for (j, y) in row.iter().enumerate() {
        sums[j] += u64::from(factor) * u64::from(y.n);
    }
}

/// Writes the residues of the sums.
pub fn write_residues<const P: u32>(sums: &[u64], to: &mut [Residue<P>])
where
    Residue<P>: PrimeModulus<P>,
    requires as_long { length sums.now ≡ length to.old }
    ensures residues_written { ResiduesWritten bound-1.prime sums.now to.new }
{
    for (j, x) in to.iter_mut().enumerate() {
        *x = residue(sums[j]);
    }
}
