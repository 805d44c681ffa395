//! Residues modulo a prime: one arithmetic for every modulus that is shown to be prime.
//! The residue is the code.
#![tactic(auto)]

ghost use Rattle.std.specs.Prelude.{◌≡◌, ℕ, ◌<◌, ◌≤◌};
ghost use Rattle.field.specs.Below.{Below};
ghost use Rattle.residue.specs.Prime.{Prime};
ghost use Rattle.residue.specs.Residues.{residues};
ghost use Rattle.residue.specs.Proofs.Primality.{prime_by};

mod sums;

use crate::sums::{add_multiple, narrow_dot, residue, with_room, write_residues};
use field::Field;

/// The longest row whose sums are kept in an array, and whose products are summed without a test: as
/// long as two tables of 16 states together.
const NARROW: usize = 32;

/// GF(2).
pub type Bit = Residue<2>;

/// GF(65537).
pub type Fermat = Residue<65537>;

/// A proof that P is a prime of at most 65537. Another modulus costs one impl.
pub trait PrimeModulus<const P: u32> {
    ghost prime: { Prime P };
}

impl PrimeModulus<2> for Residue<2> {
    ghost prime = { prime_by 2 2 tt tt tt tt tt };
}

impl PrimeModulus<65537> for Residue<65537> {
    ghost prime = { prime_by 65537 257 tt tt tt tt tt };
}

/// A number below P. The field is private, so no other number can be made an element.
#[derive(Clone, Copy, PartialEq, Eq, Debug)]
pub struct Residue<const P: u32> {
    n: u32,
    ghost below: { n < P },
}

impl<const P: u32> Field for Residue<P>
where
    Residue<P>: PrimeModulus<P>,
{
    ghost Value = { Below P };

    ghost value = { λ x. record { n = x.n; below = x.below } };

    ghost field = { residues P bound-1.prime };

    fn zero() -> Residue<P> {
        Residue { n: 0 }
    }

    fn one() -> Residue<P> {
        Residue { n: 1 }
    }

    fn add(self, other: Residue<P>) -> Residue<P> {
        Residue {
            n: (self.n + other.n) % P,
        }
    }

    fn neg(self) -> Residue<P> {
        Residue {
            n: (P - self.n) % P,
        }
    }

    // The remainder fits 32 bits, so the cast loses nothing.
    fn mul(self, other: Residue<P>) -> Residue<P> {
        Residue {
            n: (self.code() * other.code() % Self::order()) as u32,
        }
    }

    fn inverse(self) -> Option<Residue<P>> {
        if self.n == 0 {
            return None;
        }
        // Euclid's algorithm: a times self leaves r. Since P is prime, r falls until it is 1.
        let mut a = 1;
        let mut r = self.n;
        while r > 1 {
            a = P / r * (P - a) % P;
            r = P % r;
        }
        Some(Residue { n: a })
    }

    fn same(self, other: Residue<P>) -> bool {
        self == other
    }

    fn code(self) -> u64 {
        u64::from(self.n)
    }

    fn from_code(n: u64) -> Option<Residue<P>> {
        let n = u32::try_from(n).ok()?;
        if n < P { Some(Residue { n }) } else { None }
    }

    fn order() -> u64 {
        u64::from(P)
    }

    // In a row longer than `NARROW` the sum is reduced before it overflows, so a row may have any length.
    fn dot(row: &[Residue<P>], ys: &[Residue<P>], column: usize, step: usize) -> Residue<P> {
        if row.len() <= NARROW {
            return residue(narrow_dot(row, ys, column, step));
        }
        let mut sum = 0;
        for (i, x) in row.iter().enumerate() {
            sum = with_room::<P>(sum) + u64::from(x.n) * u64::from(ys[column + i * step].n);
        }
        residue(sum)
    }

    // Goes over the rows of the matrix, so that the products with a row can be vectorized.
    fn row_times_matrix(row: &[Residue<P>], matrix: &[Residue<P>], to: &mut [Residue<P>]) {
        let n = row.len();
        // An override cannot call the default body, so its loop stands here again.
        if n > NARROW {
            for (j, x) in to.iter_mut().enumerate() {
                *x = Self::dot(row, matrix, j, n);
            }
            return;
        }
        let mut room = [0_u64; NARROW];
        let sums = &mut room[..n];
        for (i, x) in row.iter().enumerate() {
            add_multiple(sums, x.n, &matrix[i * n..i * n + n]);
        }
        write_residues(sums, to);
    }

    // Adds P - factor times a row in place of subtracting factor times it. Only pivots are reduced
    // before the end.
    fn subtract_rows(row: &mut [Residue<P>], rows: &[Residue<P>], pivots: &[usize]) {
        let n = row.len();
        // As above, the loop of the default body.
        if n > NARROW || pivots.len() > NARROW {
            for (b, pivot) in pivots.iter().enumerate() {
                let factor = row[*pivot];
                Self::subtract_multiple(row, factor, &rows[b * n..b * n + n]);
            }
            return;
        }
        let mut room = [0_u64; NARROW];
        let sums = &mut room[..n];
        add_multiple(sums, 1, row);
        for (b, pivot) in pivots.iter().enumerate() {
            let factor = residue::<P>(sums[*pivot]);
            // Without this branch the compiler multiplies by the upper 32 bits of the factor too.
            if factor.n == 0 {
                continue;
            }
            add_multiple(sums, P - factor.n, &rows[b * n..b * n + n]);
        }
        write_residues(sums, row);
    }
}
