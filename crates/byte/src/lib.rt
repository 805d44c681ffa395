//! GF(256): bytes, added by exclusive or and multiplied as polynomials over GF(2), reduced by
//! t^8 + t^4 + t^3 + t + 1. The byte is the code.
#![tactic(auto)]

ghost use Rattle.std.specs.Prelude.{◌≡◌, ℕ, ◌<◌, ◌≤◌};
ghost use Rattle.field.specs.Below.{Below};
ghost use Rattle.byte.specs.Product.{product as bytewise};
ghost use Rattle.byte.specs.Bytes.{bytes};
ghost use Rattle.byte.specs.Theorems.{ProductIsRemainder, RemainderIsUnique};

mod tables;

use field::Field;
use tables::{LOGARITHMS, POWERS};

/// An element of GF(256). Every byte is one.
#[derive(Clone, Copy, PartialEq, Eq, Debug)]
pub struct Byte {
    n: u8,
    ghost below: { n < 256 },
}

/// As many bytes as the compiler multiplies at once. Products over shorter rows are looked up.
const WIDTH: usize = 16;

// The product of two bytes: its logarithm is the sum of theirs.
fn product(a: u8, b: u8) -> u8
    ensures is_product { result ≡ bytewise a b }
{
    let sum = LOGARITHMS[usize::from(a)] + LOGARITHMS[usize::from(b)];
    POWERS[usize::from(sum)]
}

// The same product, by a bit of `b` at each turn: x is a times the power of t that has come.
// Nothing is looked up, so that in a loop over rows the compiler makes `WIDTH` products at once.
fn product_by_shifts(a: u8, b: u8) -> u8
    ensures is_product { result ≡ bytewise a b }
{
    let mut sum = 0;
    let mut x = a;
    let mut y = b;
    for _i in 0..8u8 {
        sum ^= y % 2 * x;
        x = (x % 128 * 2) ^ (x / 128 * 27);
        y /= 2;
    }
    sum
}

/// The product of two bytes is the remainder of their carry-less product by
/// t^8 + t^4 + t^3 + t + 1, as FIPS 197 defines it.
pub fn products_are_remainders()
    ensures product_is_remainder { ProductIsRemainder }
    ensures remainder_is_unique { RemainderIsUnique }
{}

impl From<u8> for Byte {
    ghost from_gives = { λ n x. x.n ≡ n };

    fn from(n: u8) -> Byte {
        Byte { n }
    }
}

impl Field for Byte {
    ghost Value = { Below 256 };

    ghost value = { λ x. record { n = x.n; below = x.below } };

    ghost field = { bytes };

    fn zero() -> Byte {
        Byte { n: 0 }
    }

    fn one() -> Byte {
        Byte { n: 1 }
    }

    fn add(self, other: Byte) -> Byte {
        Byte::from(self.n ^ other.n)
    }

    fn neg(self) -> Byte {
        self
    }

    fn mul(self, other: Byte) -> Byte {
        Byte::from(product(self.n, other.n))
    }

    fn inverse(self) -> Option<Byte> {
        if self.n == 0 {
            return None;
        }
        // A power and its inverse multiply to the power 255, which is one.
        let rest = 255 - LOGARITHMS[usize::from(self.n)];
        Some(Byte::from(POWERS[usize::from(rest)]))
    }

    fn same(self, other: Byte) -> bool {
        self == other
    }

    fn code(self) -> u64 {
        u64::from(self.n)
    }

    fn from_code(n: u64) -> Option<Byte> {
        let n = u8::try_from(n).ok()?;
        Some(Byte::from(n))
    }

    fn order() -> u64 {
        256
    }

    // Elements that lie apart are not loaded at once, so their products are looked up.
    fn dot(row: &[Byte], ys: &[Byte], column: usize, step: usize) -> Byte {
        let mut sum = Byte::zero();
        if row.len() < WIDTH || step != 1 {
            for (i, x) in row.iter().enumerate() {
                sum = sum.add(x.mul(ys[column + i * step]));
            }
            return sum;
        }
        let whole = row.len() / WIDTH * WIDTH;
        for i in 0..whole {
            sum = sum.add(Byte::from(product_by_shifts(row[i].n, ys[column + i].n)));
        }
        for i in whole..row.len() {
            sum = sum.add(row[i].mul(ys[column + i]));
        }
        sum
    }

    // Goes over the rows of a wide matrix, whose elements lie side by side.
    fn row_times_matrix(row: &[Byte], matrix: &[Byte], to: &mut [Byte]) {
        let n = row.len();
        // An override cannot call the default body, so its loop stands here again.
        if n < WIDTH {
            for (j, x) in to.iter_mut().enumerate() {
                *x = Self::dot(row, matrix, j, n);
            }
            return;
        }
        for (_j, x) in to.iter_mut().enumerate() {
            *x = Byte::zero();
        }
        // Every byte is its own opposite, so this adds the multiple.
        for (i, x) in row.iter().enumerate() {
            Self::subtract_multiple(to, *x, &matrix[i * n..i * n + n]);
        }
    }

    fn subtract_multiple(row: &mut [Byte], factor: Byte, other: &[Byte]) {
        let n = row.len();
        if n < WIDTH {
            for (j, x) in row.iter_mut().enumerate() {
                *x = x.add(factor.mul(other[j]));
            }
            return;
        }
        let whole = n / WIDTH * WIDTH;
        // The factor stands first: by its bits the compiler would branch.
        for j in 0..whole {
            row[j] = row[j].add(Byte::from(product_by_shifts(factor.n, other[j].n)));
        }
        for j in whole..n {
            row[j] = row[j].add(factor.mul(other[j]));
        }
    }
}
