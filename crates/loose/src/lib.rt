//! A field for tests: residues that are not always reduced, so that several elements stand for one
//! value. It finds generic code that compares elements where it has to compare values.
#![tactic(auto)]

ghost use Rattle.std.specs.Prelude.{◌≡◌, ℕ, ◌^◌, ◌<◌, ◌≤◌};
ghost use Rattle.field.specs.Below.{Below};
ghost use Rattle.residue.specs.Operations.{residue_of};
ghost use Rattle.residue.specs.Residues.{residues};

use field::Field;
use residue::{PrimeModulus, Residue};

/// Stands for the residue of n: n, n + P, n + 2P and so on are elements of one value. A derived
/// equality would not hold between them, so there is none.
#[derive(Clone, Copy, Debug)]
pub struct Loose<const P: u32> {
    n: u64,
    ghost small: { n < 4294967296 },
}

// A reduced residue is an element.
impl<const P: u32> From<Residue<P>> for Loose<P>
where
    Residue<P>: PrimeModulus<P>,
{
    ghost from_gives = { λ x y. y.n ≡ x.n };

    fn from(x: Residue<P>) -> Loose<P> {
        Loose { n: x.code() }
    }
}

impl<const P: u32> Field for Loose<P>
where
    Residue<P>: PrimeModulus<P>,
{
    ghost Value = { Below P };

    ghost value = { λ x. residue_of P bound-1.prime x.n };

    ghost field = { residues P bound-1.prime };

    fn zero() -> Loose<P> {
        Loose { n: 0 }
    }

    fn one() -> Loose<P> {
        Loose { n: 1 }
    }

    fn add(self, other: Loose<P>) -> Loose<P> {
        let sum = self.n + other.n;
        if sum < 4294967296 {
            Loose { n: sum }
        } else {
            Loose {
                n: sum % Self::order(),
            }
        }
    }

    fn neg(self) -> Loose<P> {
        Loose {
            n: Self::order() - self.code(),
        }
    }

    fn mul(self, other: Loose<P>) -> Loose<P> {
        Loose {
            n: self.n * other.n % Self::order(),
        }
    }

    fn inverse(self) -> Option<Loose<P>> {
        let reduced = Residue::<P>::from_code(self.code())?;
        let found = reduced.inverse()?;
        Some(Loose::from(found))
    }

    fn same(self, other: Loose<P>) -> bool {
        self.code() == other.code()
    }

    fn code(self) -> u64 {
        self.n % Self::order()
    }

    fn from_code(n: u64) -> Option<Loose<P>> {
        let reduced = Residue::from_code(n)?;
        Some(Loose::from(reduced))
    }

    fn order() -> u64 {
        u64::from(P)
    }
}
