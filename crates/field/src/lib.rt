//! A finite field as an interface. Its meaning is the value that each element stands for. Several
//! elements may stand for one value; what a function returns depends on values alone.
#![tactic(auto)]

ghost use Rattle.std.specs.Prelude.{◌≡◌, ℕ, ◌+◌, ◌*◌, ◌<◌, ◌≤◌, length, Decides};
ghost use Rattle.field.specs.FiniteField.{FiniteField};
ghost use Rattle.field.specs.Elements.{IsInverse, IsDecoded};
ghost use Rattle.field.specs.Rows.{AllBelow, column_dot, ProductWritten, MultipleTaken, RowsTaken};

pub trait Field: Copy {
    // The values that elements stand for.
    ghost Value: { Type 0 };

    // The value that an element stands for.
    ghost value: { Self → Value };

    // The operations on values, with all laws of a finite field.
    ghost field: { FiniteField Value };

    fn zero() -> Self
        ensures is_zero { value result ≡ field.zero };

    fn one() -> Self
        ensures is_one { value result ≡ field.one };

    fn add(self, other: Self) -> Self
        ensures is_sum { value result ≡ field.plus (value self) (value other) };

    fn neg(self) -> Self
        ensures is_opposite { value result ≡ field.opposite (value self) };

    fn mul(self, other: Self) -> Self
        ensures is_product { value result ≡ field.times (value self) (value other) };

    // Nothing exactly for zero.
    fn inverse(self) -> Option<Self>
        ensures is_inverse_unless_zero { IsInverse field value (value self) result };

    // Whether two elements stand for one value.
    fn same(self, other: Self) -> bool
        ensures decides_equality { Decides result (value self ≡ value other) };

    fn code(self) -> u64
        ensures is_code { result ≡ field.code (value self) };

    // An element of this code, or nothing exactly where the code is q or more.
    fn from_code(n: u64) -> Option<Self>
        ensures is_decoded_below_order { IsDecoded field value n result };

    // The number of values, q.
    fn order() -> u64
        ensures is_order { result ≡ field.q };

    // The methods below have bodies that use the methods above alone. An implementation may replace
    // them by faster ones.

    /// The row times the column of `ys` whose elements lie `step` apart from `column` on.
    fn dot(row: &[Self], ys: &[Self], column: usize, step: usize) -> Self
        requires column_within { (i : ℕ) → i < length row.now → column + i * step < length ys.now }
        ensures is_dot_product { value result ≡ column_dot field value row.now ys.now column step }
    {
        let mut sum = Self::zero();
        for (i, x) in row.iter().enumerate() {
            sum = sum.add(x.mul(ys[column + i * step]));
        }
        sum
    }

    /// Writes to `to` the row times the matrix of as many rows and columns.
    fn row_times_matrix(row: &[Self], matrix: &[Self], to: &mut [Self])
        requires square { length matrix.now ≡ length row.now * length row.now }
        requires as_long { length to.old ≡ length row.now }
        ensures product_written { ProductWritten field value row.now matrix.now to.new }
    {
        for (j, x) in to.iter_mut().enumerate() {
            *x = Self::dot(row, matrix, j, row.len());
        }
    }

    /// Takes `factor` times another row from the row.
    fn subtract_multiple(row: &mut [Self], factor: Self, other: &[Self])
        requires as_long { length other.now ≡ length row.old }
        ensures difference_written { MultipleTaken field value row.old factor other.now row.new }
    {
        // `other[j]`: after a `zip` with `iter_mut` nothing is known of the elements.
        for (j, x) in row.iter_mut().enumerate() {
            *x = x.add(factor.mul(other[j]).neg());
        }
    }

    /// Takes from the row, one after another, the first rows of `rows`, one for each pivot: each as
    /// often as what is left of the row has at that pivot.
    fn subtract_rows(row: &mut [Self], rows: &[Self], pivots: &[usize])
        requires rows_within { length pivots.now * length row.old ≤ length rows.now }
        requires pivots_within { AllBelow (length row.old) pivots.now }
        ensures rest_written { RowsTaken field value row.old rows.now pivots.now row.new }
    {
        let n = row.len();
        for (b, pivot) in pivots.iter().enumerate() {
            let factor = row[*pivot];
            Self::subtract_multiple(row, factor, &rows[b * n..b * n + n]);
        }
    }
}
