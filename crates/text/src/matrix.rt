//! The numbers at the head of a matrix line.
ghost use Rattle.std.specs.Prelude.{◌≡◌, ◌+◌, ◌*◌, ◌/◌, ◌%◌, ◌<◌, [], ◌∷◌};
ghost use Rattle.columns.specs.Lines.{TenDigits};

use rows::table::Shape;

/// Returns the letter and the row number, both from 1, of row `j`, from 0, of all matrices of a table of this shape.
pub fn heads(shape: Shape, j: usize) -> [u64; 2]
    requires one_of_them { j < shape.letters * shape.states }
    ensures numbered { result ≡ (j / shape.states + 1) ∷ (j % shape.states + 1) ∷ [] }
    ensures ten_digits { TenDigits result }
{
    let (letter, row) = (j / shape.states + 1, j % shape.states + 1);
    // `as`: std has no From from usize to u64
    [letter as u64, row as u64]
}
