//! How much memory the calls on a shelf ask for.
use rows::table::LARGEST;

/// How many elements of shelf memory each place has: those of the largest table, 2·16 + 6·16² = 1,568.
pub const TABLE: usize = LARGEST;

/// How many elements of shelf memory a call asks for: those of eight places.
pub const SHELF: usize = 8 * TABLE;

/// How many elements of work memory a call asks for: those of the parts into which reducing splits it, a form, columns,
/// rows, rows beside their combinations, coefficients and rows in echelon form.
pub const WORK: usize = 8192;

const _: () = prove!(TABLE == 2 * 16 + 6 * (16 * 16));

const _: () = prove!(SHELF == 8 * (2 * 16 + 6 * (16 * 16)));

const _: () = prove!(WORK == 2048 + 512 + 512 + 1024 + 2048 + 2048);
