//! A table as a reduction looks at it.
ghost use Rattle.std.specs.Prelude.{◌≤◌, length};

use rows::table::TableRef;

/// A table, and the `count` columns, of 16 elements each, through which its rows are seen.
#[derive(Drop)]
pub struct View<'a, F> {
    pub table: TableRef<'a, F>,
    pub columns: &'a [F],
    pub count: usize,
    ghost few: { count ≤ 16 },
    ghost room: { 256 ≤ length columns.now },
}
