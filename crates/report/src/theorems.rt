//! Theorems on every report line, each the contract of a function that does nothing else.
ghost use Rattle.report.specs.Reports.{OneLine, BeginsWhereAlike};

use field::Field;
use text::theorems::{one_text_one_table, one_verdict};

/// Two texts have one report line.
pub fn one_line<F: Field>()
    ensures one { OneLine F.field }
{
    one_text_one_table::<F>();
    one_verdict::<F>();
}

/// A report line begins with Q exactly where both texts are those of tables with one letter count that weigh every word
/// alike.
pub fn q_where_alike<F: Field>()
    ensures exactly { BeginsWhereAlike F.field 81 }
{
    one_text_one_table::<F>();
    one_verdict::<F>();
}
