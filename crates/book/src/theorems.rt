//! Theorems on every use of a shelf, over every lawful field, each the contract of a function that does nothing else.
ghost use Rattle.book.specs.Law.{UsesFollowTheBook};
ghost use Rattle.book.specs.RoundTrips.{LoadAndWriteUndoEachOther};
ghost use Rattle.book.specs.Settling.{OutcomesAreSettled};

use field::Field;
use text::theorems::{one_text_one_table, one_verdict, text_lengths};

/// A call has one outcome, and leaves one state, by value. So has a list of calls.
pub fn outcomes_are_settled<F: Field>()
    ensures settled { OutcomesAreSettled F.field F.value }
{
    one_text_one_table::<F>();
    one_verdict::<F>();
}

/// Load accepts exactly the texts that write makes, and each undoes the other.
pub fn load_and_write_undo_each_other<F: Field>()
    ensures round_trips { LoadAndWriteUndoEachOther F.field F.value }
{
    text_lengths::<F>();
    one_text_one_table::<F>();
    one_verdict::<F>();
}

/// Every use follows the book: tables weigh as the book says, compare reports the least difference, and reduce leaves
/// the smallest form. Calls have one outcome, and load and write undo each other.
pub fn uses_follow_the_book<F: Field>()
    ensures law { UsesFollowTheBook F.field F.value }
{
    one_text_one_table::<F>();
    outcomes_are_settled::<F>();
    load_and_write_undo_each_other::<F>();
}
