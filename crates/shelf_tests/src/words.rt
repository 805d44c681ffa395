//! Refusals and verdicts as numbers and in words, and calls that own their bytes.
use crate::texts::in_line;
use book::call::Call;
use book::refusal::Refusal;
use book::verdict::Kind;
use faults::{ColumnFault, LineFault, LoadFault, Position};
use std::test::Fail;

// The number of each reason, which the C interface and the programs print, and line and column where a text is at fault.
#[test]
fn refusals_as_numbers(rt: HostRuntime) {
    let at = Position { line: 6, column: 3 };
    let digit = ColumnFault { position: at };
    let told = [
        (Refusal::PlaceOutside, 1, (0, 0)),
        (Refusal::MemoryShort, 2, (0, 0)),
        (Refusal::WorkShort, 3, (0, 0)),
        (Refusal::PlaceEmpty, 4, (0, 0)),
        (Refusal::LettersDiffer, 5, (0, 0)),
        (Refusal::StatesOver, 6, (0, 0)),
        (Refusal::LetterOutside { position: 3 }, 7, (0, 0)),
        (Refusal::CodeOutside, 8, (0, 0)),
        (Refusal::OutputShort, 9, (0, 0)),
        (in_line(LineFault::Ends(at)), 10, (6, 3)),
        (in_line(LineFault::Unexpected(at)), 11, (6, 3)),
        (in_line(LineFault::Column(digit)), 12, (6, 3)),
        (Refusal::Unreadable(LoadFault::Value(at)), 13, (6, 3)),
        (in_line(LineFault::Unended(at)), 14, (6, 3)),
        (Refusal::Unreadable(LoadFault::Beyond(at)), 15, (6, 3)),
    ];
    for (refusal, number, position) in told {
        assert_eq!(rt; refusal.number(), number, "{refusal:?}");
        assert_eq!(rt; refusal.position(), position, "{refusal:?}");
    }
}

#[test]
fn kinds_as_numbers(rt: HostRuntime) {
    assert_eq!(rt; Kind::Alike.number(), 0);
    assert_eq!(rt; Kind::Differs.number(), 1);
    assert_eq!(rt; Kind::Other(9).number(), 9);
}

// The reason of a refusal, for a person.
#[test]
fn refusals_in_words(rt: HostRuntime) -> Result<(), Fail> {
    let at = Position { line: 1, column: 2 };
    let told = [
        (Refusal::PlaceOutside, "a place is outside 1 to 8"),
        (
            Refusal::LetterOutside { position: 1 },
            "a letter is outside the table's letters",
        ),
        (
            in_line(LineFault::Ends(at)),
            "the text ends where a byte is due",
        ),
        (
            Refusal::Unreadable(LoadFault::Beyond(at)),
            "nothing may follow the last line",
        ),
    ];
    for (refusal, words) in told {
        let shown = format!(in rt.alloc(); "{refusal}")?;
        assert_eq!(rt; shown.as_str(), words);
        assert_eq!(rt; refusal.reason(), words);
    }
    Ok(())
}

// A call that owns its word lends it to the call that is made.
#[test]
fn a_call_that_owns_its_word(rt: HostRuntime) -> Result<(), Fail> {
    let word = vec![in rt.alloc(); 1u8, 2]?;
    let call = Call::Weigh { place: 3, word };
    assert!(rt;
        matches!(
            call.borrowed(),
            Call::Weigh {
                place: 3,
                word: [1, 2]
            }
        )
    );
    Ok(())
}
