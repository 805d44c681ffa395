//! The codes of a text over 65537 elements: the last one is read, and the next is not.
use crate::bench::{ALL, Bench, DONE};
use crate::calls::{load, weigh};
use crate::texts::{ONES, in_line};
use book::outcome::Answer;
use book::refusal::Refusal;
use columns::column::put_number;
use faults::{ColumnFault, LineFault, LoadFault, Position};
use residue::Fermat;

// The text of ones with this number as the code of its S line.
fn started_with(number: u32) -> [u8; 98] {
    let mut text = ONES;
    let bytes = &mut text[..];
    put_number(&mut bytes[36..47], u64::from(number));
    text
}

#[test]
fn largest_code_and_the_next(rt: HostRuntime) {
    let mut bench = Bench::<Fermat, _>::new(rt, 0);
    let largest = started_with(65536);
    bench.check(
        ALL,
        &[
            (load(&largest, 1), DONE),
            (weigh(1, &[]), Ok(Answer::Code(65536))),
        ],
    );
    let over = Position { line: 2, column: 2 };
    bench.check(
        ALL,
        &[(
            load(&started_with(65537), 1),
            Err(Refusal::Unreadable(LoadFault::Value(over))),
        )],
    );
}

// A number does not begin with a zero: the byte behind it is the fault.
#[test]
fn zero_before_a_digit(rt: HostRuntime) {
    let mut bench = Bench::<Fermat, _>::new(rt, 0);
    let mut text = ONES;
    text[45] = b'0';
    let position = Position {
        line: 2,
        column: 11,
    };
    let fault = LineFault::Column(ColumnFault { position });
    bench.check(ALL, &[(load(&text, 1), Err(in_line(fault)))]);
}
