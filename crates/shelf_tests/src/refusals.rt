//! Every refusal of every call, by its reason, and that shelf memory, output and directory are as they were.
use crate::bench::{ALL, Bench, Lent, NOTHING};
use crate::calls::{after, clear, compare, load, multiply, reduce, scale, sum, turn, weigh, write};
use crate::texts::{ONES, in_line};
use book::outcome::Answer;
use book::refusal::Refusal;
use byte::Byte;
use faults::{ColumnFault, LineFault, LoadFault, Position};
use field::Field;
use loose::Loose;
use residue::{Bit, Fermat};
use std::process::Abort;

impl<F: Field, A: Abort + Copy> Bench<F, A> {
    // A place outside 1 to 8 comes before every other reason: there is no memory, places are empty, and letter, code
    // and text are bad.
    fn check_outside(&mut self, p: usize) {
        self.check_refused(
            NOTHING,
            Refusal::PlaceOutside,
            &[
                load(b"", p),
                sum(p, 8, 8),
                sum(8, p, 8),
                sum(8, 8, p),
                multiply(p, 8, 8),
                multiply(8, p, 8),
                multiply(8, 8, p),
                compare(p, 8),
                compare(8, p),
                write(p),
                clear(p),
                scale(p, u64::MAX, 8),
                scale(8, u64::MAX, p),
                after(p, 0, 8),
                after(8, 0, p),
                turn(p, 8),
                turn(8, p),
                reduce(p, 8),
                reduce(8, p),
                weigh(p, &[0]),
            ],
        );
    }

    // Calls that read the empty place 8, with bad letter and code and with other letter counts.
    fn check_empty(&mut self, lent: Lent, refusal: Refusal) {
        self.check_refused(
            lent,
            refusal,
            &[
                sum(8, 6, 1),
                sum(1, 8, 1),
                multiply(8, 6, 1),
                multiply(1, 8, 1),
                compare(8, 6),
                compare(1, 8),
                scale(8, u64::MAX, 1),
                after(8, 0, 1),
                turn(8, 1),
                reduce(8, 1),
                weigh(8, &[0]),
            ],
        );
    }

    // Shelf memory, work memory and an empty place are reported in this order, one element short of each limit. Load is
    // refused before its text is read.
    fn check_short(&mut self) {
        let shelf = Lent {
            shelf: 12543,
            ..ALL
        };
        let work = Lent { work: 8191, ..ALL };
        self.check_empty(
            Lent {
                work: 8191,
                ..shelf
            },
            Refusal::MemoryShort,
        );
        self.check_empty(work, Refusal::WorkShort);
        self.check_empty(ALL, Refusal::PlaceEmpty);
        self.check_refused(
            Lent { work: 0, ..shelf },
            Refusal::MemoryShort,
            &[load(b"", 1)],
        );
        self.check_refused(work, Refusal::WorkShort, &[load(b"", 1)]);
    }

    // Write asks for no work memory, and clear for no memory at all.
    fn check_short_others(&mut self) {
        let no_work = Lent { work: 0, ..ALL };
        let short_output = Lent {
            output: 97,
            ..no_work
        };
        let no_output = Lent {
            output: 0,
            ..no_work
        };
        let short_shelf = Lent {
            shelf: 12543,
            ..no_work
        };
        self.check_refused(short_output, Refusal::OutputShort, &[write(1)]);
        self.check_refused(no_output, Refusal::PlaceEmpty, &[write(8), clear(8)]);
        self.check_refused(short_shelf, Refusal::MemoryShort, &[write(8)]);
        self.check_refused(short_shelf, Refusal::PlaceEmpty, &[clear(8)]);
    }

    // Letter counts that differ are reported before states over 16.
    fn check_pairs(&mut self) {
        self.check_refused(
            ALL,
            Refusal::LettersDiffer,
            &[
                sum(5, 6, 1),
                multiply(6, 5, 1),
                compare(5, 6),
                compare(6, 5),
            ],
        );
        self.check_refused(
            ALL,
            Refusal::StatesOver,
            &[
                sum(5, 4, 1),
                sum(4, 5, 1),
                multiply(2, 5, 1),
                multiply(5, 2, 1),
            ],
        );
    }

    // The first letter outside the table's letters is reported with its position; a code of q or more.
    fn check_letters(&mut self) {
        self.check_refused(
            ALL,
            Refusal::LetterOutside { position: 1 },
            &[
                after(1, 0, 1),
                after(1, 2, 1),
                after(6, 255, 1),
                weigh(6, &[3]),
            ],
        );
        self.check_refused(
            ALL,
            Refusal::LetterOutside { position: 3 },
            &[weigh(1, &[1, 1, 2]), weigh(6, &[2, 1, 0, 3])],
        );
        self.check_refused(
            ALL,
            Refusal::CodeOutside,
            &[scale(1, F::order(), 1), scale(1, u64::MAX, 1)],
        );
    }

    // Texts with faults in their first two bytes or numbers.
    fn check_texts(&mut self) {
        let first = Position { line: 1, column: 1 };
        let second = Position { line: 1, column: 2 };
        let digit = ColumnFault { position: second };
        let over_16 = Err(Refusal::Unreadable(LoadFault::Value(second)));
        self.check(
            ALL,
            &[
                (load(b"", 1), Err(in_line(LineFault::Ends(first)))),
                (load(b"S", 1), Err(in_line(LineFault::Unexpected(first)))),
                (load(b"T1", 1), Err(in_line(LineFault::Column(digit)))),
                (load(b"T         17", 1), over_16),
            ],
        );
    }

    // A text without its last newline, with a byte too many, and with a byte in the place of its first newline.
    fn check_long_texts(&mut self) {
        let mut longer = [b'\n'; 99];
        let bytes = &mut longer[..];
        bytes[..98].copy_from_slice(&self.over_field(ONES));
        let end = Position { line: 5, column: 2 };
        let beyond = Position { line: 6, column: 1 };
        let newline = Position {
            line: 1,
            column: 35,
        };
        let too_long = Err(Refusal::Unreadable(LoadFault::Beyond(beyond)));
        self.check(
            ALL,
            &[
                (load(&longer[..97], 8), Err(in_line(LineFault::Ends(end)))),
                (load(&longer, 1), too_long),
            ],
        );
        longer[34] = b' ';
        let unended = Err(in_line(LineFault::Unended(newline)));
        self.check(ALL, &[(load(&longer, 1), unended)]);
    }

    // What each place holds, by the bytes of its text.
    fn check_sizes(&mut self) {
        self.check(
            ALL,
            &[
                (write(1), Ok(Answer::Count(98))),
                (write(2), Ok(Answer::Count(177))),
                (write(3), Ok(Answer::Count(401))),
                (write(4), Ok(Answer::Count(1113))),
                (write(5), Ok(Answer::Count(1346))),
                (write(6), Ok(Answer::Count(2009))),
                (write(7), Err(Refusal::PlaceEmpty)),
                (write(8), Err(Refusal::PlaceEmpty)),
            ],
        );
    }

    fn check_each_refusal(&mut self) {
        self.fill();
        let before = self.shelf;
        for p in [0, 9, usize::MAX] {
            self.check_outside(p);
        }
        self.check_short();
        self.check_short_others();
        self.check_pairs();
        self.check_letters();
        self.check_texts();
        self.check_long_texts();
        for (x, y) in before.iter().zip(&self.shelf) {
            assert!(self.rt; x.same(*y));
        }
        assert!(self.rt; self.output.iter().all(|b| *b == b'#'));
        self.check_sizes();
    }

    // What is refused, and what is accepted just short of it.
    fn check_refusals(&mut self) {
        self.check_each_refusal();
        self.check_accepted();
        self.check_least();
    }
}

#[test]
fn refusals_over_two(rt: HostRuntime) {
    let mut bench = Bench::<Bit, _>::new(rt, b'#');
    bench.check_refusals();
}

#[test]
fn refusals_over_bytes(rt: HostRuntime) {
    let mut bench = Bench::<Byte, _>::new(rt, b'#');
    bench.check_refusals();
}

#[test]
fn refusals_over_fermat(rt: HostRuntime) {
    let mut bench = Bench::<Fermat, _>::new(rt, b'#');
    bench.check_refusals();
}

#[test]
fn refusals_over_loose(rt: HostRuntime) {
    let mut bench = Bench::<Loose<65537>, _>::new(rt, b'#');
    bench.check_refusals();
}
