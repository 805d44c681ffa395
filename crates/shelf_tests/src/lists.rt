//! Lists of calls, with results where the tables are read from.
use crate::bench::{ALL, Bench, DONE, ODD_VERDICT};
use crate::calls::{
    after, ask, clear, compare, load, multiply, reduce, scale, sum, turn, weigh, write,
};
use crate::texts::{FIBONACCI, TWISTED, in_line};
use book::call::Request;
use book::outcome::{Answer, Outcome};
use book::refusal::Refusal;
use book::verdict::{Kind, Verdict};
use byte::Byte;
use faults::{LineFault, Position};
use field::Field;
use loose::Loose;
use residue::{Bit, Fermat};
use std::process::Abort;

// What the calls of the lists come to over a field.
#[derive(Clone, Copy)]
struct Known {
    seventh: u64,
    doubled: u64,
    squared: u64,
    cubed: u64,
    added: u64,
    multiplied: u64,
    bytes: usize,
    opposite: u64,
    negated: u64,
    tried: usize,
    kept: usize,
}

const OVER_TWO: Known = Known {
    seventh: 1,
    doubled: 0,
    squared: 1,
    cubed: 1,
    added: 0,
    multiplied: 1,
    bytes: 177,
    opposite: 1,
    negated: 1,
    tried: 3,
    kept: 2,
};

const OVER_BYTES: Known = Known {
    opposite: 255,
    negated: 255,
    ..OVER_TWO
};

const OVER_FERMAT: Known = Known {
    seventh: 13,
    doubled: 26,
    squared: 169,
    cubed: 2197,
    added: 34,
    multiplied: 273,
    bytes: 401,
    opposite: 65368,
    negated: 65524,
    tried: 5,
    kept: 4,
};

// The word of seven letters.
const SEVEN: &[u8] = &[1; 7];

// The two tables of this verdict weigh the word 1 2 differently, zero and one, and no word before it.
const TURNED: Verdict = Verdict {
    kind: Kind::Differs,
    tried: 5,
    kept: 0,
    length: 2,
    first: 0,
    second: 1,
    letters: [
        1, 2, 0, 0, 0, 0, 0, 0, 0, 0, 0, 0, 0, 0, 0, 0, 0, 0, 0, 0, 0, 0, 0, 0, 0, 0, 0, 0, 0, 0, 0,
    ],
};

// A list of every call, with refusals among them, over a field of this many elements.
fn every_call<'a>(one_letter: &'a [u8], two_letters: &'a [u8], order: u64) -> [Request<'a>; 24] {
    [
        ask(load(one_letter, 1)),
        ask(load(two_letters, 2)),
        ask(after(1, 1, 3)),
        ask(sum(1, 3, 4)),
        ask(weigh(4, SEVEN)),
        ask(multiply(1, 3, 5)),
        ask(weigh(5, SEVEN)),
        ask(reduce(4, 4)),
        ask(write(4)),
        ask(turn(2, 6)),
        ask(compare(2, 6)),
        ask(scale(1, order.wrapping_sub(1), 7)),
        ask(weigh(7, SEVEN)),
        ask(compare(3, 3)),
        ask(compare(1, 2)),
        ask(weigh(1, &[1, 2])),
        ask(scale(1, order, 1)),
        ask(load(b"T", 1)),
        Request {
            output: 10,
            ..ask(write(1))
        },
        ask(clear(4)),
        ask(weigh(4, SEVEN)),
        ask(write(2)),
        ask(weigh(2, &[2, 1])),
        ask(multiply(0, 1, 1)),
    ]
}

// What comes of that list over a field where this is known.
fn every_outcome(known: Known) -> [Outcome; 24] {
    let ends = Position { line: 1, column: 2 };
    let same = Verdict {
        tried: 3,
        kept: 2,
        ..Verdict::blank()
    };
    [
        DONE,
        DONE,
        DONE,
        DONE,
        Ok(Answer::Code(known.added)),
        DONE,
        Ok(Answer::Code(known.multiplied)),
        DONE,
        Ok(Answer::Count(177)),
        DONE,
        Ok(Answer::Told(TURNED)),
        DONE,
        Ok(Answer::Code(known.negated)),
        Ok(Answer::Told(same)),
        Err(Refusal::LettersDiffer),
        Err(Refusal::LetterOutside { position: 2 }),
        Err(Refusal::CodeOutside),
        Err(in_line(LineFault::Ends(ends))),
        Err(Refusal::OutputShort),
        DONE,
        Err(Refusal::PlaceEmpty),
        Ok(Answer::Count(269)),
        Ok(Answer::Code(1)),
        Err(Refusal::PlaceOutside),
    ]
}

impl<F: Field, A: Abort + Copy> Bench<F, A> {
    // Sum, multiply and reduce, with the result where one or both of the tables are read from.
    fn check_making(&mut self, known: Known) {
        let text = self.over_field(FIBONACCI);
        let requests = [
            ask(load(&text, 1)),
            ask(weigh(1, SEVEN)),
            ask(sum(1, 1, 1)),
            ask(weigh(1, SEVEN)),
            ask(load(&text, 1)),
            ask(load(&text, 2)),
            ask(multiply(1, 2, 2)),
            ask(weigh(2, SEVEN)),
            ask(multiply(2, 1, 1)),
            ask(weigh(1, SEVEN)),
            ask(reduce(1, 1)),
            ask(write(1)),
        ];
        let mut outcomes = [Err(Refusal::PlaceOutside); 12];
        let count = self.perform(&requests, &mut outcomes);
        assert_eq!(self.rt; count, 12);
        assert_eq!(self.rt; self.verdict, ODD_VERDICT);
        let expected = [
            DONE,
            Ok(Answer::Code(known.seventh)),
            DONE,
            Ok(Answer::Code(known.doubled)),
            DONE,
            DONE,
            DONE,
            Ok(Answer::Code(known.squared)),
            DONE,
            Ok(Answer::Code(known.cubed)),
            DONE,
            Ok(Answer::Count(known.bytes)),
        ];
        assert_eq!(self.rt; outcomes, expected);
    }

    // After, turn and scale in place, two compares with one verdict record, single requests with too little memory, and a
    // last request that no outcome is left for.
    fn check_reading(&mut self, known: Known) {
        let last = F::order().wrapping_sub(1);
        let word = [1; 6];
        let requests = [
            ask(after(2, 1, 2)),
            ask(weigh(2, &word)),
            ask(turn(2, 2)),
            ask(weigh(2, &word)),
            ask(scale(2, last, 2)),
            ask(weigh(2, &word)),
            ask(compare(1, 1)),
            ask(compare(1, 2)),
            Request {
                work: 8191,
                ..ask(weigh(1, &word))
            },
            Request {
                output: 176,
                ..ask(write(1))
            },
            ask(clear(2)),
            ask(clear(2)),
            ask(clear(1)),
        ];
        let mut outcomes = [Err(Refusal::PlaceOutside); 12];
        let count = self.perform(&requests, &mut outcomes);
        assert_eq!(self.rt; count, 12);
        let alike = Verdict {
            kind: Kind::Alike,
            tried: known.tried,
            kept: known.kept,
            length: 0,
            first: 0,
            second: 0,
            letters: [0; 31],
        };
        let differs = Verdict {
            kind: Kind::Differs,
            tried: 1,
            kept: 0,
            length: 0,
            first: 0,
            second: last,
            letters: [0; 31],
        };
        assert_eq!(self.rt; self.verdict, differs);
        let expected = [
            DONE,
            Ok(Answer::Code(known.squared)),
            DONE,
            Ok(Answer::Code(known.squared)),
            DONE,
            Ok(Answer::Code(known.opposite)),
            Ok(Answer::Told(alike)),
            Ok(Answer::Told(differs)),
            Err(Refusal::WorkShort),
            Err(Refusal::OutputShort),
            DONE,
            Err(Refusal::PlaceEmpty),
        ];
        assert_eq!(self.rt; outcomes, expected);
    }

    // Two letters: turn and after in place, where the order of the letters counts. Place 1 was not cleared before.
    fn check_twisted(&mut self, known: Known) {
        let text = self.over_field(TWISTED);
        self.check(
            ALL,
            &[
                (load(&text, 3), DONE),
                (weigh(3, &[1, 2]), Ok(Answer::Code(0))),
                (turn(3, 3), DONE),
                (weigh(3, &[1, 2]), Ok(Answer::Code(1))),
                (after(3, 2, 3), DONE),
                (weigh(3, &[1]), Ok(Answer::Code(0))),
                (weigh(3, &[]), Ok(Answer::Code(1))),
                (write(1), Ok(Answer::Count(known.bytes))),
            ],
        );
    }

    // Sum and multiply of two tables that differ, with the result at the first and at the second of their places: the
    // other place is as it was.
    fn check_over_operands(&mut self, known: Known) {
        let text = self.over_field(FIBONACCI);
        for to in [1, 2] {
            let other = 3 - to;
            for (call, code) in [
                (sum(1, 2, to), known.added),
                (multiply(1, 2, to), known.multiplied),
            ] {
                self.check(
                    ALL,
                    &[(load(&text, 1), DONE), (after(1, 1, 2), DONE), (call, DONE)],
                );
                self.check(
                    ALL,
                    &[
                        (weigh(to, SEVEN), Ok(Answer::Code(code))),
                        (write(to), Ok(Answer::Count(401))),
                        (write(other), Ok(Answer::Count(177))),
                    ],
                );
            }
        }
    }

    // A list from open on, the bench's memory as it was left.
    fn check_every_call(&mut self, known: Known) {
        let one_letter = self.over_field(FIBONACCI);
        let two_letters = self.over_field(TWISTED);
        let requests = every_call(&one_letter, &two_letters, F::order());
        let mut outcomes = [Err(Refusal::PlaceOutside); 24];
        self.open();
        let count = self.perform(&requests, &mut outcomes);
        assert_eq!(self.rt; count, 24);
        assert_eq!(self.rt; outcomes, every_outcome(known));
    }

    fn check_lists(&mut self, known: Known) {
        self.check_making(known);
        self.check_reading(known);
        self.check_twisted(known);
        self.check_over_operands(known);
        self.check_every_call(known);
    }
}

#[test]
fn lists_over_two(rt: HostRuntime) {
    let mut bench = Bench::<Bit, _>::new(rt, 0);
    bench.check_lists(OVER_TWO);
}

#[test]
fn lists_over_bytes(rt: HostRuntime) {
    let mut bench = Bench::<Byte, _>::new(rt, 0);
    bench.check_lists(OVER_BYTES);
}

#[test]
fn lists_over_fermat(rt: HostRuntime) {
    let mut bench = Bench::<Fermat, _>::new(rt, 0);
    bench.check_lists(OVER_FERMAT);
}

#[test]
fn lists_over_loose(rt: HostRuntime) {
    let mut bench = Bench::<Loose<65537>, _>::new(rt, 0);
    bench.check_lists(OVER_FERMAT);
}
