//! What is accepted just short of a refusal.
use crate::bench::{ALL, Bench, DONE, Lent, NOTHING};
use crate::calls::{after, clear, multiply, scale, sum, weigh, write};
use book::outcome::Answer;
use book::refusal::Refusal;
use field::Field;
use std::process::Abort;

impl<F: Field, A: Abort + Copy> Bench<F, A> {
    /// 16 states, the last code, the last letter.
    pub fn check_accepted(&mut self) {
        let last = F::order().wrapping_sub(1);
        self.fill();
        self.check(
            ALL,
            &[
                (sum(4, 4, 8), DONE),
                (write(8), Ok(Answer::Count(3593))),
                (multiply(3, 3, 8), DONE),
                (write(8), Ok(Answer::Count(3593))),
                (scale(1, last, 8), DONE),
                (weigh(8, &[1, 1]), Ok(Answer::Code(last))),
                (after(6, 2, 8), DONE),
            ],
        );
        self.check_products();
    }

    // Tables of 3 and 6 states have no product, whichever comes first.
    fn check_products(&mut self) {
        self.check(
            ALL,
            &[
                (sum(1, 2, 7), DONE),
                (sum(7, 7, 8), DONE),
                (multiply(7, 8, 1), Err(Refusal::StatesOver)),
                (multiply(8, 7, 1), Err(Refusal::StatesOver)),
            ],
        );
    }

    /// An output that just suffices, with no work memory, and no shelf memory to clear.
    pub fn check_least(&mut self) {
        let least = Lent {
            output: 98,
            work: 0,
            ..ALL
        };
        let output = Lent {
            output: ALL.output,
            ..NOTHING
        };
        self.fill();
        self.check(least, &[(write(1), Ok(Answer::Count(98)))]);
        self.check(output, &[(clear(1), DONE)]);
    }
}
