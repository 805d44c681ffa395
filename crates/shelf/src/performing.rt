//! Calls given as values, made one after another.
ghost use Rattle.std.specs.Prelude.{◌≡◌, min, length, take, drop};
ghost use Rattle.book.specs.Calls.{call_of};
ghost use Rattle.book.specs.Doing.{Does};
ghost use Rattle.book.specs.Running.{CarriesOut, Run};
ghost use Rattle.book.specs.Law.{RunFollows, UsesFollowTheBook};
ghost use Rattle.book.specs.declared.outcome.Answer.TheVariants.{Done, Code, Told, Count};
ghost use Rattle.shelf.specs.Views.{state, outcome_by};

use crate::directory::Directory;
use book::call::{Call, Request};
use book::outcome::{Answer, Outcome};
use book::theorems::uses_follow_the_book;
use book::verdict::Verdict;
use field::Field;

impl Directory {
    /// Makes one call.
    pub fn make<F: Field>(
        &mut self,
        shelf: &mut [F],
        work: &mut [F],
        output: &mut [u8],
        verdict: &mut Verdict,
        call: &Call<&[u8]>,
    ) -> Outcome
        ensures does { Does F.field F.value
            (state self.old shelf.old (length work.old) output.old verdict.old)
            (call_of call.now) result
            (state self.new shelf.new (length work.new) output.new verdict.new) }
    {
        match *call {
            Call::Load { text, to } => self.load(shelf, work, text, to).map(|()| Answer::Done),
            Call::Sum { first, second, to } => self
                .sum(shelf, work, first, second, to)
                .map(|()| Answer::Done),
            Call::Scale { place, code, to } => self
                .scale(shelf, work, place, code, to)
                .map(|()| Answer::Done),
            Call::Multiply { first, second, to } => self
                .multiply(shelf, work, first, second, to)
                .map(|()| Answer::Done),
            Call::After { place, letter, to } => self
                .after(shelf, work, place, letter, to)
                .map(|()| Answer::Done),
            Call::Turn { place, to } => self.turn(shelf, work, place, to).map(|()| Answer::Done),
            Call::Reduce { place, to } => self
                .reduce(shelf, work, place, to)
                .map(|()| Answer::Done),
            Call::Weigh { place, word } => self.weigh(shelf, work, place, word).map(Answer::Code),
            Call::Compare { first, second } => self
                .compare(shelf, work, first, second, verdict)
                .map(|()| Answer::Told(*verdict)),
            Call::Write { place } => self.write(shelf, place, output).map(Answer::Count),
            Call::Clear { place } => self.clear(place).map(|()| Answer::Done),
        }
    }

    /// Makes a requested call, with as much of work memory and output as it is given.
    pub fn take_up<F: Field>(
        &mut self,
        shelf: &mut [F],
        work: &mut [F],
        output: &mut [u8],
        verdict: &mut Verdict,
        request: &Request<'_>,
    ) -> Outcome
        ensures carried_out { CarriesOut F.field F.value
            (state self.old shelf.old (length work.old) output.old verdict.old)
            request.now result
            (state self.new shelf.new (length work.new) output.new verdict.new) }
    {
        let elements = request.work.min(work.len());
        let bytes = request.output.min(output.len());
        self.make(
            shelf,
            &mut work[0..elements],
            &mut output[0..bytes],
            verdict,
            &request.call,
        )
    }

    /// Makes the requested calls one after another, as many as `outcomes` has room for, and returns how many. Each is given
    /// the front of the one work memory and output that are lent, and all write their verdicts into the one record.
    pub fn perform<F: Field>(
        &mut self,
        shelf: &mut [F],
        work: &mut [F],
        output: &mut [u8],
        verdict: &mut Verdict,
        requests: &[Request<'_>],
        outcomes: &mut [Outcome],
    ) -> usize
        ensures as_many_as_fit { result ≡ min (length requests.now) (length outcomes.old) }
        ensures runs { Run F.field F.value
            (state self.old shelf.old (length work.old) output.old verdict.old)
            (take result requests.now) (take result outcomes.new)
            (state self.new shelf.new (length work.new) output.new verdict.new) }
        ensures later_outcomes_kept { drop result outcomes.new ≡ drop result outcomes.old }
        ensures follows_from_open { RunFollows F.field F.value
            (state self.old shelf.old (length work.old) output.old verdict.old)
            (take result requests.now) (take result outcomes.new)
            (state self.new shelf.new (length work.new) output.new verdict.new) }
        ensures law { UsesFollowTheBook F.field F.value }
    {
        // The law that this function promises is this call's contract; it does nothing.
        uses_follow_the_book::<F>();
        let count = requests.len().min(outcomes.len());
        let asked = &requests[..count];
        // By index: of elements written through zip with iter_mut nothing is known after the loop.
        for (i, request) in asked.iter().enumerate() {
            outcomes[i] = self.take_up(shelf, work, output, verdict, request);
        }
        count
    }
}
