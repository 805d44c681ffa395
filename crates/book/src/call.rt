//! The calls on a shelf.
ghost use Rattle.std.specs.Prelude.{◌≡◌};
ghost use Rattle.book.specs.Calls.{call_of, call_by};

use std::convert::AsSlice;

/// A call with its arguments, a text and a word held in `B`. The result place is named last.
#[derive(Clone, Copy, Drop)]
pub enum Call<B> {
    Load {
        text: B,
        to: usize,
    },
    Sum {
        first: usize,
        second: usize,
        to: usize,
    },
    Scale {
        place: usize,
        code: u64,
        to: usize,
    },
    Multiply {
        first: usize,
        second: usize,
        to: usize,
    },
    After {
        place: usize,
        letter: u8,
        to: usize,
    },
    Turn {
        place: usize,
        to: usize,
    },
    Reduce {
        place: usize,
        to: usize,
    },
    Weigh {
        place: usize,
        word: B,
    },
    Compare {
        first: usize,
        second: usize,
    },
    Write {
        place: usize,
    },
    Clear {
        place: usize,
    },
}

impl<B: AsSlice<u8>> Call<B> {
    /// The same call, with its text or word lent.
    pub fn borrowed(&self) -> Call<&[u8]>
        ensures same_call { call_of result ≡ call_by B.items self.now }
    {
        match self {
            Call::Load { text, to } => Call::Load {
                text: text.as_slice(),
                to: *to,
            },
            &Call::Sum { first, second, to } => Call::Sum { first, second, to },
            &Call::Scale { place, code, to } => Call::Scale { place, code, to },
            &Call::Multiply { first, second, to } => Call::Multiply { first, second, to },
            &Call::After { place, letter, to } => Call::After { place, letter, to },
            &Call::Turn { place, to } => Call::Turn { place, to },
            &Call::Reduce { place, to } => Call::Reduce { place, to },
            Call::Weigh { place, word } => Call::Weigh {
                place: *place,
                word: word.as_slice(),
            },
            &Call::Compare { first, second } => Call::Compare { first, second },
            &Call::Write { place } => Call::Write { place },
            &Call::Clear { place } => Call::Clear { place },
        }
    }
}

/// A call in a list, and how much it is given of the work memory and the output that are lent to the list: so many
/// elements and so many bytes from the front, or all where there are no more.
#[derive(Clone, Copy)]
pub struct Request<'a> {
    pub call: Call<&'a [u8]>,
    pub work: usize,
    pub output: usize,
}
