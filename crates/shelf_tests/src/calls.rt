//! The calls in short: each function takes the arguments of its call in their order, the result place last.
use book::call::{Call, Request};
use shelf::memory::WORK;
use writer::LONGEST;

pub fn load(text: &[u8], to: usize) -> Call<&[u8]> {
    Call::Load { text, to }
}

pub fn sum<'a>(first: usize, second: usize, to: usize) -> Call<&'a [u8]> {
    Call::Sum { first, second, to }
}

pub fn scale<'a>(place: usize, code: u64, to: usize) -> Call<&'a [u8]> {
    Call::Scale { place, code, to }
}

pub fn multiply<'a>(first: usize, second: usize, to: usize) -> Call<&'a [u8]> {
    Call::Multiply { first, second, to }
}

pub fn after<'a>(place: usize, letter: u8, to: usize) -> Call<&'a [u8]> {
    Call::After { place, letter, to }
}

pub fn turn<'a>(place: usize, to: usize) -> Call<&'a [u8]> {
    Call::Turn { place, to }
}

pub fn reduce<'a>(place: usize, to: usize) -> Call<&'a [u8]> {
    Call::Reduce { place, to }
}

pub fn weigh(place: usize, word: &[u8]) -> Call<&[u8]> {
    Call::Weigh { place, word }
}

pub fn compare<'a>(first: usize, second: usize) -> Call<&'a [u8]> {
    Call::Compare { first, second }
}

pub fn write<'a>(place: usize) -> Call<&'a [u8]> {
    Call::Write { place }
}

pub fn clear<'a>(place: usize) -> Call<&'a [u8]> {
    Call::Clear { place }
}

/// A call with all the memory that it can ask for.
pub fn ask(call: Call<&[u8]>) -> Request<'_> {
    Request {
        call,
        work: WORK,
        output: LONGEST,
    }
}
