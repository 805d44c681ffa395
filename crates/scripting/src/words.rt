//! Lines and words, bytes between newlines and between spaces, and the numbers that words write.
ghost use Rattle.std.specs.Prelude.{◌≡◌, ◌==◌, ◌<◌, ◌≤◌, ◌^◌, length, count_by, Decides, IfSome, MatchOption, MatchResult};
ghost use Rattle.scripting.specs.Splitting.{First, Begins, Blank, NextWord};
ghost use Rattle.scripting.specs.Numerals.{Numeral, Writes, Numbers};
ghost use Rattle.scripting.specs.Refusing.{WrongNumber, NoWord, NoEnd, NoNumbers, NoLetters};

use crate::mistake::Reason;
use std::alloc::Global;
use std::str;

/// How many bytes come before the first that equals `stop`, or before the end.
pub fn before(bytes: &[u8], stop: u8) -> usize
    ensures first { First stop bytes.now result }
{
    let found = bytes.iter().position(|b| *b == stop);
    found.unwrap_or(bytes.len())
}

/// How many spaces come first.
fn spaces(bytes: &[u8]) -> usize
    ensures begins { Begins 32 bytes.now result }
{
    let found = bytes.iter().position(|b| *b != b' ');
    found.unwrap_or(bytes.len())
}

/// The first word of a line and what follows it, or nothing where there are only spaces.
pub fn next_word(line: &[u8]) -> Option<(&[u8], &[u8])>
    ensures word { MatchOption result (Blank line.now) (λ x. NextWord line.now x.0.now x.1.now) }
    ensures shorter { IfSome result (λ x. length x.1.now < length line.now) }
{
    let (_, rest) = line.split_at(spaces(line));
    if rest.is_empty() {
        return None;
    }
    Some(rest.split_at(before(rest, b' ')))
}

/// How many newlines a text has.
pub fn newlines(bytes: &[u8]) -> usize
    ensures counted { result ≡ count_by (λ b. b == 10) bytes.now }
    ensures at_most { result ≤ length bytes.now }
{
    bytes.iter().filter(|b| **b == b'\n').count()
}

/// The first word, which has to be there, and what follows it.
pub fn word(line: &[u8]) -> Result<(&[u8], &[u8]), Reason>
    ensures found { MatchResult result (λ x. NextWord line.now x.0.now x.1.now) (λ r. NoWord line.now r) }
{
    next_word(line).ok_or(Reason::WordMissing)
}

// Whether nothing but spaces is left.
fn end(line: &[u8]) -> Result<(), Reason>
    ensures nothing_left { MatchResult result (λ _. Blank line.now) (λ r. NoEnd line.now r) }
{
    match next_word(line) {
        Some(_) => Err(Reason::WordExtra),
        None => Ok(()),
    }
}

// Whether each byte is a digit, and there is one.
fn is_numeral(word: &[u8]) -> bool
    ensures decides { Decides result (Numeral word.now) }
{
    !word.is_empty() && word.iter().all(|b| b.is_ascii_digit())
}

/// The number below 2^64 that a word writes. A numeral has no sign, which std would read.
pub fn number(word: &[u8]) -> Result<u64, Reason>
    ensures written { MatchResult result (λ n. Writes word.now n) (λ r. WrongNumber (2 ^ 64) word.now r) }
{
    match str::from_utf8(word) {
        Ok(digits) if is_numeral(word) => match digits.parse::<u64>() {
            Ok(n) => Ok(n),
            Err(_) => Err(Reason::NumberTooLarge),
        },
        _ => Err(Reason::NoNumber),
    }
}

/// The same as a size.
pub fn size(word: &[u8]) -> Result<usize, Reason>
    ensures written { MatchResult result (λ n. Writes word.now n) (λ r. WrongNumber (2 ^ 64) word.now r) }
{
    Ok(usize::try_from(number(word)?)?)
}

// The number below 256 that a word writes.
fn letter(word: &[u8]) -> Result<u8, Reason>
    ensures written { MatchResult result (λ n. Writes word.now n) (λ r. WrongNumber 256 word.now r) }
{
    Ok(u8::try_from(number(word)?)?)
}

/// The N numbers that the line is, and no more.
pub fn numbers<const N: usize>(line: &[u8]) -> Result<[usize; N], Reason>
    ensures read { MatchResult result (λ ns. Numbers line.now ns) (λ r. NoNumbers N line.now r) }
{
    let mut all = [0; N];
    let mut rest = line;
    for n in all.iter_mut() {
        let (first, after) = word(rest)?;
        *n = size(first)?;
        rest = after;
    }
    end(rest)?;
    Ok(all)
}

/// The letters that the line is.
pub fn letters(heap: Global, line: &[u8]) -> Result<Vec<u8>, Reason>
    ensures read { MatchResult result (λ v. Numbers line.now v.items) (λ r. NoLetters line.now r) }
{
    let mut all = Vec::new(heap);
    let mut rest = line;
    while let Some((first, after)) = next_word(rest) {
        all.push(letter(first)?)?;
        rest = after;
    }
    Ok(all)
}
