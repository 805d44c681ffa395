//! A whole script, read line by line.
ghost use Rattle.std.specs.Prelude.{◌≡◌, ◌<◌, ◌≤◌, ◌++◌, length, take, IfOk, OnOk, OnErr, Err, MatchResult};
ghost use Rattle.std.specs.Option.{option_map};
ghost use Rattle.scripting.specs.Splitting.{First, Later, Block};
ghost use Rattle.scripting.specs.Reading.{ReadAs, FirstLine, GoesOn, Loads, Comes, Fails, NoBlock, NoLoad, texts_in, entered};
ghost use Rattle.scripting.specs.Mistakes.{mistakes_of, file_in, given_text};

use crate::mistake::{Mistake, Reason};
use crate::order::{Order, Said, read_line};
use crate::words::{before, newlines};
use book::call::Call;
use std::alloc::{AllocError, Global};
use std::collections::BTreeMap;
use std::str;

/// What stands in a line: what is to be performed, a load from a file that is yet to be read, or a mistake.
#[derive(Drop)]
pub enum Entry {
    Order(Order),
    File { name: String, to: usize },
    Mistaken(Reason),
}

/// A line of a script that says something, by its number from 1.
#[derive(Drop)]
pub struct Line {
    pub number: usize,
    pub entry: Entry,
}

/// The lines of a script that say something, in their order.
#[derive(Drop)]
pub struct Script {
    pub lines: Vec<Line>,
}

// The texts of a script by their names; of one name the text that was given last.
type Texts<'a> = BTreeMap<&'a [u8], &'a [u8]>;

// The load of a text by its name: one that was given, else a file.
fn load<'a>(heap: Global, texts: &Texts<'a>, name: &'a [u8], to: usize) -> Result<Entry, Reason>
    ensures loads { MatchResult result (λ e. Loads (texts_in texts.now name.now) name.now to e) (λ r. NoLoad (texts_in texts.now name.now) name.now r) }
{
    if let Some(bytes) = texts.get(&name) {
        let text = bytes.to_vec(heap)?;
        return Ok(Entry::Order(Order::Call(Call::Load { text, to })));
    }
    let name = str::from_utf8(name).map_err(|_| Reason::FileUnreadable)?;
    let name = String::from_str(heap, name)?;
    Ok(Entry::File { name, to })
}

// The first line, and what follows its newline.
fn split_line(bytes: &[u8]) -> (&[u8], &[u8])
    ensures first { First 10 bytes.now (length result.0.now) }
    ensures line { result.0.now ≡ take (length result.0.now) bytes.now }
    ensures later { Later bytes.now result.1.now }
    ensures first_line { 0 < length bytes.now → FirstLine bytes.now result.0.now result.1.now }
    ensures shorter { 0 < length bytes.now → length result.1.now < length bytes.now }
{
    let (line, rest) = bytes.split_at(before(bytes, b'\n'));
    (line, rest.get(1..).unwrap_or(&[]))
}

// So many bytes that a newline or the end follows.
fn block(bytes: &[u8], size: usize) -> Result<&[u8], Reason>
    ensures block { MatchResult result (λ t. Block bytes.now size t.now) (λ r. NoBlock bytes.now size r) }
{
    let (text, rest) = bytes.split_at_checked(size).ok_or(Reason::TextCutShort)?;
    match rest {
        [] | [b'\n', ..] => Ok(text),
        _ => Err(Reason::TextNotEnded),
    }
}

// The entry of what a line says, if it is one; a text is kept for later lines.
fn entry_of<'a>(
    heap: Global,
    texts: &mut Texts<'a>,
    said: Result<Option<Said<'a>>, Reason>,
    after: &'a [u8],
) -> Result<Option<Entry>, Reason>
    ensures comes { MatchResult said.entry (λ s. MatchResult result (λ e. Comes (texts_in texts.old) after.now s (texts_in texts.new) e) (λ r. Fails (texts_in texts.old) after.now s r)) (λ r. result ≡ Err r) }
    ensures kept { OnErr result (texts_in texts.new ≡ texts_in texts.old) }
{
    match said? {
        None => Ok(None),
        Some(Said::Text { name, size }) => {
            texts.insert(name, block(after, size)?)?;
            Ok(None)
        }
        Some(Said::Load { name, to }) => Ok(Some(load(heap, texts, name, to)?)),
        Some(Said::Order(order)) => Ok(Some(Entry::Order(order))),
    }
}

// Where reading goes on: behind the bytes of a text and the rest of the line that they end in, else right after the line.
fn behind<'a>(said: &Result<Option<Said<'_>>, Reason>, after: &'a [u8]) -> &'a [u8]
    ensures goes_on { MatchResult said.now (λ s. GoesOn s after.now result.now) (λ _. result.now ≡ after.now) }
    ensures within { length result.now ≤ length after.now }
{
    match said {
        Ok(Some(Said::Text { size, .. })) => split_line(after.get(*size..).unwrap_or(&[])).1,
        _ => after,
    }
}

// Adds the line of that number, if it has an entry; a reason, as a mistake.
fn enter(
    lines: &mut Vec<Line>,
    number: usize,
    entry: Result<Option<Entry>, Reason>,
) -> Result<(), AllocError>
    ensures entered { OnOk result (lines.new.items ≡ lines.old.items ++ entered number entry) }
{
    match entry {
        Ok(None) => {}
        Ok(Some(entry)) => lines.push(Line { number, entry })?,
        Err(reason) => {
            let entry = Entry::Mistaken(reason);
            lines.push(Line { number, entry })?
        }
    }
    Ok(())
}

/// Reads a script: its lines by their numbers, each load with the text that was given last under its name.
pub fn read(heap: Global, script: &[u8]) -> Result<Script, AllocError>
    ensures read { IfOk result (λ s. ReadAs script.now s.lines.items) }
{
    let mut lines = Vec::new(heap);
    let mut texts = BTreeMap::new(heap);
    let mut rest = script;
    let mut number: usize = 1;
    while !rest.is_empty() {
        let (line, after) = split_line(rest);
        let said = read_line(heap, line);
        let next = behind(&said, after);
        let entry = entry_of(heap, &mut texts, said, after);
        enter(&mut lines, number, entry)?;
        let (passed, _) = rest.split_at(rest.len() - next.len());
        number += newlines(passed);
        rest = next;
    }
    Ok(Script { lines })
}

impl Script {
    /// The mistakes, in the order of their lines. A load from a file that was not given is one.
    pub fn mistakes(&self, heap: Global) -> Result<Vec<Mistake>, AllocError>
        ensures told { IfOk result (λ v. v.items ≡ mistakes_of self.now.lines.items) }
    {
        let mut all = Vec::new(heap);
        for line in self.lines.iter() {
            match &line.entry {
                Entry::Order(_) => {}
                Entry::File { .. } => all.push(Mistake {
                    line: line.number,
                    reason: Reason::FileUnreadable,
                })?,
                Entry::Mistaken(reason) => all.push(Mistake {
                    line: line.number,
                    reason: *reason,
                })?,
            }
        }
        Ok(all)
    }
}

impl Line {
    /// The name of the file that the line loads, while it was not given.
    pub fn file(&self) -> Option<&str>
        ensures named { option_map (λ x. x.now) result ≡ file_in self.now.entry }
    {
        match &self.entry {
            Entry::File { name, .. } => Some(name.as_str()),
            _ => None,
        }
    }

    /// Gives the text of the file that the line loads.
    pub fn give(&mut self, text: Vec<u8>)
        ensures given { self.new.entry ≡ given_text text self.old.entry }
        ensures same_line { self.new.number ≡ self.old.number }
    {
        if let Entry::File { to, .. } = &self.entry {
            let to = *to;
            self.entry = Entry::Order(Order::Call(Call::Load { text, to }));
        }
    }
}
