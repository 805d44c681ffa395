//! Texts and their verdicts.
ghost use Rattle.std.specs.Prelude.{◌<◌, length};

use super::tally::{Tally, Verdict};
use field::Field;
use residue::Fermat;
use rows::table::{LARGEST, Shape, TableRef};
use std::io;
use writer::{LONGEST, text_size, write_table};

// One state and one letter over GF(65537).
const SMALL: [u8; 98] =
    *b"T          1          1      65537\nS          1\nM          1          1      65536\nE          0\nZ\n";

/// Prints a verdict.
fn show(rt: HostRuntime, name: &str, text: &[u8], work: &mut [Fermat; LARGEST]) -> io::Result<()> {
    println!(rt; "{name}: {}", Verdict::on(text, work))
}

/// Each refusal at its first and at its last possible position in a text of one state.
pub fn named_texts(rt: HostRuntime, work: &mut [Fermat; LARGEST]) -> io::Result<()> {
    show(rt, "10 first", b"", work)?;
    show(
        rt,
        "10 last",
        b"T          1          1      65537\nS          1\nM          1          1      65536\nE          0\nZ",
        work,
    )?;
    show(rt, "11 first", b"S", work)?;
    show(
        rt,
        "11 last",
        b"T          1          1      65537\nS          1\nM          1          1      65536\nE          0\nE\n",
        work,
    )?;
    show(rt, "12 first", b"T1", work)?;
    show(
        rt,
        "12 last",
        b"T          1          1      65537\nS          1\nM          1          1      65536\nE           \nZ\n",
        work,
    )?;
    show(rt, "13 first", b"T         17", work)?;
    show(
        rt,
        "13 last",
        b"T          1          1      65537\nS          1\nM          1          1      65536\nE      65537",
        work,
    )?;
    show(rt, "14 first", b"T          1          1      65537 ", work)?;
    show(
        rt,
        "14 last",
        b"T          1          1      65537\nS          1\nM          1          1      65536\nE          0\nZ ",
        work,
    )?;
    show(
        rt,
        "15",
        b"T          1          1      65537\nS          1\nM          1          1      65536\nE          0\nZ\n\n",
        work,
    )
}

/// The text of one state with these columns in its start line.
fn started(columns: &[u8; 11]) -> [u8; 98] {
    let mut text = SMALL;
    text[36..47].copy_from_slice(columns);
    text
}

/// The largest code and the number after it in a start line, and a number that begins with 0.
pub fn start_lines(rt: HostRuntime, work: &mut [Fermat; LARGEST]) -> io::Result<()> {
    show(rt, "65536 at start", &started(b"      65536"), work)?;
    show(rt, "65537 at start", &started(b"      65537"), work)?;
    show(rt, "01 at start", &started(b"         01"), work)
}

/// Every front of the text of one state.
pub fn prefixes(rt: HostRuntime, work: &mut [Fermat; LARGEST]) -> io::Result<()> {
    let mut tally = Tally::new();
    // lengths, since no iterator gives the fronts of a slice
    for length in 0..SMALL.len() {
        tally.add(Verdict::on(&SMALL[..length], work));
    }
    println!(rt; "fronts: {tally}")
}

/// Each byte from `first` to `last` in the place of the one at `i`, which is put back.
fn changed(
    text: &mut [u8],
    i: usize,
    first: u8,
    last: u8,
    work: &mut [Fermat; LARGEST],
    tally: &mut Tally,
)
    requires within { i < length text.old }
{
    let was = text[i];
    for b in first..=last {
        text[i] = b;
        tally.add(Verdict::on(text, work));
    }
    text[i] = was;
}

/// Each byte from `first` to `last` in the place of each byte of the text.
fn every_change(text: &mut [u8], first: u8, last: u8, work: &mut [Fermat; LARGEST]) -> Tally {
    let mut tally = Tally::new();
    // an index, since the whole text is read while one of its bytes is changed
    for i in 0..text.len() {
        changed(text, i, first, last, work, &mut tally);
    }
    tally
}

/// Every change of one byte of the text of one state.
pub fn small_changes(rt: HostRuntime, work: &mut [Fermat; LARGEST]) -> io::Result<()> {
    let mut text = SMALL;
    let tally = every_change(&mut text, 0, 255, work);
    println!(rt; "changes: {tally}")
}

/// Gives the element at i the code (first + i * step) mod 65537.
fn fill(work: &mut [Fermat], first: u64, step: u64) {
    let mut code = first % 65537;
    for x in work.iter_mut() {
        *x = Fermat::from_code(code).unwrap_or(Fermat::zero());
        code = (code.wrapping_add(step)) % 65537;
    }
}

/// The bytes mixed into one number.
fn mixed(text: &[u8]) -> u64 {
    let mut all: u64 = 1;
    for b in text {
        all = all
            .wrapping_mul(6364136223846793005)
            .wrapping_add(u64::from(*b));
    }
    all
}

/// Prints the text of the table: its length, its bytes mixed and the byte after it.
fn show_text(
    rt: HostRuntime,
    name: &str,
    table: TableRef<'_, Fermat>,
    text: &mut [u8; 19600],
) -> io::Result<()> {
    let size = text_size(table.shape());
    let count = write_table(table, text);
    let sum = mixed(&text[..size]);
    let next = text[size];
    println!(rt; "{name}: {count} {sum} {next}")
}

/// Tables of no states and of the most states and letters, written, read and written again.
pub fn large_table(
    rt: HostRuntime,
    work: &mut [Fermat; LARGEST],
    text: &mut [u8; 19600],
) -> io::Result<()> {
    text.fill(b'#');
    fill(work, 3, 40503);
    let shape = Shape {
        states: 0,
        letters: 6,
    };
    show_text(rt, "no states", TableRef::new(work, shape), text)?;
    show(rt, "no states read", &text[..41], work)?;
    let shape = Shape {
        states: 16,
        letters: 6,
    };
    show_text(rt, "most states", TableRef::new(work, shape), text)?;
    fill(work, 0, 0);
    show(rt, "most states read", &text[..LONGEST], work)?;
    show_text(rt, "most states again", TableRef::new(work, shape), text)
}

/// An x in the place of each byte of the text of the most states and letters that stands in `text`.
pub fn large_changes(
    rt: HostRuntime,
    work: &mut [Fermat; LARGEST],
    text: &mut [u8; 19600],
) -> io::Result<()> {
    let tally = every_change(&mut text[..LONGEST], b'x', b'x', work);
    println!(rt; "most states crossed: {tally}")
}
