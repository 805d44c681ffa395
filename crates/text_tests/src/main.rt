//! Runs the reader and the writer of the column text on texts whose verdicts are known, and prints the verdicts.
#![tactic(auto)]

mod cases;
mod numbers;
mod tally;

use cases::{large_changes, large_table, named_texts, prefixes, small_changes, start_lines};
use field::Field;
use numbers::{largest, refused_columns};
use residue::Fermat;
use rows::table::LARGEST;
use std::io;

fn main(rt: HostRuntime) -> io::Result<()> {
    let mut work = [Fermat::zero(); LARGEST];
    let mut text = [0u8; 19600];
    named_texts(rt, &mut work)?;
    start_lines(rt, &mut work)?;
    prefixes(rt, &mut work)?;
    small_changes(rt, &mut work)?;
    large_table(rt, &mut work, &mut text)?;
    large_changes(rt, &mut work, &mut text)?;
    largest(rt)?;
    refused_columns(rt)?;
    println!(rt; "end")
}
