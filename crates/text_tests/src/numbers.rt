//! The columns of single numbers.
use columns::column::{put_number, read_number};
use faults::Position;
use std::io;

/// Prints the number in the columns, or the position of the first byte that cannot stand in its column.
fn show(rt: HostRuntime, bytes: &[u8; 11]) -> io::Result<()> {
    let start = Position {
        line: 7,
        column: 13,
    };
    match read_number(bytes, start) {
        Ok(value) => println!(rt; "number {value}"),
        Err(fault) => {
            let (line, column) = fault.position();
            println!(rt; "column {line} {column}")
        }
    }
}

/// The largest number that columns can hold, and the smallest, written and read.
pub fn largest(rt: HostRuntime) -> io::Result<()> {
    let mut bytes = [0u8; 11];
    put_number(&mut bytes, 9999999999);
    show(rt, &bytes)?;
    put_number(&mut bytes, 0);
    show(rt, &bytes)?;
    put_number(&mut bytes, 1000000000);
    show(rt, &bytes)
}

/// Columns that hold no number, each for another reason.
pub fn refused_columns(rt: HostRuntime) -> io::Result<()> {
    show(rt, b"00000000000")?;
    show(rt, b"12345678901")?;
    show(rt, b"         01")?;
    show(rt, b"         1 ")?;
    show(rt, b"           ")?;
    show(rt, b" 9999999999")?;
    show(rt, b"          x")?;
    show(rt, b"\n         1")
}
