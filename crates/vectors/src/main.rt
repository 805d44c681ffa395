//! Performs the script in the file `script.txt`, then reports on the pairs of texts in the file `pairs.bin`, and prints the
//! results. The expected output was computed by the independent program in the folder `tests`.
#![tactic(auto)]

ghost use Rattle.std.specs.Prelude.{◌<◌, length, IfOk, IfSome};

use anyhow::Context;
use report::{LONGEST, report};
use scripting::performing::run_script;
use scripting::words::{before, number};
use std::fs;
use std::io::Write;

// The text in the first block of a stream, and what follows the block. A block is a line with a number of bytes, so many
// bytes, and a newline.
fn block(stream: &[u8]) -> Option<(&[u8], &[u8])>
    ensures shorter { IfSome result (λ x. length x.1.now < length stream.now) }
{
    let (digits, rest) = stream.split_at(before(stream, b'\n'));
    let (_, rest) = rest.split_first()?;
    let size = usize::try_from(number(digits).ok()?).ok()?;
    let (text, rest) = rest.split_at_checked(size)?;
    let (_, rest) = rest.split_first()?;
    Some((text, rest))
}

// Reports on the first pair of a stream, and returns what follows it.
fn report_pair<'a>(rt: &HostRuntime, stream: &'a [u8]) -> anyhow::Result<&'a [u8]>
    ensures shorter { IfOk result (λ rest. length rest.now < length stream.now) }
{
    let (first, rest) = block(stream).context("a text is missing")?;
    let (second, rest) = block(rest).context("a text is missing")?;
    let mut line = [0; LONGEST];
    let count = report(first, second, &mut line);
    rt.stdout().write_all(&line[..count])?;
    Ok(rest)
}

fn main(rt: HostRuntime) -> anyhow::Result<()> {
    let script = fs::read(&rt, "script.txt")?;
    let shown = run_script(rt.alloc(), script.as_slice())?;
    rt.stdout().write_all(shown.as_slice())?;
    let pairs = fs::read(&rt, "pairs.bin")?;
    let mut rest = pairs.as_slice();
    while !rest.is_empty() {
        rest = report_pair(&rt, rest)?;
    }
    Ok(())
}
