//! Performs a script, calls on a shelf with a line each, and prints their outcomes. Where the script has mistakes, they are
//! printed on standard error, and nothing is performed.
#![tactic(auto)]

use command::arguments::{Accepted, Options, name_or};
use command::error::Error;
use command::field_choice::FieldChoice;
use command::files::{TEXT_LIMIT, read_error, read_file, read_input, shown, write_error};
use command::program::Program;
use command::refused::{first_line, skip_lines};
use command::status::Status;
use scripting::mistake::{Mistake, Reason};
use scripting::performing::{Failure, run};
use scripting::reading::{Line, Script, read};
use scripting::verb::Verb;
use scripting::words::next_word;
use std::alloc::Global;
use std::io::Write;
use std::process::ExitCode;
use std::{fmt, io};

const HELP: &str = "usage: script [--field Q] [FILE]

Performs the calls of a script, one to a line, on a shelf of tables, and prints
the outcome of each. Reads the script from FILE (default: standard input, as
with -).

  --field Q      the field to begin with: 2, 256 or 65537 elements (default:
                 65537)
  -h, --help     prints this
  -V, --version  prints the version

Where lines of the script are wrong, they are printed on standard error, and
nothing is performed. docs/script.md describes the language.

Exit status: 0 if the script was performed, 1 if a line of it is wrong or a file
cannot be read, 2 if the command line is wrong.";

const SCRIPT: Program<'static> = Program {
    name: "script",
    usage: HELP,
    accepted: Accepted {
        files: 1,
        compares: false,
    },
};

// How many bytes of a script are read at most.
const SCRIPT_LIMIT: usize = 1 << 30;

// A file that a line loads and that cannot be read.
#[derive(Drop)]
struct Unreadable {
    line: usize,
    name: String,
    wrong: io::Error,
}

// Reads the file that a line loads. One that cannot be read leaves the line as it is, which makes it a mistake.
fn load_file(
    rt: &HostRuntime,
    line: &mut Line,
    unreadable: &mut Vec<Unreadable>,
) -> Result<(), Error> {
    let Some(name) = line.file() else {
        return Ok(());
    };
    match read_file(rt, name, TEXT_LIMIT) {
        Ok(text) => line.give(text),
        Err(wrong) => {
            let name = String::from_str(rt.alloc(), name)?;
            let line = line.number;
            unreadable.push(Unreadable { line, name, wrong })?;
        }
    }
    Ok(())
}

// How a call is written.
fn usage(verb: Verb) -> &'static str {
    match verb {
        Verb::Field => "field Q",
        Verb::Open => "open [M]",
        Verb::Lend => "lend W B",
        Verb::Text => "text NAME N",
        Verb::Load => "load NAME P",
        Verb::Sum => "sum P Q R",
        Verb::Scale => "scale P C R",
        Verb::Multiply => "multiply P Q R",
        Verb::After => "after P A R",
        Verb::Turn => "turn P R",
        Verb::Reduce => "reduce P R",
        Verb::Weigh => "weigh P [A B ..]",
        Verb::Compare => "compare P Q",
        Verb::Write => "write P",
        Verb::Clear => "clear P",
    }
}

// Bytes as text; other bytes than those of ASCII as question marks.
#[derive(Clone, Copy)]
struct Text<'a>(&'a [u8]);

impl fmt::Display for Text<'_> {
    fn fmt<W: fmt::Write>(&self, f: &mut fmt::Formatter<W>) -> fmt::Result {
        for b in self.0 {
            let shown = if b.is_ascii_graphic() { *b } else { b'?' };
            write!(f, "{}", char::from(shown))?;
        }
        Ok(())
    }
}

// A mistake, with the file of the script, the text of its line, and the file that the line loads, if that cannot be read.
#[derive(Clone, Copy)]
struct Shown<'a> {
    name: &'a str,
    text: &'a [u8],
    unreadable: Option<&'a Unreadable>,
    mistake: Mistake,
}

impl Shown<'_> {
    // What the line has to do with the reason.
    fn write_detail<W: fmt::Write>(&self, f: &mut fmt::Formatter<W>) -> fmt::Result {
        let Some((first, rest)) = next_word(self.text) else {
            return Ok(());
        };
        match self.mistake.reason {
            Reason::NoCall => write!(f, " \"{}\"", Text(first)),
            Reason::FieldNotOffered => {
                let (word, _) = next_word(rest).unwrap_or((&[], &[]));
                write!(f, " \"{}\", expected 2, 256 or 65537", Text(word))
            }
            Reason::WordMissing | Reason::WordExtra | Reason::NoNumber | Reason::NumberTooLarge => {
                match Verb::try_from(first) {
                    Ok(verb) => write!(f, ": {}", usage(verb)),
                    Err(_) => Ok(()),
                }
            }
            _ => Ok(()),
        }
    }
}

impl fmt::Display for Shown<'_> {
    fn fmt<W: fmt::Write>(&self, f: &mut fmt::Formatter<W>) -> fmt::Result {
        let Mistake { line, reason } = self.mistake;
        write!(f, "{}:{line}: ", self.name)?;
        if let Some(found) = self.unreadable {
            return write!(f, "cannot read {}: {}", found.name, found.wrong);
        }
        write!(f, "{reason}")?;
        self.write_detail(f)
    }
}

// Prints the mistakes of a script. They are in the order of their lines, and so are the files that cannot be read.
fn print_mistakes(
    rt: &HostRuntime,
    name: &str,
    script: &[u8],
    unreadable: &[Unreadable],
    mistakes: &[Mistake],
) {
    let mut rest = script;
    let mut passed = 1;
    let mut files = unreadable.iter().peekable();
    for mistake in mistakes {
        rest = skip_lines(rest, mistake.line.saturating_sub(passed));
        passed = mistake.line;
        let shown = Shown {
            name,
            text: first_line(rest),
            unreadable: files.next_if(|file| file.line == mistake.line),
            mistake: *mistake,
        };
        // The exit status shows the mistakes where standard error cannot be written.
        let _ = eprintln!(rt; "{}: {shown}", SCRIPT.name);
    }
}

// Reads a script and the files that it loads, and performs it over the field; or prints its mistakes.
fn work(rt: &HostRuntime, options: Options) -> Result<Status, Error> {
    let heap = rt.alloc();
    let name = name_or(options.files.as_slice(), 0, "-");
    let bytes = read_input(rt, name, SCRIPT_LIMIT).map_err(|e| read_error(heap, name, e))?;
    if bytes.len() == SCRIPT_LIMIT {
        return Err(Error::new(
            heap,
            format_args!("{}: the script is too long", shown(name)),
        ));
    }
    let mut script = read(heap, bytes.as_slice())?;
    let mut unreadable = Vec::new(heap);
    for line in script.lines.iter_mut() {
        load_file(rt, line, &mut unreadable)?;
    }
    match run(heap, options.field.unwrap_or(FieldChoice::Fermat), &script) {
        Ok(shown) => {
            let printed = rt.stdout().write_all(shown.as_slice());
            printed.map_err(|e| write_error(heap, "-", e))?;
            Ok(Status::Success)
        }
        Err(Failure::Mistaken(mistakes)) => {
            print_mistakes(
                rt,
                shown(name),
                bytes.as_slice(),
                unreadable.as_slice(),
                mistakes.as_slice(),
            );
            Ok(Status::Failure)
        }
        Err(Failure::NoMemory(e)) => Err(Error::Memory(e)),
    }
}

fn main(rt: HostRuntime) -> ExitCode {
    SCRIPT.main(&rt, |options| work(&rt, options))
}
