//! The command line.
ghost use Rattle.std.specs.Prelude.{◌≡◌, ◌≤◌, true, IfOk, MatchOption, slice_get, string_bytes, vec_len};
ghost use Rattle.command.specs.Arguments.{NamesAtMost, failure_of};

use crate::error::Error;
use crate::field_choice::FieldChoice;
use crate::status::Status;
use std::alloc::Global;
use std::env;
use std::env::Args;
use std::io::ErrorKind;

/// The options and files of a command line. The field is the one that is named, if one is; the files are those named, in
/// order.
#[derive(Drop)]
pub struct Options {
    pub field: Option<FieldChoice>,
    pub status: bool,
    pub quiet: bool,
    pub files: Vec<String>,
}

/// What a command line asks for.
#[derive(Drop)]
pub enum Arguments {
    Help,
    Version,
    Run(Options),
}

/// What a program accepts: at most so many files, and whether it compares. A program that compares takes `--status` and
/// `--quiet`, and two files or none.
#[derive(Clone, Copy)]
pub struct Accepted {
    pub files: usize,
    pub compares: bool,
}

// The field that the value of --field names.
fn field_named(heap: Global, value: &str) -> Result<FieldChoice, Error> {
    let number = value.parse::<u64>().ok();
    match number.and_then(|q| FieldChoice::try_from(q).ok()) {
        Some(field) => Ok(field),
        None => Err(Error::new(
            heap,
            format_args!("--field takes 2, 256 or 65537, found \"{value}\" (see --help)"),
        )),
    }
}

/// Reads the words of a command line, after the program's own name.
pub fn arguments_in(heap: Global, mut words: Args, accepted: Accepted) -> Result<Arguments, Error>
    ensures at_most { IfOk result (λ a. NamesAtMost accepted.files a) }
{
    let mut options = Options {
        field: None,
        status: false,
        quiet: false,
        files: Vec::new(heap),
    };
    let mut only_files = false;
    let _program = words.next();
    while let Some(word) = words.next() {
        let name = word.as_str();
        if only_files || name == "-" || !name.starts_with('-') {
            options.files.push(word)?;
            continue;
        }
        match name {
            "--" => only_files = true,
            "-h" | "--help" => return Ok(Arguments::Help),
            "-V" | "--version" => return Ok(Arguments::Version),
            "--status" if accepted.compares => options.status = true,
            "-q" | "--quiet" if accepted.compares => options.quiet = true,
            "--field" => {
                let Some(value) = words.next() else {
                    return Err(Error::new(heap, "--field takes 2, 256 or 65537 (see --help)"));
                };
                options.field = Some(field_named(heap, value.as_str())?);
            }
            option => match option.strip_prefix("--field=") {
                Some(value) => options.field = Some(field_named(heap, value)?),
                None => {
                    return Err(Error::new(
                        heap,
                        format_args!("unknown option {option} (see --help)"),
                    ));
                }
            },
        }
    }
    if options.files.len() > accepted.files {
        return Err(Error::new(heap, "too many arguments (see --help)"));
    }
    if accepted.compares && options.files.len() == 1 {
        return Err(Error::new(heap, "a second file is missing (see --help)"));
    }
    if accepted.compares
        && options
            .files
            .iter()
            .filter(|name| name.as_str() == "-")
            .count()
            > 1
    {
        return Err(Error::new(heap, "only one file can be - (see --help)"));
    }
    Ok(Arguments::Run(options))
}

/// Reads the command line that the program was given.
pub fn read_arguments(rt: &HostRuntime, accepted: Accepted) -> Result<Arguments, Error>
    ensures at_most { IfOk result (λ a. NamesAtMost accepted.files a) }
{
    let heap = rt.alloc();
    match env::args(rt) {
        Ok(words) => arguments_in(heap, words, accepted),
        Err(e) if e.kind() == ErrorKind::InvalidData => {
            Err(Error::new(heap, "an argument is not UTF-8"))
        }
        Err(e) => Err(Error::Io(e)),
    }
}

impl Arguments {
    /// How the program ends if its work fails: in trouble under `--status`, where failure means a difference.
    pub fn failure(&self) -> Status
        ensures by_status { result ≡ failure_of self.now }
    {
        match self {
            Arguments::Run(options) if options.status => Status::Trouble,
            _ => Status::Failure,
        }
    }
}

/// The file named at a position, from 0, or else the name that stands in for it.
pub fn name_or<'a>(files: &'a [String], i: usize, other: &'a str) -> &'a str
    ensures named { MatchOption (slice_get files.now i) (result.now ≡ other.now) (λ name. result.now ≡ string_bytes name) }
{
    files.get(i).map_or(other, |name| name.as_str())
}

#[cfg(test)]
mod tests {
    use super::*;
    use std::alloc::AllocError;

    // A command line of these words.
    fn line(heap: Global, words: &[&str]) -> Result<Args, AllocError> {
        let mut all = Vec::new(heap);
        for word in words {
            all.push(String::from_str(heap, word)?)?;
        }
        Ok(all.into_iter())
    }

    // The message about a wrong command line.
    fn message(heap: Global, words: &[&str], accepted: Accepted) -> Result<String, Error> {
        match arguments_in(heap, line(heap, words)?, accepted) {
            Ok(_) => Ok(String::from_str(heap, "no error")?),
            Err(e) => Ok(e.to_string(heap)?),
        }
    }

    const PACK: Accepted = Accepted {
        files: 2,
        compares: false,
    };

    const VERDICT: Accepted = Accepted {
        files: 2,
        compares: true,
    };

    #[test]
    fn reads_a_field_and_files(rt: HostRuntime) -> Result<(), Error> {
        let heap = rt.alloc();
        let lines: [(&[&str], FieldChoice); 3] = [
            (&["pack", "a.table", "--field", "2", "-"], FieldChoice::Bits),
            (
                &["pack", "--field=256", "a.table", "--", "-"],
                FieldChoice::Bytes,
            ),
            (
                &[
                    "pack",
                    "--field=2",
                    "--field",
                    "65537",
                    "--",
                    "a.table",
                    "-",
                ],
                FieldChoice::Fermat,
            ),
        ];
        for (words, chosen) in lines {
            match arguments_in(heap, line(heap, words)?, PACK)? {
                Arguments::Run(options) => {
                    let files = options.files.as_slice();
                    assert_eq!(rt; options.field, Some(chosen));
                    assert!(rt; !options.status && !options.quiet);
                    assert_eq!(rt; name_or(files, 0, "table"), "a.table");
                    assert_eq!(rt; name_or(files, 1, "table"), "-");
                    assert_eq!(rt; name_or(files, 2, "table"), "table");
                }
                _ => assert!(rt; false, "nothing to run"),
            }
        }
        Ok(())
    }

    #[test]
    fn reads_switches_and_words_after_dashes(rt: HostRuntime) -> Result<(), Error> {
        let heap = rt.alloc();
        let words = line(heap, &["verdict", "--status", "-q", "--", "--help", "-b"])?;
        let arguments = arguments_in(heap, words, VERDICT)?;
        assert_eq!(rt; arguments.failure(), Status::Trouble);
        match arguments {
            Arguments::Run(options) => {
                let files = options.files.as_slice();
                assert!(rt; options.status && options.quiet);
                assert_eq!(rt; options.field, None);
                assert_eq!(rt; name_or(files, 0, "first"), "--help");
                assert_eq!(rt; name_or(files, 1, "second"), "-b");
            }
            _ => assert!(rt; false, "nothing to run"),
        }
        Ok(())
    }

    #[test]
    fn reports_a_wrong_line(rt: HostRuntime) -> Result<(), Error> {
        let heap = rt.alloc();
        let wrong: [(&[&str], &str); 8] = [
            (
                &["pack", "--field", "--field"],
                "--field takes 2, 256 or 65537, found \"--field\" (see --help)",
            ),
            (
                &["pack", "--field=3"],
                "--field takes 2, 256 or 65537, found \"3\" (see --help)",
            ),
            (
                &["pack", "--field="],
                "--field takes 2, 256 or 65537, found \"\" (see --help)",
            ),
            (
                &["pack", "a", "--field"],
                "--field takes 2, 256 or 65537 (see --help)",
            ),
            (&["pack", "a", "-b"], "unknown option -b (see --help)"),
            (
                &["pack", "--fields=2"],
                "unknown option --fields=2 (see --help)",
            ),
            (
                &["pack", "--status"],
                "unknown option --status (see --help)",
            ),
            (&["pack", "a", "b", "c"], "too many arguments (see --help)"),
        ];
        for (words, why) in wrong {
            assert_eq!(rt; message(heap, words, PACK)?.as_str(), why);
        }
        Ok(())
    }

    #[test]
    fn asks_a_program_that_compares_for_two_files(rt: HostRuntime) -> Result<(), Error> {
        let heap = rt.alloc();
        let wrong: [(&[&str], &str); 2] = [
            (&["verdict", "a"], "a second file is missing (see --help)"),
            (
                &["verdict", "-", "-"],
                "only one file can be - (see --help)",
            ),
        ];
        for (words, why) in wrong {
            assert_eq!(rt; message(heap, words, VERDICT)?.as_str(), why);
        }
        Ok(())
    }

    #[test]
    fn reads_help_and_version(rt: HostRuntime) -> Result<(), Error> {
        let heap = rt.alloc();
        for word in ["-h", "--help"] {
            let help = arguments_in(heap, line(heap, &["pack", "a", word, "-b"])?, PACK)?;
            assert!(rt; matches!(help, Arguments::Help));
        }
        for word in ["-V", "--version"] {
            let version = arguments_in(heap, line(heap, &["pack", word])?, PACK)?;
            assert!(rt; matches!(version, Arguments::Version));
        }
        Ok(())
    }
}
