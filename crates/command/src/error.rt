//! Why a program cannot go on.
use std::alloc::{AllocError, AllocFailed, Global};
use std::error::Error as StdError;
use std::{fmt, io};

/// Why a program cannot go on: a message, or an error of input, output or memory.
// It keeps the whole message: a file's name may be longer than the 120 bytes that `anyhow::Error` keeps.
#[derive(Debug, Drop)]
pub enum Error {
    Message(String),
    Io(io::Error),
    Memory(AllocError),
}

impl Error {
    /// An error with a message.
    pub fn new<D: fmt::Display + Drop>(heap: Global, message: D) -> Error {
        match format!(in heap; "{message}") {
            Ok(text) => Error::Message(text),
            Err(e) => Error::Memory(e),
        }
    }
}

impl From<io::Error> for Error {
    fn from(e: io::Error) -> Error {
        Error::Io(e)
    }
}

impl From<AllocError> for Error {
    fn from(e: AllocError) -> Error {
        Error::Memory(e)
    }
}

impl<T: Drop> From<AllocFailed<T>> for Error {
    fn from(e: AllocFailed<T>) -> Error {
        Error::Memory(AllocError::from(e))
    }
}

impl fmt::Display for Error {
    fn fmt<W: fmt::Write>(&self, f: &mut fmt::Formatter<W>) -> fmt::Result {
        match self {
            Error::Message(text) => f.write_str(text.as_str()),
            Error::Io(e) => write!(f, "{e}"),
            Error::Memory(_) => f.write_str("out of memory"),
        }
    }
}

impl StdError for Error {}
