//! Files, read up to a bound and written whole or not at all.
ghost use Rattle.std.specs.Prelude.{◌≤◌, IfOk, vec_len};

use crate::error::Error;
use std::alloc::{AllocError, Global};
use std::fs::{File, OpenFile, OpenOptions, Permissions};
use std::io::{ErrorKind, Read, Write};
use std::{fs, io};
use writer::LONGEST;

/// How many bytes of a table's file the programs read: one more than the longest text has, so that the reader sees and
/// refuses what is too long.
pub const TEXT_LIMIT: usize = 19594;

const _: () = prove!(TEXT_LIMIT == LONGEST + 1);

/// The name of a file that is read, as messages have it.
pub fn shown(name: &str) -> &str {
    if name == "-" { "<stdin>" } else { name }
}

/// The error where a file cannot be read.
pub fn read_error(heap: Global, name: &str, wrong: io::Error) -> Error {
    Error::new(heap, format_args!("{}: {wrong}", shown(name)))
}

/// The error where a file cannot be written.
pub fn write_error(heap: Global, name: &str, wrong: io::Error) -> Error {
    let name = if name == "-" { "<stdout>" } else { name };
    Error::new(heap, format_args!("{name}: {wrong}"))
}

// What a stream holds, up to so many bytes.
fn read_up_to<R: Read + Drop>(heap: Global, stream: R, limit: usize) -> io::Result<Vec<u8>>
    ensures within { IfOk result (λ v. vec_len v ≤ limit) }
{
    let mut bytes = Vec::new(heap);
    // `as`: std has no From from usize to u64.
    stream.take(limit as u64).read_to_end(&mut bytes)?;
    // std promises no bound on what was read.
    bytes.truncate(limit);
    Ok(bytes)
}

/// What a file holds, up to so many bytes.
pub fn read_file(rt: &HostRuntime, name: &str, limit: usize) -> io::Result<Vec<u8>>
    ensures within { IfOk result (λ v. vec_len v ≤ limit) }
{
    read_up_to(rt.alloc(), File::open(rt, name)?, limit)
}

/// The same, where `-` is standard input.
pub fn read_input(rt: &HostRuntime, name: &str, limit: usize) -> io::Result<Vec<u8>>
    ensures within { IfOk result (λ v. vec_len v ≤ limit) }
{
    if name == "-" {
        read_up_to(rt.alloc(), rt.stdin(), limit)
    } else {
        read_file(rt, name, limit)
    }
}

/// What a file holds, up to so many bytes; nothing where it is missing.
pub fn read_if_there(rt: &HostRuntime, name: &str, limit: usize) -> io::Result<Vec<u8>>
    ensures within { IfOk result (λ v. vec_len v ≤ limit) }
{
    match read_file(rt, name, limit) {
        Err(e) if e.kind() == ErrorKind::NotFound => Ok(Vec::new(rt.alloc())),
        read => read,
    }
}

// Writes a new file: its bytes, and the permissions of the one that it is to replace.
fn fill(mut file: File, bytes: &[u8], permissions: Option<Permissions>) -> io::Result<()> {
    if let Some(permissions) = permissions {
        file.set_permissions(permissions)?;
    }
    file.write_all(bytes)?;
    // A full disk may show only here.
    file.sync_all()
}

// The name of a temporary file in the folder of a file.
fn temporary_name(heap: Global, name: &str, attempt: u32) -> Result<String, AllocError> {
    match name.rsplit_once('/') {
        Some((folder, _)) => format!(in heap; "{folder}/.gorvaneth-{attempt}.tmp"),
        None => format!(in heap; ".gorvaneth-{attempt}.tmp"),
    }
}

// Fills a new file, and renames it to `name`. After an error it is removed.
fn fill_and_rename(
    rt: &HostRuntime,
    file: File,
    temporary: &str,
    name: &str,
    bytes: &[u8],
    permissions: Option<Permissions>,
) -> io::Result<()> {
    let done = match fill(file, bytes, permissions) {
        Ok(()) => fs::rename(rt, temporary, name),
        Err(e) => Err(e),
    };
    if done.is_err() {
        // The first error is the one to report.
        let _ = fs::remove_file(rt, temporary);
    }
    done
}

// Writes a temporary file in the folder of `name`, and renames it to `name`.
fn replace(
    rt: &HostRuntime,
    name: &str,
    bytes: &[u8],
    permissions: Option<Permissions>,
) -> io::Result<()> {
    for attempt in 0..100 {
        let temporary = temporary_name(rt.alloc(), name, attempt)?;
        let temporary = temporary.as_str();
        match File::create_new(rt, temporary) {
            Ok(file) => return fill_and_rename(rt, file, temporary, name, bytes, permissions),
            // Another program is writing there, or was ended while it did.
            Err(e) if e.kind() == ErrorKind::AlreadyExists => {}
            Err(e) => return Err(e),
        }
    }
    Err(io::Error::from(ErrorKind::AlreadyExists))
}

/// Writes a file: all of it, or after an error none, and the file is as it was. A device or a pipe is written in place, and
/// `-` is standard output.
pub fn write_file(rt: &HostRuntime, name: &str, bytes: &[u8]) -> io::Result<()> {
    if name == "-" {
        return rt.stdout().write_all(bytes);
    }
    match fs::metadata(rt, name) {
        // A file that may be renamed over need not be writable.
        Ok(found) if found.permissions().readonly() => {
            Err(io::Error::from(ErrorKind::PermissionDenied))
        }
        Ok(found) if found.is_file() => {
            // A link stays a link: the file that it leads to is replaced.
            let path = fs::canonicalize(rt, name)?;
            replace(rt, path.as_str(), bytes, Some(found.permissions()))
        }
        Ok(_) => OpenOptions::new()
            .write(true)
            .open(rt, name)?
            .write_all(bytes),
        Err(e) if e.kind() == ErrorKind::NotFound => replace(rt, name, bytes, None),
        Err(e) => Err(e),
    }
}

#[cfg(test)]
mod tests {
    use super::*;

    #[test]
    fn reads_so_many_bytes_of_an_endless_file(rt: HostRuntime) {
        for limit in [0, 1, 7, TEXT_LIMIT] {
            let read = read_file(&rt, "/dev/zero", limit).unwrap_or(Vec::new(rt.alloc()));
            assert_eq!(rt; read.len(), limit, "at {limit}");
        }
    }

    #[test]
    fn counts_a_missing_file_as_empty_where_asked(rt: HostRuntime) {
        let missing = "no such folder/no such file";
        assert!(rt; read_file(&rt, missing, 9).is_err());
        let read = read_if_there(&rt, missing, 9);
        assert!(rt; read.is_ok_and(|text| text.is_empty()));
        let there = read_if_there(&rt, "/dev/zero", 9);
        assert!(rt; there.is_ok_and(|text| text.len() == 9));
    }

    #[test]
    fn writes_a_device_in_place(rt: HostRuntime) {
        assert!(rt; write_file(&rt, "/dev/null", b"a").is_ok());
        assert!(rt; write_file(&rt, "/dev/full", b"a").is_err());
        assert!(rt; write_file(&rt, "no such folder/no such file", b"a").is_err());
    }
}
