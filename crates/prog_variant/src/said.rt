// What is said on standard error, which is lent: a line, with the name of the file that it is about. Each text and each
// number is a write of its own.
use crate::args::NAME_SIZE;
use std::io;
use std::io::{Error, ErrorKind};
use std::rt::Env;

// The system's number for a missing permission of the file; `ErrorKind::PermissionDenied` is for others too.
const EACCES: i32 = 13;

pub fn text(err: &impl Print, s: &[u8]) -> io::Result<()> {
    err.write_all(s)
}

// The start of a line: the file that argument i names, or the argument's number if it is empty or too long for a name.
fn name(rt: &impl Env, err: &impl Print, i: usize) -> io::Result<()> {
    let mut name = [0u8; NAME_SIZE];
    let length = rt.arg(i, &mut name).unwrap_or(0);
    text(err, b"variant: ")?;
    if length == 0 {
        text(err, b"argument ")?;
        err.print(i)?;
    }
    test_lines::bytes(err, &name[..length])?;
    text(err, b": ")
}

// That the file that argument i names is not taken, and why.
pub fn of_file(rt: &impl Env, err: &impl Print, i: usize, why: &[u8]) -> io::Result<()> {
    name(rt, err, i)?;
    text(err, why)?;
    text(err, b"\n")
}

fn is_forbidden(error: Error) -> bool {
    error.raw_os_error() == Some(EACCES)
}

// That it could not be read, by the error.
pub fn unread(rt: &impl Env, err: &impl Print, i: usize, error: Error) -> io::Result<()> {
    let why: &[u8] = match error.kind() {
        ErrorKind::NotFound | ErrorKind::NotADirectory => b"there is no such file",
        ErrorKind::IsADirectory => b"is a directory",
        _ if is_forbidden(error) => b"may not be read",
        ErrorKind::InvalidFilename => b"has too long a name",
        _ => b"cannot be read",
    };
    of_file(rt, err, i, why)
}

// That it could not be made, by the error.
pub fn unmade(rt: &impl Env, err: &impl Print, i: usize, error: Error) -> io::Result<()> {
    let why: &[u8] = match error.kind() {
        ErrorKind::AlreadyExists => b"is there already, and is not written over",
        ErrorKind::NotFound | ErrorKind::NotADirectory => b"there is no such folder",
        ErrorKind::ReadOnlyFilesystem => b"may not be written",
        _ if is_forbidden(error) => b"may not be written",
        ErrorKind::InvalidFilename => b"has too long a name",
        _ => b"cannot be written",
    };
    of_file(rt, err, i, why)
}

// That it is no script, and where it goes wrong.
pub fn no_script(rt: &impl Env, err: &impl Print, i: usize, at: usize) -> io::Result<()> {
    name(rt, err, i)?;
    text(err, b"is not a script: wrong at byte ")?;
    err.print(at)?;
    text(err, b", counted from 0\n")
}
