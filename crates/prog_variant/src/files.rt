// Files by the names that the arguments give, read whole into a buffer.
// What cannot be done is said on standard error, which is lent.
ghost use Rattle.std.specs.Prelude.{◌≤◌, length, IfOk};

use crate::args::{NAME_SIZE, file_name};
use crate::said;
use std::fs::File;
use std::io;
use std::io::Read;
use std::rt::{Env, Files};
use test_args::read_full;

// Opens the file that argument i names, or answers why not, as where the name is too long.
fn open_file<R: Env + Files>(rt: &R, i: usize) -> io::Result<R::File> {
    let mut name = [0u8; NAME_SIZE];
    let path = file_name(rt, i, &mut name)?;
    File::open(rt, path)
}

// Opens the file that argument i names, and reads it into the buffer.
fn read_named(rt: &(impl Env + Files), i: usize, buf: &mut [u8]) -> io::Result<usize>
    ensures { IfOk result (λ n. n ≤ length buf.new) }
{
    let mut file = open_file(rt, i)?;
    let n = read_full(&mut file, buf)?;
    // One read more gives an error where the file cannot be read, as a directory.
    file.read(&mut [0u8; 1])?;
    Ok(n)
}

// Reads the file that argument i names, and answers how many of its bytes are in the buffer: none if it cannot be read,
// is empty, or fills the buffer, since then it may go on behind it. It is an error only where that cannot be said.
pub fn read_file(
    rt: &(impl Env + Files),
    err: &impl Print,
    i: usize,
    buf: &mut [u8],
) -> io::Result<usize>
    ensures { IfOk result (λ n. n ≤ length buf.new) }
{
    match read_named(rt, i, buf) {
        Ok(n) => {
            if buf.len() <= n {
                said::of_file(rt, err, i, b"has 1 MiB or more")?;
                return Ok(0);
            }
            if n == 0 {
                said::of_file(rt, err, i, b"is empty")?;
            }
            Ok(n)
        }
        Err(error) => {
            said::unread(rt, err, i, error)?;
            Ok(0)
        }
    }
}
