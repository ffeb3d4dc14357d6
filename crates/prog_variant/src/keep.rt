// What a run left (#101): shown in a line and in the views that are asked for, and, where the arguments name a file for
// it, kept in that file. The kept file is made in the work buffer, which is free by then. A file that is there already
// is left as it is.
ghost use Rattle.std.specs.Prelude.{◌<◌, length};

use crate::args::{Asked, NAME_SIZE, file_name};
use crate::{said, show, views};
use kept_file::WriteError;
use model::Record;
use std::fs::{OpenFile, OpenOptions};
use std::io::Write;
use std::rt::{Env, Files};
use std::{fs, io};
use test_args::count;

// What the table holds. Where standard output cannot be written to, this line or one before it shows it.
fn show_left(rt: &impl Print, rec: Record) -> io::Result<()> {
    let Record {
        used,
        count,
        charge,
        entry_size: _,
    } = rec;
    println!(rt; "the table holds {count} entries in {used} bytes, charged {charge}")
}

// The length of the kept file that was written.
fn show_length(rt: &impl Print, len: u64) -> io::Result<()> {
    println!(rt; "the kept file has {len} bytes")
}

// Makes the file that argument i names, or answers why not, as where there is one already.
fn make_file<R: Env + Files>(rt: &R, i: usize) -> io::Result<R::File> {
    let mut name = [0u8; NAME_SIZE];
    let path = file_name(rt, i, &mut name)?;
    OpenOptions::new()
        .write(true)
        .create_new(true)
        .open(rt, path)
}

// Removes the file that argument i names.
fn remove_file(rt: &(impl Env + Files), i: usize) -> io::Result<()> {
    let mut name = [0u8; NAME_SIZE];
    let path = file_name(rt, i, &mut name)?;
    fs::remove_file(rt, path)
}

// Writes the bytes to the file, and closes it. That it has them all is asked before, since closing answers nothing.
fn write_whole<F: Write + OpenFile + Drop>(mut file: F, bytes: &[u8]) -> io::Result<()> {
    file.write_all(bytes)?;
    file.sync_all()
}

// Writes the bytes to a new file that argument i names, and answers whether it has them. A file that does not get them
// all is removed; one that was there before is left as it is.
fn write_file(
    rt: &(impl Env + Files),
    err: &impl Print,
    i: usize,
    bytes: &[u8],
) -> io::Result<bool> {
    let file = match make_file(rt, i) {
        Ok(file) => file,
        Err(error) => {
            said::unmade(rt, err, i, error)?;
            return Ok(false);
        }
    };
    if write_whole(file, bytes).is_ok() {
        return Ok(true);
    }
    let why: &[u8] = if remove_file(rt, i).is_ok() {
        b"could not be written whole, and is removed"
    } else {
        b"could not be written whole, and could not be removed"
    };
    said::of_file(rt, err, i, why)?;
    Ok(false)
}

// Makes the kept file in the output, writes it to the file that argument i names, and shows its length.
fn write_kept(
    rt: &(impl Env + Files + Print),
    err: &impl Print,
    i: usize,
    listing: &[u8],
    table: &[u8],
    rec: Record,
    output: &mut [u8],
) -> io::Result<()> {
    match kept_write::write(listing, table, rec, output) {
        Ok(len) => {
            let n = len as usize;
            if write_file(rt, err, i, &output[..n])? {
                show::printed(err, show_length(rt, len).is_ok())?;
            }
            Ok(())
        }
        Err(WriteError::NoRoom) => said::of_file(
            rt,
            err,
            i,
            b"would have 1 MiB or more, and is not written",
        ),
        Err(_) => said::of_file(rt, err, i, b"cannot be made of what the run left"),
    }
}

// Keeps what the run left, if argument i is there. A plan that fills its buffer is not taken, so the kept file may not
// fill the work buffer, which is as long: whatever is kept can be given as a plan.
fn keep(
    rt: &(impl Env + Files + Print),
    err: &impl Print,
    i: usize,
    listing: &[u8],
    table: &[u8],
    rec: Record,
    work: &mut [u8],
) -> io::Result<()>
    requires { 0 < length work.old }
{
    if count(rt) <= i {
        return Ok(());
    }
    let most = work.len() - 1;
    write_kept(rt, err, i, listing, table, rec, &mut work[..most])
}

// Shows what the run left, and keeps it. Where standard output cannot be written to, nothing is kept.
pub fn show_and_keep(
    rt: &(impl Env + Files + Print),
    err: &impl Print,
    asked: Asked,
    listing: &[u8],
    table: &[u8],
    rec: Record,
    work: &mut [u8],
) -> io::Result<()>
    requires { 0 < length work.old }
{
    if !show::printed(err, show_left(rt, rec).is_ok())? {
        return Ok(());
    }
    if views::show(rt, err, asked, listing, table, rec)? {
        keep(rt, err, asked.kept, listing, table, rec, work)?;
    }
    Ok(())
}
