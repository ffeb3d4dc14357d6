// Fills tables to exactly their buffers' length and tries one byte more: first step by step in a buffer of 100 bytes,
// then in every length from 25 to 400. What it must print is worked out by hand from document 01 and #107: an entry
// takes 24 bytes, its key and its body, and is charged 256, its key, E and its body rounded up to a multiple of 16.
#![tactic(auto)]

ghost use Rattle.std.specs.Prelude.{◌≤◌};

mod tell;

use model::Record;
use std::io;

const ENTRY_SIZE: u64 = 40;

const NO_LIMIT: u64 = 1_000_000;

// A listing without records.
const EMPTY_LISTING: [u8; 9] = *b"RDL\x01\0\0\0\0\0";

// A write of n bytes of data at a path of one byte, and what is left.
fn write(
    rt: &impl Print,
    table: &mut [u8],
    rec: Record,
    work: &mut [u8],
    name: &[u8],
    n: usize,
) -> io::Result<Record> {
    let data = [7u8; 512];
    if n <= 512 {
        let done = call_one_path::write_bytes(
            &EMPTY_LISTING,
            table,
            rec,
            work,
            name,
            0,
            &data[0..n],
            NO_LIMIT,
        );
        let answer = done.answer;
        tell::step(rt, b"write ", name, n as u64)?;
        tell::answer(rt, answer)?;
        tell::record(rt, done.record)?;
        tell::state(rt, table_open::check(table, done.record), work)?;
        return Ok(done.record);
    }
    Ok(rec)
}

fn unlink(
    rt: &impl Print,
    table: &mut [u8],
    rec: Record,
    work: &mut [u8],
    name: &[u8],
) -> io::Result<Record> {
    let done = call_one_path::unlink(&EMPTY_LISTING, table, rec, work, name, NO_LIMIT);
    let answer = done.answer;
    tell::step(rt, b"unlink ", name, 0)?;
    tell::answer(rt, answer)?;
    tell::record(rt, done.record)?;
    tell::state(rt, table_open::check(table, done.record), work)?;
    Ok(done.record)
}

fn steps(rt: &impl Print) -> io::Result<()> {
    let mut table = [255u8; 100];
    let mut work = [255u8; 100];
    let opened = table_open::open(&mut table, ENTRY_SIZE);
    let mut rec = opened.record;
    rec = write(rt, &mut table, rec, &mut work, b"a", 75)?;
    rec = write(rt, &mut table, rec, &mut work, b"a", 76)?;
    rec = write(rt, &mut table, rec, &mut work, b"b", 0)?;
    rec = write(rt, &mut table, rec, &mut work, b"a", 10)?;
    rec = write(rt, &mut table, rec, &mut work, b"b", 40)?;
    rec = write(rt, &mut table, rec, &mut work, b"b", 41)?;
    rec = unlink(rt, &mut table, rec, &mut work, b"b")?;
    rec = write(rt, &mut table, rec, &mut work, b"a", 50)?;
    write(rt, &mut table, rec, &mut work, b"a", 51)?;
    Ok(())
}

fn lengths(rt: &impl Print) -> io::Result<()> {
    let mut table = [0u8; 400];
    let mut work = [0u8; 400];
    every_length(rt, &mut table, &mut work)
}

fn main(rt: HostRuntime) -> io::Result<()> {
    steps(&rt)?;
    lengths(&rt)
}

// Whether a write of n bytes of data at `a` into an empty table in this buffer is accepted.
fn takes(table: &mut [u8], work: &mut [u8], n: usize) -> bool {
    let data = [7u8; 512];
    let opened = table_open::open(table, ENTRY_SIZE);
    if n <= 512 {
        let done = call_one_path::write_bytes(
            &EMPTY_LISTING,
            table,
            opened.record,
            work,
            b"a",
            0,
            &data[0..n],
            NO_LIMIT,
        );
        let answer = done.answer;
        match answer {
            Ok(_) => {
                return true;
            }
            Err(_) => {
                return false;
            }
        }
    }
    false
}

// 1 if data that leaves `over` bytes too many for n bytes of table is taken, else 0.
fn tried(table: &mut [u8], work: &mut [u8], n: usize, over: usize) -> u64
    ensures { result ≤ 1 }
{
    if (25..=table.len().min(work.len())).contains(&n) & (over <= 1) {
        u64::from(takes(&mut table[..n], &mut work[..n], n - 25 + over))
    } else {
        0
    }
}

// In each length from 25 on: data that fills the buffer, and one byte more.
fn every_length(rt: &impl Print, table: &mut [u8], work: &mut [u8]) -> io::Result<()> {
    let mut exact: u64 = 0;
    let mut more: u64 = 0;
    for n in 25..401usize {
        exact += tried(table, work, n, 0);
        more += tried(table, work, n, 1);
    }
    tell::counts(rt, exact, more)
}
