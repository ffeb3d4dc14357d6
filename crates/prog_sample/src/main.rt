// Replays a sample of what the Rust original answered: lists of calls, each run anew on an empty table, and compared
// row by row and byte by byte. Usage: prog_sample SAMPLE. The file has less than 1 MiB; table, work buffer and report
// have 64 KiB each. Nothing is assumed of its bytes. The file: mark `TSS1`, the number of lists (32 bits), then the
// lists up to the end. A list: the lengths (32 bits each) of a listing, a script, the report and the entries that the
// original left; then these four, one behind the other, in the forms of docs/FORMATS.md. The charges in the report are
// sums by #107 over the original's entries, and the limits in the script are translated to it from those at which the
// original was asked (host/README.md, "The sample").
#![tactic(auto)]

ghost use Rattle.std.specs.Prelude.{◌<◌, length, IfSome};

use model::Record;
use run_calls::RunError;
use std::fs::File;
use std::io;
use std::io::Write;
use std::rt::{Env, Files};

// The entry size E, as the Rust has it.
const ENTRY_SIZE: u64 = 40;

const FILE_HEAD: usize = 8;

const LIST_HEAD: usize = 16;

const ROW_SIZE: usize = 32;

// A list's parts, as they stand in the file.
#[derive(Clone, Copy)]
struct List<'a> {
    listing: &'a [u8],
    script: &'a [u8],
    rows: &'a [u8],
    left: &'a [u8],
}

// Says it on standard error, which is lent.
fn say(err: &impl Print, what: &[u8]) -> io::Result<()> {
    err.write_all(what)
}

fn text(rt: &impl Print, s: &[u8]) -> io::Result<()> {
    rt.write_all(s)
}

// A number, and a text behind it, each a write of its own.
fn number(rt: &impl Print, n: u64, s: &[u8]) -> io::Result<()> {
    rt.print(n)?;
    text(rt, s)
}

// The line of a list that differs.
fn differs(rt: &impl Print, list: u64, how: &[u8]) -> io::Result<bool> {
    text(rt, b"list ")?;
    number(rt, list, how)?;
    Ok(true)
}

// Whether an answer, or the charge after it, is not the sample's: the report does not begin with its rows.
fn answer_differs(rt: &impl Print, list: u64, report: &[u8], rows: &[u8]) -> io::Result<bool> {
    let same = base_fields::shared(report, rows);
    if rows.len() <= same {
        return Ok(false);
    }
    text(rt, b"call ")?;
    number(rt, (same / ROW_SIZE) as u64 + 1, b" of ")?;
    differs(rt, list, b": another answer or charge\n")
}

// Whether the table is anything but the entries that the original left, and zeros behind them.
fn table_differs(
    rt: &impl Print,
    list: u64,
    table: &[u8],
    used: u64,
    left: &[u8],
) -> io::Result<bool> {
    let begins = table.starts_with(left);
    let ends = base_fields::all_zero(table, left.len());
    if (used == left.len() as u64) & begins & ends {
        return Ok(false);
    }
    differs(rt, list, b": another table\n")
}

// Whether the rows are not as many as the calls that the script counts.
fn count_differs(rt: &impl Print, list: u64, script: &[u8], rows: &[u8]) -> io::Result<bool> {
    if 8 <= script.len() && 32 * base_fields::le32(script, 4) == rows.len() as u64 {
        return Ok(false);
    }
    differs(rt, list, b": not a row for each call\n")
}

// The run on an empty table. Its contract is not needed here.
fn run_list(
    listing: &[u8],
    script: &[u8],
    table: &mut [u8],
    work: &mut [u8],
    report: &mut [u8],
) -> Result<Record, RunError> {
    run_calls::run_new(listing, ENTRY_SIZE, table, work, script, report)
}

// The bytes of the table that a run used. The line of one that was not done says why.
fn used_by(rt: &impl Print, list: u64, ran: Result<Record, RunError>) -> io::Result<Option<u64>> {
    let why: &[u8] = match ran {
        Ok(rec) => return Ok(Some(rec.used)),
        Err(RunError::MalformedScript) => b": its script is malformed\n",
        Err(RunError::ShortReport) => b": more calls than the report has room for\n",
        Err(RunError::MalformedTable) => b": its table could not be opened\n",
    };
    differs(rt, list, why)?;
    Ok(None)
}

// Runs a list's script over its listing, and compares.
fn run_differs(
    rt: &impl Print,
    number: u64,
    list: List<'_>,
    table: &mut [u8],
    work: &mut [u8],
    report: &mut [u8],
) -> io::Result<bool> {
    let ran = run_list(list.listing, list.script, table, work, report);
    let Some(used) = used_by(rt, number, ran)? else {
        return Ok(true);
    };
    let count = count_differs(rt, number, list.script, list.rows)?;
    let answer = answer_differs(rt, number, report, list.rows)?;
    let table = table_differs(rt, number, table, used, list.left)?;
    Ok(count | answer | table)
}

// Each list has its own buffers. They stand in one function, which lends them on.
fn list_differs(rt: &impl Print, number: u64, list: List<'_>) -> io::Result<bool> {
    let mut table = [0u8; 65536];
    let mut work = [0u8; 65536];
    let mut report = [0u8; 65536];
    run_differs(rt, number, list, &mut table, &mut work, &mut report)
}

// The list that the bytes begin with, by the lengths at its head, and what stands behind it; none where they end within
// it.
fn first_list(s: &[u8]) -> Option<(List<'_>, &[u8])>
    ensures { IfSome result (λ p. length p.0.rows.now < 0x1_0000_0000) }
{
    let (head, s) = s.split_at_checked(LIST_HEAD)?;
    let (listing, s) = s.split_at_checked(base_fields::le32(head, 0) as usize)?;
    let (script, s) = s.split_at_checked(base_fields::le32(head, 4) as usize)?;
    let (rows, s) = s.split_at_checked(base_fields::le32(head, 8) as usize)?;
    let (left, s) = s.split_at_checked(base_fields::le32(head, 12) as usize)?;
    let list = List {
        listing,
        script,
        rows,
        left,
    };
    Some((list, s))
}

// All lists, one after another, and what they came to.
fn replay_all(rt: &impl Print, err: &impl Print, count: u64, lists: &[u8]) -> io::Result<()>
    requires { count < 0x1_0000_0000 }
{
    let mut rest = lists;
    let mut calls: u64 = 0;
    let mut differ: u64 = 0;
    for i in 0..count {
        let Some((list, behind)) = first_list(rest) else {
            say(err, b"prog_sample: the file ends within list ")?;
            return number(err, i + 1, b"\n");
        };
        rest = behind;
        calls += (list.rows.len() / ROW_SIZE) as u64;
        differ += u64::from(list_differs(rt, i + 1, list)?);
    }
    if !rest.is_empty() {
        return say(err, b"prog_sample: the file goes on behind its last list\n");
    }
    number(rt, count, b" lists, ")?;
    number(rt, calls, b" calls, ")?;
    number(rt, differ, b" lists differ\n")
}

fn replay_file(rt: &impl Print, err: &impl Print, sample: &[u8]) -> io::Result<()> {
    if sample.len() < FILE_HEAD {
        return say(err, b"prog_sample: the file has no head\n");
    }
    if !sample.starts_with(b"TSS1") {
        return say(err, b"prog_sample: the file has another mark\n");
    }
    let count = base_fields::le32(sample, 4);
    replay_all(rt, err, count, &sample[FILE_HEAD..])
}

// Says what failed, as the caller names it, a colon and the system's words for the error, without the number that std
// puts in brackets behind them.
fn fail(err: &impl Print, what: &[u8], error: io::Error) -> io::Result<()> {
    let mut words = [0u8; 256];
    let mut rest = &mut words[..];
    write!(rest, "{error}")?;
    let end = 256usize.saturating_sub(rest.len());
    err.write_all(what)?;
    err.write_all(b": ")?;
    err.write_all(before_number(&words[..end]))?;
    err.write_all(b"\n")
}

// What stands before a blank and a bracket, or all where there is none.
fn before_number(words: &[u8]) -> &[u8] {
    match words.windows(2).position(|pair| pair == b" (".as_slice()) {
        Some(i) => &words[..i],
        None => words,
    }
}

// Opens the file of this name, which is to be UTF-8.
fn open_file<R: Files>(rt: &R, name: &[u8]) -> io::Result<R::File> {
    let invalid = io::Error::from(io::ErrorKind::InvalidFilename);
    let name = std::str::from_utf8(name).or(Err(invalid))?;
    File::open(rt, name)
}

// Reads the file that the first argument names, and answers how many of its bytes are in the buffer: none if it cannot
// be opened.
fn read_file(rt: &(impl Env + Files), err: &impl Print, buf: &mut [u8]) -> io::Result<usize> {
    let mut path = [0u8; 4096];
    let length = rt.arg(1, &mut path).unwrap_or(0);
    match open_file(rt, &path[..length]) {
        Ok(mut file) => test_args::read_full(&mut file, buf),
        Err(error) => {
            fail(err, &path[..length], error)?;
            Ok(0)
        }
    }
}

// A file that fills its buffer may go on behind it, so it is not taken.
fn read_and_replay(
    rt: &(impl Env + Files + Print),
    err: &impl Print,
    sample: &mut [u8],
) -> io::Result<()> {
    let n = read_file(rt, err, sample)?;
    if n < sample.len() {
        return replay_file(rt, err, &sample[..n]);
    }
    say(err, b"prog_sample: the file has 1 MiB or more\n")
}

fn run_in(
    rt: &(impl Env + Files + Print),
    err: &impl Print,
    sample: &mut [u8; 1048576],
) -> io::Result<()> {
    read_and_replay(rt, err, sample)
}

// The file's bytes stand in one function, which lends them on.
fn held(rt: &(impl Env + Files + Print), err: &impl Print) -> io::Result<()> {
    let mut sample = [0u8; 1048576];
    run_in(rt, err, &mut sample)
}

fn main(rt: HostRuntime) -> io::Result<()> {
    let err = rt.stderr();
    if !test_args::is_given(&rt, 1) || test_args::is_given(&rt, 2) {
        return say(&err, b"usage: prog_sample SAMPLE\n");
    }
    held(&rt, &err)
}
