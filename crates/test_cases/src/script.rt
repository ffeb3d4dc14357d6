// Cases as a text, whose items each end before a bar. An item that begins with # is a title, and the table is opened
// anew; `+` prints the entries; `!` changes the table's last byte from 0 to 1 and back. Every other item is a call, in
// columns: its name; up to 8 its data's size, which is at most 32, or p, e or b for mkdir's flags; from 10 the listing:
// L the first, M the second, X the first without its last byte; from 12 what the record has wrong: u its used, e its E;
// from 14 the limit: five digits, or dashes for a million, or `max-` and a digit, which is taken from 2^64 - 1; from 20
// the path. Behind the path and a space stand a rename's destination, the bytes that an append is lent, or the offset
// of `inside`, which writes inside a file: a digit, or a dash and a digit, which is taken from 2^64 - 1.
ghost use Rattle.std.specs.Prelude.{◌≤◌, length};

use crate::tell;
use call_values::{Kind, Order};
use model::{Answer, Finding, Record};
use std::io;

// The mtime of every write and mkdir: the bits of 1.0. Append and writing inside have another, so that it shows that
// they set it: the bits of 2.0.
const MTIME: u64 = 0x3FF0_0000_0000_0000;

const MTIME_ADDED: u64 = 0x4000_0000_0000_0000;

fn byte_at(s: &[u8], i: usize) -> u8 {
    s.get(i).copied().unwrap_or(0)
}

fn digit(s: &[u8], i: usize) -> u64
    ensures { result ≤ 9 }
{
    u64::from(byte_at(s, i).saturating_sub(b'0') % 10)
}

fn limit(s: &[u8]) -> u64 {
    match byte_at(s, 14) {
        b'-' => 1_000_000,
        b'm' => u64::MAX - digit(s, 18),
        _ => {
            let high = 100 * digit(s, 14) + 10 * digit(s, 15) + digit(s, 16);
            100 * high + 10 * digit(s, 17) + digit(s, 18)
        }
    }
}

// The call, by the letters in which their names differ.
fn kind(s: &[u8]) -> Kind {
    match (byte_at(s, 0), byte_at(s, 1)) {
        (b'w', _) => Kind::Write,
        (b'm', _) => Kind::Mkdir,
        (b'u', _) => Kind::Unlink,
        (b'a', _) => Kind::Append,
        (b'i', _) => Kind::WriteInside,
        (_, b'm') => Kind::Rmdir,
        _ => Kind::Rename,
    }
}

fn mtime(letter: u8) -> u64 {
    match letter {
        b'a' | b'i' => MTIME_ADDED,
        _ => MTIME,
    }
}

// An offset, by what stands behind the path.
fn offset(s: &[u8]) -> u64 {
    match byte_at(s, 0) {
        b'-' => u64::MAX - digit(s, 1),
        _ => digit(s, 0),
    }
}

// A call's order; `behind` is what stands behind its path.
fn order(s: &[u8], behind: &[u8]) -> Order {
    let flag = byte_at(s, 8);
    Order {
        kind: kind(s),
        parents: matches!(flag, b'p' | b'b'),
        exist_ok: matches!(flag, b'e' | b'b'),
        mtime: mtime(byte_at(s, 0)),
        limit: limit(s),
        offset: offset(behind),
    }
}

// The first bytes, as many as a call's data have.
fn data(bytes: &[u8], n: usize) -> &[u8] {
    bytes.get(..n).unwrap_or(&[])
}

// The record that a call is given.
fn given(rec: Record, wrong: u8) -> Record {
    match wrong {
        b'u' => Record {
            used: rec.used.wrapping_add(1),
            ..rec
        },
        b'e' => Record {
            entry_size: 4097,
            ..rec
        },
        _ => rec,
    }
}

// What a call answered, and whether it kept what it must; a refused call's record is not handed on, since it may be a
// wrong one.
fn reported(
    rt: &impl Print,
    table: &[u8],
    old: &[u8],
    work: &[u8],
    answer: Answer,
    after: Record,
    before_call: Record,
    rec: Record,
) -> io::Result<Record> {
    tell::answer(rt, answer)?;
    tell::rec(rt, after)?;
    match answer {
        Ok(_) => {
            let right = test_kept::is_clean(table, work, after);
            tell::end(rt, right, b", work 0\n")?;
            Ok(after)
        }
        Err(_) => {
            let right = test_kept::is_kept(table, old, work, after, before_call);
            tell::end(rt, right, b", all kept\n")?;
            Ok(rec)
        }
    }
}

// A changing call; `second` is its data or a rename's destination, and `third` what stands behind its path: only an
// append is lent it.
fn change(
    rt: &impl Print,
    listing: &[u8],
    table: &mut [u8],
    old: &mut [u8],
    work: &mut [u8],
    rec: Record,
    s: &[u8],
    path: &[u8],
    second: &[u8],
    third: &[u8],
) -> io::Result<Record> {
    let rec_given = given(rec, byte_at(s, 12));
    let order = order(s, third);
    test_kept::prepare(table, old, work);
    let done = call_order::make(listing, table, rec_given, work, path, second, third, order);
    reported(
        rt,
        table,
        old,
        work,
        done.answer,
        done.record,
        rec_given,
        rec,
    )
}

// exists, is_file or is_dir, by the letter in which their names differ.
fn asked(listing: &[u8], table: &[u8], rec: Record, letter: u8, path: &[u8]) -> Finding {
    match letter {
        b's' => call_queries::exists(listing, table, rec, path),
        b'f' => call_queries::is_file(listing, table, rec, path),
        _ => call_queries::is_dir(listing, table, rec, path),
    }
}

fn query(
    rt: &impl Print,
    listing: &[u8],
    table: &[u8],
    rec: Record,
    s: &[u8],
    path: &[u8],
) -> io::Result<()> {
    let rec_given = given(rec, byte_at(s, 12));
    let finding = asked(listing, table, rec_given, byte_at(s, 3), path);
    tell::finding(rt, finding)?;
    tell::rec(rt, rec)?;
    tell::text(rt, b"\n")
}

// A changing call by its columns. A write's data are sevens; what is added or written inside counts up from 1, so that
// its order shows.
fn change_by(
    rt: &impl Print,
    listing: &[u8],
    table: &mut [u8],
    old: &mut [u8],
    work: &mut [u8],
    rec: Record,
    s: &[u8],
    path: &[u8],
    third: &[u8],
) -> io::Result<Record> {
    let n = (10 * digit(s, 7) + digit(s, 8)) as usize;
    let second = match byte_at(s, 0) {
        b'r' => third,
        b'w' => data(&[7; 32], n),
        _ => data(
            b"\x01\x02\x03\x04\x05\x06\x07\x08\x09\x0A\x0B\x0C\x0D\x0E\x0F\x10\
            \x11\x12\x13\x14\x15\x16\x17\x18\x19\x1A\x1B\x1C\x1D\x1E\x1F\x20",
            n,
        ),
    };
    change(rt, listing, table, old, work, rec, s, path, second, third)
}

fn called(
    rt: &impl Print,
    listing: &[u8],
    table: &mut [u8],
    old: &mut [u8],
    work: &mut [u8],
    rec: Record,
    s: &[u8],
) -> io::Result<Record> {
    let Some(places) = s.get(20..) else {
        return Ok(rec);
    };
    tell::text(rt, s)?;
    let mut places = places.splitn(2, |b| *b == b' ');
    let path = places.next().unwrap_or(&[]);
    let third = places.next().unwrap_or(&[]);
    if (byte_at(s, 0) == b'e') | (byte_at(s, 1) == b's') {
        query(rt, listing, table, rec, s, path)?;
        return Ok(rec);
    }
    change_by(rt, listing, table, old, work, rec, s, path, third)
}

fn flip(table: &mut [u8]) {
    if let Some(last) = table.last_mut() {
        *last = 1 - *last % 2;
    }
}

fn entries(rt: &impl Print, table: &[u8], used: u64) -> io::Result<()> {
    match table.get(..used as usize) {
        Some(entries) => tell::bytes(rt, entries),
        None => Ok(()),
    }
}

// A title, which opens the table anew, the table's entries, or its last byte changed.
fn marked(rt: &impl Print, table: &mut [u8], rec: Record, s: &[u8]) -> io::Result<Record> {
    tell::text(rt, s)?;
    let mut after = rec;
    match byte_at(s, 0) {
        b'#' => {
            let opened = table_open::open(table, rec.entry_size);
            tell::answer(rt, opened.answer)?;
            after = opened.record;
        }
        b'+' => entries(rt, table, rec.used)?,
        _ => flip(table),
    }
    tell::text(rt, b"\n")?;
    Ok(after)
}

fn item(
    rt: &impl Print,
    first: &[u8],
    second: &[u8],
    table: &mut [u8],
    old: &mut [u8],
    work: &mut [u8],
    rec: Record,
    s: &[u8],
) -> io::Result<Record> {
    if byte_at(s, 0) < b'a' {
        return marked(rt, table, rec, s);
    }
    let listing = match (byte_at(s, 10), first) {
        (b'M', _) => second,
        (b'X', [without_last @ .., _]) => without_last,
        _ => first,
    };
    called(rt, listing, table, old, work, rec, s)
}

pub fn run(
    rt: &impl Print,
    first: &[u8],
    second: &[u8],
    table: &mut [u8],
    old: &mut [u8],
    work: &mut [u8],
    entry_size: u64,
    list: &[u8],
) -> io::Result<()> {
    let mut rec = Record {
        used: 0,
        count: 0,
        charge: 0,
        entry_size,
    };
    let mut rest = list;
    while let Some(n) = rest.iter().position(|b| *b == b'|') {
        rec = item(rt, first, second, table, old, work, rec, &rest[..n])?;
        rest = &rest[n + 1..];
    }
    Ok(())
}
