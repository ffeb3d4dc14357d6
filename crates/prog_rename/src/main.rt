// Renames a directory `d` to `e` with 100, 1,000 and 10,000 nodes below it, in four shapes. Without an argument it
// prints what each call answers and leaves; with one, it prints the call's processor time in microseconds too. Listing
// and table are made in memory. What it must print is worked out by hand from document 01 and #107: an entry is charged
// 256, its key, E and its body rounded up to a multiple of 16.
#![tactic(auto)]

ghost use Rattle.std.specs.Prelude.{◌+◌, ◌*◌, ◌≤◌, length};

use model::{Answered, Record};
use std::io;
use std::rt::{CpuClock, Env};

const ENTRY_SIZE: u64 = 40;

const NO_LIMIT: u64 = 1_000_000_000;

// How many nodes are listed and how many are entries. They are files whose numbers rise by `step`: with 2, even ones
// are listed and odd ones entries; or, if `deep`, listed directories in chains.
#[derive(Clone, Copy)]
struct Shape {
    listed: usize,
    entered: usize,
    step: u64,
    deep: bool,
}

// What a call answered, and its processor time in microseconds.
#[derive(Clone, Copy)]
struct Measured {
    done: Answered,
    micros: u64,
}

// The lowest digit of v, in decimal.
fn digit(v: u64) -> u8 {
    48 + (v % 10) as u8
}

// The path of file i: `d/` and i in five decimal digits.
fn path_of(i: u64) -> [u8; 7] {
    [
        b'd',
        b'/',
        digit(i / 10000),
        digit(i / 1000),
        digit(i / 100),
        digit(i / 10),
        digit(i),
    ]
}

// A record of this kind (1 directory, 2 file), in a buffer that is all 0 from there on, as its mtime bits and its size
// are.
fn list(s: &mut [u8], at: usize, kind: u64, path: &[u8])
    requires { at + 19 + length path.now ≤ length s.old }
{
    base_fields::put16(s, at, path.len() as u64);
    base_fields::put16(s, at + 2, kind);
    base_fields::copy_in(s, at + 19, path);
}

// The mark and version 1, the count, and the record of `d`, which lies behind the listing's end if the count is 0.
fn head(s: &mut [u8], count: u64)
    requires { 29 ≤ length s.old }
{
    base_fields::copy_in(s, 0, b"RDL\x01\x00");
    base_fields::put32(s, 5, count);
    list(s, 9, 1, b"d");
}

// The record of a file.
fn list_file(s: &mut [u8], at: usize, number: u64)
    requires { at + 26 ≤ length s.old }
{
    let path = path_of(number);
    list(s, at, 2, &path);
}

// The records of `count` files, whose numbers rise by `step` from 0 on, behind the record of `d`.
fn list_files(s: &mut [u8], count: usize, step: u64)
    requires { (count ≤ 10000) × (step ≤ 2) × (29 + count * 26 ≤ length s.old) }
{
    let mut number = 0;
    for i in 0..count {
        list_file(s, 29 + i * 26, number);
        number += step;
    }
}

// The path of the last directory of a chain: that of a file and `/x` 24 times. Its first 7 bytes, 9 and so on are the
// paths of the chain.
fn deepest(number: u64) -> [u8; 55] {
    let mut path = [0u8; 55];
    let top = path_of(number);
    base_fields::copy_in(&mut path, 0, &top);
    base_fields::copy_in(
        &mut path,
        7,
        b"/x/x/x/x/x/x/x/x/x/x/x/x/x/x/x/x/x/x/x/x/x/x/x/x",
    );
    path
}

// The records of a chain, 25 directories of which each is in the one before it. A record has at most 74 bytes. Gives
// where they end.
fn list_chain(s: &mut [u8], at: usize, number: u64) -> usize
    requires { at + 1850 ≤ length s.old }
    ensures { result ≤ at + 1850 }
{
    let path = deepest(number);
    let mut next = at;
    for i in 0..25 {
        let len = 7 + 2 * i;
        list(s, next, 1, &path[..len]);
        next += 19 + len;
    }
    next
}

// The records of `count` chains, behind the record of `d`. Gives where they end.
fn list_chains(s: &mut [u8], count: usize) -> usize
    requires { (count ≤ 400) × (29 + count * 1850 ≤ length s.old) }
    ensures { result ≤ 29 + count * 1850 }
{
    let mut at = 29;
    for i in 0..count {
        at = list_chain(s, at, i as u64);
    }
    at
}

// An entry of this kind (1 own file, 3 directory), in a buffer that is all 0 from there on, as its mtime bits and its
// size are.
fn enter(t: &mut [u8], at: usize, kind: u64, key: &[u8], body: &[u8])
    requires { at + 24 + length key.now + length body.now ≤ length t.old }
{
    base_fields::put16(t, at, key.len() as u64);
    base_fields::put16(t, at + 2, kind);
    base_fields::put32(t, at + 4, body.len() as u64);
    base_fields::copy_in(t, at + 24, key);
    base_fields::copy_in(t, at + 24 + key.len(), body);
}

// The entry of a file, with 8 bytes of content.
fn enter_file(t: &mut [u8], at: usize, number: u64)
    requires { at + 39 ≤ length t.old }
{
    let key = path_of(number);
    enter(t, at, 1, &key, b"8 bytes.");
}

// The entries of `count` files from `at` on, whose numbers rise by `step` from `first` on.
fn enter_files(t: &mut [u8], at: usize, count: usize, first: u64, step: u64)
    requires { (count ≤ 10000) × (first ≤ 1) × (step ≤ 2) × (at + count * 39 ≤ length t.old) }
{
    let mut number = first;
    for i in 0..count {
        enter_file(t, at + i * 39, number);
        number += step;
    }
}

// The listing, without records if nothing is listed below `d`. Gives its length.
fn make_listing(s: &mut [u8], shape: Shape) -> usize
    requires { (shape.listed ≤ 10000) × (shape.step ≤ 2) × (800000 ≤ length s.old) }
    ensures { result ≤ length s.old }
{
    let listed = shape.listed;
    base_fields::zero_from(s, 0);
    if listed == 0 {
        head(s, 0);
        return 9;
    }
    head(s, listed as u64 + 1);
    if shape.deep {
        return list_chains(s, listed / 25);
    }
    list_files(s, listed, shape.step);
    29 + listed * 26
}

// The record of a table with `dirs` entries for `d` and `files` for files.
fn record_of(dirs: u64, files: u64) -> Record
    requires { (dirs ≤ 1) × (files ≤ 10000) }
{
    Record {
        used: 25 * dirs + 39 * files,
        count: dirs + files,
        charge: 297 * dirs + 319 * files,
        entry_size: ENTRY_SIZE,
    }
}

// The table: its files, and `d` where that is not listed.
fn make_table(t: &mut [u8], shape: Shape) -> Record
    requires { (shape.entered ≤ 10000) × (shape.step ≤ 2) × (25 + shape.entered * 39 ≤ length t.old) }
{
    base_fields::zero_from(t, 0);
    let entered = shape.entered;
    if shape.listed == 0 {
        enter(t, 0, 3, b"d", b"");
        enter_files(t, 25, entered, 0, shape.step);
        return record_of(1, entered as u64);
    }
    enter_files(t, 0, entered, 1, shape.step);
    record_of(0, entered as u64)
}

// The call on a table made anew.
fn timed(
    rt: &impl CpuClock,
    listing: &[u8],
    table: &mut [u8],
    work: &mut [u8],
    shape: Shape,
) -> Measured
    requires { (shape.entered ≤ 10000) × (shape.step ≤ 2) × (25 + shape.entered * 39 ≤ length table.old) }
{
    let rec = make_table(table, shape);
    let before = test_clock::micros(rt);
    let done = call_rename::rename(listing, table, rec, work, b"d", b"e", NO_LIMIT);
    let after = test_clock::micros(rt);
    Measured {
        done,
        micros: after.wrapping_sub(before),
    }
}

fn tell_answer(rt: &impl Print, answer: model::Answer) -> io::Result<()> {
    match answer {
        Ok(_) => rt.print(": accepted, "),
        Err(_) => rt.print(": refused, "),
    }
}

// The time, where times are asked for.
fn tell_time(rt: &(impl Print + Env), micros: u64) -> io::Result<()> {
    if test_clock::is_timed(rt) {
        print!(rt; ", {micros} us")?;
    }
    rt.write_all(b"\n")
}

// The name of the shape of this number.
fn tell_name(rt: &impl Print, number: u64) -> io::Result<()> {
    rt.print(match number {
        0 => "listed ",
        1 => "entries ",
        2 => "mixed ",
        _ => "chains ",
    })
}

fn tell(rt: &(impl Print + Env), number: u64, n: u64, run: Measured) -> io::Result<()> {
    let done = run.done;
    let Record {
        used: _,
        count,
        charge,
        entry_size: _,
    } = done.record;
    tell_name(rt, number)?;
    rt.print(n)?;
    tell_answer(rt, done.answer)?;
    print!(rt; "{count} entries, charge {charge}")?;
    tell_time(rt, run.micros)
}

// The shape of a number from 0 to 3: n files that are listed, n that are entries, n of which every second is listed, n
// directories in chains.
fn shape_of(number: u64, n: usize) -> Shape
    ensures { (result.listed ≤ n) × (result.entered ≤ n) × (result.step ≤ 2) }
{
    let half = n / 2;
    let (listed, entered, step) = match number {
        1 => (0, n, 1),
        2 => (half, half, 2),
        _ => (n, 0, 1),
    };
    Shape {
        listed,
        entered,
        step,
        deep: number == 3,
    }
}

// One shape.
fn shown(
    rt: &(impl Print + Env + CpuClock),
    s: &mut [u8],
    table: &mut [u8],
    work: &mut [u8],
    number: u64,
    n: usize,
) -> io::Result<()>
    requires { (n ≤ 10000) × (800000 ≤ length s.old) × (50 + n * 110 ≤ length table.old) }
{
    let shape = shape_of(number, n);
    let len = make_listing(s, shape);
    let run = timed(rt, &s[0..len], table, work, shape);
    tell(rt, number, n as u64, run)
}

// The four shapes of n nodes; n is a multiple of 25.
fn shapes_of(
    rt: &(impl Print + Env + CpuClock),
    s: &mut [u8],
    table: &mut [u8],
    work: &mut [u8],
    n: usize,
) -> io::Result<()>
    requires { (n ≤ 10000) × (800000 ≤ length s.old) × (50 + n * 110 ≤ length table.old) }
{
    for number in 0..4u64 {
        shown(rt, s, table, work, number, n)?;
    }
    Ok(())
}

// The same, in buffers with the room that they can take: 50 bytes for `d` and `e`, and at most 110 for a node's two
// entries, in chains on average.
fn fitted(
    rt: &(impl Print + Env + CpuClock),
    s: &mut [u8],
    table: &mut [u8],
    work: &mut [u8],
    n: usize,
) -> io::Result<()>
    requires n_bound { n ≤ 10000 }
    requires in_bounds { (800000 ≤ length s.old) × (1200000 ≤ length table.old) × (1200000 ≤ length work.old) }
{
    let room = 50 + n * 110;
    shapes_of(rt, s, &mut table[0..room], &mut work[0..room], n)
}

// The shapes of 100 nodes, of 1,000 and of 10,000.
fn sizes(
    rt: &(impl Print + Env + CpuClock),
    s: &mut [u8],
    table: &mut [u8],
    work: &mut [u8],
) -> io::Result<()>
    requires { (800000 ≤ length s.old) × (1200000 ≤ length table.old) × (1200000 ≤ length work.old) }
{
    fitted(rt, s, table, work, 100)?;
    fitted(rt, s, table, work, 1000)?;
    fitted(rt, s, table, work, 10000)
}

fn all(
    rt: &(impl Print + Env + CpuClock),
    s: &mut [u8; 800000],
    table: &mut [u8; 1200000],
    work: &mut [u8; 1200000],
) -> io::Result<()> {
    sizes(rt, s, table, work)
}

// The buffers stand in one function, which lends them on.
fn held(rt: &(impl Print + Env + CpuClock)) -> io::Result<()> {
    let mut s = [0u8; 800000];
    let mut table = [0u8; 1200000];
    let mut work = [0u8; 1200000];
    all(rt, &mut s, &mut table, &mut work)
}

fn main(rt: HostRuntime) -> io::Result<()> {
    held(&rt)
}
