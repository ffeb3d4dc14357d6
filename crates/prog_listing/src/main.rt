// Checks listings of about 1,000,000 and 8,000,000 bytes, made in memory in three shapes, and one of each that is
// malformed at its end. Without an argument it prints what the checks answer; with one, it prints the processor time of
// each in microseconds, too. The listings are of directories. What does not fit the buffer is left out; the numbers of
// groups are chosen so that all fits.
#![tactic(auto)]

ghost use Rattle.std.specs.Prelude.{◌≤◌};

use std::io;
use std::rt::{CpuClock, Env};

fn push(s: &mut [u8], at: usize, b: u8) -> usize {
    match s.get_mut(at) {
        Some(there) => {
            *there = b;
            at + 1
        }
        None => at,
    }
}

fn push16(s: &mut [u8], at: usize, v: u64) -> usize {
    let next = push(s, at, (v % 256) as u8);
    push(s, next, (v / 256 % 256) as u8)
}

fn push32(s: &mut [u8], at: usize, v: u64) -> usize {
    let next = push16(s, at, v % 65536);
    push16(s, next, v / 65536 % 65536)
}

// The mark, version 1 and the count.
fn head(s: &mut [u8], count: u64) -> usize {
    let a = push(s, 0, b'R');
    let b = push(s, a, b'D');
    let c = push(s, b, b'L');
    let d = push16(s, c, 1);
    push32(s, d, count)
}

// n bytes b.
fn many(s: &mut [u8], at: usize, n: u64, b: u8) -> usize {
    let mut next = at;
    for _i in 0..n {
        next = push(s, next, b);
    }
    next
}

// A directory's record up to its path, which has n bytes.
fn directory(s: &mut [u8], at: usize, n: u64) -> usize {
    let a = push16(s, at, n);
    let b = push(s, a, 1);
    many(s, b, 16, 0)
}

// The lowest digit of v, in decimal.
fn digit(s: &mut [u8], at: usize, v: u64) -> usize {
    push(s, at, 48 + (v % 10) as u8)
}

// v in eight decimal digits.
fn name(s: &mut [u8], at: usize, v: u64) -> usize {
    let a = digit(s, at, v / 10000000);
    let b = digit(s, a, v / 1000000);
    let c = digit(s, b, v / 100000);
    let d = digit(s, c, v / 10000);
    let e = digit(s, d, v / 1000);
    let f = digit(s, e, v / 100);
    let g = digit(s, f, v / 10);
    digit(s, g, v)
}

fn directories(s: &mut [u8], at: usize, n: u64) -> usize {
    let mut next = at;
    for i in 0..n {
        next = directory(s, next, 8);
        next = name(s, next, i);
    }
    next
}

// n directories beside each other, of 27 bytes each.
fn flat(s: &mut [u8], n: u64) -> usize {
    let at = head(s, n);
    directories(s, at, n)
}

// The components `/x`, d times.
fn down(s: &mut [u8], at: usize, d: u64) -> usize {
    let mut next = at;
    for _i in 0..d {
        next = push(s, next, b'/');
        next = push(s, next, b'x');
    }
    next
}

// A directory and 31 more, each in the one before it.
fn chain(s: &mut [u8], at: usize, i: u64) -> usize {
    let mut next = at;
    for d in 0..32u64 {
        next = directory(s, next, 8 + 2 * d);
        next = name(s, next, i);
        next = down(s, next, d);
    }
    next
}

fn chains(s: &mut [u8], at: usize, n: u64) -> usize {
    let mut next = at;
    for i in 0..n {
        next = chain(s, next, i);
    }
    next
}

// n chains, of 1,856 bytes each.
fn deep(s: &mut [u8], n: u64) -> usize
    requires { n ≤ 10000 }
{
    let at = head(s, 32 * n);
    chains(s, at, n)
}

// A directory and 199 more, each with one `!` more at the end of its name.
fn family(s: &mut [u8], at: usize, i: u64) -> usize {
    let mut next = at;
    for d in 0..200u64 {
        next = directory(s, next, 8 + d);
        next = name(s, next, i);
        next = many(s, next, d, b'!');
    }
    next
}

fn families(s: &mut [u8], at: usize, n: u64) -> usize {
    let mut next = at;
    for i in 0..n {
        next = family(s, next, i);
    }
    next
}

// n families, of 25,300 bytes each.
fn siblings(s: &mut [u8], n: u64) -> usize
    requires { n ≤ 10000 }
{
    let at = head(s, 200 * n);
    families(s, at, n)
}

fn told(rt: &impl Print, answer: bool) -> io::Result<()> {
    rt.print(if answer { " a listing" } else { " no listing" })
}

// The check of the first n bytes, and how long it took where times are asked for.
fn timed(rt: &(impl Print + Env + CpuClock), s: &[u8], n: usize) -> io::Result<()> {
    if let Some(listing) = s.get(..n) {
        let before = test_clock::micros(rt);
        let answer = listing_check::check(listing);
        let after = test_clock::micros(rt);
        told(rt, answer)?;
        if test_clock::is_timed(rt) {
            let micros = after.wrapping_sub(before);
            print!(rt; ", {micros} us")?;
        }
    }
    Ok(())
}

// A listing of one shape, whole and without its last byte.
fn shown(rt: &(impl Print + Env + CpuClock), name: &[u8], s: &[u8], n: usize) -> io::Result<()> {
    rt.write_all(name)?;
    print!(rt; "{n} bytes:")?;
    timed(rt, s, n)?;
    if n > 0 {
        rt.print("; one byte less:")?;
        timed(rt, s, n - 1)?;
    }
    rt.write_all(b"\n")
}

// The three shapes, of about the size that k groups of each have.
fn shapes_of(rt: &(impl Print + Env + CpuClock), s: &mut [u8], times: u64) -> io::Result<()> {
    if times <= 8 {
        let n = flat(s, 37000 * times);
        shown(rt, b"flat ", s, n)?;
        let n = deep(s, 538 * times);
        shown(rt, b"deep ", s, n)?;
        let n = siblings(s, 39 * times);
        shown(rt, b"siblings ", s, n)?;
    }
    Ok(())
}

fn both(rt: &(impl Print + Env + CpuClock), s: &mut [u8; 8000000]) -> io::Result<()> {
    shapes_of(rt, s, 1)?;
    shapes_of(rt, s, 8)
}

// The buffer stands in one function, which lends it on.
fn held(rt: &(impl Print + Env + CpuClock)) -> io::Result<()> {
    let mut buf = [0u8; 8000000];
    both(rt, &mut buf)
}

fn main(rt: HostRuntime) -> io::Result<()> {
    held(&rt)
}
