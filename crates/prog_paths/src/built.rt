// Vectors that are built: each byte that can't stand alone, long paths, and the proper ancestors of a path.
ghost use Rattle.std.specs.Prelude.{◌<◌};

use crate::tally::{Tally, counted, none, one, print};
use std::io;

// Each byte from `from` up to, not including, `to`, alone before a space: no UTF-8.
fn lonely(from: u8, to: u8) -> Tally {
    let mut t = none();
    for b in from..to {
        t = one(t, &[b, b' '], true, false);
    }
    t
}

pub fn lonely_bytes(rt: &impl Print) -> io::Result<()> {
    rt.write_all(b"Kuhn 3.1.9, each continuation byte")?;
    print(rt, lonely(0x80, 0xC0))?;
    rt.write_all(b"Kuhn 3.2, lonely start bytes")?;
    print(rt, lonely(0xC0, 0xFE))
}

fn first(t: Tally, s: &[u8], n: usize, must: bool) -> Tally {
    match s.get(..n) {
        Some(start) => one(t, start, false, must),
        None => t,
    }
}

// The first n of 514 bytes, all `a` but for a slash at i and at k; at 513 it is behind every n that is run.
fn long(t: Tally, i: usize, k: usize, n: usize, must: bool) -> Tally
    requires { (i < 514) × (k < 514) }
{
    let mut p = [b'a'; 514];
    p[i] = b'/';
    p[k] = b'/';
    first(t, &p, n, must)
}

// A component alone, behind a slash and before one; then paths whose components are 255 and 255, 255, 254 and 1, 255,
// 254 and 2, and 255, 255 and 1 bytes long.
pub fn sizes(rt: &impl Print) -> io::Result<()> {
    let t = long(none(), 513, 513, 255, true);
    let t = long(t, 513, 513, 256, false);
    let t = long(t, 1, 513, 257, true);
    let t = long(t, 1, 513, 258, false);
    let t = long(t, 255, 513, 257, true);
    let t = long(t, 256, 513, 258, false);
    rt.write_all(b"01, 255 and 256 bytes in a component")?;
    print(rt, t)?;
    let t = long(none(), 255, 513, 511, true);
    let t = long(t, 255, 510, 512, true);
    let t = long(t, 255, 510, 513, false);
    let t = long(t, 255, 511, 513, false);
    rt.write_all(b"01, 512 and 513 bytes")?;
    print(rt, t)
}

fn is_end(ends: &[u8], i: usize, k: usize) -> bool {
    ends.get(i).is_some_and(|end| usize::from(*end) == k)
}

// The proper ancestors of a path, from the top, must end at `ends`.
fn climbed(t: Tally, path: &[u8], ends: &[u8]) -> Tally {
    let mut ok = true;
    let mut i = 0;
    let mut k = base_paths::next_ancestor(path, 0);
    while k < path.len() {
        ok &= is_end(ends, i, k);
        i += 1;
        k = base_paths::next_ancestor(path, k + 1);
    }
    counted(t, ok & (i == ends.len()))
}

pub fn ancestors(rt: &impl Print) -> io::Result<()> {
    let t = climbed(none(), b"", b"");
    let t = climbed(t, b"a", b"");
    let t = climbed(t, b"a/f", b"\x01");
    let t = climbed(t, b"ab/c/def/g", b"\x02\x04\x08");
    rt.write_all(b"01, proper ancestors")?;
    print(rt, t)
}
