// Vectors are judged, and it is counted how many gave what they must.
// A count would wrap only at 2^64 vectors.
ghost use Rattle.std.specs.Prelude.{◌≡◌};
ghost use Rattle.model.specs.Utf8.{utf8};
ghost use Rattle.prog_paths.specs.Tallied.{tallied, agrees, gave};

use std::io;

// How many vectors were run, and how many gave what they must.
#[derive(Clone, Copy)]
pub struct Tally {
    pub run: u64,
    pub right: u64,
}

pub fn none() -> Tally
    ensures { result ≡ record { run = 0; right = 0 } }
{
    Tally { run: 0, right: 0 }
}

pub fn counted(t: Tally, ok: bool) -> Tally
    ensures { result ≡ tallied t ok }
{
    let run = t.run.wrapping_add(1);
    let right = t.right.wrapping_add(u64::from(ok));
    Tally { run, right }
}

// The end of a group's line, behind its name.
pub fn print(rt: &impl Print, t: Tally) -> io::Result<()> {
    let Tally { run, right } = t;
    println!(rt; ": {run} run, {right} as expected")
}

// Whether s is UTF-8, by the steps that `is_path` takes.
pub fn is_utf8(s: &[u8]) -> bool
    ensures { result ≡ utf8 s.now }
{
    let mut t = base_paths::Tail {
        need: 0,
        low: 0,
        high: 0,
    };
    for b in s {
        t = base_paths::next_tail(t, *b);
    }
    t.need == 0
}

fn agrees(a: bool, b: bool) -> bool
    ensures { result ≡ agrees a b }
{
    a == b
}

// s must be a path, or must not; and where it is a text, which has no byte that a path forbids, it must be UTF-8, or
// must not, too.
pub fn one(t: Tally, s: &[u8], text: bool, must: bool) -> Tally
    ensures { result ≡ tallied t (gave s.now text must) }
{
    let path = agrees(base_paths::is_path(s), must);
    let utf8 = agrees(is_utf8(s), must);
    counted(t, path & (!text | utf8))
}
