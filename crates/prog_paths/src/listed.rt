// Groups of vectors in one list, each item of which ends before a bar. An item's first byte says what it is: = the name
// of a group, + what must be, - what must not be, 0 what is UTF-8 and no path, and . the end of a group. An item that
// is empty is a vector that gave the wrong answer.
use crate::tally::{Tally, counted, is_utf8, none, one, print};
use std::io;

fn item(rt: &impl Print, t: Tally, s: &[u8], text: bool) -> io::Result<Tally> {
    let Some((mark, s)) = s.split_first() else {
        return Ok(counted(t, false));
    };
    match *mark {
        b'=' => {
            rt.write_all(s)?;
            Ok(t)
        }
        b'.' => {
            print(rt, t)?;
            Ok(none())
        }
        b'0' => Ok(zero(t, s)),
        _ => Ok(one(t, s, text, *mark == b'+')),
    }
}

fn zero(t: Tally, s: &[u8]) -> Tally {
    counted(t, !base_paths::is_path(s) & is_utf8(s))
}

pub fn run(rt: &impl Print, list: &[u8], text: bool) -> io::Result<()> {
    let mut t = none();
    let mut rest = list;
    while let Some(n) = rest.iter().position(|b| *b == b'|') {
        t = item(rt, t, &rest[..n], text)?;
        rest = &rest[n + 1..];
    }
    Ok(())
}
