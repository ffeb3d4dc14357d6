// The arguments: [--tree] [--changes] PLAN SCRIPT [KEPT]. What begins with two hyphens is an option, and options stand
// before the files, in any order, each at most once. A file of such a name can be given as `./--name`.
ghost use Rattle.std.specs.Prelude.{◌<◌, IfSome};

use std::env::FillError;
use std::io;
use std::io::{Error, ErrorKind};
use std::rt::Env;
use std::str::from_utf8;
use test_args::count;

// As many bytes as a name may have, and one more.
pub const NAME_SIZE: usize = 4096;

// What the program is asked for: which arguments name the files, and whether the tree and the changes are shown. The
// kept file's argument may be missing.
#[derive(Clone, Copy)]
pub struct Asked {
    pub tree: bool,
    pub changes: bool,
    pub plan: usize,
    pub script: usize,
    pub kept: usize,
}

#[derive(Clone, Copy)]
enum Word {
    Tree,
    Changes,
    Unknown,
    Name,
}

// The file's name that argument i is, which is in the buffer then. It is an error if it is too long for a name, or not
// UTF-8.
pub fn file_name<'a>(rt: &impl Env, i: usize, buf: &'a mut [u8]) -> io::Result<&'a str> {
    let kind = match rt.arg(i, buf) {
        Ok(length) => return from_utf8(&buf[..length]).or(Err(Error::from(ErrorKind::InvalidData))),
        Err(FillError::TooLong) => ErrorKind::InvalidFilename,
        Err(FillError::NotPresent) => ErrorKind::InvalidInput,
    };
    Err(Error::from(kind))
}

// What argument i is. One that is too long for a name counts as one, and cannot be opened.
fn word_at(rt: &impl Env, i: usize) -> Word {
    let mut name = [0u8; NAME_SIZE];
    let length = rt.arg(i, &mut name).unwrap_or(0);
    match &name[..length] {
        b"--tree" => Word::Tree,
        b"--changes" => Word::Changes,
        [b'-', b'-', ..] => Word::Unknown,
        _ => Word::Name,
    }
}

// What is asked for with argument i too; none where it stands wrong. Up to the first name, `plan` is 0.
fn with(asked: Asked, word: Word, i: usize) -> Option<Asked> {
    let first = asked.plan == 0;
    match word {
        Word::Tree if first & !asked.tree => Some(Asked {
            tree: true,
            ..asked
        }),
        Word::Changes if first & !asked.changes => Some(Asked {
            changes: true,
            ..asked
        }),
        Word::Name if first => Some(Asked { plan: i, ..asked }),
        Word::Name => Some(asked),
        Word::Tree | Word::Changes | Word::Unknown => None,
    }
}

// All words, one after another; the program's own name is none.
fn words(rt: &impl Env, count: usize) -> Option<Asked> {
    let mut asked = Asked {
        tree: false,
        changes: false,
        plan: 0,
        script: 0,
        kept: 0,
    };
    for i in 1..count {
        asked = with(asked, word_at(rt, i), i)?;
    }
    Some(asked)
}

// What is asked for; none for wrong usage, as where there are not two or three names.
pub fn given(rt: &impl Env) -> Option<Asked>
    ensures { IfSome result (λ asked. (0 < asked.plan) × (asked.plan < asked.script) × (asked.script < asked.kept)) }
{
    let count = count(rt);
    let asked = words(rt, count)?;
    let plan = asked.plan;
    let names = count.saturating_sub(plan);
    if (plan == 0) | (names < 2) | (3 < names) {
        return None;
    }
    Some(Asked {
        script: plan + 1,
        kept: plan + 2,
        ..asked
    })
}
