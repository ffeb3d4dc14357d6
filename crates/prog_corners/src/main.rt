// Runs the cases of document 01, of #103 and of #107, with corners beside them, and prints a line for each. What it
// must print is worked out by hand from them: an entry is charged 256, its key, E and its body, which is rounded up to
// a multiple of 16 bytes; it takes 24 bytes, its key and its body as it is.
#![tactic(auto)]

use std::io;

mod cases;
mod contents;
mod renames;
mod scenes;

fn main(rt: HostRuntime) -> io::Result<()> {
    cases::run(&rt)?;
    renames::run(&rt)?;
    contents::run(&rt)
}
