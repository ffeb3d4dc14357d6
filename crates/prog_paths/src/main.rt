// Runs vectors and prints, for each group of them, how many were run and how many gave what they must. What each must
// give is written here by hand, and from memory of the first two, from RFC 3629, Markus Kuhn's "UTF-8 decoder
// capability and stress test" and document 01.
#![tactic(auto)]

use std::io;

mod built;
mod listed;
mod malformed;
mod paths;
mod tally;
mod texts;

fn main(rt: HostRuntime) -> io::Result<()> {
    texts::run(&rt)?;
    malformed::run(&rt)?;
    built::lonely_bytes(&rt)?;
    paths::run(&rt)?;
    built::sizes(&rt)?;
    built::ancestors(&rt)
}
