// Cases written as a text, run and printed: a line for each call, with its answer, the charge and the entries after it,
// and whether it left what it must. What is asked for beyond 4096 bytes of buffer is not run. The form of the text
// stands in script.rt.
#![tactic(auto)]

use std::io;

mod script;
mod tell;

// Runs a text over two listings, in a table buffer of n bytes with a work buffer of m. The buffers stand here and are
// lent on.
pub fn run(
    rt: &impl Print,
    first: &[u8],
    second: &[u8],
    n: usize,
    m: usize,
    entry_size: u64,
    list: &[u8],
) -> io::Result<()> {
    let mut table = [255u8; 4096];
    let mut old = [0u8; 4096];
    let mut work = [255u8; 4096];
    let (Some(table), Some(work)) = (table.get_mut(..n), work.get_mut(..m)) else {
        return Ok(());
    };
    script::run(rt, first, second, table, &mut old, work, entry_size, list)
}
