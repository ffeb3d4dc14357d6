// What the cases run over.
// Other listings stand beside the texts that need them.

use std::io;

// Document 01's listing L, and another.
pub fn over_both(
    rt: &impl Print,
    second: &[u8],
    n: usize,
    m: usize,
    entry_size: u64,
    list: &[u8],
) -> io::Result<()> {
    test_cases::run(
        rt,
        b"RDL\x01\x00\x04\x00\x00\x00\x01\x00\x01\x00\x00\x00\x00\x00\x00\xF0?\x00\x00\x00\x00\x00\x00\x00\x00a\x03\
        \x00\x02\x00\x00\x00\x00\x00\x00\x00@\x05\x00\x00\x00\x00\x00\x00\x00a/f\x01\x00\x03\x00\x00\x00\x00\x00\x00\
        \x00\x00\x00\x00\x00\x00\x00\x00\x00\x00l\x01\x00\x02\x00\x00\x00\x00\x00\x00\x00\x00\x00\x00\x00\x00\x00\x00\
        \x00\x00z",
        second,
        n,
        m,
        entry_size,
        list,
    )
}

// L, and the empty one.
pub fn over_l(rt: &impl Print, n: usize, m: usize, entry_size: u64, list: &[u8]) -> io::Result<()> {
    over_both(rt, b"RDL\x01\x00\x00\x00\x00\x00", n, m, entry_size, list)
}
