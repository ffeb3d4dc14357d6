// Document 01, "Paths and the published tree": which bytes are a path.
use crate::listed;
use std::io;

// Beside byte 0, backslash and colon stand their neighbours; what is not UTF-8 is so in a component, or across a slash.
pub fn run(rt: &impl Print) -> io::Result<()> {
    listed::run(
        rt,
        b"=01, the root|\
        +|.|\
        =01, components|\
        +a|+a/f|+z|+a b|+ |+a/b/c|+~|+-|+a-b|+a0|+A/B|.|\
        =01, dots|\
        +...|+.a|+..a|+a..|+a/...|+a/.b|+. |+.../a|\
        -.|-..|-a/.|-a/..|-./a|-../a|-a/../b|-a/./b|.|\
        =01, slashes|\
        -/|-//|-/a|-a/|-a//b|-a/b/|-/a/b|-///|.|\
        =01, 32 and 33 components|\
        +a/a/a/a/a/a/a/a/a/a/a/a/a/a/a/a/a/a/a/a/a/a/a/a/a/a/a/a/a/a/a/a|\
        -a/a/a/a/a/a/a/a/a/a/a/a/a/a/a/a/a/a/a/a/a/a/a/a/a/a/a/a/a/a/a/a/a|.|\
        =01, byte 0, backslash, colon|\
        +\x01|+\x1F|+9|+;|+[|+]|+\x7F|+\n|\
        -\x00|-a\x00|-\x00a|-a/\x00|-\\|-a\\b|-a/b\\|-:|-c:|-c:d|-a/b:c|.|\
        =01, UTF-8|\
        +\xC3\xA9|+a/\xC3\xA9/b|+\xE6\x97\xA5/\xE6\x9C\xAC|+\xF0\xA3\x8E\xB4|\
        -a/\xC3/b|-\xC3/\xA9|-\xED\xA0\x80/a|-a/\xC0\xAF|-\xFF|-a/\xF4\x90\x80\x80|.|",
        false,
    )
}
