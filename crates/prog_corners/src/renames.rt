// Document 01's cases for rename with the charges of #107, and the corners beside them, as texts for `test_cases`. The
// two paths of a rename stand apart by a space. What each must print is worked out by hand and stands in the program's
// stdout; items of one function share listings and buffers where they can.
use crate::scenes;
use std::io;

// Two directories; and a directory with a directory and a file, whose names have 255 and 253 bytes.
fn over_long(rt: &impl Print, n: usize, entry_size: u64, list: &[u8]) -> io::Result<()> {
    test_cases::run(
        rt,
        b"RDL\x01\x00\x02\x00\x00\x00\x01\x00\x01\x00\x00\x00\x00\x00\x00\xF0?\x00\x00\x00\x00\x00\x00\x00\x00a\x01\
        \x00\x01\x00\x00\x00\x00\x00\x00\x00@\x00\x00\x00\x00\x00\x00\x00\x00d",
        b"RDL\x01\x00\x03\x00\x00\x00\x01\x00\x01\x00\x00\x00\x00\x00\x00\xF0?\x00\x00\x00\x00\x00\x00\x00\x00a\x01\
        \x01\x01\x00\x00\x00\x00\x00\x00\x00@\x00\x00\x00\x00\x00\x00\x00\x00a/xxxxxxxxxxxxxxxxxxxxxxxxxxxxxxxxxxxxxxx\
        xxxxxxxxxxxxxxxxxxxxxxxxxxxxxxxxxxxxxxxxxxxxxxxxxxxxxxxxxxxxxxxxxxxxxxxxxxxxxxxxxxxxxxxxxxxxxxxxxxxxxxxxxxxxxx\
        xxxxxxxxxxxxxxxxxxxxxxxxxxxxxxxxxxxxxxxxxxxxxxxxxxxxxxxxxxxxxxxxxxxxxxxxxxxxxxxxxxxxxxxxxxxxxxxxxxxxxxxxxx\xFF\
        \x01\x02\x00\x00\x00\x00\x00\x00\x08@\x05\x00\x00\x00\x00\x00\x00\x00a/xxxxxxxxxxxxxxxxxxxxxxxxxxxxxxxxxxxxxxx\
        xxxxxxxxxxxxxxxxxxxxxxxxxxxxxxxxxxxxxxxxxxxxxxxxxxxxxxxxxxxxxxxxxxxxxxxxxxxxxxxxxxxxxxxxxxxxxxxxxxxxxxxxxxxxxx\
        xxxxxxxxxxxxxxxxxxxxxxxxxxxxxxxxxxxxxxxxxxxxxxxxxxxxxxxxxxxxxxxxxxxxxxxxxxxxxxxxxxxxxxxxxxxxxxxxxxxxxxxxxx/yyy\
        yyyyyyyyyyyyyyyyyyyyyyyyyyyyyyyyyyyyyyyyyyyyyyyyyyyyyyyyyyyyyyyyyyyyyyyyyyyyyyyyyyyyyyyyyyyyyyyyyyyyyyyyyyyyyy\
        yyyyyyyyyyyyyyyyyyyyyyyyyyyyyyyyyyyyyyyyyyyyyyyyyyyyyyyyyyyyyyyyyyyyyyyyyyyyyyyyyyyyyyyyyyyyyyyyyyyyyyyyyyyyyy\
        yyyyyyyyyyyyyyyyyyyyyyyyyyyyyy",
        n,
        n,
        entry_size,
        list,
    )
}

fn directories(rt: &impl Print) -> io::Result<()> {
    scenes::over_l(
        rt,
        1024,
        1024,
        40,
        b"# rename of a directory, at the limit and one below, and back|\
        rename  - L - 01207 a b|\
        rename  - L - 01208 a b|\
        +|\
        exists  - L - ----- a|\
        exists  - L - ----- a/f|\
        is_dir  - L - ----- b|\
        is_file - L - ----- b/f|\
        rename  - L - 01472 b a|\
        rename  - L - 01473 b a|\
        +|\
        is_dir  - L - ----- a|\
        is_file - L - ----- a/f|\
        exists  - L - ----- b|\
        exists  - L - ----- b/f|\
        # rename of an own directory with all in it|\
        mkdir   - L - ----- b|\
        write   2 L - ----- b/f|\
        mkdir   - L - ----- b/g|\
        rename  - L - 01805 b c|\
        rename  - L - 01806 b c|\
        +|\
        rename  - L - 02335 c b|\
        rename  - L - 02336 c b|\
        rename  - L - ----- b/g c|\
        rename  - L - ----- c b|\
        rename  - L - ----- b b/g/x|\
        rename  - L - ----- c c/x|",
    )
}

fn files(rt: &impl Print) -> io::Result<()> {
    scenes::over_l(
        rt,
        1024,
        1024,
        40,
        b"# rename of a file, and back|\
        rename  - L - 00609 z y|\
        rename  - L - 00610 z y|\
        +|\
        is_file - L - ----- y|\
        exists  - L - ----- z|\
        rename  - L - 00609 y z|\
        rename  - L - 00610 y z|\
        +|\
        # rename of a file onto a file; mtime and content are the source's|\
        write   1 L - ----- b|\
        rename  - L - ----- z b|\
        +|\
        rename  - L - ----- a/f b|\
        write   3 L - ----- z|\
        rename  - L - ----- b z|\
        +|\
        # rename where the charge shrinks|\
        write   9 L - ----- b|\
        write   0 L - ----- c|\
        rename  - L - 00593 c b|\
        rename  - L - 00594 c b|\
        +|",
    )
}

// #107: a reference's body is the listed path, and is charged rounded up to a multiple of 16.
fn listed_paths(rt: &impl Print) -> io::Result<()> {
    test_cases::run(
        rt,
        b"RDL\x01\x00\x02\x00\x00\x00\x10\x00\x02\x00\x00\x00\x00\x00\x00\x00\x00\x00\x00\x00\x00\x00\x00\x00\x00\
        0123456789abcdef\x11\x00\x02\x00\x00\x00\x00\x00\x00\x00\x00\x00\x00\x00\x00\x00\x00\x00\x000123456789abcdefg",
        b"RDL\x01\x00\x00\x00\x00\x00",
        1024,
        1024,
        40,
        b"# a reference to a path of 16 bytes; L is 0123456789abcdef 0123456789abcdefg|\
        rename  - L - 00624 0123456789abcdef b|\
        rename  - L - 00625 0123456789abcdef b|\
        +|\
        # a reference to a path of 17 bytes; L is 0123456789abcdef 0123456789abcdefg|\
        rename  - L - 00641 0123456789abcdefg b|\
        rename  - L - 00642 0123456789abcdefg b|\
        +|",
    )
}

fn itself(rt: &impl Print) -> io::Result<()> {
    scenes::over_l(
        rt,
        1024,
        1024,
        40,
        b"# rename onto itself|\
        rename  - L - 00000 z z|\
        rename  - L - 00000 a a|\
        rename  - L - ----- a/f a/f|\
        rename  - L - ----- l l|\
        rename  - L - ----- l/x l/x|\
        rename  - L - ----- z/n z/n|\
        rename  - L - ----- q q|\
        mkdir   - L - ----- d|\
        rename  - L - 00000 d d|\
        write   2 L - ----- q|\
        rename  - L - 00000 q q|\
        unlink  - L - ----- z|\
        rename  - L - ----- z z|\
        rename  - L - ----- a b|\
        rename  - L - 00000 b b|\
        rename  - L - 00000 b/f b/f|\
        rename  - L - ----- a a|\
        +|\
        # rename onto itself refused|\
        rename  - L u ----- z z|\
        rename  - M - ----- z z|\
        rename  - L - ----- ./z ./z|",
    )
}

fn refused(rt: &impl Print) -> io::Result<()> {
    scenes::over_l(
        rt,
        1024,
        1024,
        40,
        b"# rename refused|\
        rename  - L - ----- a a/b|\
        rename  - L - ----- a a/f|\
        rename  - L - ----- a z|\
        rename  - L - ----- z a|\
        rename  - L - ----- q a|\
        rename  - L - ----- q n|\
        rename  - L - ----- z z/n|\
        rename  - L - ----- z q/n|\
        rename  - L - ----- q q/n|\
        rename  - L - ----- z/n b|\
        rename  - L - ----- q/n b|\
        rename  - L - ----- z/n q/n|\
        rename  - L - ----- z l|\
        rename  - L - ----- a l|\
        rename  - L - ----- q l|\
        rename  - L - ----- q/x l|\
        rename  - L - ----- z l/n|\
        rename  - L - ----- l b|\
        rename  - L - ----- l a|\
        rename  - L - ----- l/x b|\
        # rename of the root, or onto it|\
        rename  - L - -----  b|\
        rename  - L - ----- a |\
        rename  - L - -----  |\
        rename  - L - 00000  q/x|\
        rename  - L - 00000 q/x |",
    )
}

fn own_entries(rt: &impl Print) -> io::Result<()> {
    scenes::over_l(
        rt,
        1024,
        1024,
        40,
        b"# rename below and onto own entries|\
        mkdir   - L - ----- d|\
        write   1 L - ----- e|\
        rename  - L - ----- d e|\
        rename  - L - ----- e d|\
        rename  - L - ----- d/x b|\
        rename  - L - ----- e/x b|\
        rename  - L - ----- z e/x|\
        rename  - L - ----- d a|\
        rename  - L - ----- a d|\
        rename  - L - ----- d/f e|\
        is_file - L - ----- e|\
        exists  - L - ----- d/f|\
        rename  - L - ----- d d/g|\
        +|\
        # rename of, onto and below deleted entries|\
        unlink  - L - ----- a/f|\
        rename  - L - ----- a/f b|\
        rename  - L - ----- a/f a|\
        rename  - L - ----- z a/f|\
        rename  - L - ----- a/f z|\
        rmdir   - L - ----- a|\
        rename  - L - ----- a b|\
        rename  - L - ----- a/f b|\
        rename  - L - ----- z a/x|\
        rename  - L - ----- z a|\
        +|",
    )
}

fn deleted_entries(rt: &impl Print) -> io::Result<()> {
    scenes::over_l(
        rt,
        1024,
        1024,
        40,
        b"# deleted entries move with their directory, and back|\
        unlink  - L - ----- a/f|\
        rename  - L - 01191 a b|\
        rename  - L - 01192 a b|\
        +|\
        rename  - L - 01456 b a|\
        rename  - L - 01457 b a|\
        exists  - L - ----- a/f|\
        +|\
        # what is deleted below a file stays where it is|\
        unlink  - L - ----- a/f|\
        rmdir   - L - ----- a|\
        write   0 L - ----- a|\
        rename  - L - 00892 a b|\
        rename  - L - 00893 a b|\
        +|\
        # a listed directory with an entry is walked; M is empty|\
        mkdir   - M - ----- a|\
        rename  - L - ----- a b|\
        +|",
    )
}

fn malformed(rt: &impl Print) -> io::Result<()> {
    scenes::over_l(
        rt,
        1024,
        1024,
        40,
        b"# rename, 1 before 2 before 3 before the rest|\
        rename  - X u 00000 a: b:|\
        rename  - X - 00000 a: b:|\
        rename  - L - 00000 a: b:|\
        rename  - L - 00000 a b:|\
        rename  - L - 00000 .. |\
        rename  - L - 00000  b/|\
        rename  - L - 00000  |\
        rename  - L u ----- a b|\
        rename  - L e ----- a b|\
        rename  - L - ----- /a b|\
        rename  - L - ----- a b/../c|\
        # rename, the last byte of the table 1|\
        !|\
        rename  - L - ----- a b|\
        rename  - L - ----- q q/n|\
        !|\
        rename  - L - ----- a b|",
    )?;
    scenes::over_l(
        rt,
        1024,
        1023,
        40,
        b"# rename, work one byte less than the table|\
        rename  - X - 00000 a: b:|\
        rename  - L - ----- a b|",
    )
}

fn rooms(rt: &impl Print) -> io::Result<()> {
    scenes::over_l(
        rt,
        107,
        107,
        40,
        b"# rename in a table of 107 bytes, and back|\
        rename  - L - ----- a b|\
        rename  - L - ----- b a|\
        rename  - L - 00000 z z|\
        rename  - L - ----- z y|",
    )?;
    scenes::over_l(
        rt,
        106,
        106,
        40,
        b"# rename in a table of 106 bytes|\
        rename  - L - ----- a b|\
        rename  - L - 01207 a b|\
        rename  - L - 01208 a b|",
    )
}

fn small_rooms(rt: &impl Print) -> io::Result<()> {
    scenes::over_l(
        rt,
        51,
        51,
        40,
        b"# rename in a table of 51 bytes|\
        rename  - L - ----- z y|",
    )?;
    scenes::over_l(
        rt,
        50,
        50,
        40,
        b"# rename in a table of 50 bytes|\
        rename  - L - ----- z y|\
        rename  - L - ----- z z|",
    )?;
    scenes::over_l(
        rt,
        59,
        59,
        40,
        b"# rename where freed bytes are used again|\
        write   9 L - ----- b|\
        write   0 L - ----- c|\
        rename  - L - ----- c b|\
        rename  - L - ----- b e|",
    )
}

fn beside(rt: &impl Print) -> io::Result<()> {
    test_cases::run(
        rt,
        b"RDL\x01\x00\x04\x00\x00\x00\x01\x00\x01\x00\x00\x00\x00\x00\x00\xF0?\x00\x00\x00\x00\x00\x00\x00\x00a\x03\
        \x00\x02\x00\x00\x00\x00\x00\x00\x00\x00\x03\x00\x00\x00\x00\x00\x00\x00a-b\x03\x00\x02\x00\x00\x00\x00\x00\
        \x00\x00@\x05\x00\x00\x00\x00\x00\x00\x00a/x\x02\x00\x02\x00\x00\x00\x00\x00\x00\x00\x00\x07\x00\x00\x00\x00\
        \x00\x00\x00a0",
        b"RDL\x01\x00\x00\x00\x00\x00",
        1024,
        1024,
        40,
        b"# a-b and a0 stay where a moves; L is a/ a-b a/x a0|\
        rename  - L - 01207 a c|\
        rename  - L - 01208 a c|\
        +|\
        is_file - L - ----- a-b|\
        is_file - L - ----- a0|\
        exists  - L - ----- c-b|\
        # the same with entries of their own|\
        write   0 L - ----- a/x|\
        write   0 L - ----- a0|\
        write   0 L - ----- a-b|\
        rename  - L - 01788 a c|\
        rename  - L - 01789 a c|\
        +|",
    )
}

fn not_below(rt: &impl Print) -> io::Result<()> {
    test_cases::run(
        rt,
        b"RDL\x01\x00\x03\x00\x00\x00\x01\x00\x01\x00\x00\x00\x00\x00\x00\xF0?\x00\x00\x00\x00\x00\x00\x00\x00a\x03\
        \x00\x02\x00\x00\x00\x00\x00\x00\x00\x00\x03\x00\x00\x00\x00\x00\x00\x00a-b\x02\x00\x02\x00\x00\x00\x00\x00\
        \x00\x00\x00\x07\x00\x00\x00\x00\x00\x00\x00a0",
        b"RDL\x01\x00\x00\x00\x00\x00",
        1024,
        1024,
        40,
        b"# a-b and a0 are no children of a; L is a/ a-b a0|\
        mkdir   - L - ----- d|\
        rename  - L - ----- d a|\
        +|",
    )?;
    test_cases::run(
        rt,
        b"RDL\x01\x00\x03\x00\x00\x00\x01\x00\x01\x00\x00\x00\x00\x00\x00\xF0?\x00\x00\x00\x00\x00\x00\x00\x00a\x03\
        \x00\x01\x00\x00\x00\x00\x00\x00\xF0?\x00\x00\x00\x00\x00\x00\x00\x00a-b\x02\x00\x01\x00\x00\x00\x00\x00\x00\
        \xF0?\x00\x00\x00\x00\x00\x00\x00\x00a0",
        b"RDL\x01\x00\x00\x00\x00\x00",
        1024,
        1024,
        40,
        b"# a-b and a0 are not below a; L is a/ a-b/ a0/|\
        rename  - L - ----- a a-b/n|\
        rename  - L - ----- a-b/n a0/n|\
        rename  - L - ----- a-b a-b/m|",
    )?;
    test_cases::run(
        rt,
        b"RDL\x01\x00\x02\x00\x00\x00\x01\x00\x01\x00\x00\x00\x00\x00\x00\xF0?\x00\x00\x00\x00\x00\x00\x00\x00a\x03\
        \x00\x03\x00\x00\x00\x00\x00\x00\x00\x00\x00\x00\x00\x00\x00\x00\x00\x00a/l",
        b"RDL\x01\x00\x00\x00\x00\x00",
        1024,
        1024,
        40,
        b"# a link is a child, and does not move; L is a/ a/l@|\
        mkdir   - L - ----- d|\
        rename  - L - ----- d a|\
        rename  - L - ----- a d|\
        rename  - L - ----- a a|\
        rename  - L - ----- a/l b|\
        rename  - L - ----- d a/l|",
    )
}

fn onto_directories(rt: &impl Print) -> io::Result<()> {
    test_cases::run(
        rt,
        b"RDL\x01\x00\x04\x00\x00\x00\x01\x00\x01\x00\x00\x00\x00\x00\x00\xF0?\x00\x00\x00\x00\x00\x00\x00\x00a\x03\
        \x00\x02\x00\x00\x00\x00\x00\x00\x00@\x05\x00\x00\x00\x00\x00\x00\x00a/f\x01\x00\x01\x00\x00\x00\x00\x00\x00\
        \x08@\x00\x00\x00\x00\x00\x00\x00\x00d\x03\x00\x02\x00\x00\x00\x00\x00\x00\x00\x00\x06\x00\x00\x00\x00\x00\x00\
        \x00d/g",
        b"RDL\x01\x00\x00\x00\x00\x00",
        1024,
        1024,
        40,
        b"# rename onto a directory that was deleted; L is a/ a/f d/ d/g|\
        rename  - L - ----- a d|\
        unlink  - L - ----- d/g|\
        rmdir   - L - ----- d|\
        rename  - L - 01506 a d|\
        rename  - L - 01507 a d|\
        +|\
        exists  - L - ----- d/g|\
        # rename onto a directory that is empty; L is a/ a/f d/ d/g|\
        unlink  - L - ----- d/g|\
        rename  - L - 01506 a d|\
        rename  - L - 01507 a d|\
        +|",
    )
}

fn levels(rt: &impl Print) -> io::Result<()> {
    test_cases::run(
        rt,
        b"RDL\x01\x00\x03\x00\x00\x00\x01\x00\x01\x00\x00\x00\x00\x00\x00\xF0?\x00\x00\x00\x00\x00\x00\x00\x00a\x03\
        \x00\x01\x00\x00\x00\x00\x00\x00\x00@\x00\x00\x00\x00\x00\x00\x00\x00a/b\x05\x00\x02\x00\x00\x00\x00\x00\x00\
        \x08@\x04\x00\x00\x00\x00\x00\x00\x00a/b/f",
        b"RDL\x01\x00\x00\x00\x00\x00",
        1024,
        1024,
        40,
        b"# a directory in a directory; L is a/ a/b/ a/b/f|\
        rename  - L - ----- a a/b|\
        rename  - L - 01809 a c|\
        rename  - L - 01810 a c|\
        +|\
        is_dir  - L - ----- c/b|\
        is_file - L - ----- c/b/f|\
        rename  - L - ----- c/b a|\
        +|\
        exists  - L - ----- a/b|\
        # the same with all below deleted|\
        unlink  - L - ----- a/b/f|\
        rmdir   - L - ----- a/b|\
        rename  - L - 01793 a c|\
        rename  - L - 01794 a c|\
        +|\
        exists  - L - ----- c/b|\
        is_dir  - L - ----- c|",
    )
}

fn walk_to_links(rt: &impl Print) -> io::Result<()> {
    test_cases::run(
        rt,
        b"RDL\x01\x00\x03\x00\x00\x00\x01\x00\x01\x00\x00\x00\x00\x00\x00\x00@\x00\x00\x00\x00\x00\x00\x00\x00a\x03\
        \x00\x01\x00\x00\x00\x00\x00\x00\x00@\x00\x00\x00\x00\x00\x00\x00\x00a/b\x05\x00\x03\x00\x00\x00\x00\x00\x00\
        \x00\x00\x00\x00\x00\x00\x00\x00\x00\x00a/b/l",
        b"RDL\x01\x00\x01\x00\x00\x00\x01\x00\x01\x00\x00\x00\x00\x00\x00\x00@\x00\x00\x00\x00\x00\x00\x00\x00a",
        1024,
        1024,
        40,
        b"# the walk meets a link; L is a/ a/b/ a/b/l@, M is a/|\
        rename  - L - 00523 a c|\
        rename  - L - 00524 a c|\
        rename  - L - ----- a c|\
        rename  - L - ----- a/b c|\
        # the plan comes before the walk; L is a/ a/b/ a/b/l@|\
        write   0 L - ----- a/x|\
        rename  - L - 00298 a c|\
        rename  - L - 00563 a c|\
        rename  - L - 01087 a c|\
        rename  - L - 01088 a c|\
        # an entry covers what is listed below it; L is a/ a/b/ a/b/l@, M is a/|\
        mkdir   - M - ----- a/b|\
        rename  - L - ----- a c|\
        +|",
    )
}

fn walk_order(rt: &impl Print) -> io::Result<()> {
    test_cases::run(
        rt,
        b"RDL\x01\x00\x03\x00\x00\x00\x01\x00\x01\x00\x00\x00\x00\x00\x00\x00@\x00\x00\x00\x00\x00\x00\x00\x00a\x03\
        \x00\x01\x00\x00\x00\x00\x00\x00\x00@\x00\x00\x00\x00\x00\x00\x00\x00a/b\x05\x00\x03\x00\x00\x00\x00\x00\x00\
        \x00\x00\x00\x00\x00\x00\x00\x00\x00\x00a/b/l",
        b"RDL\x01\x00\x00\x00\x00\x00",
        1024,
        1024,
        40,
        b"# the source's own entry covers nothing; L is a/ a/b/ a/b/l@, M is empty|\
        mkdir   - M - ----- a|\
        rename  - L - ----- a c|",
    )?;
    test_cases::run(
        rt,
        b"RDL\x01\x00\x05\x00\x00\x00\x01\x00\x01\x00\x00\x00\x00\x00\x00\xF0?\x00\x00\x00\x00\x00\x00\x00\x00a\x03\
        \x00\x01\x00\x00\x00\x00\x00\x00\x00@\x00\x00\x00\x00\x00\x00\x00\x00a/b\x05\x00\x03\x00\x00\x00\x00\x00\x00\
        \x00\x00\x00\x00\x00\x00\x00\x00\x00\x00a/b/l\x03\x00\x01\x00\x00\x00\x00\x00\x00\x08@\x00\x00\x00\x00\x00\x00\
        \x00\x00a/c\x05\x00\x02\x00\x00\x00\x00\x00\x00\xF0?\x05\x00\x00\x00\x00\x00\x00\x00a/c/f",
        b"RDL\x01\x00\x00\x00\x00\x00",
        1024,
        1024,
        40,
        b"# the last directory found is entered first; L is a/ a/b/ a/b/l@ a/c/ a/c/f|\
        rename  - L - 01566 a c|\
        rename  - L - 01567 a c|",
    )
}

fn walk_sums(rt: &impl Print) -> io::Result<()> {
    test_cases::run(
        rt,
        b"RDL\x01\x00\x01\x00\x00\x00\x01\x00\x01\x00\x00\x00\x00\x00\x00\x00@\x00\x00\x00\x00\x00\x00\x00\x00a",
        b"RDL\x01\x00\x00\x00\x00\x00",
        1024,
        1024,
        40,
        b"# the walk's start is not compared; L is a/|\
        rmdir   - L - ----- a|\
        mkdir   - L - ----- a|\
        mkdir   - L - ----- b|\
        rename  - L - 00593 a b|\
        rename  - L - 00594 a b|\
        +|\
        # an empty listed directory onto itself; L is a/|\
        rename  - L - 00000 a a|",
    )?;
    test_cases::run(
        rt,
        b"RDL\x01\x00\x02\x00\x00\x00\x01\x00\x01\x00\x00\x00\x00\x00\x00\xF0?\x00\x00\x00\x00\x00\x00\x00\x00a\x03\
        \x00\x01\x00\x00\x00\x00\x00\x00\x00@\x00\x00\x00\x00\x00\x00\x00\x00a/d",
        b"RDL\x01\x00\x00\x00\x00\x00",
        1024,
        1024,
        0,
        b"# the walk's sum is above where the charge is not; E 0, L is a/ a/d/|\
        mkdir   - L - ----- b|\
        mkdir   - L - ----- b/d|\
        rmdir   - L - ----- b/d|\
        rmdir   - L - ----- b|\
        rename  - L - 01039 a b|\
        rename  - L - 01040 a b|\
        +|",
    )
}

fn other_listings(rt: &impl Print) -> io::Result<()> {
    test_cases::run(
        rt,
        b"RDL\x01\x00\x04\x00\x00\x00\x01\x00\x01\x00\x00\x00\x00\x00\x00\xF0?\x00\x00\x00\x00\x00\x00\x00\x00a\x03\
        \x00\x02\x00\x00\x00\x00\x00\x00\x00@\x05\x00\x00\x00\x00\x00\x00\x00a/f\x01\x00\x03\x00\x00\x00\x00\x00\x00\
        \x00\x00\x00\x00\x00\x00\x00\x00\x00\x00l\x01\x00\x02\x00\x00\x00\x00\x00\x00\x00\x00\x00\x00\x00\x00\x00\x00\
        \x00\x00z",
        b"RDL\x01\x00\x02\x00\x00\x00\x01\x00\x01\x00\x00\x00\x00\x00\x00\xF0?\x00\x00\x00\x00\x00\x00\x00\x00b\x03\
        \x00\x01\x00\x00\x00\x00\x00\x00\xF0?\x00\x00\x00\x00\x00\x00\x00\x00b/x",
        1024,
        1024,
        40,
        b"# an entry below a destination that shows nothing; L of document 01, M is b/ b/x/|\
        write   0 M - ----- b/x/y|\
        rename  - L - ----- a b|\
        +|",
    )
}

fn long_keys(rt: &impl Print) -> io::Result<()> {
    over_long(
        rt,
        4096,
        40,
        b"# a moved key of 513 bytes, and of 512; L is a/ d/, M is a/ and in it a directory with a file, their names \
        of 255 and 253 bytes|\
        write   0 M - ----- a/xxxxxxxxxxxxxxxxxxxxxxxxxxxxxxxxxxxxxxxxxxxxxxxxxxxxxxxxxxxxxxxxxxxxxxxxxxxxxxxxxxxxxxxx\
        xxxxxxxxxxxxxxxxxxxxxxxxxxxxxxxxxxxxxxxxxxxxxxxxxxxxxxxxxxxxxxxxxxxxxxxxxxxxxxxxxxxxxxxxxxxxxxxxxxxxxxxxxxxxxx\
        xxxxxxxxxxxxxxxxxxxxxxxxxxxxxxxxxxxxxxxxxxxxxxxxxxxxxxxxx/yyyyyyyyyyyyyyyyyyyyyyyyyyyyyyyyyyyyyyyyyyyyyyyyyyyy\
        yyyyyyyyyyyyyyyyyyyyyyyyyyyyyyyyyyyyyyyyyyyyyyyyyyyyyyyyyyyyyyyyyyyyyyyyyyyyyyyyyyyyyyyyyyyyyyyyyyyyyyyyyyyyyy\
        yyyyyyyyyyyyyyyyyyyyyyyyyyyyyyyyyyyyyyyyyyyyyyyyyyyyyyyyyyyyyyyyyyyyyyyyyyyyyyyyyyyyyyyyyyy|\
        rename  - L - ----- a bbb|\
        rename  - L - ----- a bb|\
        # the same where it is deleted|\
        unlink  - M - ----- a/xxxxxxxxxxxxxxxxxxxxxxxxxxxxxxxxxxxxxxxxxxxxxxxxxxxxxxxxxxxxxxxxxxxxxxxxxxxxxxxxxxxxxxxx\
        xxxxxxxxxxxxxxxxxxxxxxxxxxxxxxxxxxxxxxxxxxxxxxxxxxxxxxxxxxxxxxxxxxxxxxxxxxxxxxxxxxxxxxxxxxxxxxxxxxxxxxxxxxxxxx\
        xxxxxxxxxxxxxxxxxxxxxxxxxxxxxxxxxxxxxxxxxxxxxxxxxxxxxxxxx/yyyyyyyyyyyyyyyyyyyyyyyyyyyyyyyyyyyyyyyyyyyyyyyyyyyy\
        yyyyyyyyyyyyyyyyyyyyyyyyyyyyyyyyyyyyyyyyyyyyyyyyyyyyyyyyyyyyyyyyyyyyyyyyyyyyyyyyyyyyyyyyyyyyyyyyyyyyyyyyyyyyyy\
        yyyyyyyyyyyyyyyyyyyyyyyyyyyyyyyyyyyyyyyyyyyyyyyyyyyyyyyyyyyyyyyyyyyyyyyyyyyyyyyyyyyyyyyyyyy|\
        rename  - L - ----- a bbb|\
        rename  - L - ----- a bb|\
        # the same where it is listed|\
        rename  - M - ----- a bbb|\
        rename  - M - 03828 a bb|\
        rename  - M - 03829 a bb|",
    )
}

fn long_keys_in_order(rt: &impl Print) -> io::Result<()> {
    over_long(
        rt,
        535,
        40,
        b"# 12 before 13; a table of 535 bytes|\
        write   0 M - ----- a/xxxxxxxxxxxxxxxxxxxxxxxxxxxxxxxxxxxxxxxxxxxxxxxxxxxxxxxxxxxxxxxxxxxxxxxxxxxxxxxxxxxxxxxx\
        xxxxxxxxxxxxxxxxxxxxxxxxxxxxxxxxxxxxxxxxxxxxxxxxxxxxxxxxxxxxxxxxxxxxxxxxxxxxxxxxxxxxxxxxxxxxxxxxxxxxxxxxxxxxxx\
        xxxxxxxxxxxxxxxxxxxxxxxxxxxxxxxxxxxxxxxxxxxxxxxxxxxxxxxxx/yyyyyyyyyyyyyyyyyyyyyyyyyyyyyyyyyyyyyyyyyyyyyyyyyyyy\
        yyyyyyyyyyyyyyyyyyyyyyyyyyyyyyyyyyyyyyyyyyyyyyyyyyyyyyyyyyyyyyyyyyyyyyyyyyyyyyyyyyyyyyyyyyyyyyyyyyyyyyyyyyyyyy\
        yyyyyyyyyyyyyyyyyyyyyyyyyyyyyyyyyyyyyyyyyyyyyyyyyyyyyyyyyyyyyyyyyyyyyyyyyyyyyyyyyyyyyyyyyyy|\
        rename  - L - ----- a bbb|\
        rename  - L - ----- a bb|",
    )?;
    over_long(
        rt,
        2195,
        40,
        b"# 11 before 12 before 13; a table of 2195 bytes|\
        rename  - M - 03828 a bb|\
        rename  - M - ----- a bb|\
        rename  - M - ----- a bbb|",
    )?;
    over_long(
        rt,
        2196,
        4096,
        b"# 11 before 12; a table of 2196 bytes, E 4096|\
        rename  - M - 28167 a bbb|\
        rename  - M - 28168 a bbb|\
        rename  - M - ----- a bb|\
        # the same with an own file|\
        write   0 M - ----- a/xxxxxxxxxxxxxxxxxxxxxxxxxxxxxxxxxxxxxxxxxxxxxxxxxxxxxxxxxxxxxxxxxxxxxxxxxxxxxxxxxxxxxxxx\
        xxxxxxxxxxxxxxxxxxxxxxxxxxxxxxxxxxxxxxxxxxxxxxxxxxxxxxxxxxxxxxxxxxxxxxxxxxxxxxxxxxxxxxxxxxxxxxxxxxxxxxxxxxxxxx\
        xxxxxxxxxxxxxxxxxxxxxxxxxxxxxxxxxxxxxxxxxxxxxxxxxxxxxxxxx/yyyyyyyyyyyyyyyyyyyyyyyyyyyyyyyyyyyyyyyyyyyyyyyyyyyy\
        yyyyyyyyyyyyyyyyyyyyyyyyyyyyyyyyyyyyyyyyyyyyyyyyyyyyyyyyyyyyyyyyyyyyyyyyyyyyyyyyyyyyyyyyyyyyyyyyyyyyyyyyyyyyyy\
        yyyyyyyyyyyyyyyyyyyyyyyyyyyyyyyyyyyyyyyyyyyyyyyyyyyyyyyyyyyyyyyyyyyyyyyyyyyyyyyyyyyyyyyyyyy|\
        rename  - L - 10000 a bbb|\
        rename  - L - 18435 a bbb|\
        rename  - L - 18436 a bbb|",
    )
}

fn many_components(rt: &impl Print) -> io::Result<()> {
    test_cases::run(
        rt,
        b"RDL\x01\x00\x02\x00\x00\x00\x01\x00\x01\x00\x00\x00\x00\x00\x00\xF0?\x00\x00\x00\x00\x00\x00\x00\x00a\x01\
        \x00\x01\x00\x00\x00\x00\x00\x00\x00@\x00\x00\x00\x00\x00\x00\x00\x00d",
        b"RDL\x01\x00\x00\x00\x00\x00",
        4096,
        4096,
        40,
        b"# a moved key of 33 components, and of 32; L is a/ d/|\
        mkdir   p L - ----- a/1/2/3/4/5/6/7/8/9/a/b/c/d/e/f/g/h/i/j/k/l/m/n/o/p/q/r/s/t/u/v|\
        rename  - L - ----- a d/b|\
        rename  - L - ----- a b|",
    )
}

fn a_list_of_calls(rt: &impl Print) -> io::Result<()> {
    test_cases::run(
        rt,
        b"RDL\x01\x00\x06\x00\x00\x00\x01\x00\x01\x00\x00\x00\x00\x00\x00\xF0?\x00\x00\x00\x00\x00\x00\x00\x00a\x03\
        \x00\x01\x00\x00\x00\x00\x00\x00\x00@\x00\x00\x00\x00\x00\x00\x00\x00a/b\x05\x00\x02\x00\x00\x00\x00\x00\x00\
        \x08@\x05\x00\x00\x00\x00\x00\x00\x00a/b/f\x03\x00\x02\x00\x00\x00\x00\x00\x00\x00\x00\x03\x00\x00\x00\x00\x00\
        \x00\x00a/g\x01\x00\x01\x00\x00\x00\x00\x00\x00\x08@\x00\x00\x00\x00\x00\x00\x00\x00d\x03\x00\x02\x00\x00\x00\
        \x00\x00\x00\x00@\x06\x00\x00\x00\x00\x00\x00\x00d/h",
        b"RDL\x01\x00\x00\x00\x00\x00",
        1024,
        1024,
        40,
        b"# a list of calls; L is a/ a/b/ a/b/f a/g d/ d/h|\
        rename  - L - ----- a m|\
        unlink  - L - ----- m/g|\
        rename  - L - ----- m/b d/b|\
        rename  - L - ----- m a|\
        write   4 L - ----- a/g|\
        rename  - L - ----- d a/b|\
        is_file - L - ----- a/b/b/f|\
        is_file - L - ----- a/b/h|\
        exists  - L - ----- a/b/f|\
        rename  - L - ----- a/b d|\
        rmdir   - L - ----- a/b|\
        mkdir   - L - ----- a/b|\
        rename  - L - ----- d/b/f a/b/f|\
        rmdir   - L - ----- d/b|\
        rename  - L - ----- d d/x|\
        rename  - L - ----- a d|\
        +|\
        is_dir  - L - ----- a/b|\
        is_file - L - ----- a/b/f|\
        exists  - L - ----- a/b/b|\
        exists  - L - ----- a/b/h|\
        exists  - L - ----- d/b|\
        exists  - L - ----- d/f|\
        is_file - L - ----- d/h|\
        exists  - L - ----- m|",
    )
}

pub fn run(rt: &impl Print) -> io::Result<()> {
    directories(rt)?;
    files(rt)?;
    listed_paths(rt)?;
    itself(rt)?;
    refused(rt)?;
    own_entries(rt)?;
    deleted_entries(rt)?;
    malformed(rt)?;
    rooms(rt)?;
    small_rooms(rt)?;
    beside(rt)?;
    not_below(rt)?;
    onto_directories(rt)?;
    levels(rt)?;
    walk_to_links(rt)?;
    walk_order(rt)?;
    walk_sums(rt)?;
    other_listings(rt)?;
    long_keys(rt)?;
    long_keys_in_order(rt)?;
    many_components(rt)?;
    a_list_of_calls(rt)
}
