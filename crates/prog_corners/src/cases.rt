// Document 01's cases for the calls but rename, with the charges of #107, and the corners beside them, as texts for
// `test_cases`. What each must print is worked out by hand and stands in the program's stdout; items of one function
// share listings and buffers where they can.
use crate::scenes;
use std::io;

fn queries(rt: &impl Print) -> io::Result<()> {
    scenes::over_l(
        rt,
        1024,
        1024,
        40,
        b"# queries over L|\
        exists  - L - ----- |\
        is_file - L - ----- |\
        is_dir  - L - ----- |\
        exists  - L - ----- a|\
        is_file - L - ----- a|\
        is_dir  - L - ----- a|\
        exists  - L - ----- a/f|\
        is_file - L - ----- a/f|\
        is_dir  - L - ----- a/f|\
        exists  - L - ----- l|\
        is_file - L - ----- l|\
        is_dir  - L - ----- l|\
        exists  - L - ----- z|\
        is_file - L - ----- z|\
        is_dir  - L - ----- z|\
        exists  - L - ----- q|\
        is_file - L - ----- q|\
        is_dir  - L - ----- q|\
        exists  - L - ----- z/n|\
        exists  - L - ----- l/n|\
        exists  - L - ----- a/|",
    )
}

fn writes(rt: &impl Print) -> io::Result<()> {
    scenes::over_l(
        rt,
        1024,
        1024,
        40,
        b"# write|\
        write   2 L - ----- a/f|\
        exists  - L - ----- a/f|\
        is_file - L - ----- a/f|\
        # write, at the limit and one below|\
        write   2 L - 00314 a/f|\
        write   2 L - 00315 a/f|\
        # write of fewer bytes, of none, at a new path and over a deleted one|\
        write   5 L - ----- a/f|\
        write   1 L - ----- a/f|\
        +|\
        write   0 L - ----- a/f|\
        write   0 L - ----- q|\
        unlink  - L - ----- q|\
        write   3 L - ----- q|\
        is_file - L - ----- q|",
    )
}

fn writes_refused(rt: &impl Print) -> io::Result<()> {
    scenes::over_l(
        rt,
        1024,
        1024,
        40,
        b"# write refused|\
        write   1 L - ----- |\
        write   1 L - ----- a|\
        write   1 L - ----- l|\
        write   1 L - ----- l/x|\
        write   1 L - ----- l/x/y|\
        write   1 L - ----- q/x|\
        write   1 L - ----- z/n|\
        write   1 L - ----- a/f/x|\
        write   1 L - 00000 a/f/x|\
        write   1 L - 00000 z|\
        # write below an own file, onto an own directory, below a deleted directory|\
        write   1 L - ----- b|\
        write   1 L - ----- b/x|\
        mkdir   - L - ----- c|\
        write   1 L - ----- c|\
        write   1 L - ----- c/x|\
        unlink  - L - ----- a/f|\
        rmdir   - L - ----- a|\
        write   1 L - ----- a/f|\
        write   1 L - ----- a|\
        # 11 where the charge shrinks|\
        write  17 L - ----- a/f|\
        write   0 L - ----- z|\
        write  16 L - 00611 a/f|\
        write  16 L - 00612 a/f|",
    )
}

// #107: a body is charged rounded up to a multiple of 16.
fn bodies(rt: &impl Print) -> io::Result<()> {
    scenes::over_l(
        rt,
        1024,
        1024,
        40,
        b"# bodies of 0, 1, 16, 17, 32 and again 16 bytes, at the limit and one below|\
        write   0 L - 00296 n|\
        write   0 L - 00297 n|\
        write   1 L - 00312 n|\
        write   1 L - 00313 n|\
        write  16 L - 00312 n|\
        write  16 L - 00313 n|\
        write  17 L - 00328 n|\
        write  17 L - 00329 n|\
        write  32 L - 00328 n|\
        write  32 L - 00329 n|\
        write  16 L - 00312 n|\
        write  16 L - 00313 n|\
        # the bodies are rounded one by one, not their sum|\
        write   1 L - ----- a/f|\
        write   1 L - 00627 n|\
        write   1 L - 00628 n|\
        unlink  - L - 00611 n|\
        unlink  - L - 00612 n|",
    )?;
    scenes::over_l(
        rt,
        41,
        41,
        40,
        b"# the bytes that an entry takes are not rounded: a table of 41 bytes|\
        write  17 L - ----- n|\
        write  16 L - ----- n|\
        write  17 L - 00328 n|\
        write  17 L - 00329 n|",
    )
}

fn mkdirs(rt: &impl Print) -> io::Result<()> {
    scenes::over_l(
        rt,
        1024,
        1024,
        40,
        b"# mkdir|\
        mkdir   - L - ----- z/n|\
        mkdir   p L - ----- z/n|\
        mkdir   - L - ----- a|\
        mkdir   e L - ----- a|\
        mkdir   p L - ----- a|\
        mkdir   b L - ----- a|\
        write   0 L - ----- q|\
        mkdir   e L - 00296 a|\
        mkdir   e L - 00000 a|\
        # mkdir of a file, a link, the root, below a link|\
        mkdir   - L - ----- z|\
        mkdir   e L - ----- z|\
        mkdir   b L - ----- a/f|\
        mkdir   - L - ----- l|\
        mkdir   b L - ----- l|\
        mkdir   - L - ----- l/n|\
        mkdir   p L - ----- l/n|\
        mkdir   p L - ----- l/n/m|\
        mkdir   - L - ----- |\
        mkdir   p L - ----- |\
        mkdir   e L - ----- |\
        mkdir   b L - 00000 |",
    )
}

fn mkdirs_made(rt: &impl Print) -> io::Result<()> {
    scenes::over_l(
        rt,
        1024,
        1024,
        40,
        b"# mkdir at the limit and one below; exist_ok of an own directory|\
        mkdir   - L - 00296 b|\
        mkdir   - L - 00297 b|\
        is_dir  - L - ----- b|\
        is_file - L - ----- b|\
        mkdir   - L - ----- b|\
        mkdir   e L - 00000 b|\
        # mkdir with parents makes the missing ones|\
        mkdir   - L - ----- b/f|\
        mkdir   e L - ----- b/f|\
        mkdir   p L - 00595 b/f|\
        mkdir   p L - 00596 b/f|\
        +|\
        is_dir  - L - ----- b|\
        is_dir  - L - ----- b/f|\
        mkdir   p L - ----- b/f|\
        mkdir   b L - ----- b/f|",
    )
}

fn mkdirs_with_parents(rt: &impl Print) -> io::Result<()> {
    scenes::over_l(
        rt,
        1024,
        1024,
        40,
        b"# mkdir with parents keeps listed and own ones|\
        mkdir   p L - ----- a/n/m|\
        mkdir   - L - ----- b|\
        mkdir   b L - ----- b/c/d|\
        # mkdir with parents, a file on the way|\
        mkdir   p L - ----- a/f/x|\
        mkdir   b L - ----- z/n/m|\
        mkdir   p L - 00000 z/n/m|\
        write   1 L - ----- b|\
        mkdir   p L - ----- b/c|\
        mkdir   e L - ----- b|\
        mkdir   - L - ----- b/c|",
    )
}

fn mkdirs_over_deleted(rt: &impl Print) -> io::Result<()> {
    scenes::over_l(
        rt,
        1024,
        1024,
        40,
        b"# mkdir over deleted|\
        unlink  - L - ----- z|\
        mkdir   - L - ----- z|\
        is_dir  - L - ----- z|\
        mkdir   - L - ----- z/n|\
        # mkdir below a deleted directory|\
        unlink  - L - ----- a/f|\
        rmdir   - L - ----- a|\
        mkdir   - L - ----- a/n|\
        mkdir   p L - ----- a/n|\
        exists  - L - ----- a|\
        exists  - L - ----- a/f|",
    )
}

fn unlinks(rt: &impl Print) -> io::Result<()> {
    scenes::over_l(
        rt,
        1024,
        1024,
        40,
        b"# unlink|\
        unlink  - L - 00296 z|\
        unlink  - L - 00297 z|\
        exists  - L - ----- z|\
        unlink  - L - ----- z|\
        unlink  - L - ----- l|\
        unlink  - L - ----- |\
        write   0 L - ----- z|\
        unlink  - L - ----- z|\
        # unlink refused|\
        unlink  - L - ----- l/x|\
        unlink  - L - ----- a|\
        unlink  - L - ----- q|\
        unlink  - L - 00000 q|\
        unlink  - L - ----- q/x|\
        unlink  - L - ----- z/n|\
        mkdir   - L - ----- b|\
        unlink  - L - ----- b|\
        # unlink of an own file|\
        write   4 L - ----- b|\
        unlink  - L - 00296 b|\
        unlink  - L - 00297 b|\
        +|\
        exists  - L - ----- b|\
        unlink  - L - ----- b|\
        write   2 L - ----- a/f|\
        unlink  - L - ----- a/f|\
        unlink  - L - ----- a/f|",
    )
}

fn rmdirs(rt: &impl Print) -> io::Result<()> {
    scenes::over_l(
        rt,
        1024,
        1024,
        40,
        b"# rmdir|\
        rmdir   - L - ----- a|\
        unlink  - L - ----- a/f|\
        rmdir   - L - 00595 a|\
        rmdir   - L - 00596 a|\
        exists  - L - ----- a|\
        rmdir   - L - ----- a|\
        mkdir   - L - ----- a|\
        rmdir   - L - ----- a|\
        # rmdir refused|\
        rmdir   - L - ----- |\
        rmdir   - L - ----- z|\
        rmdir   - L - ----- a/f|\
        rmdir   - L - ----- l|\
        rmdir   - L - ----- l/x|\
        rmdir   - L - ----- q|\
        rmdir   - L - ----- q/x|\
        rmdir   - L - ----- z/n|\
        rmdir   - L - 00000 a|\
        write   0 L - ----- b|\
        rmdir   - L - ----- b|\
        unlink  - L - ----- b|\
        rmdir   - L - ----- b|\
        # rmdir of an own directory|\
        mkdir   - L - ----- b|\
        write   1 L - ----- b/f|\
        rmdir   - L - ----- b|\
        unlink  - L - ----- b/f|\
        rmdir   - L - ----- b|",
    )
}

fn children(rt: &impl Print) -> io::Result<()> {
    test_cases::run(
        rt,
        b"RDL\x01\x00\x02\x00\x00\x00\x01\x00\x01\x00\x00\x00\x00\x00\x00\xF0?\x00\x00\x00\x00\x00\x00\x00\x00a\x03\
        \x00\x03\x00\x00\x00\x00\x00\x00\x00\x00\x00\x00\x00\x00\x00\x00\x00\x00a/l",
        b"RDL\x01\x00\x00\x00\x00\x00",
        1024,
        1024,
        40,
        b"# a link counts as a child; L is a/ a/l@|\
        rmdir   - L - ----- a|\
        unlink  - L - ----- a/l|",
    )?;
    test_cases::run(
        rt,
        b"RDL\x01\x00\x03\x00\x00\x00\x01\x00\x01\x00\x00\x00\x00\x00\x00\xF0?\x00\x00\x00\x00\x00\x00\x00\x00a\x03\
        \x00\x02\x00\x00\x00\x00\x00\x00\x00\x00\x00\x00\x00\x00\x00\x00\x00\x00a-b\x02\x00\x02\x00\x00\x00\x00\x00\
        \x00\x00\x00\x00\x00\x00\x00\x00\x00\x00\x00a0",
        b"RDL\x01\x00\x00\x00\x00\x00",
        1024,
        1024,
        40,
        b"# a-b and a0 are not below a; L is a/ a-b a0|\
        write   0 L - ----- a-b|\
        write   0 L - ----- a0|\
        rmdir   - L - ----- a|\
        exists  - L - ----- a-b|\
        exists  - L - ----- a0|\
        exists  - L - ----- a|\
        # the same with all of them listed only; L is a/ a-b a0|\
        rmdir   - L - ----- a|",
    )
}

fn children_not_listed(rt: &impl Print) -> io::Result<()> {
    test_cases::run(
        rt,
        b"RDL\x01\x00\x00\x00\x00\x00",
        b"RDL\x01\x00\x00\x00\x00\x00",
        1024,
        1024,
        40,
        b"# the same with none of them listed; L is empty|\
        mkdir   p L - ----- a-b/f|\
        mkdir   - L - ----- a|\
        mkdir   - L - ----- a0|\
        rmdir   - L - ----- a|\
        rmdir   - L - ----- a-b|\
        # entries in the order of bytes; L is empty|\
        mkdir   - L - ----- a|\
        write   0 L - ----- a/f|\
        write   1 L - ----- a-b|\
        +|",
    )
}

fn deep_directory(rt: &impl Print) -> io::Result<()> {
    test_cases::run(
        rt,
        b"RDL\x01\x00\x03\x00\x00\x00\x01\x00\x01\x00\x00\x00\x00\x00\x00\xF0?\x00\x00\x00\x00\x00\x00\x00\x00a\x03\
        \x00\x01\x00\x00\x00\x00\x00\x00\xF0?\x00\x00\x00\x00\x00\x00\x00\x00a/b\x05\x00\x02\x00\x00\x00\x00\x00\x00\
        \x00\x00\x00\x00\x00\x00\x00\x00\x00\x00a/b/c",
        b"RDL\x01\x00\x00\x00\x00\x00",
        1024,
        1024,
        40,
        b"# a directory in a directory; L is a/ a/b/ a/b/c|\
        rmdir   - L - ----- a|\
        rmdir   - L - ----- a/b|\
        unlink  - L - ----- a/b/c|\
        rmdir   - L - ----- a|\
        rmdir   - L - ----- a/b|\
        rmdir   - L - ----- a|",
    )
}

fn other_listings(rt: &impl Print) -> io::Result<()> {
    test_cases::run(
        rt,
        b"RDL\x01\x00\x01\x00\x00\x00\x01\x00\x01\x00\x00\x00\x00\x00\x00\xF0?\x00\x00\x00\x00\x00\x00\x00\x00a",
        b"RDL\x01\x00\x02\x00\x00\x00\x01\x00\x01\x00\x00\x00\x00\x00\x00\xF0?\x00\x00\x00\x00\x00\x00\x00\x00a\x03\
        \x00\x01\x00\x00\x00\x00\x00\x00\xF0?\x00\x00\x00\x00\x00\x00\x00\x00a/b",
        1024,
        1024,
        40,
        b"# a table built over another listing; L is a/, M is a/ a/b/|\
        write   0 M - ----- a/b/c|\
        rmdir   - L - ----- a|",
    )?;
    scenes::over_l(
        rt,
        1024,
        1024,
        40,
        b"# the same, a directory entry over a listed directory with a file; M is empty|\
        mkdir   - M - ----- a|\
        rmdir   - L - ----- a|\
        # the same, a directory entry over a link; M is empty|\
        mkdir   - M - ----- l|\
        write   0 L - ----- l/x|\
        is_dir  - L - ----- l|",
    )
}

fn order_of_refusals(rt: &impl Print) -> io::Result<()> {
    scenes::over_l(
        rt,
        1024,
        1024,
        40,
        b"# 1 before 2 before 3 before the rest|\
        write   0 X u 00000 a:|\
        write   0 X - 00000 a:|\
        write   0 L - 00000 a:|\
        write   0 L - 00000 a|\
        mkdir   b X u 00000 a/|\
        mkdir   b X - 00000 a/|\
        mkdir   b L - 00000 a/|\
        unlink  - X u 00000 /a|\
        unlink  - X - 00000 /a|\
        unlink  - L - 00000 /a|\
        rmdir   - X u 00000 ..|\
        rmdir   - X - 00000 ..|\
        rmdir   - L - 00000 ..|\
        exists  - X u ----- a//f|\
        exists  - X - ----- a//f|\
        exists  - L - ----- a//f|\
        is_file - X e ----- a//f|\
        is_file - X - ----- a//f|\
        is_file - L - ----- a//f|\
        is_dir  - X - ----- a//f|\
        is_dir  - L - ----- a//f|",
    )
}

fn malformed(rt: &impl Print) -> io::Result<()> {
    scenes::over_l(
        rt,
        1024,
        1024,
        40,
        b"# 1 where all else is good|\
        write   1 L u ----- z|\
        write   1 L e ----- z|\
        unlink  - L e ----- z|\
        rmdir   - L u ----- a|\
        exists  - L u ----- a|\
        is_file - L e ----- a|\
        write   1 L - ----- z|\
        # 3 for each form that is no path|\
        write   1 L - ----- .|\
        write   1 L - ----- a\\|\
        mkdir   - L - ----- a/../b|\
        mkdir   p L - ----- b//c|\
        unlink  - L - ----- z/|\
        rmdir   - L - ----- /|",
    )
}

fn short_work(rt: &impl Print) -> io::Result<()> {
    scenes::over_l(
        rt,
        1024,
        1023,
        40,
        b"# work one byte less than the table|\
        write   0 X - 00000 a:|\
        mkdir   b X - 00000 a/|\
        unlink  - X - 00000 /a|\
        rmdir   - X - 00000 ..|\
        write   1 L - ----- z|\
        mkdir   e L - ----- a|\
        unlink  - L - ----- z|\
        rmdir   - L - ----- a|",
    )?;
    scenes::over_l(
        rt,
        1024,
        1024,
        40,
        b"# the last byte of the table 1|\
        !|\
        is_dir  - X - ----- a//f|\
        write   1 L - ----- z|\
        mkdir   p L - ----- b/c|\
        is_dir  - L - ----- a|\
        !|\
        write   1 L - ----- z|",
    )
}

fn rooms(rt: &impl Print) -> io::Result<()> {
    scenes::over_l(
        rt,
        29,
        29,
        40,
        b"# table of 29 bytes|\
        write   3 L - ----- a/f|\
        write   2 L - ----- a/f|\
        write   3 L - 00314 a/f|\
        write   3 L - 00315 a/f|\
        unlink  - L - ----- a/f|\
        unlink  - L - ----- z|",
    )?;
    scenes::over_l(
        rt,
        25,
        25,
        40,
        b"# table of 25 bytes|\
        unlink  - L - ----- a/f|\
        unlink  - L - ----- z|\
        mkdir   - L - ----- b|\
        mkdir   - L - ----- z|\
        mkdir   e L - ----- a|",
    )?;
    scenes::over_both(
        rt,
        b"RDL\x01\x00\x01\x00\x00\x00\x01\x00\x01\x00\x00\x00\x00\x00\x00\xF0?\x00\x00\x00\x00\x00\x00\x00\x00a",
        24,
        24,
        40,
        b"# table of 24 bytes; M is a/|\
        unlink  - L - ----- z|\
        unlink  - L - 00296 z|\
        mkdir   - L - ----- b|\
        write   0 L - ----- b|\
        rmdir   - M - ----- a|",
    )
}

fn rooms_for_two(rt: &impl Print) -> io::Result<()> {
    scenes::over_l(
        rt,
        52,
        52,
        40,
        b"# table of 52 bytes|\
        mkdir   p L - ----- b/ff|\
        mkdir   p L - ----- b/f|",
    )?;
    scenes::over_l(
        rt,
        51,
        51,
        40,
        b"# table of 51 bytes|\
        mkdir   p L - ----- b/f|\
        unlink  - L - ----- a/f|\
        rmdir   - L - ----- a|",
    )?;
    scenes::over_l(
        rt,
        52,
        60,
        40,
        b"# table of 52 bytes, work of 60|\
        unlink  - L - ----- a/f|\
        rmdir   - L - ----- a|",
    )
}

fn room_again(rt: &impl Print) -> io::Result<()> {
    scenes::over_l(
        rt,
        60,
        60,
        40,
        b"# freed bytes are used again|\
        write   9 L - ----- b|\
        unlink  - L - ----- b|\
        write   9 L - ----- cc|\
        write   9 L - ----- b|\
        write   8 L - ----- cc|\
        write   1 L - ----- b|\
        write   2 L - ----- b|",
    )?;
    scenes::over_l(
        rt,
        0,
        0,
        40,
        b"# table of no bytes|\
        exists  - L - ----- a|\
        mkdir   e L - ----- a|\
        write   0 L - ----- q|",
    )
}

fn entry_sizes(rt: &impl Print) -> io::Result<()> {
    scenes::over_l(
        rt,
        100,
        100,
        0,
        b"# E 0|\
        write   2 L - ----- a/f|",
    )?;
    scenes::over_l(
        rt,
        100,
        100,
        4097,
        b"# E 4097|\
        write   2 L - ----- a/f|",
    )?;
    scenes::over_l(
        rt,
        100,
        100,
        4096,
        b"# E 4096|\
        write   2 L - ----- a/f|",
    )
}

pub fn run(rt: &impl Print) -> io::Result<()> {
    queries(rt)?;
    writes(rt)?;
    writes_refused(rt)?;
    bodies(rt)?;
    mkdirs(rt)?;
    mkdirs_made(rt)?;
    mkdirs_with_parents(rt)?;
    mkdirs_over_deleted(rt)?;
    unlinks(rt)?;
    rmdirs(rt)?;
    children(rt)?;
    children_not_listed(rt)?;
    deep_directory(rt)?;
    other_listings(rt)?;
    order_of_refusals(rt)?;
    malformed(rt)?;
    short_work(rt)?;
    rooms(rt)?;
    rooms_for_two(rt)?;
    room_again(rt)?;
    entry_sizes(rt)
}
