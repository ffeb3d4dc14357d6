// The cases of #103, adding to a file and writing inside it, with the charges of #107, and the corners beside them, as
// texts for `test_cases`. What each must print is worked out by hand from both and stands in the program's stdout.
use crate::scenes;
use std::io;

fn appends(rt: &impl Print) -> io::Result<()> {
    scenes::over_l(
        rt,
        1024,
        1024,
        40,
        b"# append behind an own file's content, at the limit and one below|\
        write   2 L - ----- n|\
        append  1 L - 00312 n|\
        append  1 L - 00313 n|\
        +|\
        append  3 L - 00313 n|\
        +|\
        is_file - L - ----- n|\
        # append of nothing sets the mtime, and asks for the limit|\
        write   1 L - ----- n|\
        append  0 L - 00312 n|\
        append  0 L - 00313 n|\
        +|\
        # append makes a file where nothing is, and over a deleted one|\
        append  1 L - 00312 n|\
        append  1 L - 00313 n|\
        append  0 L - 00610 q|\
        unlink  - L - ----- z|\
        append  1 L - 00922 z|\
        append  1 L - 00923 z|\
        +|",
    )
}

fn appends_lent(rt: &impl Print) -> io::Result<()> {
    scenes::over_l(
        rt,
        1024,
        1024,
        40,
        b"# append to a listed file: its bytes are lent|\
        append  1 L - 00314 a/f 12345|\
        append  1 L - 00315 a/f 12345|\
        +|\
        append  1 L - ----- a/f 12345|\
        append  1 L - 00315 a/f|\
        +|\
        # append of nothing makes a listed file an own one|\
        append  0 L - 00314 a/f 12345|\
        append  0 L - 00315 a/f 12345|\
        append  0 L - 00612 z|\
        +|",
    )
}

fn appends_moved(rt: &impl Print) -> io::Result<()> {
    scenes::over_l(
        rt,
        1024,
        1024,
        40,
        b"# append to a moved file: its bytes are lent too, and have to be free beside the charge as it is|\
        rename  - L - ----- a/f b|\
        append  1 L - ----- b|\
        append  1 L - ----- b 1234|\
        append  1 L - 00617 b 12345|\
        append  1 L - 00618 b 12345|\
        +|\
        # append to a moved file of size 0, where the charge falls|\
        rename  - L - ----- z y|\
        append  0 L - 00609 y|\
        append  0 L - 00610 y|\
        +|",
    )
}

// #107: what is added within the multiple of 16 that is charged already costs nothing.
fn sixteens(rt: &impl Print) -> io::Result<()> {
    scenes::over_l(
        rt,
        1024,
        1024,
        40,
        b"# append within sixteen bytes is accepted at the charge; the 17th and the 33rd byte cost sixteen|\
        write   1 L - ----- n|\
        append  9 L - 00312 n|\
        append  9 L - 00313 n|\
        append  6 L - 00313 n|\
        append  1 L - 00328 n|\
        append  1 L - 00329 n|\
        +|\
        append 15 L - 00328 n|\
        append 15 L - 00329 n|\
        append  1 L - 00344 n|\
        append  1 L - 00345 n|\
        # the same for writing inside, also over a gap|\
        write   0 L - ----- n|\
        inside  1 L - 00312 n 0|\
        inside  1 L - 00313 n 0|\
        inside  7 L - 00312 n 9|\
        inside  7 L - 00313 n 9|\
        +|\
        inside  8 L - 00328 n 9|\
        inside  8 L - 00329 n 9|\
        +|\
        inside  0 L - 00328 n 9|\
        inside  0 L - 00329 n 9|\
        # the same for a gap alone|\
        write   0 L - ----- n|\
        inside  0 L - 00312 n 9|\
        inside  0 L - 00313 n 9|\
        +|",
    )
}

// #107: only charges are rounded; the bytes that have to be free beside the charge are not.
fn sixteens_lent(rt: &impl Print) -> io::Result<()> {
    scenes::over_l(
        rt,
        1024,
        1024,
        40,
        b"# append to a listed file: the whole content is rounded|\
        append 11 L - 00314 a/f 12345|\
        append 11 L - 00315 a/f 12345|\
        append  1 L - 00330 a/f|\
        append  1 L - 00331 a/f|\
        # append of one byte to a moved file: it has to be free beside the charge, which stays|\
        rename  - L - ----- z y|\
        append  1 L - 00610 y|\
        append  1 L - 00611 y|\
        +|\
        # append of 17 bytes to a moved file: they have to be free beside the charge as it is|\
        rename  - L - ----- z y|\
        append 17 L - 00626 y|\
        append 17 L - 00627 y|",
    )
}

fn lent_counts(rt: &impl Print) -> io::Result<()> {
    scenes::over_l(
        rt,
        1024,
        1024,
        40,
        b"# 17 before 11|\
        append  1 L - 00000 a/f 1234|\
        append  1 L - 00000 a/f 123456|\
        append  1 L - 00000 a/f|\
        append  1 L - 00000 a/f 12345|\
        # 17 where no listed file's bytes are needed|\
        append  1 L - 00000 n 1|\
        append  0 L - 00000 z 1|\
        write   0 L - ----- n|\
        append  0 L - 00000 n 1|\
        unlink  - L - ----- a/f|\
        append  0 L - 00000 a/f 12345|",
    )
}

fn appends_refused(rt: &impl Print) -> io::Result<()> {
    scenes::over_l(
        rt,
        1024,
        1024,
        40,
        b"# append refused as a write is, before 17|\
        append  1 L - 00000 a 1|\
        append  1 L - 00000  1|\
        append  1 L - 00000 l 1|\
        append  1 L - 00000 l/x 1|\
        append  1 L - 00000 l/x/y 1|\
        append  1 L - 00000 z/n 1|\
        append  1 L - 00000 q/n 1|\
        append  1 L - 00000 n// 1|\
        mkdir   - L - ----- d|\
        append  1 L - 00000 d 1|\
        append  1 L - 00000 d/n/m 1|\
        # append below a deleted directory|\
        unlink  - L - ----- a/f|\
        rmdir   - L - ----- a|\
        append  1 L - ----- a/f|\
        append  1 L - ----- a|",
    )
}

fn insides(rt: &impl Print) -> io::Result<()> {
    scenes::over_l(
        rt,
        1024,
        1024,
        40,
        b"# writing inside an own file, at the limit and one below|\
        write   4 L - ----- n|\
        inside  1 L - 00312 n 1|\
        inside  1 L - 00313 n 1|\
        +|\
        inside  3 L - ----- n 0|\
        +|\
        # writing inside from the end on, and over it|\
        write   2 L - ----- n|\
        inside  1 L - 00312 n 2|\
        inside  1 L - 00313 n 2|\
        +|\
        inside  3 L - 00313 n 1|\
        +|\
        inside  4 L - 00313 n 0|\
        +|",
    )
}

fn gaps(rt: &impl Print) -> io::Result<()> {
    scenes::over_l(
        rt,
        1024,
        1024,
        40,
        b"# a gap before the offset is filled with zeros, also without data|\
        write   1 L - ----- n|\
        inside  1 L - 00312 n 3|\
        inside  1 L - 00313 n 3|\
        +|\
        inside  0 L - 00312 n 6|\
        inside  0 L - 00313 n 6|\
        +|\
        write   0 L - ----- n|\
        inside  0 L - 00313 n 3|\
        +|\
        # no data within the file sets the mtime, and asks for the limit|\
        write   2 L - ----- n|\
        inside  0 L - 00312 n 1|\
        inside  0 L - 00313 n 1|\
        +|",
    )
}

fn insides_refused(rt: &impl Print) -> io::Result<()> {
    scenes::over_l(
        rt,
        1024,
        1024,
        40,
        b"# 5 for writing inside anything but an own file|\
        inside  1 L - ----- z 0|\
        inside  1 L - ----- a/f 0|\
        inside  1 L - ----- n 0|\
        inside  1 L - ----- a 0|\
        inside  1 L - -----  0|\
        inside  1 L - ----- l 0|\
        inside  1 L - ----- l/x 0|\
        inside  1 L - ----- z/n 0|\
        inside  1 L - ----- n// 0|\
        mkdir   - L - ----- d|\
        inside  1 L - ----- d 0|\
        unlink  - L - ----- z|\
        inside  1 L - ----- z 0|\
        rename  - L - ----- a/f y|\
        inside  1 L - ----- y 0|",
    )
}

fn ranges(rt: &impl Print) -> io::Result<()> {
    scenes::over_l(
        rt,
        1024,
        1024,
        40,
        b"# 18 behind 5 and before 11; offsets from 2^64 - 1 downwards|\
        inside  1 L - 00000 n -0|\
        write   0 L - ----- n|\
        inside  1 L - 00000 n -0|\
        inside  1 L - ----- n -0|\
        inside  0 L - ----- n -0|\
        inside  2 L - ----- n -1|\
        inside  1 L - ----- n -1|\
        inside  9 L - ----- n -8|\
        inside  8 L - ----- n -8|",
    )
}

// #107: a charge that would pass 2^64 - 1 counts as 2^64 - 1.
fn sums_cut(rt: &impl Print) -> io::Result<()> {
    scenes::over_l(
        rt,
        1024,
        1024,
        40,
        b"# a charge that would pass 2^64 - 1: 13 at that limit, 11 below it; limits and offsets from 2^64 - 1 \
        downwards|\
        write   0 L - ----- n|\
        inside  0 L - max-1 n -0|\
        inside  0 L - max-0 n -0|\
        inside  1 L - max-1 n -1|\
        inside  1 L - max-0 n -1|\
        inside  8 L - max-1 n -8|\
        inside  8 L - max-0 n -8|\
        inside  0 L - max-1 n -9|\
        inside  0 L - max-0 n -9|\
        inside  1 L - max-0 n -0|\
        inside  9 L - max-0 n -8|\
        inside  1 L - max-0 n 0|\
        append  1 L - max-0 n|\
        +|",
    )
}

fn rooms(rt: &impl Print) -> io::Result<()> {
    scenes::over_l(
        rt,
        27,
        27,
        40,
        b"# append and writing inside in a table of 27 bytes|\
        append  3 L - 00312 n|\
        append  3 L - 00313 n|\
        append  2 L - ----- n|\
        append  1 L - 00312 n|\
        append  1 L - 00313 n|\
        inside  0 L - 00312 n 3|\
        inside  0 L - 00313 n 3|\
        inside  2 L - 00313 n 0|",
    )?;
    scenes::over_l(
        rt,
        28,
        28,
        40,
        b"# the same in 28 bytes|\
        append  3 L - 00313 n|\
        write   0 L - ----- n|\
        inside  0 L - 00313 n 3|\
        inside  1 L - ----- n 3|",
    )?;
    scenes::over_l(
        rt,
        41,
        41,
        40,
        b"# append and writing inside in a table of 41 bytes, where the charge grows|\
        write  16 L - ----- n|\
        append  1 L - 00328 n|\
        append  1 L - 00329 n|\
        inside  8 L - 00328 n 9|\
        inside  8 L - 00329 n 9|\
        inside  7 L - 00313 n 9|",
    )
}

fn order_of_refusals(rt: &impl Print) -> io::Result<()> {
    scenes::over_l(
        rt,
        1024,
        1024,
        40,
        b"# append and writing inside: 1 before 2 before 3 before the rest|\
        append  1 X u 00000 a: 1|\
        append  1 X - 00000 a: 1|\
        append  1 L - 00000 a: 1|\
        inside  1 X u 00000 a: -0|\
        inside  1 X - 00000 a: -0|\
        inside  1 L - 00000 a: -0|\
        append  1 L e ----- n|\
        write   1 L - ----- n|\
        inside  1 L u ----- n 0|",
    )?;
    scenes::over_l(
        rt,
        1024,
        1023,
        40,
        b"# append and writing inside with a work buffer one byte less than the table|\
        append  1 X - 00000 a: 1|\
        inside  1 X - 00000 a: -0|\
        append  1 L - ----- n|",
    )
}

fn lists_of_calls(rt: &impl Print) -> io::Result<()> {
    scenes::over_l(
        rt,
        1024,
        1024,
        40,
        b"# what was added to a file moves with it|\
        append  2 L - ----- n|\
        rename  - L - ----- n m|\
        inside  1 L - ----- m 4|\
        append  1 L - ----- n|\
        +|\
        rename  - L - ----- m n|\
        append  1 L - ----- n|\
        +|",
    )?;
    scenes::over_both(
        rt,
        b"RDL\x01\x00\x01\x00\x00\x00\x01\x00\x01\x00\x00\x00\x00\x00\x00\xF0?\x00\x00\x00\x00\x00\x00\x00\x00z",
        1024,
        1024,
        40,
        b"# a table built over another listing; M is z/|\
        write   0 M - ----- z/n|\
        append  0 L - ----- z/n|\
        inside  1 L - ----- z/n 0|",
    )
}

pub fn run(rt: &impl Print) -> io::Result<()> {
    appends(rt)?;
    appends_lent(rt)?;
    appends_moved(rt)?;
    sixteens(rt)?;
    sixteens_lent(rt)?;
    lent_counts(rt)?;
    appends_refused(rt)?;
    insides(rt)?;
    gaps(rt)?;
    insides_refused(rt)?;
    ranges(rt)?;
    sums_cut(rt)?;
    rooms(rt)?;
    order_of_refusals(rt)?;
    lists_of_calls(rt)
}
