// Lines on standard output: texts, numbers in columns, and bytes as a terminal may be given them; and, of a merge of
// entries and records, the lines of the tree that they show and of what is not as it is listed (#102). Those assume a
// merge over a checked table and a checked listing. What is printed to is lent, and each gives the error of a write
// that fails.
#![tactic(auto)]

ghost use Rattle.std.specs.Prelude.{◌<◌, ◌≤◌};

mod counts;
mod lines;
mod shown;

pub use counts::{Counts, count};
pub use lines::print_lines;
pub use shown::bytes;
use std::io;

pub fn text(rt: &impl Print, s: &[u8]) -> io::Result<()> {
    rt.write_all(s)
}

// A number at the right of a column of this width. A blank stands before it however wide it is. That blank, the blanks
// behind it and the number are writes of their own; in a column wider than 20 each blank is one.
pub fn column(rt: &impl Print, n: u64, width: usize) -> io::Result<()> {
    let power = n.checked_ilog10().unwrap_or(0) as usize;
    text(rt, b" ")?;
    if let Some(blanks) = [b' '; 20].get(power + 2..width) {
        text(rt, blanks)?;
    } else {
        for _ in power + 2..width {
            text(rt, b" ")?;
        }
    }
    rt.print(n)
}

#[cfg(test)]
mod tests {
    use super::*;
    use std::cell::RefCell;
    use std::fmt::Display;
    use std::io::Write;
    use std::test::Fail;

    // What is printed, kept, with a bar behind each write.
    #[derive(Drop)]
    struct Kept {
        written: RefCell<Vec<u8>>,
    }

    impl Print for Kept {
        fn print<D: Display + Drop>(&self, value: D) -> io::Result<()> {
            let mut written = self
                .written
                .try_borrow_mut()
                .map_err(|_| io::ErrorKind::Other)?;
            write!(&mut *written, "{value}|")
        }

        fn println<D: Display + Drop>(&self, value: D) -> io::Result<()> {
            self.print(value)?;
            self.write_all(b"\n")
        }

        fn write_all(&self, bytes: &[u8]) -> io::Result<()> {
            let mut written = self
                .written
                .try_borrow_mut()
                .map_err(|_| io::ErrorKind::Other)?;
            written.extend_from_slice(bytes)?;
            Ok(written.push(b'|')?)
        }
    }

    #[test]
    fn columns(rt: HostRuntime) -> Result<(), Fail> {
        for (n, width, want) in [
            (0, 0, b" |0|".as_slice()),
            (7, 5, b" |   |7|".as_slice()),
            (12345, 3, b" |12345|".as_slice()),
            (7, 20, b" |                  |7|".as_slice()),
            (
                7,
                21,
                b" | | | | | | | | | | | | | | | | | | | |7|".as_slice(),
            ),
            (
                98765,
                25,
                b" | | | | | | | | | | | | | | | | | | | |98765|".as_slice(),
            ),
        ] {
            let kept = Kept {
                written: RefCell::new(Vec::new(rt.alloc())),
            };
            column(&kept, n, width)?;
            assert_eq!(rt;
                kept.written.into_inner().as_slice(),
                want,
                "{n} in {width}"
            );
        }
        Ok(())
    }
}
