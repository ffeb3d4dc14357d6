// What the program prints: texts with numbers, an answer as document 01 numbers it, and what a call left.
// An accepted call shows its value, a refused one its number and in brackets a path and a length.
use model::{Answer, Finding, Record, Refusal};
use std::io;

pub fn text(rt: &impl Print, s: &[u8]) -> io::Result<()> {
    rt.write_all(s)
}

// A number behind a text, each a write of its own.
fn number(rt: &impl Print, s: &[u8], n: u64) -> io::Result<()> {
    text(rt, s)?;
    rt.print(n)
}

// A refusal's number, and in brackets its path and length.
fn refused(rt: &impl Print, refusal: Refusal) -> io::Result<()> {
    let row = call_values::told_refusal(refusal);
    number(rt, b": ", row.number)?;
    number(rt, b" (", row.path)?;
    number(rt, b", ", row.len)?;
    text(rt, b")")
}

pub fn answer(rt: &impl Print, answer: Answer) -> io::Result<()> {
    match answer {
        Ok(value) => number(rt, b": accepted ", value),
        Err(refusal) => refused(rt, refusal),
    }
}

pub fn finding(rt: &impl Print, finding: Finding) -> io::Result<()> {
    match finding {
        Ok(true) => text(rt, b": yes"),
        Ok(false) => text(rt, b": no"),
        Err(refusal) => refused(rt, refusal),
    }
}

pub fn rec(rt: &impl Print, rec: Record) -> io::Result<()> {
    let Record { count, charge, .. } = rec;
    number(rt, b"; charge ", charge)?;
    number(rt, b", entries ", count)
}

// The end of a line, if what it says is so.
pub fn end(rt: &impl Print, right: bool, s: &[u8]) -> io::Result<()> {
    text(rt, if right { s } else { b", WRONG\n" })
}

pub fn bytes(rt: &impl Print, s: &[u8]) -> io::Result<()> {
    for b in s {
        number(rt, b" ", u64::from(*b))?;
    }
    Ok(())
}
