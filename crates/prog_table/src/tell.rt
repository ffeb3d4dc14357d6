// What the program prints of a step.
use std::io;

pub fn step(rt: &impl Print, call: &[u8], name: &[u8], n: u64) -> io::Result<()> {
    rt.write_all(call)?;
    rt.write_all(name)?;
    print!(rt; " {n}: ")
}

pub fn answer(rt: &impl Print, answer: model::Answer) -> io::Result<()> {
    match answer {
        Ok(value) => print!(rt; "accepted {value}"),
        Err(refusal) => refused(rt, refusal),
    }
}

// 13 is the one refusal that this program expects.
fn refused(rt: &impl Print, refusal: model::Refusal) -> io::Result<()> {
    match refusal {
        model::Refusal::NoRoom => rt.print("13"),
        _ => rt.print("refused by another number"),
    }
}

pub fn record(rt: &impl Print, rec: model::Record) -> io::Result<()> {
    let model::Record {
        used,
        count,
        charge,
        entry_size: _,
    } = rec;
    print!(rt; ", used {used}, count {count}, charge {charge}")
}

// Whether the table is well-formed with its record, and whether the work buffer is all 0.
pub fn state(rt: &impl Print, formed: bool, work: &[u8]) -> io::Result<()> {
    rt.print(if formed {
        ", well-formed"
    } else {
        ", malformed"
    })?;
    if base_fields::all_zero(work, 0) {
        rt.println(", work 0")
    } else {
        rt.println(", work not 0")
    }
}

pub fn counts(rt: &impl Print, exact: u64, more: u64) -> io::Result<()> {
    println!(rt; "lengths from 25 to 400 filled exactly: {exact}; with one byte more: {more}")
}
