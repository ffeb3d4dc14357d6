// The lines that are printed of a script's calls: a head, and one line for each.
// Where the script or the report ends early, so do the lines.
ghost use Rattle.std.specs.Prelude.{◌≡◌, ◌+◌, ◌≤◌, length, true, IfOk, Ok};
ghost use Rattle.run_script.specs.Script.{step_head};

use crate::said;
use call_values::{Kind, Order};
use run_script::{ROW_SIZE, SCRIPT_HEAD};
use std::io;
use test_lines::{bytes, column, text};

// What is said where standard output could not be written to; gives whether it could.
pub fn printed(err: &impl Print, ok: bool) -> io::Result<bool>
    ensures told { IfOk result (λ could. could ≡ ok) }
    ensures silent { ok ≡ true → result ≡ Ok true }
{
    if !ok {
        said::text(err, b"variant: standard output cannot be written to\n")?;
    }
    Ok(ok)
}

// A call's name, in a column.
fn name(rt: &impl Print, kind: Kind) -> io::Result<()> {
    rt.print(match kind {
        Kind::Write => "  write   ",
        Kind::Append => "  append  ",
        Kind::WriteInside => "  inside  ",
        Kind::Mkdir => "  mkdir   ",
        Kind::Unlink => "  unlink  ",
        Kind::Rmdir => "  rmdir   ",
        Kind::Rename => "  rename  ",
    })
}

// Words for the numbers of document 01 and of #103, in a column.
fn words(rt: &impl Print, number: u64) -> io::Result<()> {
    rt.print(match number {
        1 => " table, record or work buffer malformed",
        2 => " listing malformed       ",
        3 => " path malformed          ",
        4 => " link met, or root given ",
        5 => " not found               ",
        6 => " exists                  ",
        7 => " not a directory         ",
        8 => " is a directory          ",
        9 => " not empty               ",
        10 => " destination below source",
        11 => " limit                   ",
        12 => " moved key too long      ",
        17 => " lent bytes miscounted   ",
        18 => " offset too large        ",
        _ => " table buffer too short  ",
    })
}

// The answer: accepted with its value, or refused with its number and words, path and length.
fn answer(rt: &impl Print, number: u64, path: u64, len: u64) -> io::Result<()> {
    if number == 0 {
        text(rt, b"accepted                           ")?;
    } else {
        text(rt, b"refused")?;
        column(rt, number, 3)?;
        words(rt, number)?;
    }
    column(rt, path, 5)?;
    column(rt, len, 8)
}

// A number behind a text, each a write of its own.
fn number(rt: &impl Print, s: &[u8], n: u64) -> io::Result<()> {
    text(rt, s)?;
    rt.print(n)
}

// What a call's line has behind its path: a rename's destination, how many bytes are added and how many lent for it, or
// how many are written inside and where; a write's data are not shown.
fn behind(rt: &impl Print, order: Order, second: &[u8], third: &[u8]) -> io::Result<()> {
    let added = second.len() as u64;
    match order.kind {
        Kind::Append => {
            number(rt, b", ", added)?;
            number(rt, b" bytes, lent ", third.len() as u64)?;
        }
        Kind::WriteInside => {
            number(rt, b", ", added)?;
            number(rt, b" bytes at ", order.offset)?;
        }
        Kind::Rename => {
            text(rt, b" -> ")?;
            bytes(rt, second)?;
        }
        Kind::Write | Kind::Mkdir | Kind::Unlink | Kind::Rmdir => {}
    }
    text(rt, b"\n")
}

// The paths of the step at `at`, and where it ends.
fn parts(rt: &impl Print, script: &[u8], two: bool, at: usize, order: Order) -> io::Result<usize>
    requires { at + step_head two ≤ length script.now }
    ensures { IfOk result (λ end. end ≤ length script.now) }
{
    let end = run_script::end_of(script, two, at);
    if script.len() < end {
        return Ok(script.len());
    }
    let first = run_script::first_part(script, two, at);
    let second = run_script::second_part(script, two, at);
    let third = run_script::third_part(script, two, at);
    bytes(rt, first)?;
    behind(rt, order, second, third)?;
    Ok(end)
}

// The line of a call: its step stands at `at` in the script, its row at `row` in the report. Answers where the step
// ends.
fn line(
    rt: &impl Print,
    script: &[u8],
    two: bool,
    at: usize,
    report: &[u8],
    row: usize,
) -> io::Result<usize>
    requires { (at ≤ length script.now) × (row ≤ length report.now) }
    ensures { IfOk result (λ end. end ≤ length script.now) }
{
    if script.len() < at + run_script::step_head(two) {
        return Ok(script.len());
    }
    if report.len() < row + ROW_SIZE {
        return Ok(script.len());
    }
    let order = run_script::order_at(script, two, at);
    column(rt, (row / ROW_SIZE) as u64 + 1, 6)?;
    name(rt, order.kind)?;
    answer(
        rt,
        base_fields::le64(report, row),
        base_fields::le64(report, row + 8),
        base_fields::le64(report, row + 16),
    )?;
    column(rt, base_fields::le64(report, row + 24), 9)?;
    text(rt, b"  ")?;
    parts(rt, script, two, at, order)
}

pub fn calls(rt: &impl Print, script: &[u8], report: &[u8]) -> io::Result<()> {
    text(
        rt,
        b"    no  call    answer                              path     len   charge  on\n",
    )?;
    if script.len() < SCRIPT_HEAD {
        return Ok(());
    }
    let two = run_script::is_two(script);
    let mut at = SCRIPT_HEAD;
    for i in 0..report.len() / ROW_SIZE {
        if script.len() <= at {
            return Ok(());
        }
        at = line(rt, script, two, at, report, i * ROW_SIZE)?;
    }
    Ok(())
}
