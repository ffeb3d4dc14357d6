// Running a script: its calls one after another, each answer told as a row of the report.
// All bytes are taken as script, listing, table, work buffer and report, and any record.
// A run costs the check of the script, and what its calls cost.
#![tactic(auto)]

ghost use Rattle.std.specs.Prelude.{◌≡◌, true, ◌++◌, ◌+◌, ◌*◌, ◌≤◌, length, Ok};
ghost use Rattle.model.specs.Bytes.{bytes};
ghost use Rattle.model.specs.Answer.{told};
ghost use Rattle.model.specs.Outcome.{outcome};
ghost use Rattle.model.specs.Runs.{begin};
ghost use Rattle.model.specs.declared.Record as model;
ghost use Rattle.base_fields.specs.Write.{overwritten};
ghost use Rattle.call_answer.specs.Meets.{stored, Meets};
ghost use Rattle.call_values.specs.Values.{row_of};
ghost use Rattle.run_script.specs.Script.{step_head, step_end, step_at, step_count, steps_in, is_script};
ghost use Rattle.run_calls.specs.Runs.{request_of, requests, row_bytes, ran_on, ran_new, left_after, Gives};
ghost use Rattle.run_calls.specs.Runs.{Holds, Finished};

use model::{Answered, Record};
use run_script::ROW_SIZE;

// Why a script is not run. Where it is, a run answers the record after its last call.
#[derive(Clone, Copy, Debug, PartialEq, Eq)]
pub enum RunError {
    MalformedTable,
    MalformedScript,
    ShortReport,
}

fn put_pair(report: &mut [u8], at: usize, a: u64, b: u64)
    requires { at + 16 ≤ length report.old }
    ensures { report.new ≡ overwritten report.old at (bytes 8 a ++ bytes 8 b) }
{
    base_fields::put64(report, at, a);
    base_fields::put64(report, at + 8, b);
}

// A call's row, from `at` on: its answer, and the charge after it.
fn put_row(report: &mut [u8], at: usize, answered: Answered, charge: u64)
    requires { at + 32 ≤ length report.old }
    ensures { report.new ≡ overwritten report.old at
        (row_bytes (row_of (told answered.answer)) charge) }
{
    let row = call_values::told(answered.answer);
    put_pair(report, at, row.number, row.path);
    put_pair(report, at + 16, row.len, charge);
}

// Makes the call of the step at `at`; `two` says that the script's mark is TSC2.
fn run_step(
    listing: &[u8],
    table: &mut [u8],
    rec: Record,
    work: &mut [u8],
    script: &[u8],
    two: bool,
    at: usize,
) -> Answered
    requires { (at + step_head two ≤ length script.now) × (step_end two script.now at ≤ length script.now) }
    ensures { Meets (outcome listing.now (request_of (step_at two script.now at)
        work.old) (stored table.old rec)) result table.new work.new }
{
    let order = run_script::order_at(script, two, at);
    let first = run_script::first_part(script, two, at);
    let second = run_script::second_part(script, two, at);
    let third = run_script::third_part(script, two, at);
    call_order::make(listing, table, rec, work, first, second, third, order)
}

// Makes the calls of a script, one after another, each with the table, the record and the work buffer that the one
// before it left.
fn run_steps(
    listing: &[u8],
    table: &mut [u8],
    rec: Record,
    work: &mut [u8],
    script: &[u8],
    report: &mut [u8],
) -> Record
    requires script_value { is_script script.now ≡ true }
    requires script_in_bounds { 32 * step_count script.now ≤ length report.old }
    ensures { Finished (left_after listing.now (steps_in script.now)
        (stored table.old rec) work.old) report.old result table.new
        work.new report.new }
{
    let two = run_script::is_two(script);
    let mut last = rec;
    let count = base_fields::le32(script, 4);
    let mut place = run_script::SCRIPT_HEAD;
    let mut row = 0;
    for _ in 0..count {
        let answered = run_step(listing, table, last, work, script, two, place);
        put_row(report, row, answered, answered.record.charge);
        last = answered.record;
        place = run_script::end_of(script, two, place);
        row += ROW_SIZE;
    }
    last
}

// Runs the script on a table with its record: the calls in their order, and for each a row in the report. A malformed
// script, or a report without a row for each call, changes nothing.
pub fn run(
    listing: &[u8],
    table: &mut [u8],
    rec: Record,
    work: &mut [u8],
    script: &[u8],
    report: &mut [u8],
) -> Result<Record, RunError>
    ensures { Gives (ran_on listing.now (stored table.old rec) work.old
        script.now report.old) result table.new work.new report.new }
{
    if !run_script::check(script) {
        return Err(RunError::MalformedScript);
    }
    if !run_script::has_rows(script, report.len()) {
        return Err(RunError::ShortReport);
    }
    Ok(run_steps(listing, table, rec, work, script, report))
}

// Opens the buffer as an empty table for entries of this size, and runs the script on it. Where it is done, demand 3 of
// document 01 holds of its calls. A refused opening changes nothing; a malformed script or a short report leaves the
// table opened, and empty.
pub fn run_new(
    listing: &[u8],
    entry_size: u64,
    table: &mut [u8],
    work: &mut [u8],
    script: &[u8],
    report: &mut [u8],
) -> Result<Record, RunError>
    ensures gives { Gives (ran_new listing.now entry_size table.old work.old
        script.now report.old) result table.new work.new report.new }
    ensures holds { (last : model.Record) → result ≡ Ok last → Holds listing.now
        (begin listing.now entry_size table.old) (requests listing.now
        (steps_in script.now) (begin listing.now entry_size table.old).store
        work.old) (stored table.new last) }
{
    let opened = table_open::open(table, entry_size);
    match opened.answer {
        Err(_) => Err(RunError::MalformedTable),
        Ok(_) => run(listing, table, opened.record, work, script, report),
    }
}
