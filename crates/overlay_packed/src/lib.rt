// An answer packed in one number, a record in four lent numbers, where a listing stands in two, and a report in two,
// for the exported calls. Assumes four numbers and two, and an answer whose parts fit: only this repository's crates
// call.
#![tactic(auto)]

ghost use Rattle.std.specs.Prelude.{◌≡◌, true, false, [], ◌∷◌, length};
ghost use Rattle.model.specs.Answer.{refused, told, told_finding};
ghost use Rattle.least_rename.specs.Reports.{told_report};
ghost use Rattle.kept_file.specs.Kept.{told_writing, told_reading, told_content};
ghost use Rattle.overlay_packed.specs.Packed.{packed, Fits, if_accepted, numbers, record_in, report_numbers};
ghost use Rattle.overlay_packed.specs.Packed.{ran_number, ran_numbers, place_of, content_numbers, content_place};

use call_values::Row;
use kept_file::{Content, ReadError, WriteError};
use least_rename::Least;
use model::{Answer, Answered, Finding, Record, Refusal};
use run_calls::RunError;

// An answer's number stands in the lowest 8 bits, its path in the next 8, its length or value above: what one of each
// counts.
const PATH_UNIT: u64 = 256;

const VALUE_UNIT: u64 = 65_536;

// Document 01's 1, packed: also the answer where a record is not four numbers.
pub const MALFORMED_TABLE: u64 = 1;

// The other numbers of the writer and the reader of kept files, packed.
const MALFORMED_LISTING: u64 = 2;

const NO_ROOM: u64 = 13;

const NOT_KEPT: u64 = 14;

const DAMAGED: u64 = 15;

const OTHER_ENTRY_SIZE: u64 = 16;

// What a run answers besides where it is not done. No call answers one of these, and later numbers of calls come from
// below.
const MALFORMED_SCRIPT: u64 = 254;

const SHORT_REPORT: u64 = 255;

// The record that four numbers are.
pub fn record_in(rec: &[u64]) -> Record
    requires { length rec.now ≡ 4 }
    ensures { result ≡ record_in rec.now }
{
    Record {
        used: rec[0],
        count: rec[1],
        charge: rec[2],
        entry_size: rec[3],
    }
}

// The four numbers become those of `after`.
fn store(rec: &mut [u64], after: Record)
    requires { length rec.old ≡ 4 }
    ensures { rec.new ≡ numbers after }
{
    rec[0] = after.used;
    rec[1] = after.count;
    rec[2] = after.charge;
    rec[3] = after.entry_size;
}

// A row in one number.
fn pack(row: Row) -> u64
    requires { Fits (refused row.number row.path row.len) }
    ensures { result ≡ packed (refused row.number row.path row.len) }
{
    row.number + PATH_UNIT * row.path + VALUE_UNIT * row.len
}

// A query's answer in one number.
pub fn pack_finding(finding: Finding) -> u64
    requires { Fits (told_finding finding) }
    ensures { result ≡ packed (told_finding finding) }
{
    match finding {
        Ok(true) => VALUE_UNIT,
        Ok(false) => 0,
        Err(refusal) => pack(call_values::told_refusal(refusal)),
    }
}

// The answer of a changing call, or of showing a directory, in one number.
pub fn pack_answer(answer: Answer) -> u64
    requires { Fits (told answer) }
    ensures { result ≡ packed (told answer) }
{
    pack(call_values::told(answer))
}

fn is_accepted(answer: Answer) -> bool
    ensures { result ≡ if_accepted (told answer) true false }
{
    match answer {
        Ok(_) => true,
        Err(_) => false,
    }
}

// The answer in one number. The record is stored where the call is accepted, and nowhere else.
pub fn store_and_pack(rec: &mut [u64], answered: Answered) -> u64
    requires rec_len { length rec.old ≡ 4 }
    requires fits { Fits (told answered.answer) }
    ensures value { result ≡ packed (told answered.answer) }
    ensures rec_after { rec.new ≡ if_accepted (told answered.answer) (numbers answered.«record»)
        rec.old }
{
    let answer = answered.answer;
    let after = answered.record;
    if is_accepted(answer) {
        store(rec, after);
        return pack_answer(answer);
    }
    pack_answer(answer)
}

// A run in one number. The last record is stored where the run is done; where the script is not run, `first`, the
// record that the table has before the first call.
pub fn store_and_pack_run(rec: &mut [u64], ran: Result<Record, RunError>, first: Record) -> u64
    requires { length rec.old ≡ 4 }
    ensures value { result ≡ ran_number ran }
    ensures rec_after { rec.new ≡ ran_numbers ran (numbers first) rec.old }
{
    match ran {
        Ok(last) => {
            store(rec, last);
            0
        }
        Err(RunError::MalformedTable) => MALFORMED_TABLE,
        Err(RunError::MalformedScript) => {
            store(rec, first);
            MALFORMED_SCRIPT
        }
        Err(RunError::ShortReport) => {
            store(rec, first);
            SHORT_REPORT
        }
    }
}

// A writing's answer in one number.
pub fn pack_writing(writing: Result<u64, WriteError>) -> u64
    requires { Fits (told_writing writing) }
    ensures { result ≡ packed (told_writing writing) }
{
    match writing {
        Ok(len) => VALUE_UNIT * len,
        Err(WriteError::MalformedTable) => MALFORMED_TABLE,
        Err(WriteError::MalformedListing) => MALFORMED_LISTING,
        Err(WriteError::OtherEntrySize) => OTHER_ENTRY_SIZE,
        Err(WriteError::NoRoom) => NO_ROOM,
    }
}

// Two numbers stored.
fn store_two(pair: &mut [u64], first: u64, second: u64)
    requires { length pair.old ≡ 2 }
    ensures { pair.new ≡ first ∷ second ∷ [] }
{
    pair[0] = first;
    pair[1] = second;
}

// What a file holds, in four numbers and two.
fn store_content(rec: &mut [u64], place: &mut [u64], content: Content)
    requires { (length rec.old ≡ 4) × (length place.old ≡ 2) }
    ensures rec_after { rec.new ≡ numbers content.«record» }
    ensures place_after { place.new ≡ place_of content }
{
    store(rec, content.record);
    store_two(
        place,
        content.listing_start as u64,
        content.listing_len as u64,
    );
}

// A reading's answer in one number. The record and the listing's place are stored where the reading is accepted, and
// nowhere else.
pub fn store_and_pack_reading(
    rec: &mut [u64],
    place: &mut [u64],
    reading: Result<Content, ReadError>,
) -> u64
    requires { (length rec.old ≡ 4) × (length place.old ≡ 2) }
    ensures value { result ≡ packed (told_reading reading) }
    ensures rec_after { rec.new ≡ content_numbers (told_content reading) rec.old }
    ensures place_after { place.new ≡ content_place (told_content reading) place.old }
{
    match reading {
        Ok(content) => {
            store_content(rec, place, content);
            0
        }
        Err(ReadError::LongTable) => MALFORMED_TABLE,
        Err(ReadError::NotKept) => NOT_KEPT,
        Err(ReadError::Damaged) => DAMAGED,
        Err(ReadError::NoRoom) => NO_ROOM,
    }
}

// A report in one number. The least limit and the least length are stored where there are any, else 0 and 0; nothing
// is stored where it is refused.
pub fn store_and_pack_report(least: &mut [u64], report: Result<Option<Least>, Refusal>) -> u64
    requires least_len { length least.old ≡ 2 }
    requires fits { Fits (told_report report) }
    ensures value { result ≡ packed (told_report report) }
    ensures least_after { least.new ≡ report_numbers report least.old }
{
    match report {
        Ok(Some(Least { limit, len })) => {
            store_two(least, limit, len);
            VALUE_UNIT
        }
        Ok(None) => {
            store_two(least, 0, 0);
            0
        }
        Err(refusal) => pack(call_values::told_refusal(refusal)),
    }
}
