// Adding to a file and writing inside it, #103: append_bytes of overlay.rs, append_file and write_file_at of
// overlay_state.rs. Any bytes can be given as listing, table, work buffer, path, data and lent bytes, and any numbers
// as record, mtime, offset and limit. Each has an inner form, named *_admitted, that assumes a listing and a table that
// were checked and a work buffer that is not shorter than the table: for these 1 and 2 are not asked again. A refused
// call leaves all as it was; an accepted one leaves the work buffer all 0. Each is a constant number of passes over
// what it is lent.
#![tactic(auto)]

ghost use Rattle.std.specs.Prelude.{◌≡◌, true, false, [], ◌++◌, ℕ, ◌+◌, ◌≤◌, leb, eqb, length};
ghost use Rattle.std.proofs.Math.Option.{some};
ghost use Rattle.model.specs.Bytes.{Bytes, before};
ghost use Rattle.model.specs.Map.{lookup, put};
ghost use Rattle.model.specs.Tree.{own};
ghost use Rattle.model.specs.Table.{table_in, is_table};
ghost use Rattle.model.specs.Checks.{pass, limited};
ghost use Rattle.model.specs.Content.{is_own, needed, appended, append_memory};
ghost use Rattle.model.specs.Calls as calls;
ghost use Rattle.model.specs.Outcome.{Given, shown_in, outcome};
ghost use Rattle.table_entries.specs.Place.{Sought};
ghost use Rattle.table_splice.specs.Splice.{is_own_file};
ghost use Rattle.check_judged.specs.Judged.{check_of};
ghost use Rattle.call_answer.specs.Meets.{requested, stored, Meets};
ghost use Rattle.call_content.specs.Judged.{append_judged, inside_judged};
ghost use Rattle.call_content.specs.Leaves.{Leaves};

use check_judged::Judged;
use model::{Answered, Record, Refusal};
use table_entries::Place;
use table_insert::InsertError;
use table_splice::insert_parts;

// Whether `len` bytes are within what the charge leaves of the limit; equal passes.
fn check_budget(charge: u64, len: u64, limit: u64) -> bool
    ensures { result ≡ leb (charge + len) limit }
{
    base_budget::available_memory(charge, limit).is_ok_and(|budget| budget.check(len))
}

// 11 by append's own budget: unless the file is an own one, its whole new content of `len` bytes is to be within it.
fn append_memory(table: &[u8], rec: Record, path: &[u8], len: u64, limit: u64) -> Judged
    requires { is_table table.now rec ≡ true }
    ensures { (l : Bytes) (n : ℕ) → (is_own (shown_in l table.now rec path.now) ≡ false → n
        ≡ len) → check_of result ≡ append_memory (limited rec.entry_size limit) (table_in table.now rec)
        (shown_in l table.now rec path.now) n }
{
    let entry = table_entries::get(table, rec, path);
    if check_content::is_own(entry) {
        return Ok(());
    }
    let charge = table_insert::memory_usage(table, rec);
    if check_budget(charge, len, limit) {
        return Ok(());
    }
    Err(Refusal::Limit)
}

// append: 3 to 8, 17, and 11 by its own budget. A path that passes is neither the root nor too long for a key.
fn append_judge(
    listing: &[u8],
    table: &[u8],
    rec: Record,
    path: &[u8],
    data: &[u8],
    lent: &[u8],
    limit: u64,
) -> Judged
    requires { Given listing.now table.now rec }
    ensures result_value { check_of result ≡ append_judged listing.now table.now rec limit
        «data».now lent.now path.now }
    ensures path_value { check_of result ≡ pass → (before [] path.now ≡ true)
        × (length path.now ≤ 512) }
{
    check_lent::check_path(path, 0)?;
    let held = lent.len() as u64;
    check_content::append_checks(listing, table, rec, path, held)?;
    append_memory(table, rec, path, held + data.len() as u64, limit)
}

// Writing inside: 3, 5 and 18, where `added` bytes are written from `offset` on. A path that passes is neither the root
// nor too long for a key.
fn inside_judge(table: &[u8], rec: Record, path: &[u8], offset: u64, added: u64) -> Judged
    requires { is_table table.now rec ≡ true }
    ensures result_value { (l d : Bytes) → length d ≡ added → check_of result ≡ inside_judged l table.now rec offset d
        path.now }
    ensures path_value { check_of result ≡ pass → (before [] path.now ≡ true)
        × (length path.now ≤ 512) }
{
    check_lent::check_path(path, 0)?;
    check_content::inside_checks(table, rec, path, offset, added)
}

// The data behind the content of the own file whose entry stands at the place, if the charge then is within the limit
// and the table then fits its buffer; else all stays as it is.
fn append_file(
    table: &mut [u8],
    work: &mut [u8],
    rec: Record,
    path: &[u8],
    mtime: u64,
    place: Place,
    data: &[u8],
    limit: u64,
) -> Result<Record, InsertError>
    requires rec_value { is_table table.old rec ≡ true }
    requires path_value { (before [] path.now ≡ true) × (length path.now ≤ 512)
        × (length table.old ≤ length work.old) }
    requires sought { Sought table.old path.now rec.count 0 place.left place.at }
    requires path_value_2 { is_own_file (lookup (table_in table.old rec) path.now) ≡ true }
    ensures { (m : ℕ) (c : Bytes) → lookup (table_in table.old rec) path.now
        ≡ some (own m c) → Leaves rec.entry_size limit table.old work.old
        (put path.now (own mtime (c ++ «data».now)) (table_in table.old rec)) result
        table.new work.new }
{
    let content = table_entries::entry_body(table, place);
    let end = content.len() as u64;
    insert_parts(table, work, rec, path, mtime, place, end, data, limit)
}

// The data behind what the file at the path holds: an own file's content, or else the lent bytes.
fn insert_appended(
    table: &mut [u8],
    work: &mut [u8],
    rec: Record,
    path: &[u8],
    mtime: u64,
    data: &[u8],
    lent: &[u8],
    limit: u64,
) -> Result<Record, InsertError>
    requires rec_value { is_table table.old rec ≡ true }
    requires path_value { (before [] path.now ≡ true) × (length path.now ≤ 512)
        × (length table.old ≤ length work.old) }
    ensures { (l : Bytes) → eqb (length lent.now) (needed (shown_in l table.old rec
        path.now)) ≡ true → Leaves rec.entry_size limit table.old work.old
        (put path.now (own mtime (appended (shown_in l table.old rec path.now)
        «data».now lent.now)) (table_in table.old rec)) result table.new
        work.new }
{
    let first = table_entries::first_entry(table, rec);
    let got = table_entries::get_from(table, first, path);
    if check_content::is_own(got.entry) {
        return append_file(table, work, rec, path, mtime, got.place, data, limit);
    }
    table_splice::insert_lent(table, work, rec, path, mtime, lent, data, limit)
}

// The data behind what the file at the path holds, which the caller lends of a listed one; the file is an own one then,
// with this mtime. Accepted, it answers the data's length.
pub fn append_bytes(
    listing: &[u8],
    table: &mut [u8],
    rec: Record,
    work: &mut [u8],
    path: &[u8],
    mtime: u64,
    data: &[u8],
    lent: &[u8],
    limit: u64,
) -> Answered
    ensures { Meets (outcome listing.now (requested (calls.append path.now mtime
        «data».now lent.now) limit work.old) (stored table.old rec)) result
        table.new work.new }
{
    let admitted = check_lent::admitted(listing, table, rec, work.len());
    match admitted {
        Err(refusal) => call_answer::refused(refusal, rec),
        Ok(()) => append_bytes_admitted(listing, table, rec, work, path, mtime, data, lent, limit),
    }
}

// append_bytes behind 1 and 2.
pub fn append_bytes_admitted(
    listing: &[u8],
    table: &mut [u8],
    rec: Record,
    work: &mut [u8],
    path: &[u8],
    mtime: u64,
    data: &[u8],
    lent: &[u8],
    limit: u64,
) -> Answered
    requires given { Given listing.now table.old rec }
    requires table_in_bounds { length table.old ≤ length work.old }
    ensures { Meets (outcome listing.now (requested (calls.append path.now mtime
        «data».now lent.now) limit work.old) (stored table.old rec)) result
        table.new work.new }
{
    let judged = append_judge(listing, table, rec, path, data, lent, limit);
    match judged {
        Err(refusal) => call_answer::refused(refusal, rec),
        Ok(()) => {
            let inserted = insert_appended(table, work, rec, path, mtime, data, lent, limit);
            call_answer::answered(inserted, rec, data.len() as u64)
        }
    }
}

// The data written into the own file at the path, from the offset on: over what stands there, and behind zeros where
// the content ends before the offset. Accepted, it answers the data's length.
pub fn write_file_at(
    listing: &[u8],
    table: &mut [u8],
    rec: Record,
    work: &mut [u8],
    path: &[u8],
    mtime: u64,
    offset: u64,
    data: &[u8],
    limit: u64,
) -> Answered
    ensures { Meets (outcome listing.now (requested (calls.write_inside path.now mtime
        offset «data».now) limit work.old) (stored table.old rec)) result
        table.new work.new }
{
    let admitted = check_lent::admitted(listing, table, rec, work.len());
    match admitted {
        Err(refusal) => call_answer::refused(refusal, rec),
        Ok(()) => write_file_at_admitted(
            listing, table, rec, work, path, mtime, offset, data, limit,
        ),
    }
}

// write_file_at behind 1 and 2.
pub fn write_file_at_admitted(
    listing: &[u8],
    table: &mut [u8],
    rec: Record,
    work: &mut [u8],
    path: &[u8],
    mtime: u64,
    offset: u64,
    data: &[u8],
    limit: u64,
) -> Answered
    requires given { Given listing.now table.old rec }
    requires table_in_bounds { length table.old ≤ length work.old }
    ensures { Meets (outcome listing.now (requested (calls.write_inside path.now mtime
        offset «data».now) limit work.old) (stored table.old rec)) result
        table.new work.new }
{
    let added = data.len() as u64;
    let judged = inside_judge(table, rec, path, offset, added);
    match judged {
        Err(refusal) => call_answer::refused(refusal, rec),
        Ok(()) => {
            let first = table_entries::first_entry(table, rec);
            let place = table_entries::seek(table, first, path);
            let inserted = insert_parts(table, work, rec, path, mtime, place, offset, data, limit);
            call_answer::answered(inserted, rec, added)
        }
    }
}
