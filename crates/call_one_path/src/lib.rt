// The calls of document 01 that change one entry: write_bytes, unlink and rmdir of overlay.rs. Any bytes can be given
// as listing, table, work buffer, path and data, and any numbers as record, mtime and limit. Each has an inner form,
// named *_admitted, that assumes a listing and a table that were checked and a work buffer that is not shorter than the
// table: for these 1 and 2 are not asked again. A refused call leaves all as it was; an accepted one leaves the work
// buffer all 0. Each is a constant number of passes over what it is lent.
#![tactic(auto)]

ghost use Rattle.std.specs.Prelude.{◌≡◌, true, [], ◌≤◌, length};
ghost use Rattle.model.specs.Bytes.{before};
ghost use Rattle.model.specs.Listing.{tree_in};
ghost use Rattle.model.specs.Table.{table_in};
ghost use Rattle.model.specs.Checks.{pass, ◌then◌, form};
ghost use Rattle.model.specs.Calls as calls;
ghost use Rattle.model.specs.Outcome.{Given, outcome};
ghost use Rattle.check_judged.specs.Judged.{check_of};
ghost use Rattle.check_one_path.specs.Change.{change_checks};
ghost use Rattle.call_answer.specs.Meets.{requested, stored, Meets};
ghost use Rattle.call_one_path.specs.Called.{call_of, brings, kind_put};

use check_judged::Judged;
use check_one_path::Change;
use model::{Answered, DELETED, OWN_FILE, Record};
use table_insert::insert;

// 3 to 10. A path that passes is neither the root nor too long for a key.
fn judge(change: Change, listing: &[u8], table: &[u8], rec: Record, path: &[u8]) -> Judged
    requires { Given listing.now table.now rec }
    ensures result_value { check_of result ≡ (form 0 path.now then change_checks change
        (table_in table.now rec) (tree_in listing.now) path.now) }
    ensures path_value { check_of result ≡ pass → (before [] path.now ≡ true)
        × (length path.now ≤ 512) }
{
    check_lent::check_path(path, 0)?;
    check_one_path::change_checks(change, listing, table, rec, path)
}

// The kind of the entry that the call puts: unlink and rmdir leave a deleted one.
fn kind_put(change: Change) -> u64
    ensures { result ≡ kind_put change }
{
    match change {
        Change::Write => OWN_FILE,
        Change::Unlink => DELETED,
        Change::Rmdir => DELETED,
    }
}

// The call behind 1 and 2: refused by 3 to 10, or answered as the insertion of its entry is. Only a write brings an
// mtime and data; the data's length is what it answers.
fn change_admitted(
    change: Change,
    listing: &[u8],
    table: &mut [u8],
    rec: Record,
    work: &mut [u8],
    path: &[u8],
    mtime: u64,
    data: &[u8],
    limit: u64,
) -> Answered
    requires given { Given listing.now table.old rec }
    requires table_in_bounds { length table.old ≤ length work.old }
    requires data_value { brings change mtime «data».now ≡ true }
    ensures { Meets (outcome listing.now (requested (call_of change path.now mtime
        «data».now) limit work.old) (stored table.old rec)) result table.new
        work.new }
{
    let judged = judge(change, listing, table, rec, path);
    match judged {
        Err(refusal) => call_answer::refused(refusal, rec),
        Ok(()) => {
            let kind = kind_put(change);
            let inserted = insert(table, work, rec, path, kind, mtime, 0, data, limit);
            call_answer::answered(inserted, rec, data.len() as u64)
        }
    }
}

// The call with any bytes: 1 and 2, and all else behind them.
fn change_any(
    change: Change,
    listing: &[u8],
    table: &mut [u8],
    rec: Record,
    work: &mut [u8],
    path: &[u8],
    mtime: u64,
    data: &[u8],
    limit: u64,
) -> Answered
    requires { brings change mtime «data».now ≡ true }
    ensures { Meets (outcome listing.now (requested (call_of change path.now mtime
        «data».now) limit work.old) (stored table.old rec)) result table.new
        work.new }
{
    let admitted = check_lent::admitted(listing, table, rec, work.len());
    match admitted {
        Err(refusal) => call_answer::refused(refusal, rec),
        Ok(()) => change_admitted(change, listing, table, rec, work, path, mtime, data, limit),
    }
}

// The data becomes the content of the path's own file, with this mtime; accepted, it answers the data's length.
pub fn write_bytes(
    listing: &[u8],
    table: &mut [u8],
    rec: Record,
    work: &mut [u8],
    path: &[u8],
    mtime: u64,
    data: &[u8],
    limit: u64,
) -> Answered
    ensures { Meets (outcome listing.now (requested (calls.write path.now mtime
        «data».now) limit work.old) (stored table.old rec)) result table.new
        work.new }
{
    let call = Change::Write;
    change_any(call, listing, table, rec, work, path, mtime, data, limit)
}

// write_bytes behind 1 and 2.
pub fn write_bytes_admitted(
    listing: &[u8],
    table: &mut [u8],
    rec: Record,
    work: &mut [u8],
    path: &[u8],
    mtime: u64,
    data: &[u8],
    limit: u64,
) -> Answered
    requires given { Given listing.now table.old rec }
    requires table_in_bounds { length table.old ≤ length work.old }
    ensures { Meets (outcome listing.now (requested (calls.write path.now mtime
        «data».now) limit work.old) (stored table.old rec)) result table.new
        work.new }
{
    let call = Change::Write;
    change_admitted(call, listing, table, rec, work, path, mtime, data, limit)
}

// The path shows nothing from now on: its entry is a deleted one.
pub fn unlink(
    listing: &[u8],
    table: &mut [u8],
    rec: Record,
    work: &mut [u8],
    path: &[u8],
    limit: u64,
) -> Answered
    ensures { Meets (outcome listing.now (requested (calls.unlink path.now) limit
        work.old) (stored table.old rec)) result table.new work.new }
{
    let call = Change::Unlink;
    let none = &path[..0];
    change_any(call, listing, table, rec, work, path, 0, none, limit)
}

// unlink behind 1 and 2.
pub fn unlink_admitted(
    listing: &[u8],
    table: &mut [u8],
    rec: Record,
    work: &mut [u8],
    path: &[u8],
    limit: u64,
) -> Answered
    requires given { Given listing.now table.old rec }
    requires table_in_bounds { length table.old ≤ length work.old }
    ensures { Meets (outcome listing.now (requested (calls.unlink path.now) limit
        work.old) (stored table.old rec)) result table.new work.new }
{
    let call = Change::Unlink;
    let none = &path[..0];
    change_admitted(call, listing, table, rec, work, path, 0, none, limit)
}

// The same for an empty directory.
pub fn rmdir(
    listing: &[u8],
    table: &mut [u8],
    rec: Record,
    work: &mut [u8],
    path: &[u8],
    limit: u64,
) -> Answered
    ensures { Meets (outcome listing.now (requested (calls.rmdir path.now) limit
        work.old) (stored table.old rec)) result table.new work.new }
{
    let call = Change::Rmdir;
    let none = &path[..0];
    change_any(call, listing, table, rec, work, path, 0, none, limit)
}

// rmdir behind 1 and 2.
pub fn rmdir_admitted(
    listing: &[u8],
    table: &mut [u8],
    rec: Record,
    work: &mut [u8],
    path: &[u8],
    limit: u64,
) -> Answered
    requires given { Given listing.now table.old rec }
    requires table_in_bounds { length table.old ≤ length work.old }
    ensures { Meets (outcome listing.now (requested (calls.rmdir path.now) limit
        work.old) (stored table.old rec)) result table.new work.new }
{
    let call = Change::Rmdir;
    let none = &path[..0];
    change_admitted(call, listing, table, rec, work, path, 0, none, limit)
}
