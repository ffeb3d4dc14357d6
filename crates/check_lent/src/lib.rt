// 1, 2 and 3, which every call begins with: the table with its record and the work buffer, the listing, the path.
// Any bytes are taken. `ready` is a constant number of passes over listing, table and path.
#![tactic(auto)]

ghost use Rattle.std.specs.Prelude.{◌≡◌, ◌&&◌, leb, length};
ghost use Rattle.model.specs.Listing.{is_listing};
ghost use Rattle.model.specs.Table.{is_table};
ghost use Rattle.model.specs.Checks.{◌then◌, unless, form};
ghost use Rattle.check_judged.specs.Judged.{check_of};

use check_judged::Judged;
use model::{Record, Refusal};

// 1 and 2: the table and its record, a work buffer of `room` bytes, the listing.
pub fn admitted(listing: &[u8], table: &[u8], rec: Record, room: usize) -> Judged
    ensures { check_of result ≡ (unless 1 (is_table table.now rec && leb (length table.now) room)
        then unless 2 (is_listing listing.now)) }
{
    if !table_open::check(table, rec) {
        return Err(Refusal::MalformedTable);
    }
    if room < table.len() {
        return Err(Refusal::MalformedTable);
    }
    if !listing_check::check(listing) {
        return Err(Refusal::MalformedListing);
    }
    Ok(())
}

// 3, for the path `which`.
pub fn check_path(path: &[u8], which: u64) -> Judged
    ensures { check_of result ≡ form which path.now }
{
    if base_paths::is_path(path) {
        return Ok(());
    }
    Err(Refusal::MalformedPath(which))
}

// 3 for a call with two paths, source before destination.
pub fn check_paths(source: &[u8], destination: &[u8]) -> Judged
    ensures { check_of result ≡ (form 0 source.now then form 1 destination.now) }
{
    check_path(source, 0)?;
    check_path(destination, 1)
}

// 1, 2 and 3 for a call with one path.
pub fn ready(listing: &[u8], table: &[u8], rec: Record, room: usize, path: &[u8]) -> Judged
    ensures { check_of result ≡ (unless 1 (is_table table.now rec && leb (length table.now) room)
        then unless 2 (is_listing listing.now) then form 0 path.now) }
{
    admitted(listing, table, rec, room)?;
    check_path(path, 0)
}
