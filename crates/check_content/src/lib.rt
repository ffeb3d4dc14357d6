// The checks of adding to a file and of writing inside it, in #103's order: 4 to 8 and 17 for the one, 5 and 18 for the
// other. Assumes a listing and a table that were checked, and for adding a path too (crate check_lent): only this
// repository's crates call. Each is a constant number of passes over table and listing.
#![tactic(auto)]

ghost use Rattle.std.specs.Prelude.{◌≡◌, true, false, length};
ghost use Rattle.std.proofs.Math.Option.{Option};
ghost use Rattle.model.specs.Bytes.{Bytes};
ghost use Rattle.model.specs.Path.{is_path};
ghost use Rattle.model.specs.Map.{lookup};
ghost use Rattle.model.specs.Tree.{Entry, Node, over};
ghost use Rattle.model.specs.Listing.{tree_in, is_listing};
ghost use Rattle.model.specs.Table.{is_table};
ghost use Rattle.model.specs.Content.{is_own, needed, append_checks, inside_checks};
ghost use Rattle.model.specs.Outcome.{Given, shown_in};
ghost use Rattle.table_entries.specs.Said.{said, said_of};
ghost use Rattle.check_judged.specs.Judged.{check_of};

use check_judged::Judged;
use check_one_path::Change;
use listing_records::Found;
use model::{Record, Refusal};
use table_entries::OverlayEntry;

// How many bytes the caller is to lend of what the listing has at a path: a file's size.
fn needed_listed(listing: &[u8], path: &[u8]) -> u64
    requires { is_listing listing.now ≡ true }
    ensures { result ≡ needed (lookup (tree_in listing.now) path.now) }
{
    match listing_dir::find(listing, path) {
        Some(Found::File(_, size)) => size,
        _ => 0,
    }
}

// How many bytes the caller is to lend of what is visible at a path: a reference's size, or without an entry a listed
// file's.
fn needed_bytes(listing: &[u8], table: &[u8], rec: Record, path: &[u8]) -> u64
    requires { Given listing.now table.now rec }
    ensures { result ≡ needed (shown_in listing.now table.now rec path.now) }
{
    match table_entries::get(table, rec, path) {
        Some(OverlayEntry::RealFileRef { size, .. }) => size,
        Some(_) => 0,
        None => needed_listed(listing, path),
    }
}

// append: 4 to 8 as a write has them, then 17, where `lent` bytes are lent.
pub fn append_checks(listing: &[u8], table: &[u8], rec: Record, path: &[u8], lent: u64) -> Judged
    requires given { Given listing.now table.now rec }
    requires path_value { is_path path.now ≡ true }
    ensures { (b : Bytes) → length b ≡ lent → check_of result ≡ append_checks (shown_in listing.now
        table.now rec) path.now b }
{
    check_one_path::change_checks(Change::Write, listing, table, rec, path)?;
    if lent != needed_bytes(listing, table, rec, path) {
        return Err(Refusal::LentCount);
    }
    Ok(())
}

// Whether what is visible is an own file, where the table has this entry, or none: a listing's node is none.
pub fn is_own(entry: Option<OverlayEntry>) -> bool
    ensures { (s : Bytes) (e : Option Entry) (n : Option Node) → said_of s entry ≡ said e → is_own n ≡ false → result
        ≡ is_own (over e n) }
{
    matches!(entry, Some(OverlayEntry::File { .. }))
}

// Writing inside: 5 for anything but an own file, then 18, where `added` bytes are written from `offset` on. The entry
// alone decides, over any listing.
pub fn inside_checks(table: &[u8], rec: Record, path: &[u8], offset: u64, added: u64) -> Judged
    requires { is_table table.now rec ≡ true }
    ensures { (l d : Bytes) → length d ≡ added → check_of result ≡ inside_checks (shown_in l table.now rec)
        path.now offset d }
{
    if !is_own(table_entries::get(table, rec, path)) {
        return Err(Refusal::NotFound(0, path.len() as u64));
    }
    if u64::MAX - added < offset {
        return Err(Refusal::RangeTooLarge);
    }
    Ok(())
}
