// The checks of write, unlink and rmdir from 4 to 10, in document 01's order.
// Assumes a listing, a table and a path that were checked (crate check_lent): only this repository's crates call.
// Each check is a constant number of passes over table and listing.
#![tactic(auto)]

ghost use Rattle.std.specs.Prelude.{◌≡◌, true};
ghost use Rattle.model.specs.Path.{is_path};
ghost use Rattle.model.specs.Listing.{tree_in};
ghost use Rattle.model.specs.Table.{table_in};
ghost use Rattle.model.specs.Checks.{write_at, unlink_at, directory_at, rmdir_checks, no_visible_child};
ghost use Rattle.model.specs.Outcome.{Given, shown_in};
ghost use Rattle.view_at.specs.Sight.{visible_kind};
ghost use Rattle.check_judged.specs.Judged.{check_of};
ghost use Rattle.check_one_path.specs.Change.{target_at, visible_checks, entry_checks, change_checks};

use check_judged::Judged;
use model::{Record, Refusal};
use view_at::Visible;

// The calls that change one entry.
#[derive(Clone, Copy)]
pub enum Change {
    Write,
    Unlink,
    Rmdir,
}

// What a write gives where this is visible at its path of `len` bytes.
fn reject_directory_target(visible: Option<Visible>, len: u64) -> Judged
    ensures { check_of result ≡ write_at len (visible_kind visible) }
{
    match visible {
        None => Ok(()),
        Some(Visible::Directory) => Err(Refusal::IsADirectory(0, len)),
        Some(Visible::File) => Ok(()),
        Some(Visible::Link) => Err(Refusal::LinkOrRoot(0, len)),
    }
}

// What unlink gives where this is visible at its path of `len` bytes.
fn unlink_target(visible: Option<Visible>, len: u64) -> Judged
    ensures { check_of result ≡ unlink_at len (visible_kind visible) }
{
    match visible {
        None => Err(Refusal::NotFound(0, len)),
        Some(Visible::Directory) => Err(Refusal::IsADirectory(0, len)),
        Some(Visible::File) => Ok(()),
        Some(Visible::Link) => Err(Refusal::LinkOrRoot(0, len)),
    }
}

// What a call that asks for a directory gives where this is visible at its path of `len` bytes.
pub fn check_directory(visible: Option<Visible>, len: u64) -> Judged
    ensures { check_of result ≡ directory_at len (visible_kind visible) }
{
    match visible {
        None => Err(Refusal::NotFound(0, len)),
        Some(Visible::Directory) => Ok(()),
        Some(Visible::File) => Err(Refusal::NotADirectory(0, len)),
        Some(Visible::Link) => Err(Refusal::LinkOrRoot(0, len)),
    }
}

// What the call gives where this is visible at its path of `len` bytes.
fn check_target(change: Change, visible: Option<Visible>, len: u64) -> Judged
    ensures { check_of result ≡ target_at change len (visible_kind visible) }
{
    match change {
        Change::Write => reject_directory_target(visible, len),
        Change::Unlink => unlink_target(visible, len),
        Change::Rmdir => check_directory(visible, len),
    }
}

// The parents, then what is visible at the path.
fn visible_checks(change: Change, listing: &[u8], table: &[u8], rec: Record, path: &[u8]) -> Judged
    requires given { Given listing.now table.now rec }
    requires path_value { is_path path.now ≡ true }
    ensures { check_of result ≡ visible_checks change (shown_in listing.now table.now rec)
        path.now }
{
    check_parents::ensure_parent_exists(listing, table, rec, path, 0)?;
    let visible = view_at::visible_at(listing, table, rec, path);
    check_target(change, visible, path.len() as u64)
}

// unlink and rmdir go by the path's own entry, and ask the parents only without one.
fn entry_checks(change: Change, listing: &[u8], table: &[u8], rec: Record, path: &[u8]) -> Judged
    requires given { Given listing.now table.now rec }
    requires path_value { is_path path.now ≡ true }
    ensures { check_of result ≡ entry_checks change (table_in table.now rec) (tree_in listing.now)
        path.now }
{
    match table_entries::get(table, rec, path) {
        Some(entry) => check_target(change, view_at::of_entry(entry), path.len() as u64),
        None => visible_checks(change, listing, table, rec, path),
    }
}

// 9, for the path `which`: a directory that has a visible child.
pub fn check_empty(listing: &[u8], table: &[u8], rec: Record, path: &[u8], which: u64) -> Judged
    requires { Given listing.now table.now rec }
    ensures { check_of result ≡ no_visible_child which (table_in table.now rec) (tree_in listing.now)
        path.now }
{
    if view_children::has_visible_children(listing, table, rec, path) {
        return Err(Refusal::NotEmpty(which, path.len() as u64));
    }
    Ok(())
}

// rmdir: root 4; its entry (file 7, deleted 5), else parents, link 4, 5 or 7; 9.
fn rmdir_checks(listing: &[u8], table: &[u8], rec: Record, path: &[u8]) -> Judged
    requires given { Given listing.now table.now rec }
    requires path_value { is_path path.now ≡ true }
    ensures { check_of result ≡ rmdir_checks (table_in table.now rec) (tree_in listing.now)
        path.now }
{
    if path.len() == 0 {
        return Err(Refusal::LinkOrRoot(0, 0));
    }
    entry_checks(Change::Rmdir, listing, table, rec, path)?;
    check_empty(listing, table, rec, path, 0)
}

// 4 to 10. write: parents; 8 on a directory; 4 on a link. unlink: an own file or reference passes; a directory entry is
// 8; deleted is 5; else parents, then 4, 8 or 5.
pub fn change_checks(
    change: Change,
    listing: &[u8],
    table: &[u8],
    rec: Record,
    path: &[u8],
) -> Judged
    requires given { Given listing.now table.now rec }
    requires path_value { is_path path.now ≡ true }
    ensures { check_of result ≡ change_checks change (table_in table.now rec) (tree_in listing.now)
        path.now }
{
    match change {
        Change::Write => visible_checks(change, listing, table, rec, path),
        Change::Unlink => entry_checks(change, listing, table, rec, path),
        Change::Rmdir => rmdir_checks(listing, table, rec, path),
    }
}
