// rename's checks from the roots to the absent source, in document 01's order: all that stands before its plan. Between
// those of each path by itself and those of both together stands whether it is a move onto itself (#104). Assumes a
// listing, a table and two paths that were checked: only this repository's crates call. Each check is a constant number
// of passes over table and listing.
#![tactic(auto)]

ghost use Rattle.std.specs.Prelude.{◌≡◌, true, cond, length};
ghost use Rattle.std.proofs.Math.Option.{Option};
ghost use Rattle.model.specs.Bytes.{Bytes};
ghost use Rattle.model.specs.Path.{is_path, below};
ghost use Rattle.model.specs.Map.{lookup};
ghost use Rattle.model.specs.Tree.{Entry, kind};
ghost use Rattle.model.specs.Listing.{tree_in};
ghost use Rattle.model.specs.Table.{table_in};
ghost use Rattle.model.specs.Checks.{pass, refuse, ◌then◌, parent_checks, not_root, no_visible_child};
ghost use Rattle.model.specs.Rename.{not_link, not_deleted, no_clash, present, if_directory, rename_paths};
ghost use Rattle.model.specs.Rename.{rename_types};
ghost use Rattle.model.specs.Rename.{onto_itself};
ghost use Rattle.model.specs.Outcome.{Given, shown_in};
ghost use Rattle.table_entries.specs.Said.{said, said_of};
ghost use Rattle.view_at.specs.Sight.{visible_kind};
ghost use Rattle.check_judged.specs.Judged.{check_of};

use check_judged::Judged;
use model::{Record, Refusal};
use table_entries::OverlayEntry;
use view_at::Visible;

// The root, given as the path `which`, is refused.
fn reject_mount_root(path: &[u8], which: u64) -> Judged
    ensures { check_of result ≡ not_root which path.now }
{
    if path.len() == 0 {
        return Err(Refusal::LinkOrRoot(which, 0));
    }
    Ok(())
}

fn reject_roots(source: &[u8], destination: &[u8]) -> Judged
    ensures { check_of result ≡ (not_root 0 source.now then not_root 1 destination.now) }
{
    reject_mount_root(source, 0)?;
    reject_mount_root(destination, 1)
}

// A link at the path `which` is refused.
fn reject_link(visible: Option<Visible>, which: u64, len: u64) -> Judged
    ensures { check_of result ≡ not_link which len (visible_kind visible) }
{
    match visible {
        Some(Visible::Link) => Err(Refusal::LinkOrRoot(which, len)),
        _ => Ok(()),
    }
}

// The destination's parents; a link at it.
fn check_destination(listing: &[u8], table: &[u8], rec: Record, path: &[u8]) -> Judged
    requires given { Given listing.now table.now rec }
    requires path_value { is_path path.now ≡ true }
    ensures { check_of result ≡ (parent_checks 1 (shown_in listing.now table.now rec)
        path.now then not_link 1 (length path.now)
        (kind (shown_in listing.now table.now rec) path.now)) }
{
    check_parents::ensure_parent_exists(listing, table, rec, path, 1)?;
    let visible = view_at::visible_at(listing, table, rec, path);
    reject_link(visible, 1, path.len() as u64)
}

// A deleted source is refused.
fn reject_deleted(entry: Option<OverlayEntry>, bytes: u64) -> Judged
    ensures { (s : Bytes) (e : Option Entry) → said_of s entry ≡ said e → check_of result ≡ not_deleted bytes e }
{
    match entry {
        Some(OverlayEntry::Deleted) => Err(Refusal::NotFound(0, bytes)),
        _ => Ok(()),
    }
}

// The source's parents; a deleted entry or a link at it.
fn check_source(listing: &[u8], table: &[u8], rec: Record, path: &[u8]) -> Judged
    requires given { Given listing.now table.now rec }
    requires path_value { is_path path.now ≡ true }
    ensures { check_of result ≡ (parent_checks 0 (shown_in listing.now table.now rec)
        path.now then not_deleted (length path.now)
        (lookup (table_in table.now rec) path.now) then not_link 0 (length path.now)
        (kind (shown_in listing.now table.now rec) path.now)) }
{
    check_parents::ensure_parent_exists(listing, table, rec, path, 0)?;
    let entry = table_entries::get(table, rec, path);
    reject_deleted(entry, path.len() as u64)?;
    let visible = view_at::visible_at(listing, table, rec, path);
    reject_link(visible, 0, path.len() as u64)
}

// Each path by itself: the roots, then the destination, then the source.
pub fn check_paths(
    listing: &[u8],
    table: &[u8],
    rec: Record,
    source: &[u8],
    destination: &[u8],
) -> Judged
    requires given { Given listing.now table.now rec }
    requires source_value { (is_path source.now ≡ true) × (is_path destination.now ≡ true) }
    ensures { check_of result ≡ rename_paths (table_in table.now rec) (tree_in listing.now)
        source.now destination.now }
{
    reject_roots(source, destination)?;
    check_destination(listing, table, rec, destination)?;
    check_source(listing, table, rec, source)
}

// Whether both paths are equal and the source is visible.
pub fn is_onto_itself(
    listing: &[u8],
    table: &[u8],
    rec: Record,
    source: &[u8],
    destination: &[u8],
) -> bool
    requires { Given listing.now table.now rec }
    ensures { result ≡ onto_itself (shown_in listing.now table.now rec) source.now
        destination.now }
{
    if base_fields::is_same(source, destination) {
        let visible = view_at::visible_at(listing, table, rec, source);
        return !view_at::is_nothing(visible);
    }
    false
}

// A directory only onto a directory or nothing, a file not onto a directory; `len` is the destination's length.
fn reject_rename_type_mismatch(
    source: Option<Visible>,
    destination: Option<Visible>,
    len: u64,
) -> Judged
    ensures { check_of result ≡ no_clash len (visible_kind source) (visible_kind destination) }
{
    let directory = view_at::is_directory(source);
    match destination {
        Some(Visible::Directory) if !directory => Err(Refusal::IsADirectory(1, len)),
        Some(Visible::File) if directory => Err(Refusal::NotADirectory(1, len)),
        _ => Ok(()),
    }
}

// A directory onto a directory that is not empty.
fn reject_rename_onto_nonempty_dir(
    listing: &[u8],
    table: &[u8],
    rec: Record,
    source: Option<Visible>,
    destination: Option<Visible>,
    path: &[u8],
) -> Judged
    requires { Given listing.now table.now rec }
    ensures { check_of result ≡ if_directory (visible_kind source) (if_directory (visible_kind destination)
        (no_visible_child 1 (table_in table.now rec) (tree_in listing.now) path.now)) }
{
    if !view_at::is_directory(source) || !view_at::is_directory(destination) {
        return Ok(());
    }
    check_one_path::check_empty(listing, table, rec, path, 1)
}

// 10 for a destination below the source.
fn reject_below(source: &[u8], destination: &[u8]) -> Judged
    ensures { check_of result ≡ cond (below source.now destination.now) (refuse 10 0
        (length source.now)) pass }
{
    if base_paths::is_below(source, destination) {
        return Err(Refusal::BelowSource(source.len() as u64));
    }
    Ok(())
}

// 5 for a source of `len` bytes that shows nothing.
fn reject_absent(visible: Option<Visible>, len: u64) -> Judged
    ensures { check_of result ≡ present len (visible_kind visible) }
{
    if view_at::is_nothing(visible) {
        return Err(Refusal::NotFound(0, len));
    }
    Ok(())
}

// Both together: type clash 8 or 7; 9 for a directory source; 10; source absent 5.
pub fn check_types(
    listing: &[u8],
    table: &[u8],
    rec: Record,
    source: &[u8],
    destination: &[u8],
) -> Judged
    requires { Given listing.now table.now rec }
    ensures { check_of result ≡ rename_types (table_in table.now rec) (tree_in listing.now)
        source.now destination.now }
{
    let from = view_at::visible_at(listing, table, rec, source);
    let to = view_at::visible_at(listing, table, rec, destination);
    reject_rename_type_mismatch(from, to, destination.len() as u64)?;
    reject_rename_onto_nonempty_dir(listing, table, rec, from, to, destination)?;
    reject_below(source, destination)?;
    reject_absent(from, source.len() as u64)
}
