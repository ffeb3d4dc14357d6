// What is visible at a path and at its ancestors: the table's entry, or without one what the listing has.
// Assumes a listing and a table that were checked: only this repository's crates call.
// The prefixes of a path ascend, so all looks along one path together read table and listing once.
#![tactic(auto)]

ghost use Rattle.std.specs.Prelude.{◌≡◌, true, ◌+◌, ◌≤◌, ◌<◌, length, take, drop, Some};
ghost use Rattle.std.proofs.Math.Option.{Option, some};
ghost use Rattle.model.specs.Bytes.{Bytes};
ghost use Rattle.model.specs.Path.{Path, ends_here};
ghost use Rattle.model.specs.Tree.{Entry, Node, view, shown, kind_of, kind, is_nothing, is_directory};
ghost use Rattle.model.specs.Tree as tree;
ghost use Rattle.model.specs.Listing.{tree_in, is_listing};
ghost use Rattle.model.specs.Table.{table_in, is_table};
ghost use Rattle.listing_records.specs.Found.{target_kind};
ghost use Rattle.table_entries.specs.Said.{said, said_of};
ghost use Rattle.view_at.specs.Sight.{visible_kind, Sees};

use listing_records::{ComponentWalk, RealTarget};
use table_entries::OverlayEntry;

// What is visible at a path where anything is. A link is only ever listed: no entry is one.
#[derive(Clone, Copy, Debug, PartialEq, Eq)]
pub enum Visible {
    Directory,
    File,
    Link,
}

// From where the table and the listing are searched on.
#[derive(Clone, Copy)]
pub struct Sight {
    pub place: table_entries::Place,
    pub walk: ComponentWalk,
}

#[derive(Clone, Copy)]
pub struct Seen {
    pub visible: Option<Visible>,
    pub sight: Sight,
}

// What is visible where only the listing has something.
fn of_target(target: RealTarget) -> Option<Visible>
    ensures { visible_kind result ≡ target_kind target }
{
    match target {
        RealTarget::Dir => Some(Visible::Directory),
        RealTarget::File => Some(Visible::File),
        RealTarget::Symlink => Some(Visible::Link),
        RealTarget::Absent => None,
    }
}

// What is visible where the table has this entry: a deleted one shows nothing.
pub fn of_entry(entry: OverlayEntry) -> Option<Visible>
    ensures { (s : Bytes) (e : Entry) → said_of s (Some entry) ≡ said (some e)
        → visible_kind result ≡ kind_of (view e) }
{
    match entry {
        OverlayEntry::File { .. } | OverlayEntry::RealFileRef { .. } => Some(Visible::File),
        OverlayEntry::Directory { .. } => Some(Visible::Directory),
        OverlayEntry::Deleted => None,
    }
}

// What is visible where the table has this entry, or none, and the listing this.
fn over(entry: Option<OverlayEntry>, target: RealTarget) -> Option<Visible>
    ensures { (s : Bytes) (e : Option Entry) (n : Option Node) → said_of s entry ≡ said e → target_kind target
        ≡ kind_of n → visible_kind result ≡ kind_of (tree.over e n) }
{
    let Some(entry) = entry else {
        return of_target(target);
    };
    of_entry(entry)
}

// Before anything is looked at.
pub fn begin(listing: &[u8], table: &[u8], rec: model::Record) -> Sight
    requires listing_value { is_listing listing.now ≡ true }
    requires rec_value { is_table table.now rec ≡ true }
    ensures { (p : Path) → Sees listing.now table.now rec p result 0 }
{
    let place = table_entries::first_entry(table, rec);
    let walk = ComponentWalk::new(listing);
    Sight { place, walk }
}

// What is visible at the path's first `end` bytes, where a component ends.
pub fn look(
    sight: Sight,
    listing: &[u8],
    table: &[u8],
    rec: model::Record,
    path: &[u8],
    end: usize,
) -> Seen
    requires sees { Sees listing.now table.now rec path.now sight end }
    requires end_nonzero { (0 < end) × (end ≤ length path.now) × (ends_here (drop end path.now) ≡ true) }
    ensures visible_value { visible_kind result.visible ≡ kind (shown (table_in table.now rec)
        (tree_in listing.now)) (take end path.now) }
    ensures sees_2 { Sees listing.now table.now rec path.now result.sight (end + 1) }
{
    let key = &path[..end];
    let got = table_entries::get_from(table, sight.place, key);
    let stepped = listing_walk::step_once(sight.walk, listing, path, end);
    Seen {
        visible: over(got.entry, stepped.target),
        sight: Sight {
            place: got.place,
            walk: stepped.walk,
        },
    }
}

// What is visible at a path. The root is always a directory.
pub fn visible_at(listing: &[u8], table: &[u8], rec: model::Record, path: &[u8]) -> Option<Visible>
    requires listing_value { is_listing listing.now ≡ true }
    requires rec_value { is_table table.now rec ≡ true }
    ensures { visible_kind result ≡ kind (shown (table_in table.now rec) (tree_in listing.now))
        path.now }
{
    if path.len() == 0 {
        return Some(Visible::Directory);
    }
    let entry = table_entries::get(table, rec, path);
    let target = listing_dir::kind_of(listing, path);
    over(entry, target)
}

// Whether nothing is visible.
pub fn is_nothing(visible: Option<Visible>) -> bool
    ensures { result ≡ is_nothing (visible_kind visible) }
{
    visible.is_none()
}

// Whether what is visible is a directory.
pub fn is_directory(visible: Option<Visible>) -> bool
    ensures { result ≡ is_directory (visible_kind visible) }
{
    matches!(visible, Some(Visible::Directory))
}
