// How what is visible at a path stands to what is listed there: the same, new, gone, changed, or neither (#102).
// Assumes a merge over a checked table and a checked listing: only this repository's crates call. Each function reads
// the entry and the record that are next, once.
#![tactic(auto)]

ghost use Rattle.std.specs.Prelude.{◌≡◌, ◌<◌, IfSome};
ghost use Rattle.std.proofs.Math.Option.{some};
ghost use Rattle.model.specs.Tree.{view, dir, file, listed};
ghost use Rattle.model.specs.Listing.{record_at, node_of};
ghost use Rattle.model.specs.Table.{entry_at, key_at};
ghost use Rattle.table_entries.specs.Place.{Standing};
ghost use Rattle.view_merge.specs.Merges.{Merging, Next, head_node, next_node};
ghost use Rattle.view_merge.specs.declared.Head.TheVariants as head;
ghost use Rattle.view_marks.specs.Marks.{Tells, listed_node, next_listed, Marks, There};

use listing_records::Found;
use view_merge::{Head, Merge};

// Visible as it is listed; visible and not listed; listed and not visible; both, and not the same; neither.
#[derive(Clone, Copy)]
pub enum Mark {
    Same,
    New,
    Gone,
    Changed,
    Nothing,
}

// Whether the entry at a place shows a directory with this mtime.
fn is_directory(own: &[u8], entries: table_entries::Place, mtime: u64) -> bool
    requires standing { Standing own.now entries.left entries.at }
    requires left_nonzero { 0 < entries.left }
    ensures { Tells result (view (entry_at own.now entries.at) ≡ some (dir mtime)) }
{
    let fields = table_entries::entry_fields(own, entries);
    fields.kind == model::DIRECTORY && fields.mtime == mtime
}

// Whether the entry at a place shows the file that is listed at its own path with this mtime and size.
fn is_listed_file(own: &[u8], entries: table_entries::Place, mtime: u64, size: u64) -> bool
    requires standing { Standing own.now entries.left entries.at }
    requires left_nonzero { 0 < entries.left }
    ensures { Tells result (view (entry_at own.now entries.at)
        ≡ some (file mtime size (listed (key_at own.now entries.at)))) }
{
    let fields = table_entries::entry_fields(own, entries);
    let key = table_entries::entry_key(own, entries);
    let body = table_entries::entry_body(own, entries);
    let held = base_fields::is_same(body, key);
    fields.kind == model::REFERENCE && (fields.mtime == mtime && (fields.size == size && held))
}

// Whether the entry shows what the record of the same path lists.
fn is_as_listed(own: &[u8], part: &[u8], merge: Merge) -> bool
    requires merging { Merging own.now part.now merge }
    requires next { Next own.now part.now merge head.Both }
    ensures { Tells result (view (entry_at own.now merge.entries.at)
        ≡ some (node_of (record_at part.now merge.records.at))) }
{
    match listing_records::node_at(part, merge.records.at) {
        Found::Directory(mtime) => is_directory(own, merge.entries, mtime),
        Found::File(mtime, size) => is_listed_file(own, merge.entries, mtime, size),
        Found::Link => false,
    }
}

// The mark of an entry that covers no record, and of one that covers the record of the same path.
fn of_entry(own: &[u8], part: &[u8], merge: Merge) -> Mark
    requires merging { Merging own.now part.now merge }
    requires next { Next own.now part.now merge head.Entry }
    ensures marks { Marks (head_node own.now part.now merge head.Entry)
        (listed_node part.now merge head.Entry) result }
    ensures there { There merge result }
{
    let fields = table_entries::entry_fields(own, merge.entries);
    if fields.kind == model::DELETED {
        Mark::Nothing
    } else {
        Mark::New
    }
}

fn of_both(own: &[u8], part: &[u8], merge: Merge) -> Mark
    requires merging { Merging own.now part.now merge }
    requires next { Next own.now part.now merge head.Both }
    ensures marks { Marks (head_node own.now part.now merge head.Both)
        (listed_node part.now merge head.Both) result }
    ensures there { There merge result }
{
    let fields = table_entries::entry_fields(own, merge.entries);
    if fields.kind == model::DELETED {
        Mark::Gone
    } else if is_as_listed(own, part, merge) {
        Mark::Same
    } else {
        Mark::Changed
    }
}

// The mark of what is next; where nothing is, nothing is visible or listed.
pub fn mark_at(own: &[u8], part: &[u8], merge: Merge, head: Option<Head>) -> Mark
    requires merging { Merging own.now part.now merge }
    requires next { IfSome head (Next own.now part.now merge) }
    ensures marks { Marks (next_node own.now part.now merge head)
        (next_listed part.now merge head) result }
    ensures there { There merge result }
{
    match head {
        Some(Head::Entry) => of_entry(own, part, merge),
        Some(Head::Record) => Mark::Same,
        Some(Head::Both) => of_both(own, part, merge),
        None => Mark::Nothing,
    }
}
