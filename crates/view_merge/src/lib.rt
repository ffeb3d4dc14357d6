// The entries of a table and the records of a listing, or parts of both, read as one in ascending order: what they show
// together. Assumes checked ones: only this repository's crates call. A whole pass reads each head and each path once,
// and at each step the two paths that are next once more.
#![tactic(auto)]

ghost use Rattle.std.specs.Prelude.{◌≡◌, true, false, ◌++◌, ◌+◌, ◌≤◌, ◌<◌, length, Some, None, IfSome};
ghost use Rattle.std.proofs.Math.Option.{some};
ghost use Rattle.model.specs.Tree.{view, kind_of};
ghost use Rattle.model.specs.Listing.{record_at, node_of};
ghost use Rattle.model.specs.Table.{entry_at};
ghost use Rattle.listing_records.specs.Place as listing;
ghost use Rattle.table_entries.specs.Place.{Standing};
ghost use Rattle.model.specs.Calls.{exists, says};
ghost use Rattle.view_merge.specs.Merges.{ahead, remaining, passed, Merging, Next, head_path, head_node};
ghost use Rattle.view_merge.specs.Merges.{next_path, next_node, tree_of};

use std::cmp::Ordering;

// Where both stand.
#[derive(Clone, Copy)]
pub struct Merge {
    pub entries: table_entries::Place,
    pub records: listing_records::Place,
}

// Which is next: an entry, a record, or an entry with the record of the same path, which it covers.
#[derive(Clone, Copy)]
pub enum Head {
    Entry,
    Record,
    Both,
}

// Whether anything is to come.
pub fn has_next(merge: Merge) -> bool
    ensures { (result ≡ true → 0 < remaining merge) × (result ≡ false → remaining merge ≤ 0) }
{
    0 < merge.entries.left || 0 < merge.records.left
}

// What is next, where anything is to come. It reads no more than the two paths at the places.
pub fn head_at(own: &[u8], part: &[u8], merge: Merge) -> Option<Head>
    requires { Merging own.now part.now merge }
    ensures next { (h : Head) → result ≡ Some h → Next own.now part.now merge h }
    ensures ended { result ≡ None → remaining merge ≡ 0 }
{
    if !has_next(merge) {
        return None;
    }
    let Merge { entries, records } = merge;
    if entries.left == 0 {
        return Some(Head::Record);
    }
    if records.left == 0 {
        return Some(Head::Entry);
    }
    let key = table_entries::entry_key(own, entries);
    let path = listing_records::record_path(part, records);
    match base_fields::compared(key, path) {
        Ordering::Less => Some(Head::Entry),
        Ordering::Equal => Some(Head::Both),
        Ordering::Greater => Some(Head::Record),
    }
}

// The places behind what `head_at` told to be next.
pub fn advance(own: &[u8], part: &[u8], merge: Merge, head: Head) -> Merge
    requires merging { Merging own.now part.now merge }
    requires next { Next own.now part.now merge head }
    ensures result_bound { remaining result < remaining merge }
    ensures merging_2 { Merging own.now part.now result }
    ensures head_bound { passed merge + length (head_path own.now part.now merge head) + 2
        ≤ passed result }
    ensures merge_value { ahead own.now part.now merge ≡ tree_of (head_path own.now
        part.now merge head) (head_node own.now part.now merge head)
        ++ ahead own.now part.now result }
{
    let Merge { entries, records } = merge;
    match head {
        Head::Entry => Merge {
            entries: table_entries::next_entry(own, entries),
            records,
        },
        Head::Record => Merge {
            entries,
            records: listing_records::next_record(part, records),
        },
        Head::Both => Merge {
            entries: table_entries::next_entry(own, entries),
            records: listing_records::next_record(part, records),
        },
    }
}

// The path of what is next; where nothing is, the empty one.
pub fn head_path<'a>(own: &'a [u8], part: &'a [u8], merge: Merge, head: Option<Head>) -> &'a [u8]
    requires merging { Merging own.now part.now merge }
    requires next { IfSome head (Next own.now part.now merge) }
    ensures { result.now ≡ next_path own.now part.now merge head }
{
    match head {
        Some(Head::Entry | Head::Both) => table_entries::entry_key(own, merge.entries),
        Some(Head::Record) => listing_records::record_path(part, merge.records),
        None => &own[0..0],
    }
}

// Whether the entry at a place is not deleted; whether the record at a place is no link.
fn is_live(own: &[u8], entries: table_entries::Place) -> bool
    requires standing { Standing own.now entries.left entries.at }
    requires left_nonzero { 0 < entries.left }
    ensures { result ≡ says exists (kind_of (view (entry_at own.now entries.at))) }
{
    let fields = table_entries::entry_fields(own, entries);
    fields.kind != model::DELETED
}

fn is_no_link(part: &[u8], records: listing_records::Place) -> bool
    requires standing { listing.Standing part.now records.left records.at }
    requires left_nonzero { 0 < records.left }
    ensures { result ≡ says exists (kind_of (some (node_of (record_at part.now records.at)))) }
{
    let kind = part[records.at + 2];
    (kind == model::LISTED_DIRECTORY) | (kind == model::LISTED_FILE)
}

// Whether something other than a link is visible at what is next.
pub fn head_exists(own: &[u8], part: &[u8], merge: Merge, head: Option<Head>) -> bool
    requires merging { Merging own.now part.now merge }
    requires next { IfSome head (Next own.now part.now merge) }
    ensures { result ≡ says exists (kind_of (next_node own.now part.now merge head)) }
{
    match head {
        Some(Head::Entry | Head::Both) => is_live(own, merge.entries),
        Some(Head::Record) => is_no_link(part, merge.records),
        None => false,
    }
}
