// Key, stored fields and body of the item that comes next in what rename carries: an entry of the table, or a listed
// node as an entry. Assumes a stream over parts of a checked table and of a checked listing: only this repository's
// crates call. Each function reads the item's head alone; keys and bodies are parts of the slices that are lent.
#![tactic(auto)]

ghost use Rattle.std.specs.Prelude.{◌≡◌, Some};
ghost use Rattle.model.specs.Listing.{ListingRecord, node_of};
ghost use Rattle.model.specs.Table.{type_of, mtime_of, size_of, body_of};
ghost use Rattle.model.specs.Rename.{as_entry};
ghost use Rattle.model.specs.Calls.{is_file, says};
ghost use Rattle.listing_records.specs.Found.{found_as, found_kind};
ghost use Rattle.listing_records.specs.Place as listing;
ghost use Rattle.table_entries.specs.Place.{Standing};
ghost use Rattle.rename_carried.specs.Streams.{Next, item_at};

use model::{DELETED, DIRECTORY, REFERENCE};
use rename_carried::{Head, Stream};
use table_entries::Fields;

// Whether a listed node is a file.
fn is_file(found: listing_records::Found) -> bool
    ensures { result ≡ says is_file (found_kind (Some found)) }
{
    matches!(found, listing_records::Found::File(_, _))
}

// A listed node's fields as an entry: a directory, a file as a reference to its path; a link, at which the walk has
// ended, as a deleted one.
fn listed_fields(found: listing_records::Found) -> Fields
    ensures { (q : ListingRecord) → found ≡ found_as (node_of q) → (result.kind ≡ type_of (as_entry (node_of q)))
        × (result.mtime ≡ mtime_of (as_entry (node_of q))) × (result.size ≡ size_of (as_entry (node_of q))) }
{
    match found {
        listing_records::Found::Directory(mtime) => Fields {
            kind: DIRECTORY,
            mtime,
            size: 0,
        },
        listing_records::Found::File(mtime, size) => Fields {
            kind: REFERENCE,
            mtime,
            size,
        },
        listing_records::Found::Link => Fields {
            kind: DELETED,
            mtime: 0,
            size: 0,
        },
    }
}

// The key.
pub fn item_key<'a>(own: &'a [u8], part: &'a [u8], stream: Stream, head: Head) -> &'a [u8]
    requires standing { Standing own.now stream.entries.left stream.entries.at }
    requires standing_2 { listing.Standing part.now stream.listed.left stream.listed.at }
    requires next { Next own.now part.now stream head }
    ensures { result.now ≡ (item_at own.now part.now stream head).0 }
{
    let Stream { entries, listed } = stream;
    match head {
        Head::Entry => table_entries::entry_key(own, entries),
        Head::Listed => {
            let here = listing_records::Place {
                at: listed.at,
                left: listed.left,
            };
            listing_records::record_path(part, here)
        }
    }
}

// The fields as they are stored.
pub fn item_fields(own: &[u8], part: &[u8], stream: Stream, head: Head) -> Fields
    requires standing { Standing own.now stream.entries.left stream.entries.at }
    requires standing_2 { listing.Standing part.now stream.listed.left stream.listed.at }
    requires next { Next own.now part.now stream head }
    ensures kind_value { result.kind ≡ type_of (item_at own.now part.now stream head).1 }
    ensures mtime_value { result.mtime ≡ mtime_of (item_at own.now part.now stream head).1 }
    ensures size_value { result.size ≡ size_of (item_at own.now part.now stream head).1 }
{
    let Stream { entries, listed } = stream;
    match head {
        Head::Entry => table_entries::entry_fields(own, entries),
        Head::Listed => listed_fields(listing_records::node_at(part, listed.at)),
    }
}

// The body: an entry's own, a listed file's path, nothing for a listed directory.
pub fn item_body<'a>(own: &'a [u8], part: &'a [u8], stream: Stream, head: Head) -> &'a [u8]
    requires standing { Standing own.now stream.entries.left stream.entries.at }
    requires standing_2 { listing.Standing part.now stream.listed.left stream.listed.at }
    requires next { Next own.now part.now stream head }
    ensures { result.now ≡ body_of (item_at own.now part.now stream head).1 }
{
    let Stream { entries, listed } = stream;
    match head {
        Head::Entry => table_entries::entry_body(own, entries),
        Head::Listed => {
            let found = listing_records::node_at(part, listed.at);
            let here = listing_records::Place {
                at: listed.at,
                left: listed.left,
            };
            let path = listing_records::record_path(part, here);
            if is_file(found) { path } else { &part[0..0] }
        }
    }
}
