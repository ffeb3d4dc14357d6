// The lines of the tree and of the changes (#102): the size of a file, and the path with a slash behind a directory's.
// Behind a file whose content is listed at another path stands that path. Assumes a checked listing and table.
ghost use Rattle.std.specs.Prelude.{◌≤◌, ◌<◌, IsOk};
ghost use Rattle.listing_records.specs.Place as listing;
ghost use Rattle.table_entries.specs.Place.{Standing};
ghost use Rattle.view_merge.specs.Merges.{remaining, Merging};
ghost use Rattle.view_marks.specs.Marks.{There};

use crate::{bytes, column, text};
use listing_records::Found;
use std::io;
use view_marks::Mark;
use view_merge::Merge;

fn directory(rt: &impl Print, path: &[u8]) -> io::Result<()> {
    text(rt, b"       dir  ")?;
    bytes(rt, path)?;
    text(rt, b"/")
}

fn file(rt: &impl Print, path: &[u8], size: u64) -> io::Result<()> {
    column(rt, size, 10)?;
    text(rt, b"  ")?;
    bytes(rt, path)
}

fn link(rt: &impl Print, path: &[u8]) -> io::Result<()> {
    text(rt, b"      link  ")?;
    bytes(rt, path)
}

// Where the content of the file at a path is listed, if that is another path.
fn source(rt: &impl Print, path: &[u8], listed: &[u8]) -> io::Result<()> {
    if base_fields::is_same(path, listed) {
        return Ok(());
    }
    text(rt, b" <- ")?;
    bytes(rt, listed)
}

// What the entry at a place shows; the entry is not a deleted one.
fn of_entry(rt: &impl Print, own: &[u8], entries: table_entries::Place) -> io::Result<()>
    requires standing { Standing own.now entries.left entries.at }
    requires left_nonzero { 0 < entries.left }
{
    let fields = table_entries::entry_fields(own, entries);
    let key = table_entries::entry_key(own, entries);
    let body = table_entries::entry_body(own, entries);
    if fields.kind == model::DIRECTORY {
        directory(rt, key)
    } else if fields.kind == model::REFERENCE {
        file(rt, key, fields.size)?;
        source(rt, key, body)
    } else {
        file(rt, key, body.len() as u64)
    }
}

// What the record at a place lists.
fn of_record(rt: &impl Print, part: &[u8], records: listing_records::Place) -> io::Result<()>
    requires standing { listing.Standing part.now records.left records.at }
    requires left_nonzero { 0 < records.left }
{
    let path = listing_records::record_path(part, records);
    match listing_records::node_at(part, records.at) {
        Found::Directory(_) => directory(rt, path),
        Found::File(_, size) => file(rt, path, size),
        Found::Link => link(rt, path),
    }
}

// Whether a line is shown for what has this mark, among the changes or in the tree.
fn is_shown(mark: Mark, changes: bool) -> bool {
    match mark {
        Mark::Same => !changes,
        Mark::New | Mark::Changed => true,
        Mark::Gone => changes,
        Mark::Nothing => false,
    }
}

// The start of a change's line.
fn sign(rt: &impl Print, mark: Mark) -> io::Result<()> {
    match mark {
        Mark::New => text(rt, b"  +"),
        Mark::Gone => text(rt, b"  -"),
        Mark::Changed => text(rt, b"  ~"),
        Mark::Same | Mark::Nothing => text(rt, b"   "),
    }
}

// What is visible at what is next; where nothing is, what is listed there.
fn node(rt: &impl Print, own: &[u8], part: &[u8], merge: Merge, mark: Mark) -> io::Result<()>
    requires merging { Merging own.now part.now merge }
    requires there { There merge mark }
{
    let Merge { entries, records } = merge;
    match mark {
        Mark::Same | Mark::Gone => of_record(rt, part, records),
        Mark::New | Mark::Changed => of_entry(rt, own, entries),
        Mark::Nothing => Ok(()),
    }
}

// The line of what is next, if one is shown for it.
fn line(
    rt: &impl Print,
    own: &[u8],
    part: &[u8],
    merge: Merge,
    mark: Mark,
    changes: bool,
) -> io::Result<()>
    requires merging { Merging own.now part.now merge }
    requires there { There merge mark }
{
    if !is_shown(mark, changes) {
        return Ok(());
    }
    if changes {
        sign(rt, mark)?;
    }
    node(rt, own, part, merge, mark)?;
    text(rt, b"\n")
}

// The lines of all that is to come, in one pass; the error of the first that could not be printed, which ends it.
pub fn print_lines(
    rt: &impl Print,
    own: &[u8],
    part: &[u8],
    first: Merge,
    changes: bool,
) -> io::Result<()>
    requires { Merging own.now part.now first }
    ensures { remaining first ≤ 0 → IsOk result }
{
    let mut merge = first;
    while let Some(head) = view_merge::head_at(own, part, merge) {
        let mark = view_marks::mark_at(own, part, merge, Some(head));
        line(rt, own, part, merge, mark, changes)?;
        merge = view_merge::advance(own, part, merge, head);
    }
    Ok(())
}
