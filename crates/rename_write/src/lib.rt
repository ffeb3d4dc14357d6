// The table that rename leaves, written anew: stretches of entries with ascending keys, each in one pass over what
// rename carries. Assumes parts of a checked table and of a checked listing, and buffers with room: only this
// repository's crates call, once all checks passed. A stretch reads the parts and the table once, and writes each byte
// of the new table once.
#![tactic(auto)]

ghost use Rattle.std.specs.Prelude.{◌≡◌, Bool, true, [], ◌∷◌, ◌++◌, ◌≤◌, ◌<◌, length, replicate};
ghost use Rattle.std.proofs.Math.Option.{none};
ghost use Rattle.model.specs.Bytes.{every};
ghost use Rattle.model.specs.Path.{Path, below};
ghost use Rattle.model.specs.Map.{lookup, ascends, only};
ghost use Rattle.model.specs.Tree.{Entry, deleted};
ghost use Rattle.model.specs.Listing.{tree_in, is_listing};
ghost use Rattle.model.specs.Table.{encode, padded, entry_at, entries_at, table_in, is_table};
ghost use Rattle.listing_records.specs.Place as listing;
ghost use Rattle.table_entries.specs.Place.{Standing};
ghost use Rattle.table_measure.specs.Into.{into};
ghost use Rattle.rename_uncovered.specs.Ahead.{PartBelow};
ghost use Rattle.rename_carried.specs.Streams.{Next, item_at};
ghost use Rattle.rename_write.specs.Stretch.{deletion, move, movable, turned, Movables, Room, Put, Puttable};
ghost use Rattle.rename_write.specs.Stretch.{PutAll, AllPass, Takes, Puts};
ghost use Rattle.rename_write.specs.Sequence.{Fits, AllPut, lower, top_of, top, departures, arrivals, ordered};

use listing_records::Found;
use model::{DELETED, DIRECTORY, REFERENCE};
use rename_carried::{Head, Stream};
use table_write::Merge;

// A deleted entry at the key of the item that is next.
fn put_deletion<'a>(
    work: &mut [u8],
    own: &'a [u8],
    part: &'a [u8],
    table: &[u8],
    stream: Stream,
    head: Head,
    merge: Merge,
) -> Merge
    requires standing { Standing own.now stream.entries.left stream.entries.at }
    requires standing_2 { listing.Standing part.now stream.listed.left stream.listed.at }
    requires next { Next own.now part.now stream head }
    requires room { Room table.now work.old merge (deletion (item_at own.now part.now stream head)) }
    ensures { Put table.now work.old work.new merge result
        (deletion (item_at own.now part.now stream head)) }
{
    let key = rename_items::item_key(own, part, stream, head);
    table_write::put_next(work, table, merge, key, DELETED, 0, 0, &key[..0])
}

// One pass over what rename carries from below the source, the step putting one entry for each item.
fn put_all<'a, F: Fn(&mut [u8], Stream, Head, Merge) -> Merge>(
    flags: &mut [bool; 513],
    work: &mut [u8],
    own: &'a [u8],
    count: u64,
    part: &'a [u8],
    records: u64,
    table: &[u8],
    rec: model::Record,
    source: &[u8],
    merge: Merge,
    step: F,
) -> Merge
    requires flags_len { length flags.old ≡ 513 }
    requires rec_value { is_table table.now rec ≡ true }
    requires standing { Standing own.now count 0 }
    requires count_value { entries_at own.now count 0 ≡ only (below source.now) (table_in table.now rec) }
    requires part_below { PartBelow part.now source.now records }
    requires step_puts { (g : Path × Entry → Path × Entry) × (fit : Path × Entry → Bool)
        × Takes (F.pre step) g fit table.now own.now part.now
        × Puts (F.post step) g table.now own.now part.now
        × AllPass fit part.now (table_in table.now rec) source.now records
        × Puttable g table.now work.old part.now (table_in table.now rec) source.now records merge }
    ensures { (g : Path × Entry → Path × Entry) → Puts (F.post step) g table.now own.now part.now
        → PutAll g table.now work.old work.new part.now (table_in table.now rec) source.now records merge result }
{
    let mut next = merge;
    let mut stream = rename_carried::first(flags, own, count, part, records, table, rec, source);
    while let Some(head) = rename_carried::head_at(own, part, stream) {
        let after = rename_carried::advance(flags, own, part, table, stream, head, source);
        next = step(work, stream, head, next);
        stream = after;
    }
    next
}

// A deleted entry at each key below the source that rename carries.
pub fn put_deletions<'a>(
    flags: &mut [bool; 513],
    work: &mut [u8],
    own: &'a [u8],
    count: u64,
    part: &'a [u8],
    records: u64,
    table: &[u8],
    rec: model::Record,
    source: &[u8],
    merge: Merge,
) -> Merge
    requires flags_len { length flags.old ≡ 513 }
    requires rec_value { is_table table.now rec ≡ true }
    requires standing { Standing own.now count 0 }
    requires count_value { entries_at own.now count 0 ≡ only (below source.now) (table_in table.now rec) }
    requires part_below { PartBelow part.now source.now records }
    requires puttable { Puttable deletion table.now work.old part.now (table_in table.now rec) source.now records
        merge }
    ensures { PutAll deletion table.now work.old work.new part.now
        (table_in table.now rec) source.now records merge result }
{
    put_all(
        flags,
        work,
        own,
        count,
        part,
        records,
        table,
        rec,
        source,
        merge,
        |work, stream, head, merge| put_deletion(work, own, part, table, stream, head, merge),
    )
}

// The item that is next, at its new key.
fn put_move<'a>(
    work: &mut [u8],
    own: &'a [u8],
    part: &'a [u8],
    table: &[u8],
    stream: Stream,
    head: Head,
    source: &[u8],
    destination: &[u8],
    merge: Merge,
) -> Merge
    requires standing { Standing own.now stream.entries.left stream.entries.at }
    requires standing_2 { listing.Standing part.now stream.listed.left stream.listed.at }
    requires next { Next own.now part.now stream head }
    requires head_value { movable source.now destination.now (item_at own.now part.now stream head) ≡ true }
    requires room { Room table.now work.old merge (move source.now destination.now (item_at own.now part.now
        stream head)) }
    ensures { Put table.now work.old work.new merge result (move source.now
        destination.now (item_at own.now part.now stream head)) }
{
    let path = rename_items::item_key(own, part, stream, head);
    let key = rename_keys::moved_key(destination, path, source.len());
    let item = rename_items::item_fields(own, part, stream, head);
    let body = rename_items::item_body(own, part, stream, head);
    table_write::put_next(
        work,
        table,
        merge,
        &key.bytes[..key.len],
        item.kind,
        item.mtime,
        item.size,
        body,
    )
}

// Each item below the source that rename carries, at its new key.
pub fn put_moves<'a>(
    flags: &mut [bool; 513],
    work: &mut [u8],
    own: &'a [u8],
    count: u64,
    part: &'a [u8],
    records: u64,
    table: &[u8],
    rec: model::Record,
    source: &[u8],
    destination: &[u8],
    merge: Merge,
) -> Merge
    requires flags_len { length flags.old ≡ 513 }
    requires rec_value { is_table table.now rec ≡ true }
    requires standing { Standing own.now count 0 }
    requires count_value { entries_at own.now count 0 ≡ only (below source.now) (table_in table.now rec) }
    requires part_below { PartBelow part.now source.now records }
    requires puttable { Puttable (move source.now destination.now) table.now work.old part.now (table_in table.now
        rec) source.now records merge }
    requires movables { Movables part.now (table_in table.now rec) source.now destination.now records }
    ensures { PutAll (move source.now destination.now) table.now
        work.old work.new part.now (table_in table.now rec)
        source.now records merge result }
{
    put_all(
        flags,
        work,
        own,
        count,
        part,
        records,
        table,
        rec,
        source,
        merge,
        |work, stream, head, merge| {
            put_move(
                work,
                own,
                part,
                table,
                stream,
                head,
                source,
                destination,
                merge,
            )
        },
    )
}

// A deleted entry at the source itself.
fn put_source_deletion(work: &mut [u8], table: &[u8], source: &[u8], merge: Merge) -> Merge
    requires { Fits table.now work.old ((source.now, deleted) ∷ []) merge }
    ensures { AllPut table.now work.old work.new ((source.now, deleted)
        ∷ []) merge result }
{
    table_write::put_next(work, table, merge, source, DELETED, 0, 0, &source[..0])
}

// A deleted entry at each key below the source, if that is a directory.
fn put_lower_deletions<'a>(
    work: &mut [u8],
    table: &'a [u8],
    rec: model::Record,
    listing: &'a [u8],
    source: &[u8],
    whole: bool,
    merge: Merge,
) -> Merge
    requires rec_value { is_table table.now rec ≡ true }
    requires listing_value { is_listing listing.now ≡ true }
    requires fits { Fits table.now work.old (turned deletion (lower whole (table_in table.now rec)
        (tree_in listing.now) source.now)) merge }
    ensures { AllPut table.now work.old work.new (turned deletion (lower whole
        (table_in table.now rec) (tree_in listing.now) source.now)) merge result }
{
    if !whole {
        return merge;
    }
    let mut flags: [bool; 513] = [false; 513];
    let entries = table_below::below(table, rec, source);
    let records = listing_records::below(listing, source);
    let own = &table[entries.from..entries.to];
    let part = &listing[records.from..records.to];
    put_deletions(
        &mut flags,
        work,
        own,
        entries.count,
        part,
        records.count,
        table,
        rec,
        source,
        merge,
    )
}

// What is below the source at its new keys, if that is a directory.
fn put_lower_moves<'a>(
    work: &mut [u8],
    table: &'a [u8],
    rec: model::Record,
    listing: &'a [u8],
    source: &[u8],
    destination: &[u8],
    whole: bool,
    merge: Merge,
) -> Merge
    requires rec_value { is_table table.now rec ≡ true }
    requires listing_value { is_listing listing.now ≡ true }
    requires source_value { every (movable source.now destination.now) (lower whole (table_in table.now rec)
        (tree_in listing.now) source.now) ≡ true }
    requires fits { Fits table.now work.old (turned (move source.now destination.now) (lower whole
        (table_in table.now rec) (tree_in listing.now) source.now)) merge }
    ensures { AllPut table.now work.old work.new
        (turned (move source.now destination.now) (lower whole (table_in table.now rec)
        (tree_in listing.now) source.now)) merge result }
{
    if !whole {
        return merge;
    }
    let mut flags: [bool; 513] = [false; 513];
    let entries = table_below::below(table, rec, source);
    let records = listing_records::below(listing, source);
    let own = &table[entries.from..entries.to];
    let part = &listing[records.from..records.to];
    put_moves(
        &mut flags,
        work,
        own,
        entries.count,
        part,
        records.count,
        table,
        rec,
        source,
        destination,
        merge,
    )
}

// The table's entry at a place, at the destination.
fn put_stored(
    work: &mut [u8],
    table: &[u8],
    place: table_entries::Place,
    destination: &[u8],
    merge: Merge,
) -> Merge
    requires standing { Standing table.now place.left place.at }
    requires left_nonzero { 0 < place.left }
    requires fits { Fits table.now work.old ((destination.now, entry_at table.now place.at) ∷ []) merge }
    ensures { AllPut table.now work.old work.new ((
      destination.now,
      entry_at table.now place.at,
    ) ∷ []) merge result }
{
    let item = table_entries::entry_fields(table, place);
    let body = table_entries::entry_body(table, place);
    table_write::put_next(
        work,
        table,
        merge,
        destination,
        item.kind,
        item.mtime,
        item.size,
        body,
    )
}

// What is listed at the source, at the destination, as an entry; a deleted one where it is a link or nothing, and no
// caller comes there.
fn put_listed(
    work: &mut [u8],
    table: &[u8],
    listing: &[u8],
    source: &[u8],
    destination: &[u8],
    merge: Merge,
) -> Merge
    requires listing_value { is_listing listing.now ≡ true }
    requires fits { Fits table.now work.old ((destination.now, top_of none (lookup (tree_in listing.now) source.now))
        ∷ []) merge }
    ensures { AllPut table.now work.old work.new ((
      destination.now,
      top_of none (lookup (tree_in listing.now) source.now),
    ) ∷ []) merge result }
{
    match listing_dir::find(listing, source) {
        Some(Found::Directory(mtime)) => table_write::put_next(
            work,
            table,
            merge,
            destination,
            DIRECTORY,
            mtime,
            0,
            &source[..0],
        ),
        Some(Found::File(mtime, size)) => table_write::put_next(
            work,
            table,
            merge,
            destination,
            REFERENCE,
            mtime,
            size,
            source,
        ),
        Some(Found::Link) | None => put_source_deletion(work, table, destination, merge),
    }
}

// What is carried from the source itself, at the destination: the table's entry, or else what is listed.
fn put_top(
    work: &mut [u8],
    table: &[u8],
    rec: model::Record,
    listing: &[u8],
    source: &[u8],
    destination: &[u8],
    merge: Merge,
) -> Merge
    requires rec_value { is_table table.now rec ≡ true }
    requires listing_value { is_listing listing.now ≡ true }
    requires fits { Fits table.now work.old ((
      destination.now,
      top (table_in table.now rec) (tree_in listing.now)
          source.now,
    ) ∷ []) merge }
    ensures { AllPut table.now work.old work.new ((
      destination.now,
      top
          (table_in table.now rec) (tree_in listing.now) source.now,
    ) ∷ []) merge result }
{
    let first = table_entries::first_entry(table, rec);
    let got = table_entries::get_from(table, first, source);
    if table_entries::is_absent(got.entry) {
        put_listed(work, table, listing, source, destination, merge)
    } else {
        put_stored(work, table, got.place, destination, merge)
    }
}

// The source and what is below it, deleted.
fn put_departures<'a>(
    work: &mut [u8],
    table: &'a [u8],
    rec: model::Record,
    listing: &'a [u8],
    source: &[u8],
    whole: bool,
    merge: Merge,
) -> Merge
    requires rec_value { is_table table.now rec ≡ true }
    requires listing_value { is_listing listing.now ≡ true }
    requires fits { Fits table.now work.old (departures whole (table_in table.now rec) (tree_in listing.now)
        source.now) merge }
    ensures { AllPut table.now work.old work.new (departures whole
        (table_in table.now rec) (tree_in listing.now) source.now) merge result }
{
    let next = put_source_deletion(work, table, source, merge);
    put_lower_deletions(work, table, rec, listing, source, whole, next)
}

// The source and what is below it, at the new keys.
fn put_arrivals<'a>(
    work: &mut [u8],
    table: &'a [u8],
    rec: model::Record,
    listing: &'a [u8],
    source: &[u8],
    destination: &[u8],
    whole: bool,
    merge: Merge,
) -> Merge
    requires rec_value { is_table table.now rec ≡ true }
    requires listing_value { is_listing listing.now ≡ true }
    requires source_value { every (movable source.now destination.now) (lower whole (table_in table.now rec)
        (tree_in listing.now) source.now) ≡ true }
    requires fits { Fits table.now work.old (arrivals whole (table_in table.now rec) (tree_in listing.now)
        source.now destination.now) merge }
    ensures { AllPut table.now work.old work.new (arrivals whole
        (table_in table.now rec) (tree_in listing.now) source.now
        destination.now) merge result }
{
    let next = put_top(work, table, rec, listing, source, destination, merge);
    put_lower_moves(work, table, rec, listing, source, destination, whole, next)
}

// All that is at the source before all that is at the destination.
fn put_source_first<'a>(
    work: &mut [u8],
    table: &'a [u8],
    rec: model::Record,
    listing: &'a [u8],
    source: &[u8],
    destination: &[u8],
    whole: bool,
    merge: Merge,
) -> Merge
    requires rec_value { is_table table.now rec ≡ true }
    requires listing_value { is_listing listing.now ≡ true }
    requires source_value { every (movable source.now destination.now) (lower whole (table_in table.now rec)
        (tree_in listing.now) source.now) ≡ true }
    requires fits { Fits table.now work.old (departures whole (table_in table.now rec) (tree_in listing.now)
        source.now ++ arrivals whole (table_in table.now rec) (tree_in listing.now) source.now destination.now)
        merge }
    ensures { AllPut table.now work.old work.new (departures whole
        (table_in table.now rec) (tree_in listing.now) source.now ++ arrivals whole
        (table_in table.now rec) (tree_in listing.now) source.now
        destination.now) merge result }
{
    let next = put_departures(work, table, rec, listing, source, whole, merge);
    put_arrivals(work, table, rec, listing, source, destination, whole, next)
}

// All that is at the destination before all that is at the source.
fn put_destination_first<'a>(
    work: &mut [u8],
    table: &'a [u8],
    rec: model::Record,
    listing: &'a [u8],
    source: &[u8],
    destination: &[u8],
    whole: bool,
    merge: Merge,
) -> Merge
    requires rec_value { is_table table.now rec ≡ true }
    requires listing_value { is_listing listing.now ≡ true }
    requires source_value { every (movable source.now destination.now) (lower whole (table_in table.now rec)
        (tree_in listing.now) source.now) ≡ true }
    requires fits { Fits table.now work.old (arrivals whole (table_in table.now rec) (tree_in listing.now)
        source.now destination.now ++ departures whole (table_in table.now rec) (tree_in listing.now)
        source.now) merge }
    ensures { AllPut table.now work.old work.new (arrivals whole
        (table_in table.now rec) (tree_in listing.now) source.now
        destination.now ++ departures whole (table_in table.now rec)
        (tree_in listing.now) source.now) merge result }
{
    let next = put_arrivals(work, table, rec, listing, source, destination, whole, merge);
    put_departures(work, table, rec, listing, source, whole, next)
}

// All that is at the destination between the source and what is below it.
fn put_destination_within<'a>(
    work: &mut [u8],
    table: &'a [u8],
    rec: model::Record,
    listing: &'a [u8],
    source: &[u8],
    destination: &[u8],
    whole: bool,
    merge: Merge,
) -> Merge
    requires rec_value { is_table table.now rec ≡ true }
    requires listing_value { is_listing listing.now ≡ true }
    requires source_value { every (movable source.now destination.now) (lower whole (table_in table.now rec)
        (tree_in listing.now) source.now) ≡ true }
    requires fits { Fits table.now work.old ((source.now, deleted) ∷ (arrivals whole (table_in table.now rec)
        (tree_in listing.now) source.now destination.now ++ turned deletion (lower whole (table_in table.now rec)
        (tree_in listing.now) source.now))) merge }
    ensures { AllPut table.now work.old work.new ((source.now, deleted)
        ∷ (arrivals whole (table_in table.now rec) (tree_in listing.now) source.now
        destination.now ++ turned deletion (lower whole (table_in table.now rec)
        (tree_in listing.now) source.now))) merge result }
{
    let first = put_source_deletion(work, table, source, merge);
    let next = put_arrivals(work, table, rec, listing, source, destination, whole, first);
    put_lower_deletions(work, table, rec, listing, source, whole, next)
}

// All that is at the source between the destination and what is below it.
fn put_source_within<'a>(
    work: &mut [u8],
    table: &'a [u8],
    rec: model::Record,
    listing: &'a [u8],
    source: &[u8],
    destination: &[u8],
    whole: bool,
    merge: Merge,
) -> Merge
    requires rec_value { is_table table.now rec ≡ true }
    requires listing_value { is_listing listing.now ≡ true }
    requires source_value { every (movable source.now destination.now) (lower whole (table_in table.now rec)
        (tree_in listing.now) source.now) ≡ true }
    requires fits { Fits table.now work.old ((
      destination.now,
      top (table_in table.now rec) (tree_in listing.now)
          source.now,
    ) ∷ (departures whole (table_in table.now rec) (tree_in listing.now) source.now ++ turned
        (move source.now destination.now) (lower whole (table_in table.now rec) (tree_in listing.now)
        source.now))) merge }
    ensures { AllPut table.now work.old work.new ((
      destination.now,
      top
          (table_in table.now rec) (tree_in listing.now) source.now,
    ) ∷ (departures whole
        (table_in table.now rec) (tree_in listing.now) source.now ++ turned
        (move source.now destination.now) (lower whole (table_in table.now rec)
        (tree_in listing.now) source.now))) merge result }
{
    let first = put_top(work, table, rec, listing, source, destination, merge);
    let next = put_departures(work, table, rec, listing, source, whole, first);
    put_lower_moves(work, table, rec, listing, source, destination, whole, next)
}

// All of it, in the one order in which the keys ascend.
fn put_ordered<'a>(
    work: &mut [u8],
    table: &'a [u8],
    rec: model::Record,
    listing: &'a [u8],
    source: &[u8],
    destination: &[u8],
    whole: bool,
    merge: Merge,
) -> Merge
    requires rec_value { is_table table.now rec ≡ true }
    requires listing_value { is_listing listing.now ≡ true }
    requires source_value { every (movable source.now destination.now) (lower whole (table_in table.now rec)
        (tree_in listing.now) source.now) ≡ true }
    requires fits { Fits table.now work.old (ordered whole (table_in table.now rec) (tree_in listing.now)
        source.now destination.now) merge }
    ensures { AllPut table.now work.old work.new (ordered whole
        (table_in table.now rec) (tree_in listing.now) source.now
        destination.now) merge result }
{
    if base_fields::is_before(source, destination) {
        if base_paths::is_before_with(destination, source, b'/') {
            put_destination_within(work, table, rec, listing, source, destination, whole, merge)
        } else {
            put_source_first(work, table, rec, listing, source, destination, whole, merge)
        }
    } else if base_paths::is_before_with(source, destination, b'/') {
        put_source_within(work, table, rec, listing, source, destination, whole, merge)
    } else {
        put_destination_first(work, table, rec, listing, source, destination, whole, merge)
    }
}

// The table anew with all of it put, once it is known that it fits.
pub fn write_ordered(
    table: &mut [u8],
    work: &mut [u8],
    rec: model::Record,
    listing: &[u8],
    source: &[u8],
    destination: &[u8],
    whole: bool,
)
    requires rec_value { is_table table.old rec ≡ true }
    requires listing_value { is_listing listing.now ≡ true }
    requires source_value { every (movable source.now destination.now) (lower whole (table_in table.old rec)
        (tree_in listing.now) source.now) ≡ true }
    requires destination_value { ascends [] (ordered whole (table_in table.old rec) (tree_in listing.now) source.now
        destination.now) ≡ true }
    requires rec_in_bounds { length (encode (into (ordered whole (table_in table.old rec) (tree_in listing.now)
        source.now
        destination.now) (table_in table.old rec))) ≤ length table.old }
    requires table_in_bounds { length table.old ≤ length work.old }
    ensures table_after { table.new ≡ padded (length table.old)
        (encode (into (ordered whole (table_in table.old rec) (tree_in listing.now)
        source.now destination.now) (table_in table.old rec))) }
    ensures work_after { work.new ≡ replicate (length work.old) 0 }
{
    let merge = Merge {
        at: 0,
        left: rec.count,
        out: 0,
    };
    let end = put_ordered(work, table, rec, listing, source, destination, whole, merge);
    table_write::finish(table, work, end, rec.used as usize);
}
