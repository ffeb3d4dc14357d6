// What rename carries from below its source, in ascending order: the table's entries there, and the listed paths there
// that no entry covers. Assumes a part of a checked table and one of a checked listing, both below the source: only
// this repository's crates call. A whole pass reads both parts and the table once, and at each step the two keys that
// are next once more, of at most 512 bytes each.
#![tactic(auto)]

ghost use Rattle.std.specs.Prelude.{◌≡◌, Bool, true, false, List, [], ◌∷◌, ◌+◌, ◌≤◌, ◌<◌, length, MatchOption};
ghost use Rattle.model.specs.Bytes.{Bytes};
ghost use Rattle.model.specs.Path.{Path, below};
ghost use Rattle.model.specs.Map.{ascends, only};
ghost use Rattle.model.specs.Tree.{Table, Tree};
ghost use Rattle.model.specs.Table.{entries_at, table_in, is_table};
ghost use Rattle.listing_records.specs.Place.{tree_at};
ghost use Rattle.listing_records.specs.Place as listing;
ghost use Rattle.table_entries.specs.Place.{Standing};
ghost use Rattle.rename_uncovered.specs.Ahead.{PartBelow};
ghost use Rattle.rename_carried.specs.Streams.{carried_below, ahead, remaining, Streaming, Carrying, Next, item_at};
ghost use Rattle.rename_carried.specs.Streams.{Ending};

// Where both streams stand: the entries in the table's part below the source, the listed records in the listing's.
#[derive(Clone, Copy)]
pub struct Stream {
    pub entries: table_entries::Place,
    pub listed: rename_uncovered::Cursor,
}

// Which of them has the smaller key next. They never have the same, since a listed path that has an entry is covered.
#[derive(Clone, Copy)]
pub enum Head {
    Entry,
    Listed,
}

// Whether an item is to come.
pub fn has_next(stream: Stream) -> bool
    ensures { (result ≡ true → 0 < remaining stream) × (result ≡ false → remaining stream ≤ 0) }
{
    0 < stream.entries.left || 0 < stream.listed.left
}

// Which stream is next, and none where both are at their end. It reads no more than the two keys at the stream's
// places.
pub fn head_at(own: &[u8], part: &[u8], stream: Stream) -> Option<Head>
    requires standing { Standing own.now stream.entries.left stream.entries.at }
    requires standing_2 { listing.Standing part.now stream.listed.left stream.listed.at }
    ensures next { MatchOption result (remaining stream ≡ 0) (Next own.now part.now stream) }
    ensures ending { (table : Bytes) (a : Path) (t : Table) (l : Tree) (f : List Bool) → Carrying own.now
        part.now table a t l f stream → Ending (ahead t a own.now part.now stream)
        result }
    ensures stream_value { (t : Table) (a : Path) → ascends [] (ahead t a own.now part.now stream)
        ≡ true }
{
    if !has_next(stream) {
        return None;
    }
    let entries = stream.entries;
    let listed = stream.listed;
    if entries.left == 0 {
        return Some(Head::Listed);
    }
    if listed.left == 0 {
        return Some(Head::Entry);
    }
    let here = listing_records::Place {
        at: listed.at,
        left: listed.left,
    };
    let key = table_entries::entry_key(own, entries);
    let path = listing_records::record_path(part, here);
    if base_fields::is_before(key, path) {
        return Some(Head::Entry);
    }
    Some(Head::Listed)
}

// Both streams at their first item: `count` entries in `own`, and the first uncovered one of `records` records in
// `part`, which is sought.
pub fn first(
    flags: &mut [bool; 513],
    own: &[u8],
    count: u64,
    part: &[u8],
    records: u64,
    table: &[u8],
    rec: model::Record,
    source: &[u8],
) -> Stream
    requires flags_len { length flags.old ≡ 513 }
    requires rec_value { is_table table.now rec ≡ true }
    requires standing { Standing own.now count 0 }
    requires count_value { entries_at own.now count 0 ≡ only (below source.now) (table_in table.now rec) }
    requires part_below { PartBelow part.now source.now records }
    ensures result_bound { remaining result ≤ count + records }
    ensures streaming { Streaming own.now part.now table.now source.now
        flags.new result }
    ensures carrying { Carrying own.now part.now table.now source.now
        (table_in table.now rec) (tree_at part.now records 0) flags.new result }
    ensures result_value { (l : Tree) → ascends [] l ≡ true → tree_at part.now records 0
        ≡ only (below source.now) l → ahead (table_in table.now rec) source.now
        own.now part.now result ≡ carried_below (table_in table.now rec) l
        source.now }
{
    let listed = rename_uncovered::first_uncovered(flags, part, records, table, rec, source);
    let entries = table_entries::Place { at: 0, left: count };
    Stream { entries, listed }
}

// The streams behind what `head_at` told to be next. One of them goes on, over one entry, or up to the next uncovered
// record, and what lies between is read once in a whole pass.
pub fn advance(
    flags: &mut [bool; 513],
    own: &[u8],
    part: &[u8],
    table: &[u8],
    stream: Stream,
    head: Head,
    source: &[u8],
) -> Stream
    requires streaming { Streaming own.now part.now table.now source.now flags.old stream }
    requires next { Next own.now part.now stream head }
    ensures result_bound { remaining result < remaining stream }
    ensures streaming_2 { Streaming own.now part.now table.now source.now
        flags.new result }
    ensures carrying { (t : Table) (l : Tree) → Carrying own.now part.now table.now
        source.now t l flags.old stream → Carrying own.now part.now
        table.now source.now t l flags.new result × (ahead t source.now
        own.now part.now stream ≡ item_at own.now part.now stream head
        ∷ ahead t source.now own.now part.now result) }
{
    let Stream { entries, listed } = stream;
    match head {
        Head::Entry => {
            let next = table_entries::next_entry(own, entries);
            Stream {
                entries: next,
                listed,
            }
        }
        Head::Listed => {
            let next = rename_uncovered::next_uncovered(flags, part, table, listed, source);
            Stream {
                entries,
                listed: next,
            }
        }
    }
}
