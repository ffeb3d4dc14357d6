// The record and the charge that rename will leave, known before anything is written.
// Assumes a checked table, a checked listing, and parts of them below the source: only this repository's crates call.
// Each measuring is one pass over the table and over both parts; keys are composed in 512 bytes.
#![tactic(auto)]

ghost use Rattle.std.specs.Prelude.{◌≡◌, true, false, not, [], ◌∷◌, ◌++◌, ◌+◌, ◌≤◌, ◌<◌, length, drop};
ghost use Rattle.std.proofs.Math.Option.{none, some};
ghost use Rattle.model.specs.Bytes.{before};
ghost use Rattle.model.specs.Path.{Path, below, rest, short};
ghost use Rattle.model.specs.Map.{ascends, put, puts, only, each, keys, rekey, lookup, mapped};
ghost use Rattle.model.specs.Tree.{Entry, Table, Tree, deleted};
ghost use Rattle.model.specs.Table.{body_of, charge, record_of, entries_at, table_in, is_table};
ghost use Rattle.model.specs.Listing.{tree_in, is_listing};
ghost use Rattle.model.specs.Rename.{new_key, as_entry, uncovered, carried};
ghost use Rattle.listing_records.specs.Place.{tree_at};
ghost use Rattle.listing_records.specs.Place as listing;
ghost use Rattle.table_entries.specs.Place.{Standing};
ghost use Rattle.table_measure.specs.Measure.{Measured, Counts};
ghost use Rattle.rename_uncovered.specs.Ahead.{PartBelow};
ghost use Rattle.rename_carried.specs.Streams.{carried_below, Next, item_at};
ghost use Rattle.rename_measure.specs.Tallies.{Counted, Moved, Small, Source, combined, Foretold};

use rename_carried::{Head, Stream};

// Moved entries counted: the record with those put whose keys fit 512 bytes, and the place in the table behind the last
// of these; what the others are charged; whether some key is too long or too deep (12).
#[derive(Clone, Copy)]
pub struct Tally {
    pub place: table_entries::Place,
    pub rec: model::Record,
    pub extra: u64,
    pub long: bool,
}

// The same at the end.
#[derive(Clone, Copy)]
pub struct Moves {
    pub rec: model::Record,
    pub extra: u64,
    pub long: bool,
}

// What rename will leave: the charge, whether a moved key is too long or too deep, and, if none is, the record.
#[derive(Clone, Copy)]
pub struct Projected {
    pub rec: model::Record,
    pub charge: u64,
    pub long: bool,
}

// The record as if the source and all that is carried from below it were deleted.
pub fn measure_deletions<'a>(
    flags: &mut [bool; 513],
    own: &'a [u8],
    count: u64,
    part: &'a [u8],
    records: u64,
    table: &[u8],
    rec: model::Record,
    source: &[u8],
) -> model::Record
    requires flags_len { length flags.old ≡ 513 }
    requires rec_value { is_table table.now rec ≡ true }
    requires standing { Standing own.now count 0 }
    requires count_value { entries_at own.now count 0 ≡ only (below source.now) (table_in table.now rec) }
    requires part_below { PartBelow part.now source.now records }
    requires source_nonzero { (0 < length source.now) × (length source.now ≤ 512) }
    ensures value { (l : Tree) → ascends [] l ≡ true → tree_at part.now records 0
        ≡ only (below source.now) l → result ≡ record_of rec.entry_size
        (puts (each deleted (source.now ∷ keys (carried_below (table_in table.now rec) l
        source.now))) (table_in table.now rec)) }
    ensures small { Small result }
{
    let begin = table_entries::first_entry(table, rec);
    let top = table_measure::projected(table, begin, rec, source, 0);
    let mut place = top.place;
    let mut after = top.rec;
    let mut stream = rename_carried::first(flags, own, count, part, records, table, rec, source);
    while let Some(head) = rename_carried::head_at(own, part, stream) {
        let key = rename_items::item_key(own, part, stream, head);
        let next = table_measure::projected(table, place, after, key, 0);
        place = next.place;
        after = next.rec;
        stream = rename_carried::advance(flags, own, part, table, stream, head, source);
    }
    // Each step changes the three sums; the entry size stays the table's own.
    model::Record {
        entry_size: rec.entry_size,
        ..after
    }
}

// One entry more: its key is the destination, then what stands in `key` behind its first `from` bytes, and its body has
// m bytes.
fn counted(table: &[u8], tally: Tally, destination: &[u8], key: &[u8], from: usize, m: u64) -> Tally
    requires counts { Counts table.now tally.place.left tally.place.at tally.rec }
    requires extra_bound { (tally.extra ≤ 0x4000_0000_0000_0000) × (m ≤ 16777216) }
    requires from_in_bounds { (from ≤ length key.now) × (length key.now ≤ 512) × (length destination.now ≤ 512) }
    ensures { Counted table.now (destination.now ++ drop from key.now) m tally
        result }
{
    let n = destination.len() + (key.len() - from);
    let Tally {
        place,
        rec,
        extra,
        long,
    } = tally;
    if model::PATH_MAX < n {
        let usage = table_charge::entry_memory_usage(rec.entry_size, n as u64, m);
        return Tally {
            place,
            rec,
            extra: extra + usage,
            long: true,
        };
    }
    let moved = rename_keys::moved_key(destination, key, from);
    let new = &moved.bytes[..moved.len];
    let next = table_measure::projected(table, place, rec, new, m);
    let fits = base_paths::is_short(new);
    Tally {
        place: next.place,
        rec: next.rec,
        extra,
        long: long | !fits,
    }
}

// The item that is next counted as it is moved.
fn with_move<'a>(
    table: &[u8],
    tally: Tally,
    own: &'a [u8],
    part: &'a [u8],
    stream: Stream,
    head: Head,
    source: &[u8],
    destination: &[u8],
) -> Tally
    requires counts { Counts table.now tally.place.left tally.place.at tally.rec }
    requires extra_bound { (tally.extra ≤ 0x4000_0000_0000_0000) × (length destination.now ≤ 512) }
    requires standing { Standing own.now stream.entries.left stream.entries.at }
    requires standing_2 { listing.Standing part.now stream.listed.left stream.listed.at }
    requires next { Next own.now part.now stream head }
    requires source_in_bounds { (length source.now ≤ length (item_at own.now part.now stream head).0)
        × (length (item_at own.now part.now stream head).0 ≤ 512)
        × (length (body_of (item_at own.now part.now stream head).1) ≤ 16777216) }
    ensures { Counted table.now (new_key source.now destination.now
        (item_at own.now part.now stream head).0) (length (body_of (item_at own.now
        part.now stream head).1)) tally result }
{
    let key = rename_items::item_key(own, part, stream, head);
    let body = rename_items::item_body(own, part, stream, head);
    counted(
        table,
        tally,
        destination,
        key,
        source.len(),
        body.len() as u64,
    )
}

// The destination itself counted, with a body of m bytes.
fn first_move(table: &[u8], rec: model::Record, destination: &[u8], m: u64) -> Tally
    requires rec_value { is_table table.now rec ≡ true }
    requires destination_len_bound { (length destination.now ≤ 512) × (m ≤ 16777216) }
    ensures measured { (t : Table) (j : Path) (v : Entry) → Measured table.now t j rec.count 0
        rec.entry_size rec → before j destination.now ≡ true → length (body_of v) ≡ m
        → Measured table.now (put destination.now v t) destination.now result.place.left
        result.place.at rec.entry_size result.rec }
    ensures extra_value { (result.extra ≡ 0) × (result.long ≡ not (short destination.now)) }
{
    let begin = table_entries::first_entry(table, rec);
    let next = table_measure::projected(table, begin, rec, destination, m);
    Tally {
        place: next.place,
        rec: next.rec,
        extra: 0,
        long: !base_paths::is_short(destination),
    }
}

// The source and all that is carried from below it, counted as they are moved; what stands at the source has a body of
// `first_len` bytes.
pub fn measure_moves<'a>(
    flags: &mut [bool; 513],
    own: &'a [u8],
    count: u64,
    part: &'a [u8],
    records: u64,
    table: &[u8],
    rec: model::Record,
    source: &[u8],
    destination: &[u8],
    first_len: u64,
) -> Moves
    requires flags_len { length flags.old ≡ 513 }
    requires rec_value { is_table table.now rec ≡ true }
    requires standing { Standing own.now count 0 }
    requires count_value { entries_at own.now count 0 ≡ only (below source.now) (table_in table.now rec) }
    requires part_below { PartBelow part.now source.now records }
    requires destination_nonzero { (0 < length destination.now) × (length destination.now ≤ 512)
        × (first_len ≤ 16777216) }
    ensures moved { (l : Tree) (e : Entry) → ascends [] l ≡ true → tree_at part.now records 0
        ≡ only (below source.now) l → length (body_of e) ≡ first_len → Moved rec.entry_size
        (table_in table.now rec) (rekey source.now destination.now
        ((source.now, e) ∷ carried_below (table_in table.now rec) l source.now)) result }
    ensures small { Small result.rec × (result.extra ≤ 0x4000_0000_0000_0000) }
{
    let mut tally = first_move(table, rec, destination, first_len);
    let mut stream = rename_carried::first(flags, own, count, part, records, table, rec, source);
    while let Some(head) = rename_carried::head_at(own, part, stream) {
        tally = with_move(table, tally, own, part, stream, head, source, destination);
        stream = rename_carried::advance(flags, own, part, table, stream, head, source);
    }
    let Tally {
        rec: after,
        extra,
        long,
        ..
    } = tally;
    // Each step changes the three sums; the entry size stays the table's own.
    let sums = model::Record {
        entry_size: rec.entry_size,
        ..after
    };
    Moves {
        rec: sums,
        extra,
        long,
    }
}

// The source and all that is carried from below it deleted.
fn deletions_below<'a>(
    listing: &'a [u8],
    table: &'a [u8],
    rec: model::Record,
    source: &[u8],
) -> model::Record
    requires listing_value { is_listing listing.now ≡ true }
    requires rec_value { is_table table.now rec ≡ true }
    requires source_nonzero { (0 < length source.now) × (length source.now ≤ 512) }
    ensures value { result ≡ record_of rec.entry_size (puts (each deleted (source.now ∷ keys (carried_below
        (table_in table.now rec) (tree_in listing.now) source.now)))
        (table_in table.now rec)) }
    ensures small { Small result }
{
    let mut flags: [bool; 513] = [false; 513];
    let entries = table_below::below(table, rec, source);
    let listed = listing_records::below(listing, source);
    let own = &table[entries.from..entries.to];
    let part = &listing[listed.from..listed.to];
    measure_deletions(
        &mut flags,
        own,
        entries.count,
        part,
        listed.count,
        table,
        rec,
        source,
    )
}

// The same moved.
fn moves_below<'a>(
    listing: &'a [u8],
    table: &'a [u8],
    rec: model::Record,
    source: &[u8],
    destination: &[u8],
    first_len: u64,
) -> Moves
    requires listing_value { is_listing listing.now ≡ true }
    requires rec_value { is_table table.now rec ≡ true }
    requires destination_nonzero { (0 < length destination.now) × (length destination.now ≤ 512)
        × (first_len ≤ 16777216) }
    ensures moved { (e : Entry) → length (body_of e) ≡ first_len → Moved rec.entry_size
        (table_in table.now rec) (rekey source.now destination.now
        ((source.now, e) ∷ carried_below (table_in table.now rec) (tree_in listing.now)
        source.now)) result }
    ensures small { Small result.rec × (result.extra ≤ 0x4000_0000_0000_0000) }
{
    let mut flags: [bool; 513] = [false; 513];
    let entries = table_below::below(table, rec, source);
    let listed = listing_records::below(listing, source);
    let own = &table[entries.from..entries.to];
    let part = &listing[listed.from..listed.to];
    measure_moves(
        &mut flags,
        own,
        entries.count,
        part,
        listed.count,
        table,
        rec,
        source,
        destination,
        first_len,
    )
}

// What is carried deleted: a file alone, a directory with all below it.
fn all_deletions<'a>(
    listing: &'a [u8],
    table: &'a [u8],
    rec: model::Record,
    source: &[u8],
    whole: bool,
) -> model::Record
    requires listing_value { is_listing listing.now ≡ true }
    requires rec_value { is_table table.now rec ≡ true }
    requires source_nonzero { (0 < length source.now) × (length source.now ≤ 512) }
    requires source { Source (table_in table.now rec) (tree_in listing.now) source.now whole }
    ensures value { result ≡ record_of rec.entry_size (puts (each deleted (keys (carried (table_in table.now
        rec) (tree_in listing.now) source.now))) (table_in table.now rec)) }
    ensures small { Small result }
{
    if whole {
        deletions_below(listing, table, rec, source)
    } else {
        table_insert::projected_record(table, rec, source, 0)
    }
}

// One entry of m bytes put at the destination.
fn one_move(table: &[u8], rec: model::Record, destination: &[u8], m: u64) -> Moves
    requires rec_value { is_table table.now rec ≡ true }
    requires destination_nonzero { (0 < length destination.now) × (length destination.now ≤ 512) × (m ≤ 16777216) }
    ensures moved { (a : Path) (e : Entry) → length (body_of e) ≡ m → Moved rec.entry_size
        (table_in table.now rec) (rekey a destination.now ((a, e) ∷ [])) result }
    ensures small { Small result.rec × (result.extra ≤ 0x4000_0000_0000_0000) }
{
    Moves {
        rec: table_insert::projected_record(table, rec, destination, m),
        extra: 0,
        long: !base_paths::is_short(destination),
    }
}

// What is carried moved.
fn all_moves<'a>(
    listing: &'a [u8],
    table: &'a [u8],
    rec: model::Record,
    source: &[u8],
    destination: &[u8],
    whole: bool,
    first_len: u64,
) -> Moves
    requires listing_value { is_listing listing.now ≡ true }
    requires rec_value { is_table table.now rec ≡ true }
    requires destination_nonzero { (0 < length destination.now) × (length destination.now ≤ 512)
        × (first_len ≤ 16777216) }
    requires source { Source (table_in table.now rec) (tree_in listing.now) source.now whole }
    requires e_len { (e : Entry) → lookup (puts (table_in table.now rec) (mapped as_entry
        (only (uncovered (table_in table.now rec) source.now) (tree_in listing.now)))) source.now ≡ some e
        → length (body_of e) ≡ first_len }
    ensures moved { Moved rec.entry_size (table_in table.now rec) (rekey source.now
        destination.now (carried (table_in table.now rec) (tree_in listing.now)
        source.now)) result }
    ensures small { Small result.rec × (result.extra ≤ 0x4000_0000_0000_0000) }
{
    if whole {
        moves_below(listing, table, rec, source, destination, first_len)
    } else {
        one_move(table, rec, destination, first_len)
    }
}

// Deletions and moves together, since they have no key in common.
fn together(rec: model::Record, deletions: model::Record, moves: Moves) -> Projected
    requires small { Small deletions × Small moves.rec × (moves.extra ≤ 0x4000_0000_0000_0000) }
    requires used_bound { (rec.used ≤ deletions.used + moves.rec.used) × (rec.count ≤ deletions.count + moves.rec.count)
        × (rec.charge ≤ deletions.charge + moves.rec.charge) }
    ensures { result ≡ combined rec deletions moves }
{
    let after = moves.rec;
    let charge = deletions.charge + after.charge - rec.charge;
    let sums = model::Record {
        used: deletions.used + after.used - rec.used,
        count: deletions.count + after.count - rec.count,
        charge: charge,
        entry_size: rec.entry_size,
    };
    Projected {
        rec: sums,
        charge: charge + moves.extra,
        long: moves.long,
    }
}

// What rename leaves, without moving anything.
pub fn projected_move<'a>(
    listing: &'a [u8],
    table: &'a [u8],
    rec: model::Record,
    source: &[u8],
    destination: &[u8],
    whole: bool,
    first_len: u64,
) -> Projected
    requires listing_value { is_listing listing.now ≡ true }
    requires rec_value { is_table table.now rec ≡ true }
    requires source_nonzero { (0 < length source.now) × (length source.now ≤ 512) }
    requires destination_nonzero { (0 < length destination.now) × (length destination.now ≤ 512) }
    requires source { Source (table_in table.now rec) (tree_in listing.now) source.now whole }
    requires e_len { (e : Entry) → lookup (puts (table_in table.now rec) (mapped as_entry
        (only (uncovered (table_in table.now rec) source.now) (tree_in listing.now)))) source.now ≡ some e
        → length (body_of e) ≡ first_len }
    requires q_value { (q r : Path) → rest source.now q ≡ some r → rest destination.now q ≡ none }
    ensures { Foretold rec.entry_size (table_in table.now rec) (tree_in listing.now)
        source.now destination.now result }
{
    let moves = all_moves(listing, table, rec, source, destination, whole, first_len);
    let deletions = all_deletions(listing, table, rec, source, whole);
    together(rec, deletions, moves)
}
