// The listed paths below a directory that no entry covers, in ascending order: what rename's walk comes to.
// Assumes a part of a checked listing and a checked table: only this repository's crates call.
// A whole pass reads each record of the part and each entry of the table once, and each path a fixed number of times.
#![tactic(auto)]

ghost use Rattle.std.specs.Prelude.{◌≡◌, true, ◌-◌, ◌≤◌, ◌<◌, length};
ghost use Rattle.model.specs.Path.{Path};
ghost use Rattle.model.specs.Map.{is_none, lookup};
ghost use Rattle.model.specs.Tree.{Table, Tree};
ghost use Rattle.model.specs.Listing.{record_end};
ghost use Rattle.model.specs.Table.{table_in, is_table};
ghost use Rattle.model.specs.Rename.{uncovered};
ghost use Rattle.listing_records.specs.Place.{tree_at};
ghost use Rattle.rename_uncovered.specs.Cover.{Covering, Following};
ghost use Rattle.rename_uncovered.specs.Ahead.{PartBelow, to_come, Ready, Reading, ReadyAt, AheadAt};

// Whether a listed path below a directory of `from` bytes is uncovered, by its own entry and its parent's flag; its
// flag is then set. Byte order is not tree order, so a parent's flag is kept by its length: all paths between `x` and
// `x/y` begin with `x` and are longer, so none of them overwrites it. One pass over the path's last component.
pub fn cover(flags: &mut [bool; 513], path: &[u8], from: usize, absent: bool) -> bool
    requires { (from < length path.now) × (length path.now ≤ 512) × (length flags.old ≡ 513) }
    ensures flags_len { length flags.new ≡ 513 }
    ensures value { (t : Table) (a : Path) (l : Tree) (p : Path) → Covering t a l flags.old p
        → Following a l p path.now → from ≡ length a → absent ≡ is_none (lookup t path.now)
        → (result ≡ uncovered t a path.now) × Covering t a l flags.new path.now }
{
    let end = base_paths::parent_end(path, from);
    let reached = absent & ((end == from) | flags[end]);
    flags[path.len()] = reached;
    reached
}

// A place at an uncovered record or at the end: `left` records stand in the part from `at` on, and the table's entries
// from the path of the last record read on stand from `place` on.
#[derive(Clone, Copy)]
pub struct Cursor {
    pub at: usize,
    pub left: u64,
    pub place: table_entries::Place,
}

// The first uncovered record from a place on. Both places only go forward, so each record and each entry passed is read
// once.
fn seek_uncovered(
    flags: &mut [bool; 513],
    part: &[u8],
    records: listing_records::Place,
    table: &[u8],
    entries: table_entries::Place,
    source: &[u8],
) -> Cursor
    requires { Ready part.now table.now source.now flags.old records.left records.at entries.left
        entries.at }
    ensures ready_at { ReadyAt part.now table.now source.now flags.new result }
    ensures left_le_left { result.left ≤ records.left }
    ensures ahead_at { (t : Table) (l : Tree) → Reading part.now table.now source.now t
        l flags.old records.left records.at entries.left entries.at → AheadAt part.now
        table.now source.now t l flags.new result × (to_come t source.now
        part.now result.left result.at ≡ to_come t source.now part.now records.left
        records.at) }
{
    let mut here = records;
    let mut place = entries;
    while 0 < here.left {
        let path = listing_records::record_path(part, here);
        let got = table_entries::get_from(table, place, path);
        place = got.place;
        if cover(
            flags,
            path,
            source.len(),
            table_entries::is_absent(got.entry),
        ) {
            return Cursor {
                at: here.at,
                left: here.left,
                place,
            };
        }
        here = listing_records::next_record(part, here);
    }
    Cursor {
        at: here.at,
        left: here.left,
        place,
    }
}

// The first uncovered record of the part below `source`. The flags need no first values, since a flag is set before it
// is asked for. It reads the records up to its answer, and the entries up to that record's path.
pub fn first_uncovered(
    flags: &mut [bool; 513],
    part: &[u8],
    count: u64,
    table: &[u8],
    rec: model::Record,
    source: &[u8],
) -> Cursor
    requires flags_len { length flags.old ≡ 513 }
    requires part_below { PartBelow part.now source.now count }
    requires rec_value { is_table table.now rec ≡ true }
    ensures ready_at { ReadyAt part.now table.now source.now flags.new result }
    ensures left_le_count { result.left ≤ count }
    ensures ahead_at { AheadAt part.now table.now source.now
        (table_in table.now rec) (tree_at part.now count 0) flags.new result }
    ensures at_value { to_come (table_in table.now rec) source.now part.now result.left
        result.at ≡ to_come (table_in table.now rec) source.now part.now count 0 }
{
    let first = table_entries::first_entry(table, rec);
    let records = listing_records::Place { at: 0, left: count };
    seek_uncovered(flags, part, records, table, first, source)
}

// The next uncovered record behind the one that a cursor stands at. It reads on from there, so that all steps of a pass
// together read the part once and the table once.
pub fn next_uncovered(
    flags: &mut [bool; 513],
    part: &[u8],
    table: &[u8],
    cursor: Cursor,
    source: &[u8],
) -> Cursor
    requires ready_at { ReadyAt part.now table.now source.now flags.old cursor }
    requires left_nonzero { 0 < cursor.left }
    ensures ready_at_2 { ReadyAt part.now table.now source.now flags.new result }
    ensures left_lt_left { result.left < cursor.left }
    ensures ahead_at { (t : Table) (l : Tree) → AheadAt part.now table.now source.now t
        l flags.old cursor → AheadAt part.now table.now source.now t l
        flags.new result × (to_come t source.now part.now result.left result.at
        ≡ to_come t source.now part.now (cursor.left - 1) (record_end part.now
        cursor.at)) }
{
    let here = listing_records::Place {
        at: cursor.at,
        left: cursor.left,
    };
    let next = listing_records::next_record(part, here);
    seek_uncovered(flags, part, next, table, cursor.place, source)
}
