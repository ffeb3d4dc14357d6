// The record that a change leaves, known before anything is written: bytes used, entries and charge with an entry put.
// Assumes bytes in which entries stand: only this repository's crates call, after a check.
// A pass over ascending keys goes forward only: all its steps together read each entry's head once.
#![tactic(auto)]

ghost use Rattle.std.specs.Prelude.{◌≡◌, true, ◌≤◌, length};
ghost use Rattle.model.specs.Bytes.{before};
ghost use Rattle.model.specs.Path.{Path};
ghost use Rattle.model.specs.Map.{put};
ghost use Rattle.model.specs.Tree.{Entry, Table};
ghost use Rattle.model.specs.Table.{body_of, body_charge, entries_at};
ghost use Rattle.table_entries.specs.Place.{Standing, end_of};
ghost use Rattle.table_entries.specs.Cut.{unless_first};
ghost use Rattle.table_measure.specs.Measure.{starts_at, added, replaced, Measured, Counts};

// The record with an entry put, and the place behind that entry's key.
#[derive(Clone, Copy)]
pub struct Projection {
    pub place: table_entries::Place,
    pub rec: model::Record,
}

// Whether the entry at a place has this key.
pub fn has_key(table: &[u8], place: table_entries::Place, key: &[u8]) -> bool
    requires { Standing table.now place.left place.at }
    ensures { result ≡ starts_at key.now (entries_at table.now place.left place.at) }
{
    place.left != 0 && base_fields::is_same(table_entries::entry_key(table, place), key)
}

// The place itself, or the one behind it where the entry has this key.
pub fn behind_key(table: &[u8], place: table_entries::Place, key: &[u8]) -> table_entries::Place
    requires { Standing table.now place.left place.at }
    ensures standing { Standing table.now result.left result.at }
    ensures at_value { entries_at table.now result.left result.at ≡ unless_first key.now (entries_at
        table.now place.left place.at) }
    ensures at_value_2 { end_of table.now result.left result.at ≡ end_of table.now place.left
        place.at }
{
    if has_key(table, place, key) {
        table_entries::next_entry(table, place)
    } else {
        place
    }
}

// The record with one entry more, of n bytes of key and m of body.
fn with_entry(rec: model::Record, n: u64, m: u64) -> model::Record
    requires used_bound { (rec.used ≤ 0x4000_0000_0000_0000) × (rec.count ≤ 0x4000_0000_0000_0000)
        × (rec.charge ≤ 0x4000_0000_0000_0000) }
    requires entry_size_bound { (rec.entry_size ≤ 4096) × (n ≤ 512) × (m ≤ 0x8000_0000_0000_0000) }
    ensures { result ≡ added rec n m }
{
    let entry_size = rec.entry_size;
    let usage = table_charge::entry_memory_usage(entry_size, n, m);
    model::Record {
        used: rec.used + model::ENTRY_HEAD_64 + n + m,
        count: rec.count + 1,
        charge: rec.charge + usage,
        entry_size,
    }
}

// The record with a body of m bytes in the place of one of `old`.
fn with_body(rec: model::Record, old: u64, m: u64) -> model::Record
    requires used_bound { (rec.used ≤ 0x4000_0000_0000_0000) × (rec.charge ≤ 0x4000_0000_0000_0000)
        × (m ≤ 0x8000_0000_0000_0000) }
    requires le_used { (old ≤ rec.used) × (body_charge old ≤ rec.charge) }
    ensures { result ≡ replaced rec old m }
{
    let charged = table_charge::body_charge(m);
    let was = table_charge::body_charge(old);
    model::Record {
        used: rec.used + m - old,
        count: rec.count,
        charge: rec.charge + charged - was,
        entry_size: rec.entry_size,
    }
}

// The record after an entry with this key and `len` bytes of body is put, in the place of the one that has the key, if
// any.
pub fn projected(
    table: &[u8],
    place: table_entries::Place,
    rec: model::Record,
    key: &[u8],
    len: u64,
) -> Projection
    requires counts { Counts table.now place.left place.at rec }
    requires key_len_bound { (length key.now ≤ 512) × (len ≤ 0x8000_0000_0000_0000) }
    ensures { (t : Table) (k : Path) (v : Entry) → Measured table.now t k place.left place.at
        rec.entry_size rec → before k key.now ≡ true → length (body_of v) ≡ len
        → Measured table.now (put key.now v t) key.now result.place.left result.place.at
        rec.entry_size result.rec }
{
    let found = table_entries::seek(table, place, key);
    if has_key(table, found, key) {
        let old = base_fields::le32(table, found.at + 4);
        Projection {
            place: table_entries::next_entry(table, found),
            rec: with_body(rec, old, len),
        }
    } else {
        Projection {
            place: found,
            rec: with_entry(rec, key.len() as u64, len),
        }
    }
}
