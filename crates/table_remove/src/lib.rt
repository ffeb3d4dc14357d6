// One entry removed: `remove` of overlay_state.rs. Assumes a table that agrees with its record, and a work buffer that
// is at least as long: only this repository's crates call, after a check. A call is a constant number of passes over
// table and work buffer.
#![tactic(auto)]

ghost use Rattle.std.specs.Prelude.{◌≡◌, true, ◌+◌, ◌≤◌, length, replicate};
ghost use Rattle.model.specs.Map.{del};
ghost use Rattle.model.specs.Table.{encode, padded, record_of, table_in, is_table};
ghost use Rattle.table_charge.specs.Charge.{charge_by};
ghost use Rattle.table_entries.specs.Place.{Sought};
ghost use Rattle.table_remove.specs.Remove.{lessened};

// The record without an entry whose key and body have these lengths.
fn without(rec: model::Record, key_len: u64, body_len: u64) -> model::Record
    requires entry_size_bound { (rec.entry_size ≤ 4096) × (key_len ≤ 16777216) × (body_len ≤ 16777216) }
    requires body_len_bound { (24 + key_len + body_len ≤ rec.used) × (1 ≤ rec.count) × (charge_by rec.entry_size key_len
        body_len ≤ rec.charge) }
    ensures { result ≡ lessened rec key_len body_len }
{
    let usage = table_charge::entry_memory_usage(rec.entry_size, key_len, body_len);
    model::Record {
        used: rec.used - (model::ENTRY_HEAD_64 + key_len + body_len),
        count: rec.count - 1,
        charge: rec.charge - usage,
        ..rec
    }
}

// The record without the entry at the key: the place is where it stands, if there is one.
fn record_without(
    table: &[u8],
    rec: model::Record,
    place: table_entries::Place,
    key: &[u8],
) -> model::Record
    requires rec_value { is_table table.now rec ≡ true }
    requires sought { Sought table.now key.now rec.count 0 place.left place.at }
    ensures { result ≡ record_of rec.entry_size (del key.now (table_in table.now rec)) }
{
    if table_measure::has_key(table, place, key) {
        let body_len = base_fields::le32(table, place.at + 4);
        without(rec, key.len() as u64, body_len)
    } else {
        rec
    }
}

// The table anew without the entry at the key, if there is one; the record that it then has.
pub fn remove(table: &mut [u8], work: &mut [u8], rec: model::Record, key: &[u8]) -> model::Record
    requires rec_value { is_table table.old rec ≡ true }
    requires table_in_bounds { length table.old ≤ length work.old }
    ensures value { result ≡ record_of rec.entry_size (del key.now (table_in table.old rec)) }
    ensures table_after { table.new ≡ padded (length table.old) (encode (del key.now
        (table_in table.old rec))) }
    ensures work_after { work.new ≡ replicate (length work.old) 0 }
{
    let first = table_entries::first_entry(table, rec);
    let found = table_entries::seek(table, first, key);
    let after = record_without(table, rec, found, key);
    let next = table_measure::behind_key(table, found, key);
    base_fields::copy_in(work, 0, &table[..found.at]);
    let merge = table_write::Merge {
        at: next.at,
        left: next.left,
        out: found.at,
    };
    table_write::finish(table, work, merge, rec.used as usize);
    after
}
