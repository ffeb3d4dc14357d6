// One entry inserted, or put in the place of the one with its key: `memory_usage`, `projected_usage`,
// `check_file_replacement`, `insert` and `insert_unchecked` of overlay_state.rs. Assumes a table that agrees with its
// record, and a key that is not empty: only this repository's crates call, after a check. Nothing is written before the
// charge and the room are known. Each call is a constant number of passes over table, work buffer and body.
#![tactic(auto)]

ghost use Rattle.std.specs.Prelude.{◌≡◌, true, [], ◌≤◌, leb, length, replicate};
ghost use Rattle.model.specs.Bytes.{before};
ghost use Rattle.model.specs.Map.{put};
ghost use Rattle.model.specs.Tree.{Entry};
ghost use Rattle.model.specs.Table.{body_of, encode, padded, charge, record_of, entry_of, table_in, is_table};
ghost use Rattle.table_write.specs.Merge.{Written};
ghost use Rattle.table_insert.specs.Insert.{refusal_of, judged, insertion, if_done};

// Why nothing was inserted: the Rust's error, and `NoRoom`, the port's own. Where an insertion is done, it answers with
// the record that the table then has.
#[derive(Clone, Copy, Debug, PartialEq, Eq)]
pub enum InsertError {
    MemoryUsageLimitExceeded,
    NoRoom,
}

impl From<InsertError> for model::Refusal {
    ghost from_gives = { λ e r. r ≡ refusal_of e };

    fn from(e: InsertError) -> model::Refusal {
        match e {
            InsertError::MemoryUsageLimitExceeded => model::Refusal::Limit,
            InsertError::NoRoom => model::Refusal::NoRoom,
        }
    }
}

// The table's charge.
pub fn memory_usage(table: &[u8], rec: model::Record) -> u64
    requires { is_table table.now rec ≡ true }
    ensures { result ≡ charge rec.entry_size (table_in table.now rec) }
{
    rec.charge
}

// The record as if an entry with this key and `len` bytes of body were put.
pub fn projected_record(table: &[u8], rec: model::Record, key: &[u8], len: u64) -> model::Record
    requires rec_value { is_table table.now rec ≡ true }
    requires key_value { (before [] key.now ≡ true) × (length key.now ≤ 512) × (len ≤ 0x8000_0000_0000_0000) }
    ensures { (v : Entry) → length (body_of v) ≡ len → result ≡ record_of rec.entry_size (put key.now v
        (table_in table.now rec)) }
{
    let first = table_entries::first_entry(table, rec);
    let after = table_measure::projected(table, first, rec, key, len);
    after.rec
}

// The charge as if an entry with this key and `len` bytes of body were put.
pub fn projected_usage(table: &[u8], rec: model::Record, key: &[u8], len: u64) -> u64
    requires rec_value { is_table table.now rec ≡ true }
    requires key_value { (before [] key.now ≡ true) × (length key.now ≤ 512) × (len ≤ 0x8000_0000_0000_0000) }
    ensures { (v : Entry) → length (body_of v) ≡ len → result ≡ charge rec.entry_size (put key.now v
        (table_in table.now rec)) }
{
    let after = projected_record(table, rec, key, len);
    after.charge
}

// Whether a file of `len` bytes can be put at the key within the limit.
pub fn check_file_replacement(
    table: &[u8],
    rec: model::Record,
    key: &[u8],
    len: u64,
    limit: u64,
) -> bool
    requires rec_value { is_table table.now rec ≡ true }
    requires key_value { (before [] key.now ≡ true) × (length key.now ≤ 512) × (len ≤ 0x8000_0000_0000_0000) }
    ensures { (v : Entry) → length (body_of v) ≡ len → result ≡ leb (charge rec.entry_size
        (put key.now v (table_in table.now rec))) limit }
{
    let usage = projected_usage(table, rec, key, len);
    usage <= limit
}

// What inserting will answer: the limit first, then the room.
pub fn judge(after: model::Record, limit: u64, room: u64) -> Result<model::Record, InsertError>
    ensures { result ≡ judged after limit room }
{
    if limit < after.charge {
        return Err(InsertError::MemoryUsageLimitExceeded);
    }
    if room < after.used {
        return Err(InsertError::NoRoom);
    }
    Ok(after)
}

// The table anew with the entry in it, once it is known that it fits.
pub fn insert_unchecked(
    table: &mut [u8],
    work: &mut [u8],
    rec: model::Record,
    key: &[u8],
    kind: u64,
    mtime: u64,
    size: u64,
    body: &[u8],
)
    requires rec_value { is_table table.old rec ≡ true }
    requires key_value { (before [] key.now ≡ true) × Written kind mtime size body.now
        × (length table.old ≤ length work.old) }
    requires rec_in_bounds { length (encode (put key.now (entry_of kind mtime size body.now)
        (table_in table.old rec))) ≤ length
        table.old }
    ensures table_after { table.new ≡ padded (length table.old) (encode (put key.now
        (entry_of kind mtime size body.now) (table_in table.old rec))) }
    ensures work_after { work.new ≡ replicate (length work.old) 0 }
{
    let start = table_write::Merge {
        at: 0,
        left: rec.count,
        out: 0,
    };
    let merge = table_write::put_next(work, table, start, key, kind, mtime, size, body);
    let used = rec.used as usize;
    table_write::finish(table, work, merge, used);
}

// The entry inserted if the charge then is within the limit and the table then fits its buffer; else all stays as it
// is.
pub fn insert(
    table: &mut [u8],
    work: &mut [u8],
    rec: model::Record,
    key: &[u8],
    kind: u64,
    mtime: u64,
    size: u64,
    body: &[u8],
    limit: u64,
) -> Result<model::Record, InsertError>
    requires rec_value { is_table table.old rec ≡ true }
    requires key_value { (before [] key.now ≡ true) × (length key.now ≤ 512) }
    requires written { Written kind mtime size body.now × (length table.old ≤ length work.old) }
    ensures value { result ≡ insertion rec.entry_size limit (length table.old) (put key.now
        (entry_of kind mtime size body.now) (table_in table.old rec)) }
    ensures table_after { table.new ≡ if_done result (padded (length table.old) (encode (put key.now
        (entry_of kind mtime size body.now) (table_in table.old rec)))) table.old }
    ensures work_after { work.new ≡ if_done result (replicate (length work.old) 0) work.old }
{
    let projected = projected_record(table, rec, key, body.len() as u64);
    let after = judge(projected, limit, table.len() as u64)?;
    insert_unchecked(table, work, rec, key, kind, mtime, size, body);
    Ok(after)
}
