// Whether bytes and a record are a table of document 01, in one pass, and opening a buffer as an empty table.
// All bytes and all records are taken.
#![tactic(auto)]

ghost use Rattle.std.specs.Prelude.{◌≡◌, ◌+◌, ◌-◌, ◌≤◌, length, take, drop};
ghost use Rattle.model.specs.Bytes.{before};
ghost use Rattle.model.specs.Path.{is_path};
ghost use Rattle.model.specs.Table.{key_at, entry_end, sized, is_table};
ghost use Rattle.model.specs.Answer.{told};
ghost use Rattle.model.specs.Outcome.{opened};
ghost use Rattle.table_open.specs.Pass.{type_rule, fits, headed, referring, in_order};

// Whether the entry size and the buffer's length are in their limits.
fn is_sized(entry_size: u64, len: usize) -> bool
    ensures { result ≡ sized entry_size len }
{
    entry_size <= model::MAX_ENTRY_SIZE && len <= model::MAX_BUFFER
}

// Whether an entry's type, body length, mtime bits and size go together.
fn is_ruled(kind: u64, body: u64, mtime: u64, size: u64) -> bool
    ensures { result ≡ type_rule kind body mtime size }
{
    match kind {
        model::OWN_FILE => size == 0,
        model::REFERENCE => size < model::SIGN,
        model::DIRECTORY => body == 0 && size == 0,
        model::DELETED => body == 0 && size == 0 && mtime == 0,
        _ => false,
    }
}

// Whether the entry that starts at `at` ends within the table.
fn is_inside(table: &[u8], at: usize) -> bool
    requires { at ≤ 16777216 }
    ensures { result ≡ fits table.now at }
{
    if table.len() < at + model::ENTRY_HEAD {
        return false;
    }
    let n = base_fields::le16(table, at) as usize;
    let m = base_fields::le32(table, at + 4) as usize;
    at + model::ENTRY_HEAD + n + m <= table.len()
}

// Whether the numbers of the entry at `at` go together.
fn is_headed(table: &[u8], at: usize) -> bool
    requires { at + 24 ≤ length table.now }
    ensures { result ≡ headed table.now at }
{
    is_ruled(
        base_fields::le16(table, at + 2),
        base_fields::le32(table, at + 4),
        base_fields::le64(table, at + 8),
        base_fields::le64(table, at + 16),
    )
}

// Whether the key of the entry at `at` is a path.
fn is_keyed(table: &[u8], at: usize) -> bool
    requires { (at + 24 ≤ length table.now) × (entry_end table.now at ≤ length table.now) }
    ensures { result ≡ is_path (key_at table.now at) }
{
    let from = at + model::ENTRY_HEAD;
    let to = from + base_fields::le16(table, at) as usize;
    base_paths::is_path(&table[from..to])
}

// Whether the body of the entry at `at`, if it is a reference, is a path that is not empty.
fn is_referring(table: &[u8], at: usize) -> bool
    requires { (at + 24 ≤ length table.now) × (entry_end table.now at ≤ length table.now) }
    ensures { result ≡ referring table.now at }
{
    if base_fields::le16(table, at + 2) != model::REFERENCE {
        return true;
    }
    let n = base_fields::le16(table, at) as usize;
    let m = base_fields::le32(table, at + 4) as usize;
    let from = at + model::ENTRY_HEAD + n;
    let to = from + m;
    0 < m && base_paths::is_path(&table[from..to])
}

// Whether the key of the entry at `at` is behind the key that stands from `from` up to `to`.
fn is_behind(table: &[u8], at: usize, from: usize, to: usize) -> bool
    requires at_in_bounds { (at + 24 ≤ length table.now) × (entry_end table.now at ≤ length table.now) }
    requires from_le_to { (from ≤ to) × (to ≤ length table.now) }
    ensures { result ≡ before (take (to - from) (drop from table.now)) (key_at table.now at) }
{
    let n = base_fields::le16(table, at) as usize;
    let start = at + model::ENTRY_HEAD;
    let end = start + n;
    let previous = &table[from..to];
    let key = &table[start..end];
    base_fields::is_before(previous, key)
}

// Whether an entry stands at `at` that is in order by itself and behind the key that stands from `from` up to `to`.
fn is_in_order(table: &[u8], at: usize, from: usize, to: usize) -> bool
    requires at_bound { at ≤ 16777216 }
    requires from_le_to { (from ≤ to) × (to ≤ length table.now) }
    ensures { result ≡ in_order table.now at (take (to - from) (drop from table.now)) }
{
    if !is_inside(table, at) {
        return false;
    }
    is_headed(table, at)
        && is_keyed(table, at)
        && is_referring(table, at)
        && is_behind(table, at, from, to)
}

// Whether the bytes are a table and the record is its own. The entries are read once, from the first to the last, and
// each costs a fixed number of passes over its key and, in a reference, its body; then the bytes behind them are read
// once. So the time is linear in the table's bytes, whatever the record counts: an entry that does not stand there ends
// the pass.
pub fn check(table: &[u8], rec: model::Record) -> bool
    ensures { result ≡ is_table table.now rec }
{
    let entry_size = rec.entry_size;
    if !is_sized(entry_size, table.len()) {
        return false;
    }
    // The key before the entry at `at` stands from `from` up to `to`. At first that is the empty one, and so no key is
    // empty.
    let mut at: usize = 0;
    let mut from: usize = 0;
    let mut to: usize = 0;
    let mut charge: u64 = 0;
    for _i in 0..rec.count {
        if !is_in_order(table, at, from, to) {
            return false;
        }
        let n = base_fields::le16(table, at);
        let m = base_fields::le32(table, at + 4);
        from = at + model::ENTRY_HEAD;
        to = from + n as usize;
        at = to + m as usize;
        charge += table_charge::entry_memory_usage(entry_size, n, m);
    }
    at as u64 == rec.used && charge == rec.charge && base_fields::all_zero(table, at)
}

// Makes the buffer an empty table for entries of this size, and gives its record. What is too large is refused, and
// nothing changes.
pub fn open(buffer: &mut [u8], entry_size: u64) -> model::Answered
    ensures answer_value { told result.answer ≡ (opened entry_size buffer.old).reply }
    ensures record_value { result.«record» ≡ (opened entry_size buffer.old).store.rec }
    ensures buffer_after { buffer.new ≡ (opened entry_size buffer.old).store.table }
{
    let empty = model::Record {
        used: 0,
        count: 0,
        charge: 0,
        entry_size,
    };
    if !is_sized(entry_size, buffer.len()) {
        return model::Answered {
            answer: Err(model::Refusal::MalformedTable),
            record: empty,
        };
    }
    base_fields::zero_from(buffer, 0);
    model::Answered {
        answer: Ok(0),
        record: empty,
    }
}
