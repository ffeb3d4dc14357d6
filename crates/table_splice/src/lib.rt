// #103: a file's content with data written at an offset, put as an own file's entry: `append_file` and `write_file_at`
// of overlay_state.rs. The old content lies in the table itself, or in bytes that the caller lends. Assumes a table
// that agrees with its record, and a key that is not empty: only this repository's crates call, after a check. Nothing
// is written before the charge and the room are known. Each call is a constant number of passes over table, work
// buffer, data and lent bytes.
#![tactic(auto)]

ghost use Rattle.std.specs.Prelude.{◌≡◌, true, [], ◌++◌, ℕ, ◌+◌, ◌-◌, ◌≤◌, ◌<◌, leb, length, take, drop};
ghost use Rattle.std.specs.Prelude.{replicate, IfOk, OnErr};
ghost use Rattle.std.proofs.Math.Option.{some};
ghost use Rattle.model.specs.Bytes.{Bytes, before};
ghost use Rattle.model.specs.Path.{Path};
ghost use Rattle.model.specs.Map.{lookup, put};
ghost use Rattle.model.specs.Tree.{Entry, own, Table};
ghost use Rattle.model.specs.Table.{body_of, entry_bytes, encode, padded, entry_at, entries_at, table_in, is_table};
ghost use Rattle.model.specs.Content.{spliced};
ghost use Rattle.base_fields.specs.Write.{overwritten};
ghost use Rattle.table_entries.specs.Place.{Standing, Sought, end_of};
ghost use Rattle.table_entries.specs.Cut.{up_to};
ghost use Rattle.table_write.specs.Merge.{Merged};
ghost use Rattle.table_insert.specs.Insert.{insertion, if_done};
ghost use Rattle.table_splice.specs.Splice.{is_own_file, answer_of};

use table_insert::InsertError;

// The record that the new table will have, and how far it is written to the work buffer.
#[derive(Clone, Copy)]
struct Begun {
    after: model::Record,
    merge: table_write::Merge,
}

// How long a content of `len` bytes is with `added` bytes written at the offset.
fn spliced_len(len: u64, offset: u64, added: u64) -> u64
    requires { offset + added < 0x1_0000_0000_0000_0000 }
    ensures { (c d : Bytes) → length c ≡ len → length d ≡ added → result ≡ length (spliced offset d c) }
{
    let end = offset + added;
    if end < len { len } else { end }
}

// Whether the sum is within the bound, also where it has more than 64 bits.
fn sum_within(x: u64, y: u64, bound: u64) -> bool
    ensures { result ≡ leb (x + y) bound }
{
    y <= bound && x <= bound - y
}

// What inserting an entry with a body of `len` bytes will answer, for any `len`: the limit first, then the room. The
// record is measured without the body: a charge that would pass 2^64 − 1 counts as that, and no sum of bytes is made
// before it is known to be within the room.
fn judge_length(
    table: &[u8],
    rec: model::Record,
    key: &[u8],
    len: u64,
    limit: u64,
) -> Result<model::Record, InsertError>
    requires rec_value { is_table table.now rec ≡ true }
    requires key_value { (before [] key.now ≡ true) × (length key.now ≤ 512) }
    ensures { (v : Entry) → length (body_of v) ≡ len → result ≡ insertion rec.entry_size limit
        (length table.now) (put key.now v (table_in table.now rec)) }
{
    let bare = table_insert::projected_record(table, rec, key, 0);
    let charged = table_charge::body_charge(len);
    let charge = table_charge::saturating_add(bare.charge, charged);
    if limit < charge {
        return Err(InsertError::MemoryUsageLimitExceeded);
    }
    if !sum_within(bare.used, len, table.len() as u64) {
        return Err(InsertError::NoRoom);
    }
    Ok(model::Record {
        used: bare.used + len,
        charge,
        ..bare
    })
}

// What stands before the offset, from `at` on: the content up to there, with zeros where it ends before the offset.
fn put_front(work: &mut [u8], at: usize, content: &[u8], offset: usize)
    requires { at + offset ≤ length work.old }
    ensures { work.new ≡ overwritten work.old at (take offset (padded offset
        content.now)) }
{
    let n = content.len();
    if offset <= n {
        base_fields::copy_in(work, at, &content[..offset]);
    } else {
        base_fields::copy_in(work, at, content);
        base_fields::zero_to(work, at + n, at + offset);
    }
}

// What of the content stands from `from` on, if any.
fn put_tail(work: &mut [u8], at: usize, content: &[u8], from: usize)
    requires { at + (length content.now - from) ≤ length work.old }
    ensures { work.new ≡ overwritten work.old at (drop from content.now) }
{
    if from < content.len() {
        base_fields::copy_in(work, at, &content[from..]);
    }
}

// The content with the data at the offset, from `at` on.
fn put_content(work: &mut [u8], at: usize, content: &[u8], offset: usize, data: &[u8])
    requires { at + length (spliced offset «data».now content.now) ≤ length work.old }
    ensures { work.new ≡ overwritten work.old at (spliced offset «data».now
        content.now) }
{
    put_front(work, at, content, offset);
    base_fields::copy_in(work, at + offset, data);
    let end = offset + data.len();
    put_tail(work, at + end, content, end);
}

// The entry's bytes from `at` on, and where they end.
fn put_spliced(
    work: &mut [u8],
    at: usize,
    key: &[u8],
    mtime: u64,
    content: &[u8],
    offset: usize,
    data: &[u8],
) -> usize
    requires { at + 24 + length key.now + length (spliced offset «data».now content.now) ≤ length work.old }
    ensures work_after { work.new ≡ overwritten work.old at (entry_bytes key.now (own mtime
        (spliced offset «data».now content.now))) }
    ensures value { result ≡ at + 24 + length key.now + length (spliced offset «data».now
        content.now) }
{
    let len = spliced_len(content.len() as u64, offset as u64, data.len() as u64);
    table_write::put_head(work, at, key, model::OWN_FILE, mtime, 0, len);
    let body = at + model::ENTRY_HEAD + key.len();
    put_content(work, body, content, offset, data);
    body + len as usize
}

// What stays up to this key, then the entry; the old entry with this key, if any, is passed over.
fn put_next_spliced(
    work: &mut [u8],
    table: &[u8],
    merge: table_write::Merge,
    key: &[u8],
    mtime: u64,
    content: &[u8],
    offset: usize,
    data: &[u8],
) -> table_write::Merge
    requires standing { Standing table.now merge.left merge.at }
    requires content_in_bounds { merge.out + length (encode (up_to key.now
        (entries_at table.now merge.left merge.at))) +
        (24 + length key.now + length (spliced offset «data».now content.now)) ≤ length work.old }
    ensures merged { (t : Table) (k : Path) → Merged table.now work.old t k merge.left
        merge.at merge.out → before k key.now ≡ true → Merged table.now work.new
        (put key.now (own mtime (spliced offset «data».now content.now)) t)
        key.now result.left result.at result.out }
    ensures work_len_unchanged { length work.new ≡ length work.old }
    ensures at_value { end_of table.now result.left result.at ≡ end_of table.now merge.left
        merge.at }
{
    let behind = table_write::copy_up_to(work, table, merge, key);
    let out = put_spliced(work, behind.out, key, mtime, content, offset, data);
    table_write::Merge { out, ..behind }
}

// The new table written to the work buffer up to and with the entry, if inserting it will be done; else nothing is
// written.
fn write_spliced(
    work: &mut [u8],
    table: &[u8],
    rec: model::Record,
    key: &[u8],
    mtime: u64,
    content: &[u8],
    offset: u64,
    data: &[u8],
    limit: u64,
) -> Result<Begun, InsertError>
    requires rec_value { is_table table.now rec ≡ true }
    requires key_value { (before [] key.now ≡ true) × (length key.now ≤ 512) }
    requires data_bound { (offset + length «data».now < 0x1_0000_0000_0000_0000)
        × (length table.now ≤ length work.old) }
    ensures judged { answer_of result ≡ insertion rec.entry_size limit (length table.now) (put key.now
        (own mtime (spliced offset «data».now content.now)) (table_in table.now rec)) }
    ensures merged { IfOk result (λ x. Merged table.now work.new (put key.now (own mtime
        (spliced offset «data».now content.now)) (table_in table.now rec)) key.now x.merge.left x.merge.at
        x.merge.out) }
    ensures end { IfOk result (λ x. end_of table.now x.merge.left x.merge.at ≡ end_of table.now rec.count 0) }
    ensures kept { OnErr result (work.new ≡ work.old) }
{
    let len = spliced_len(content.len() as u64, offset, data.len() as u64);
    let after = judge_length(table, rec, key, len, limit)?;
    let start = table_write::Merge {
        at: 0,
        left: rec.count,
        out: 0,
    };
    let merge = put_next_spliced(
        work,
        table,
        start,
        key,
        mtime,
        content,
        offset as usize,
        data,
    );
    Ok(Begun { after, merge })
}

// The data written at the offset into the own file whose entry, with this key, stands at the place, if the charge then
// is within the limit and the table then fits its buffer; else all stays as it is.
pub fn insert_parts(
    table: &mut [u8],
    work: &mut [u8],
    rec: model::Record,
    key: &[u8],
    mtime: u64,
    place: table_entries::Place,
    offset: u64,
    data: &[u8],
    limit: u64,
) -> Result<model::Record, InsertError>
    requires rec_value { is_table table.old rec ≡ true }
    requires key_value { (before [] key.now ≡ true) × (length key.now ≤ 512) }
    requires data_bound { (offset + length «data».now < 0x1_0000_0000_0000_0000)
        × (length table.old ≤ length work.old) }
    requires sought { Sought table.old key.now rec.count 0 place.left place.at }
    requires key_value_2 { is_own_file (lookup (table_in table.old rec) key.now) ≡ true }
    ensures by_index { (m : ℕ) (c : Bytes) → lookup (table_in table.old rec) key.now ≡ some
        (own m c) → result ≡ insertion rec.entry_size limit (length table.old) (put key.now
        (own mtime (spliced offset «data».now c)) (table_in table.old rec)) }
    ensures by_index_2 { (m : ℕ) (c : Bytes) → lookup (table_in table.old rec) key.now ≡ some
        (own m c) → table.new ≡ if_done result (padded (length table.old) (encode (put key.now
        (own mtime (spliced offset «data».now c)) (table_in table.old rec)))) table.old }
    ensures work_after { work.new ≡ if_done result (replicate (length work.old) 0) work.old }
{
    let content = table_entries::entry_body(table, place);
    let begun = write_spliced(work, table, rec, key, mtime, content, offset, data, limit)?;
    table_write::finish(table, work, begun.merge, rec.used as usize);
    Ok(begun.after)
}

// An own file put with the lent bytes and the data behind them as its content, under the same conditions.
pub fn insert_lent(
    table: &mut [u8],
    work: &mut [u8],
    rec: model::Record,
    key: &[u8],
    mtime: u64,
    lent: &[u8],
    data: &[u8],
    limit: u64,
) -> Result<model::Record, InsertError>
    requires rec_value { is_table table.old rec ≡ true }
    requires key_value { (before [] key.now ≡ true) × (length key.now ≤ 512) }
    requires table_in_bounds { length table.old ≤ length work.old }
    ensures value { result ≡ insertion rec.entry_size limit (length table.old) (put key.now
        (own mtime (lent.now ++ «data».now)) (table_in table.old rec)) }
    ensures table_after { table.new ≡ if_done result (padded (length table.old) (encode (put key.now
        (own mtime (lent.now ++ «data».now)) (table_in table.old rec)))) table.old }
    ensures work_after { work.new ≡ if_done result (replicate (length work.old) 0) work.old }
{
    let offset = lent.len() as u64;
    let begun = write_spliced(work, table, rec, key, mtime, lent, offset, data, limit)?;
    table_write::finish(table, work, begun.merge, rec.used as usize);
    Ok(begun.after)
}
