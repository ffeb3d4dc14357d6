// A table written anew: what stays is copied from the old table's bytes into the work buffer, entries are put between,
// and the whole is copied back. Assumes bytes in which entries stand and buffers with room: only this repository's
// crates call, once it is known that the new table fits. All steps over ascending keys together read the old table once
// and write each byte of the new one once; `finish` adds a pass over each buffer.
#![tactic(auto)]

ghost use Rattle.std.specs.Prelude.{◌≡◌, true, ◌++◌, ◌+◌, ◌-◌, ◌≤◌, length, replicate};
ghost use Rattle.model.specs.Bytes.{bytes, before};
ghost use Rattle.model.specs.Path.{Path};
ghost use Rattle.model.specs.Map.{put};
ghost use Rattle.model.specs.Tree.{Table};
ghost use Rattle.model.specs.Table.{entry_bytes, encode, padded, entry_of, entries_at};
ghost use Rattle.base_fields.specs.Write.{overwritten};
ghost use Rattle.table_entries.specs.Place.{Standing, end_of};
ghost use Rattle.table_entries.specs.Cut.{up_to};
ghost use Rattle.table_write.specs.Merge.{head_bytes, Written, Merged, Copied};

// How far a table is written: `left` entries of the old one stand from `at` on, and `out` bytes of the new one are in
// the work buffer.
#[derive(Clone, Copy)]
pub struct Merge {
    pub at: usize,
    pub left: u64,
    pub out: usize,
}

fn put_sizes(work: &mut [u8], at: usize, n: u64, kind: u64, m: u64)
    requires { at + 8 ≤ length work.old }
    ensures { work.new ≡ overwritten work.old at (bytes 2 n ++ (bytes 2 kind ++ bytes 4
        m)) }
{
    base_fields::put16(work, at, n);
    base_fields::put16(work, at + 2, kind);
    base_fields::put32(work, at + 4, m);
}

fn put_times(work: &mut [u8], at: usize, mtime: u64, size: u64)
    requires { at + 16 ≤ length work.old }
    ensures { work.new ≡ overwritten work.old at (bytes 8 mtime ++ bytes 8 size) }
{
    base_fields::put64(work, at, mtime);
    base_fields::put64(work, at + 8, size);
}

// What stands before an entry's body, from `at` on: its fields, with `len` as the body's length, and its key.
pub fn put_head(work: &mut [u8], at: usize, key: &[u8], kind: u64, mtime: u64, size: u64, len: u64)
    requires { at + 24 + length key.now ≤ length work.old }
    ensures { work.new ≡ overwritten work.old at (head_bytes key.now kind mtime size
        len) }
{
    put_sizes(work, at, key.len() as u64, kind, len);
    put_times(work, at + 8, mtime, size);
    base_fields::copy_in(work, at + model::ENTRY_HEAD, key);
}

// An entry's bytes, from `at` on.
pub fn put_entry(
    work: &mut [u8],
    at: usize,
    key: &[u8],
    kind: u64,
    mtime: u64,
    size: u64,
    body: &[u8],
)
    requires body_in_bounds { at + 24 + length key.now + length body.now ≤ length work.old }
    requires written { Written kind mtime size body.now }
    ensures { work.new ≡ overwritten work.old at (entry_bytes key.now
        (entry_of kind mtime size body.now)) }
{
    put_head(work, at, key, kind, mtime, size, body.len() as u64);
    base_fields::copy_in(work, at + model::ENTRY_HEAD + key.len(), body);
}

// What stays up to this key, copied; the old entry with this key, if any, is passed over.
pub fn copy_up_to(work: &mut [u8], table: &[u8], merge: Merge, key: &[u8]) -> Merge
    requires standing { Standing table.now merge.left merge.at }
    requires at_in_bounds { merge.out + length (encode (up_to key.now (entries_at table.now merge.left merge.at)))
        ≤ length work.old }
    ensures { Copied table.now work.old work.new key.now merge.left
        merge.at merge.out result.left result.at result.out }
{
    let place = table_entries::Place {
        at: merge.at,
        left: merge.left,
    };
    let found = table_entries::seek(table, place, key);
    base_fields::copy_in(work, merge.out, &table[merge.at..found.at]);
    let next = table_measure::behind_key(table, found, key);
    Merge {
        at: next.at,
        left: next.left,
        out: merge.out + (found.at - merge.at),
    }
}

// What stays up to this key, then the entry; the old entry with this key, if any, is passed over.
pub fn put_next(
    work: &mut [u8],
    table: &[u8],
    merge: Merge,
    key: &[u8],
    kind: u64,
    mtime: u64,
    size: u64,
    body: &[u8],
) -> Merge
    requires standing { Standing table.now merge.left merge.at }
    requires written { Written kind mtime size body.now }
    requires body_in_bounds { merge.out + length (encode (up_to key.now (entries_at table.now merge.left merge.at))) +
        (24 + length key.now + length body.now) ≤ length work.old }
    ensures merged { (t : Table) (k : Path) → Merged table.now work.old t k merge.left
        merge.at merge.out → before k key.now ≡ true → Merged table.now work.new
        (put key.now (entry_of kind mtime size body.now) t) key.now result.left result.at
        result.out }
    ensures work_len_unchanged { length work.new ≡ length work.old }
    ensures at_value { end_of table.now result.left result.at ≡ end_of table.now merge.left
        merge.at }
{
    let behind = copy_up_to(work, table, merge, key);
    put_entry(work, behind.out, key, kind, mtime, size, body);
    Merge {
        out: behind.out + model::ENTRY_HEAD + key.len() + body.len(),
        ..behind
    }
}

// What is left of the old table, whose entries end at `used`; then the new table back into its buffer, zeros behind it,
// and the work buffer all zero.
pub fn finish(table: &mut [u8], work: &mut [u8], merge: Merge, used: usize)
    requires at_le_used { (merge.at ≤ used) × (used ≤ length table.old) }
    requires at_in_bounds { (merge.out + (used - merge.at) ≤ length table.old) × (length table.old ≤ length work.old) }
    ensures table_after { (t : Table) (k : Path) → Merged table.old work.old t k merge.left
        merge.at merge.out → used ≡ end_of table.old merge.left merge.at → table.new
        ≡ padded (length table.old) (encode t) }
    ensures work_after { work.new ≡ replicate (length work.old) 0 }
{
    base_fields::copy_in(work, merge.out, &table[merge.at..used]);
    let n = merge.out + (used - merge.at);
    base_fields::copy_in(table, 0, &work[..n]);
    base_fields::zero_from(table, n);
    base_fields::zero_from(work, 0);
}
