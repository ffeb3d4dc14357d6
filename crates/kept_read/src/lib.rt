// The reader of kept overlay files (#101): the part of a file that is its listing, and the table and the record that it
// holds. All bytes are taken, and nothing is written unless all checks pass: one pass over the listing, three over the
// entries (their heads for count and charge, the check, the copy).
#![tactic(auto)]

ghost use Rattle.std.specs.Prelude.{◌≡◌, true, ◌≤◌, length};
ghost use Rattle.model.specs.Bytes.{Bytes};
ghost use Rattle.model.specs.Table.{padded};
ghost use Rattle.kept_file.specs.Kept.{marked, listing_in, entries_in, read_back, told_reading, told_content};
ghost use Rattle.kept_read.specs.Heads.{heads, record_in};
ghost use Rattle.kept_read.specs.Frame.{listing_end, framed};

use kept_file::{Content, ReadError};
use model::Record;

// Where the listing begins.
const LISTING: usize = kept_file::HEAD + kept_file::LENGTH;

// The record of entries by their heads, one after the other: their count and charge. An entry that does not end within
// the bytes stops it, and there is none.
fn sum_entries(entries: &[u8], entry_size: u64) -> Option<Record>
    requires { (entry_size ≤ 4096) × (length entries.now ≤ 16777216) }
    ensures { result ≡ heads entry_size entries.now }
{
    let mut at: usize = 0;
    let mut count: u64 = 0;
    let mut charge: u64 = 0;
    while at < entries.len() {
        if entries.len() < at + model::ENTRY_HEAD {
            return None;
        }
        let n = base_fields::le16(entries, at);
        let m = base_fields::le32(entries, at + 4);
        let end = at + model::ENTRY_HEAD + n as usize + m as usize;
        if entries.len() < end {
            return None;
        }
        charge += table_charge::entry_memory_usage(entry_size, n, m);
        count += 1;
        at = end;
    }
    Some(Record {
        used: entries.len() as u64,
        count,
        charge,
        entry_size,
    })
}

// The record of bytes that are a table's entries and nothing else. Heads can name lengths that their entries' kinds do
// not have, and so the record of the heads is checked.
fn record_in(entries: &[u8], entry_size: u64) -> Option<Record>
    requires { entry_size ≤ 4096 }
    ensures { result ≡ record_in entry_size entries.now }
{
    if model::MAX_BUFFER < entries.len() {
        return None;
    }
    let record = sum_entries(entries, entry_size)?;
    if table_open::check(entries, record) {
        Some(record)
    } else {
        None
    }
}

// Whether the file begins with mark and version.
fn is_marked(file: &[u8]) -> bool
    ensures { result ≡ marked file.now }
{
    if file.len() < kept_file::HEAD {
        return false;
    }
    let mark = &file[..3];
    base_fields::is_same(mark, b"OVT") & (base_fields::le16(file, 3) == kept_file::VERSION)
}

// Where the listing ends, by the length that the file names.
fn listing_end(file: &[u8]) -> usize
    requires { 9 ≤ length file.now }
    ensures value { result ≡ listing_end file.now }
    ensures upper_bound { result ≤ 0x1_0000_0009 }
{
    LISTING + base_fields::le32(file, kept_file::HEAD) as usize
}

// Whether the lengths that the file names meet its end.
fn is_framed(file: &[u8]) -> bool
    ensures { result ≡ framed file.now }
{
    if file.len() < LISTING {
        return false;
    }
    let end = listing_end(file);
    let from = end + kept_file::LENGTH;
    if file.len() < from {
        return false;
    }
    from + base_fields::le32(file, end) as usize == file.len()
}

// The part of a file that is its listing; of a file that is cut, what there is of it.
pub fn listing_part(file: &[u8]) -> &[u8]
    ensures { result.now ≡ listing_in file.now }
{
    if file.len() < LISTING {
        return &file[0..0];
    }
    let to = listing_end(file);
    if file.len() < to {
        return &file[LISTING..];
    }
    &file[LISTING..to]
}

// The part of a file that is its entries.
fn entries_part(file: &[u8]) -> &[u8]
    requires { framed file.now ≡ true }
    ensures { result.now ≡ entries_in file.now }
{
    let from = listing_end(file) + kept_file::LENGTH;
    &file[from..]
}

// What reading into a table buffer of this length answers: 1, 14, 15 and 13, in this order.
fn judge(file: &[u8], len: usize) -> Result<Content, ReadError>
    ensures result_value { (t : Bytes) → length t ≡ len → told_reading result ≡ (read_back file.now t).reply }
    ensures result_value_2 { (t : Bytes) → length t ≡ len → told_content result ≡ (read_back file.now t).content }
{
    if model::MAX_BUFFER < len {
        return Err(ReadError::LongTable);
    }
    if !is_marked(file) {
        return Err(ReadError::NotKept);
    }
    if !is_framed(file) {
        return Err(ReadError::Damaged);
    }
    let listing = listing_part(file);
    if !listing_check::check(listing) {
        return Err(ReadError::Damaged);
    }
    let entries = entries_part(file);
    let Some(record) = record_in(entries, kept_file::ENTRY_SIZE) else {
        return Err(ReadError::Damaged);
    };
    if len < entries.len() {
        return Err(ReadError::NoRoom);
    }
    Ok(Content {
        listing_start: LISTING,
        listing_len: listing.len(),
        record,
    })
}

// Writes the entries to the buffer's start, and 0 to every byte behind them.
fn fill(table: &mut [u8], entries: &[u8])
    requires { length entries.now ≤ length table.old }
    ensures { table.new ≡ padded (length table.old) entries.now }
{
    base_fields::copy_in(table, 0, entries);
    base_fields::zero_from(table, entries.len());
}

// Reads the file into the table buffer, whose old bytes do not matter. Where it is refused nothing changes.
pub fn read(file: &[u8], table: &mut [u8]) -> Result<Content, ReadError>
    ensures result_value { told_reading result ≡ (read_back file.now table.old).reply }
    ensures result_value_2 { told_content result ≡ (read_back file.now table.old).content }
    ensures table_after { table.new ≡ (read_back file.now table.old).table }
{
    let content = judge(file, table.len())?;
    fill(table, entries_part(file));
    Ok(content)
}
