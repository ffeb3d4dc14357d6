// The writer of kept overlay files, change request #101.
// Any bytes are taken as listing, table and output, and any numbers as record. All is judged before the first byte is
// written. What a file begins with, mark and version, is written by `put_head` alone.
#![tactic(auto)]

ghost use Rattle.std.specs.Prelude.{◌≡◌, ◌++◌, ◌+◌, ◌≤◌, length};
ghost use Rattle.model.specs.Bytes.{bytes};
ghost use Rattle.model.specs.Table.{padded};
ghost use Rattle.base_fields.specs.Write.{overwritten};
ghost use Rattle.kept_file.specs.Kept.{head, kept, written, told_writing};

use kept_file::WriteError;
use model::Record;

// Mark and version, from the start on; gives where they end.
fn put_head(output: &mut [u8]) -> usize
    requires { length (head 1) ≤ length output.old }
    ensures output_after { output.new ≡ overwritten output.old 0 (head 1) }
    ensures value { result ≡ length (head 1) }
{
    base_fields::copy_in(output, 0, b"OVT");
    base_fields::put16(output, 3, kept_file::VERSION);
    kept_file::HEAD
}

// The part's length in 32 bits, then the part, from `at` on; gives where it ends.
fn put_part(output: &mut [u8], at: usize, part: &[u8]) -> usize
    requires { at + 4 + length part.now ≤ length output.old }
    ensures output_after { output.new ≡ overwritten output.old at (bytes 4 (length part.now)
        ++ part.now) }
    ensures value { result ≡ at + 4 + length part.now }
{
    base_fields::put32(output, at, part.len() as u64);
    base_fields::copy_in(output, at + kept_file::LENGTH, part);
    at + kept_file::LENGTH + part.len()
}

// The file, and zeros behind it.
fn put_file(listing: &[u8], entries: &[u8], output: &mut [u8])
    requires { length (kept 1 listing.now entries.now) ≤ length output.old }
    ensures { output.new ≡ padded (length output.old) (kept 1 listing.now
        entries.now) }
{
    let first = put_head(output);
    let second = put_part(output, first, listing);
    let end = put_part(output, second, entries);
    base_fields::zero_from(output, end);
}

// What the writer answers, before anything is written: 1, 2, 16 and 13 in this order, or the file's length. Of the
// output only the length counts.
fn judge(listing: &[u8], table: &[u8], rec: Record, output: &[u8]) -> Result<u64, WriteError>
    ensures { told_writing result ≡ (written listing.now table.now rec output.now
        ).reply }
{
    if !table_open::check(table, rec) {
        return Err(WriteError::MalformedTable);
    }
    if !listing_check::check(listing) {
        return Err(WriteError::MalformedListing);
    }
    if rec.entry_size != kept_file::ENTRY_SIZE {
        return Err(WriteError::OtherEntrySize);
    }
    let len = kept_file::HEAD
        + kept_file::LENGTH
        + listing.len()
        + kept_file::LENGTH
        + rec.used as usize;
    if output.len() < len {
        return Err(WriteError::NoRoom);
    }
    Ok(len as u64)
}

// Writes the kept file of a listing and a table, and zeros behind it, and answers the file's length; refused, it leaves
// the output as it was. It is one pass over each of listing and table to check them and, if all passes, one to copy
// them; then the bytes behind the file are written once.
pub fn write(
    listing: &[u8],
    table: &[u8],
    rec: Record,
    output: &mut [u8],
) -> Result<u64, WriteError>
    ensures result_value { told_writing result ≡ (written listing.now table.now rec output.old
        ).reply }
    ensures output_after { output.new ≡ (written listing.now table.now rec
        output.old).output }
{
    let len = judge(listing, table, rec, output)?;
    let used = rec.used as usize;
    put_file(listing, &table[..used], output);
    Ok(len)
}
