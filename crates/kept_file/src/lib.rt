// What the writer and the reader of kept overlay files answer, and the numbers of the file, as declared types and
// constants. No function stands here: what each answer says is defined in specs/Kept.antt.
#![tactic(auto)]

use model::Record;

// What an accepted reading gives beside the table: where the listing stands in the file, and the table's record.
#[derive(Clone, Copy)]
pub struct Content {
    pub listing_start: usize,
    pub listing_len: usize,
    pub record: Record,
}

// Why nothing is written. A writing that is done answers the file's length.
#[derive(Clone, Copy, Debug, PartialEq, Eq)]
pub enum WriteError {
    MalformedTable,
    MalformedListing,
    OtherEntrySize,
    NoRoom,
}

// Why nothing is read. A reading that is done answers what the file holds.
#[derive(Clone, Copy, Debug, PartialEq, Eq)]
pub enum ReadError {
    LongTable,
    NotKept,
    Damaged,
    NoRoom,
}

// The version that is written; the entry size of its tables.
pub const VERSION: u64 = 1;

pub const ENTRY_SIZE: u64 = 40;

// The bytes of mark and version, and of a length.
pub const HEAD: usize = 5;

pub const LENGTH: usize = 4;
