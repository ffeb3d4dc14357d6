// What the calls answer, the record that a caller keeps beside a table, and the numbers of document 01, as declared
// types and constants. No function stands here: what each case of an answer says, in 01's numbers, is defined in
// specs/Answer.antt.
#![tactic(auto)]

// "The record by value holds bytes used, count, charge and E".
#[derive(Clone, Copy, Debug, PartialEq, Eq)]
pub struct Record {
    pub used: u64,
    pub count: u64,
    pub charge: u64,
    pub entry_size: u64,
}

// Document 01, "Turning a call down", row by row, then 17 and 18 of #103: a path is 0 (only, or source) or 1
// (destination), and comes before a length.
#[derive(Clone, Copy, Debug, PartialEq, Eq)]
pub enum Refusal {
    MalformedTable,
    MalformedListing,
    MalformedPath(u64),
    LinkOrRoot(u64, u64),
    NotFound(u64, u64),
    Exists(u64, u64),
    NotADirectory(u64, u64),
    IsADirectory(u64, u64),
    NotEmpty(u64, u64),
    BelowSource(u64),
    Limit,
    KeyTooLong,
    NoRoom,
    LentCount,
    RangeTooLarge,
}

// A changing call's answer: accepted with a value (the data's length for write, append and writing inside,
// else 0), or refused.
pub type Answer = Result<u64, Refusal>;

// A query's answer: yes or no, or refused.
pub type Finding = Result<bool, Refusal>;

// A changing call's answer, and the record that it leaves.
#[derive(Clone, Copy, Debug, PartialEq, Eq)]
pub struct Answered {
    pub answer: Answer,
    pub record: Record,
}

// The longest listing and the longest table, in bytes; the largest entry size.
pub const MAX_BUFFER: usize = 16_777_216;

pub const MAX_ENTRY_SIZE: u64 = 4_096;

// The listing: its version, where its count stands, where its records begin, and the bytes of a record before its path.
pub const LISTING_VERSION: u64 = 1;

pub const LISTING_COUNT: usize = 5;

pub const LISTING_HEAD: usize = 9;

pub const RECORD_HEAD: usize = 19;

// A record's "kind (8 bits: 1 directory, 2 file, 3 link)".
pub const LISTED_DIRECTORY: u8 = 1;

pub const LISTED_FILE: u8 = 2;

pub const LISTED_LINK: u8 = 3;

// The bytes of an entry before its key; the same as a number of 64 bits.
pub const ENTRY_HEAD: usize = 24;

pub const ENTRY_HEAD_64: u64 = ENTRY_HEAD as u64;

// An entry's "kind (16 bits: 1 own file, 2 reference to a listed file, 3 directory, 4 deleted)".
pub const OWN_FILE: u64 = 1;

pub const REFERENCE: u64 = 2;

pub const DIRECTORY: u64 = 3;

pub const DELETED: u64 = 4;

// A signed size is at least 0 exactly if its 64 bits, read as a number without a sign, are below this.
pub const SIGN: u64 = 0x8000_0000_0000_0000;

// A path's bytes and components, and a component's bytes. Names of the Rust, where the first two are larger.
pub const PATH_MAX: usize = 512;

pub const DEPTH_MAX: usize = 32;

pub const NAME_MAX: usize = 255;

// What an entry is charged beside its key, its entry size and its body; what the walk adds beside a path's length.
// Names of the Rust.
pub const ENTRY_MEMORY_USAGE: u64 = 256;

pub const REAL_DESCENDANT_MEMORY_USAGE: u64 = 512;
