// The entries of a checked table: a cursor over them, and the entry at a key; OverlayEntry of overlay_state.rs.
// Assumes bytes in which entries stand: only this repository's crates call, after a check.
// Each function is one pass forward over the entries up to its answer, and reads no body.
#![tactic(auto, using(crate::proofs::Entries::entry_inside))]

ghost use Rattle.std.specs.Prelude.{◌≡◌, true, ◌+◌, ◌-◌, ◌≤◌, ◌<◌, length, Some};
ghost use Rattle.std.proofs.Math.Option.{Option, some};
ghost use Rattle.std.specs.Float.Ieee.{of_bits};
ghost use Rattle.std.specs.Float.{binary64};
ghost use Rattle.model.specs.Bytes.{Bytes, number_at, before};
ghost use Rattle.model.specs.Path.{Path};
ghost use Rattle.model.specs.Map.{is_none, lookup};
ghost use Rattle.model.specs.Tree.{Entry};
ghost use Rattle.model.specs.Table.{type_of, mtime_of, size_of, body_of, key_at, entry_at, entry_end};
ghost use Rattle.model.specs.Table.{entries_at, table_in};
ghost use Rattle.model.specs.Table.{is_table};
ghost use Rattle.table_entries.specs.Place.{Standing, Sought};
ghost use Rattle.table_entries.specs.Cut.{first_if};
ghost use Rattle.table_entries.specs.Said.{said, said_of};

// What the table has at a path. A file's content and a reference's listed path stay in the table: `len` bytes from `at`
// on. The mtime is the float of the stored bits, for whoever computes with it; what is stored again is copied as bits.
#[derive(Clone, Copy, Debug)]
pub enum OverlayEntry {
    File {
        mtime: f64,
        at: u64,
        len: u64,
    },
    RealFileRef {
        mtime: f64,
        size: u64,
        at: u64,
        len: u64,
    },
    Directory {
        mtime: f64,
    },
    Deleted,
}

// A place in a table: `left` entries stand from `at` on.
#[derive(Clone, Copy, Debug, PartialEq, Eq)]
pub struct Place {
    pub at: usize,
    pub left: u64,
}

// An entry's fields as they are stored, for whoever writes the entry again.
#[derive(Clone, Copy, Debug, PartialEq, Eq)]
pub struct Fields {
    pub kind: u64,
    pub mtime: u64,
    pub size: u64,
}

// The entry at a key, if there is one, and the place from that key on.
#[derive(Clone, Copy, Debug)]
pub struct Got {
    pub entry: Option<OverlayEntry>,
    pub place: Place,
}

// The float of any 64 bits; every pattern of a NaN gives the one NaN that a contract can speak of.
fn f64_of(bits: u64) -> f64
    ensures { result ≡ of_bits binary64 bits }
{
    if bits % 0x8000_0000_0000_0000 <= 0x7ff0_0000_0000_0000 {
        f64::from_bits(bits)
    } else {
        f64::NAN
    }
}

fn mtime_at(table: &[u8], at: usize) -> f64
    requires { at + 24 ≤ length table.now }
    ensures { result ≡ of_bits binary64 (number_at table.now (at + 8) 8) }
{
    f64_of(base_fields::le64(table, at + 8))
}

// The place of the first entry.
pub fn first_entry(table: &[u8], rec: model::Record) -> Place
    requires { is_table table.now rec ≡ true }
    ensures value { result ≡ record { at = 0; left = rec.count } }
    ensures standing { Standing table.now result.left result.at }
{
    Place {
        at: 0,
        left: rec.count,
    }
}

// The place behind the entry at a place.
pub fn next_entry(table: &[u8], place: Place) -> Place
    requires standing { Standing table.now place.left place.at }
    requires left_nonzero { 0 < place.left }
    ensures value { result ≡ record { at = entry_end table.now place.at; left = place.left - 1 } }
    ensures standing_2 { Standing table.now result.left result.at }
{
    let at = place.at;
    let n = base_fields::le16(table, at) as usize;
    let m = base_fields::le32(table, at + 4) as usize;
    Place {
        at: at + model::ENTRY_HEAD + n + m,
        left: place.left - 1,
    }
}

// The key of the entry at a place; then its body, its stored fields, and what it is.
pub fn entry_key(table: &[u8], place: Place) -> &[u8]
    requires standing { Standing table.now place.left place.at }
    requires left_nonzero { 0 < place.left }
    ensures { result.now ≡ key_at table.now place.at }
{
    let at = place.at;
    let start = at + model::ENTRY_HEAD;
    let to = start + base_fields::le16(table, at) as usize;
    &table[start..to]
}

pub fn entry_body(table: &[u8], place: Place) -> &[u8]
    requires standing { Standing table.now place.left place.at }
    requires left_nonzero { 0 < place.left }
    ensures { result.now ≡ body_of (entry_at table.now place.at) }
{
    let at = place.at;
    let key = at + model::ENTRY_HEAD;
    let body = key + base_fields::le16(table, at) as usize;
    let to = body + base_fields::le32(table, at + 4) as usize;
    &table[body..to]
}

pub fn entry_fields(table: &[u8], place: Place) -> Fields
    requires standing { Standing table.now place.left place.at }
    requires left_nonzero { 0 < place.left }
    ensures kind_value { result.kind ≡ type_of (entry_at table.now place.at) }
    ensures mtime_value { result.mtime ≡ mtime_of (entry_at table.now place.at) }
    ensures size_value { result.size ≡ size_of (entry_at table.now place.at) }
{
    let at = place.at;
    Fields {
        kind: base_fields::le16(table, at + 2),
        mtime: base_fields::le64(table, at + 8),
        size: base_fields::le64(table, at + 16),
    }
}

pub fn entry_at(table: &[u8], place: Place) -> OverlayEntry
    requires standing { Standing table.now place.left place.at }
    requires left_nonzero { 0 < place.left }
    ensures { said_of table.now (Some result) ≡ said (some (entry_at table.now place.at)) }
{
    let at = place.at;
    let n = base_fields::le16(table, at);
    let len = base_fields::le32(table, at + 4);
    let body = at as u64 + model::ENTRY_HEAD_64 + n;
    match base_fields::le16(table, at + 2) {
        model::OWN_FILE => OverlayEntry::File {
            mtime: mtime_at(table, at),
            at: body,
            len,
        },
        model::REFERENCE => OverlayEntry::RealFileRef {
            mtime: mtime_at(table, at),
            size: base_fields::le64(table, at + 16),
            at: body,
            len,
        },
        model::DIRECTORY => OverlayEntry::Directory {
            mtime: mtime_at(table, at),
        },
        _ => OverlayEntry::Deleted,
    }
}

// The first entry from a place on that does not pass a test of its key; the end where there is none. Where the test is
// whether a key is before some path, that is the first from this path on.
pub fn seek_while<F: Fn(&[u8]) -> bool>(table: &[u8], place: Place, is_low: F) -> Place
    requires standing { Standing table.now place.left place.at }
    requires callable { F.IsAlwaysCallable is_low }
    ensures { (k : Path) → ((q : _) (b : _) → F.post is_low q b → b ≡ before q.now k)
        → Sought table.now k place.left place.at result.left result.at }
{
    let mut at = place.at;
    for i in 0..place.left {
        let start = at + model::ENTRY_HEAD;
        let to = start + base_fields::le16(table, at) as usize;
        if !is_low(&table[start..to]) {
            return Place {
                at,
                left: place.left - i,
            };
        }
        at = to + base_fields::le32(table, at + 4) as usize;
    }
    Place { at, left: 0 }
}

// The first entry from a place on whose key is not before `key`; the end where there is none.
pub fn seek(table: &[u8], place: Place, key: &[u8]) -> Place
    requires { Standing table.now place.left place.at }
    ensures { Sought table.now key.now place.left place.at result.left result.at }
{
    seek_while(table, place, |part| base_fields::is_before(part, key))
}

// The entry at a place, if it has this key.
fn entry_if(table: &[u8], place: Place, key: &[u8]) -> Option<OverlayEntry>
    requires { Standing table.now place.left place.at }
    ensures { said_of table.now result ≡ said (first_if key.now (entries_at table.now
        place.left place.at)) }
{
    if place.left != 0 && base_fields::is_same(entry_key(table, place), key) {
        Some(entry_at(table, place))
    } else {
        None
    }
}

// The entry at a key among those from a place on. Keys that ascend are looked up one behind the other in one pass, each
// from the place that the one before gave.
pub fn get_from(table: &[u8], place: Place, key: &[u8]) -> Got
    requires { Standing table.now place.left place.at }
    ensures result_value { said_of table.now result.entry ≡ said (lookup (entries_at table.now place.left
        place.at) key.now) }
    ensures sought { Sought table.now key.now place.left place.at result.place.left
        result.place.at }
{
    let found = seek(table, place, key);
    Got {
        entry: entry_if(table, found, key),
        place: found,
    }
}

// The entry at a key.
pub fn get(table: &[u8], rec: model::Record, key: &[u8]) -> Option<OverlayEntry>
    requires { is_table table.now rec ≡ true }
    ensures { said_of table.now result ≡ said (lookup (table_in table.now rec)
        key.now) }
{
    get_from(table, first_entry(table, rec), key).entry
}

// Whether there is no entry.
pub fn is_absent(entry: Option<OverlayEntry>) -> bool
    ensures { (s : Bytes) (e : Option Entry) → said_of s entry ≡ said e → result ≡ is_none e }
{
    entry.is_none()
}
