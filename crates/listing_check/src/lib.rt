// Whether bytes are a listing of document 01, in one pass.
// All bytes are taken.
#![tactic(auto)]

ghost use Rattle.std.specs.Prelude.{◌≡◌, Bool, ◌&&◌, ◌+◌, ◌≤◌, ◌<◌, length};
ghost use Rattle.model.specs.Bytes.{every, before};
ghost use Rattle.model.specs.Path.{Path, ancestors};
ghost use Rattle.model.specs.Listing.{record_at, ruled, headed, is_listing};
ghost use Rattle.base_fields.specs.Read.{common};
ghost use Rattle.listing_check.specs.Turn.{fits, formed_alone, Agree, Marked};

// Whether the bytes begin with the mark RDL and the version, and are no more than a buffer holds.
fn is_headed(s: &[u8]) -> bool
    ensures { result ≡ headed s.now }
{
    model::LISTING_HEAD <= s.len()
        && s.len() <= model::MAX_BUFFER
        && s.starts_with(b"RDL")
        && base_fields::le16(s, 3) == model::LISTING_VERSION
}

// Whether kind, mtime and size of the record at `at` go together.
fn is_ruled(s: &[u8], at: usize) -> bool
    requires { at + 19 ≤ length s.now }
    ensures { result ≡ ruled (record_at s.now at) }
{
    let kind = s[at + 2];
    let mtime = base_fields::le64(s, at + 3);
    let size = base_fields::le64(s, at + 11);
    ((kind == model::LISTED_DIRECTORY) & (size == 0))
        | ((kind == model::LISTED_FILE) & (size < model::SIGN))
        | ((kind == model::LISTED_LINK) & (size == 0) & (mtime == 0))
}

// Whether a record stands at `at` whose own rules hold.
fn is_record(s: &[u8], at: usize) -> bool
    requires { at ≤ 16777216 }
    ensures { result ≡ (fits s.now at && formed_alone (record_at s.now at)) }
{
    if s.len() < at + model::RECORD_HEAD {
        return false;
    }
    let from = at + model::RECORD_HEAD;
    let to = from + base_fields::le16(s, at) as usize;
    if s.len() < to {
        return false;
    }
    base_paths::is_path(&s[from..to]) && is_ruled(s, at)
}

// Whether a is before b, where they have n bytes in common.
fn is_before(a: &[u8], b: &[u8], n: usize) -> bool
    requires { n ≡ common a.now b.now }
    ensures { result ≡ before a.now b.now }
{
    if n < a.len() && n < b.len() {
        a[n] < b[n]
    } else {
        n < b.len()
    }
}

// Sets the flags for a path of `len` bytes that has its first n in common with the path before it: what is shorter
// keeps its flag.
fn mark(flags: &mut [bool; 513], n: usize, len: usize, directory: bool)
    requires { (n < len) × (len ≤ 512) × (length flags.old ≡ 513) }
    ensures { Marked flags.old flags.new n len directory }
{
    flags[n + 1..len].fill(false);
    flags[len] = directory;
}

// Whether the flag is set at each slash.
fn is_placed(flags: &[bool; 513], path: &[u8]) -> bool
    requires { length path.now ≤ 512 }
    ensures { (f : Path → Bool) → Agree flags.now path.now f
        → result ≡ every f (ancestors path.now) }
{
    for (i, &byte) in path.iter().enumerate() {
        if byte == b'/' && !flags[i] {
            return false;
        }
    }
    true
}

// Whether the bytes are a listing. The records are read once, from the first to the last, and each costs a fixed number
// of passes over its own path, so that the time is linear in the listing's bytes. The k-th flag says whether the first
// k bytes of the path just read are listed as a directory: the root is, and every other flag is set before it is read.
pub fn check(listing: &[u8]) -> bool
    ensures { result ≡ is_listing listing.now }
{
    if !is_headed(listing) {
        return false;
    }
    let mut flags = [true; 513];
    let count = base_fields::le32(listing, model::LISTING_COUNT);
    let mut from: usize = model::LISTING_HEAD;
    let mut at: usize = model::LISTING_HEAD;
    for _ in 0..count {
        if !is_record(listing, at) {
            return false;
        }
        let start = at + model::RECORD_HEAD;
        let to = start + base_fields::le16(listing, at) as usize;
        let previous = &listing[from..at];
        let path = &listing[start..to];
        let n = base_fields::shared(previous, path);
        if !is_before(previous, path, n) {
            return false;
        }
        mark(
            &mut flags,
            n,
            to - start,
            listing[at + 2] == model::LISTED_DIRECTORY,
        );
        if !is_placed(&flags, path) {
            return false;
        }
        from = start;
        at = to;
    }
    at == listing.len()
}
