// The entries below a directory as one part in the middle of a table (`prefix_iter` of overlay_state.rs), and what is
// asked of such a part. Assumes a table that agrees with its record, and parts that `below` gave: only this
// repository's crates call, after a check. `below` reads the heads and keys up to the part's end, the others those of
// the part.
#![tactic(auto)]

ghost use Rattle.std.specs.Prelude.{◌≡◌, true, not, ◌&&◌, [], ◌∷◌, ◌++◌, ◌+◌, ◌-◌, ◌*◌, ◌≤◌, ◌<◌, length};
ghost use Rattle.model.specs.Bytes.{every};
ghost use Rattle.model.specs.Path.{Path, below, child};
ghost use Rattle.model.specs.Map.{keys};
ghost use Rattle.model.specs.Table.{key_at, entry_at, entries_at, table_in, is_table};
ghost use Rattle.model.specs.Rename.{planned};
ghost use Rattle.table_entries.specs.Place.{Standing, Sought};
ghost use Rattle.table_below.specs.Parts.{PartOf, is_deleted, visible_in};

// A part in the middle of a table: `count` entries in the bytes from `from` up to `to`.
#[derive(Clone, Copy, Debug, PartialEq, Eq)]
pub struct Part {
    pub from: usize,
    pub to: usize,
    pub count: u64,
}

// The first entry from a place on whose key is not before that.
fn seek_with(table: &[u8], place: table_entries::Place, dir: &[u8], b: u8) -> table_entries::Place
    requires { Standing table.now place.left place.at }
    ensures { Sought table.now (dir.now ++ (b ∷ [])) place.left place.at result.left
        result.at }
{
    table_entries::seek_while(table, place, |key| base_paths::is_before_with(key, dir, b))
}

// The entries below a directory: from its path with a slash up to, not including, its path with '0', the byte behind
// the slash.
pub fn below(table: &[u8], rec: model::Record, dir: &[u8]) -> Part
    requires { is_table table.now rec ≡ true }
    ensures { PartOf table.now (table_in table.now rec) dir.now result.from result.to
        result.count }
{
    let first = table_entries::first_entry(table, rec);
    let start = seek_with(table, first, dir, b'/');
    let end = seek_with(table, start, dir, b'0');
    Part {
        from: start.at,
        to: end.at,
        count: start.left - end.left,
    }
}

// Whether the entry at a place is a child of a directory and not deleted.
fn is_visible_child(part: &[u8], place: table_entries::Place, dir: &[u8]) -> bool
    requires standing { Standing part.now place.left place.at }
    requires left_nonzero { 0 < place.left }
    ensures { result ≡ (child dir.now (key_at part.now place.at)
        && not (is_deleted (entry_at part.now place.at))) }
{
    let kind = base_fields::le16(part, place.at + 2);
    let key = table_entries::entry_key(part, place);
    base_paths::is_child(dir, key) && kind != model::DELETED
}

// Whether some entry of a part is a child of the directory and not deleted.
pub fn has_visible_child(part: &[u8], count: u64, dir: &[u8]) -> bool
    requires { Standing part.now count 0 }
    ensures { result ≡ visible_in dir.now (entries_at part.now count 0) }
{
    let mut at = 0;
    for i in 0..count {
        let place = table_entries::Place {
            at,
            left: count - i,
        };
        if is_visible_child(part, place, dir) {
            return true;
        }
        at = table_entries::next_entry(part, place).at;
    }
    false
}

// What moving one key of n bytes may take. A key below a path of `from` bytes is longer than that; of a shorter one
// nothing is asked.
fn plan_of(n: u64, from: u64, to: u64) -> u64
    requires { (n ≤ 512) × (to ≤ 512) }
    ensures { (from ≤ n → result ≡ 2 * n + (to + (n - from)) + 256) × (result ≤ 2304) }
{
    if n < from {
        0
    } else {
        2 * n + (to + (n - from)) + model::ENTRY_MEMORY_USAGE
    }
}

// The plan's sum over a part: what moving its keys from below a path of `from` bytes to below one of `to` bytes may
// take.
pub fn plan_sum(part: &[u8], count: u64, from: u64, to: u64) -> u64
    requires standing { Standing part.now count 0 }
    requires from_bound { (from ≤ 512) × (to ≤ 512) }
    ensures value { (a b : Path) → length a ≡ from → length b ≡ to
        → every (below a) (keys (entries_at part.now count 0)) ≡ true
        → result ≡ planned a b (entries_at part.now count 0) }
    ensures upper_bound { result ≤ 0x1_0000_0000 }
{
    let mut at = 0;
    let mut sum = 0;
    for _i in 0..count {
        let n = base_fields::le16(part, at);
        let m = base_fields::le32(part, at + 4);
        sum += plan_of(n, from, to);
        at += model::ENTRY_HEAD + n as usize + m as usize;
    }
    sum
}
