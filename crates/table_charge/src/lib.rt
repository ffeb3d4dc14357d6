// What an entry is charged: `entry_memory_usage` and `base_entry_memory_usage` of overlay_state.rs, by the lengths of
// key and body and with the entry size that the Rust has from `size_of`. These two assume lengths and an entry size
// whose sums have 64 bits: only this repository's crates call. The other two take any numbers.
#![tactic(auto)]

ghost use Rattle.std.specs.Prelude.{◌≡◌, ◌+◌, ◌≤◌, length};
ghost use Rattle.model.specs.Path.{Path};
ghost use Rattle.model.specs.Tree.{Entry};
ghost use Rattle.model.specs.Table.{body_of, body_charge, capped, entry_charge};
ghost use Rattle.table_charge.specs.Charge.{base_charge, charge_by};

// What a body of this length is charged: the length rounded up to a multiple of 16. For any length, also one that no
// body has: what would pass 2^64 − 1 is 2^64 − 1.
pub fn body_charge(len: u64) -> u64
    ensures { result ≡ capped (body_charge len) }
{
    if 0xFFFF_FFFF_FFFF_FFF0 < len {
        u64::MAX
    } else {
        (len + 15) / 16 * 16
    }
}

// The Rust's `saturating_add`.
pub fn saturating_add(x: u64, y: u64) -> u64
    ensures { result ≡ capped (x + y) }
{
    x.saturating_add(y)
}

// What an entry is charged without its body.
pub fn base_entry_memory_usage(entry_size: u64, key_len: u64) -> u64
    requires { (entry_size ≤ 4096) × (key_len ≤ 16777216) }
    ensures { result ≡ base_charge entry_size key_len }
{
    model::ENTRY_MEMORY_USAGE + key_len + entry_size
}

// What an entry is charged. All that is charged in a table is added up from this and from `body_charge`.
pub fn entry_memory_usage(entry_size: u64, key_len: u64, body_len: u64) -> u64
    requires { (entry_size ≤ 4096) × (key_len ≤ 16777216) × (body_len ≤ 0x8000_0000_0000_0000) }
    ensures value { result ≡ charge_by entry_size key_len body_len }
    ensures value_2 { (k : Path) (e : Entry) → length k ≡ key_len → length (body_of e) ≡ body_len
        → result ≡ entry_charge entry_size k e }
{
    base_entry_memory_usage(entry_size, key_len) + body_charge(body_len)
}
