// Little-endian numbers in byte slices; comparing, copying and zeroing byte slices.
// A caller sees to it that what is read or written lies within the slice; nothing else is assumed.
// A number costs a few reads or writes, and every other function one pass over the bytes that its result depends on.
#![tactic(auto)]

ghost use Rattle.std.specs.Prelude.{◌≡◌, ◌++◌, ◌+◌, ◌-◌, ◌≤◌, ◌<◌, length, take, drop, replicate};
ghost use Rattle.std.specs.declared.cmp.Ordering.TheVariants.{Less, Equal, Greater};
ghost use Rattle.model.specs.Bytes.{number_at, bytes, order, by_order, same, before};
ghost use Rattle.base_fields.specs.Read.{common, zeros};
ghost use Rattle.base_fields.specs.Write.{overwritten};

use std::cmp::Ordering;

// A byte as a number of 64 bits.
pub fn wide(b: u8) -> u64
    ensures { (result ≡ b) × (result < 256) }
{
    u64::from(b)
}

// The number in the two bytes from `at` on; then in four, and in eight.
pub fn le16(s: &[u8], at: usize) -> u64
    requires { at + 2 ≤ length s.now }
    ensures { (result ≡ number_at s.now at 2) × (result < 0x1_0000) }
{
    u64::from(u16::from_le_bytes([s[at], s[at + 1]]))
}

pub fn le32(s: &[u8], at: usize) -> u64
    requires { at + 4 ≤ length s.now }
    ensures { (result ≡ number_at s.now at 4) × (result < 0x1_0000_0000) }
{
    u64::from(u32::from_le_bytes(s[at..at + 4].try_into().unwrap()))
}

pub fn le64(s: &[u8], at: usize) -> u64
    requires { at + 8 ≤ length s.now }
    ensures { result ≡ number_at s.now at 8 }
{
    u64::from_le_bytes(s[at..at + 8].try_into().unwrap())
}

// Puts the low two bytes of v from `at` on; then the low four, and all eight.
pub fn put16(t: &mut [u8], at: usize, v: u64)
    requires { at + 2 ≤ length t.old }
    ensures { t.new ≡ overwritten t.old at (bytes 2 v) }
{
    copy_in(t, at, &v.to_le_bytes()[..2]);
}

pub fn put32(t: &mut [u8], at: usize, v: u64)
    requires { at + 4 ≤ length t.old }
    ensures { t.new ≡ overwritten t.old at (bytes 4 v) }
{
    copy_in(t, at, &v.to_le_bytes()[..4]);
}

pub fn put64(t: &mut [u8], at: usize, v: u64)
    requires { at + 8 ≤ length t.old }
    ensures { t.new ≡ overwritten t.old at (bytes 8 v) }
{
    copy_in(t, at, &v.to_le_bytes());
}

// How many bytes the two have in common, where their first `from` bytes are: it reads on from there, byte by byte.
fn shared_from(a: &[u8], b: &[u8], from: usize) -> usize
    requires { (from ≤ length a.now) × (from ≤ length b.now) }
    ensures value { result ≡ from + common (drop from a.now) (drop from b.now) }
    ensures upper_bound { (result ≤ length a.now) × (result ≤ length b.now) }
{
    let mut n = from;
    for (x, y) in a[from..].iter().zip(&b[from..]) {
        if x != y {
            return n;
        }
        n += 1;
    }
    n
}

// How many bytes the two have in common from the start. It reads up to the first byte that differs, eight at a time.
pub fn shared(a: &[u8], b: &[u8]) -> usize
    ensures value { result ≡ common a.now b.now }
    ensures within { (result ≤ length a.now) × (result ≤ length b.now) }
{
    let m = a.len().min(b.len());
    let mut i = 0;
    while 8 <= m - i {
        if le64(a, i) != le64(b, i) {
            return shared_from(a, b, i);
        }
        i += 8;
    }
    shared_from(a, b, i)
}

// How a stands to b in the order of byte strings.
pub fn compared(a: &[u8], b: &[u8]) -> Ordering
    ensures { result ≡ by_order (order a.now b.now) Less Equal Greater }
{
    a.cmp(b)
}

// Whether the two are the same; whether a comes before b.
pub fn is_same(a: &[u8], b: &[u8]) -> bool
    ensures { result ≡ same a.now b.now }
{
    a == b
}

pub fn is_before(a: &[u8], b: &[u8]) -> bool
    ensures { result ≡ before a.now b.now }
{
    compared(a, b).is_lt()
}

// Writes all of src from `at` on. One pass over src, however long the buffer is. A loop of its own: the library's
// `copy_from_slice` would have every archive for C ask for `memmove` from outside.
pub fn copy_in(t: &mut [u8], at: usize, src: &[u8])
    requires { at + length src.now ≤ length t.old }
    ensures { t.new ≡ overwritten t.old at src.now }
{
    for (i, &byte) in src.iter().enumerate() {
        t[at + i] = byte;
    }
}

// Writes 0 to every byte from `from` up to `to`; then to every byte from `from` on.
pub fn zero_to(t: &mut [u8], from: usize, to: usize)
    requires { (from ≤ to) × (to ≤ length t.old) }
    ensures { t.new ≡ overwritten t.old from (replicate (to - from) 0) }
{
    t[from..to].fill(0);
}

pub fn zero_from(t: &mut [u8], from: usize)
    requires { from ≤ length t.old }
    ensures { t.new ≡ take from t.old ++ replicate (length t.old - from) 0 }
{
    t[from..].fill(0);
}

// Whether every byte from `from` on is 0. It reads them all: with no early exit the compiler reads many at a time.
pub fn all_zero(s: &[u8], from: usize) -> bool
    ensures { result ≡ zeros (drop from s.now) }
{
    s.len() <= from || s[from..].iter().fold(true, |zero, &b| zero & (b == 0))
}
