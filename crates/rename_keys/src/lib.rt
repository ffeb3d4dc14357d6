// A moved key: the destination standing where the source stood. Composing is one pass over the key, and a copy of 512
// bytes. Assumes that what is composed has room: only this repository's crates call.
#![tactic(auto)]

ghost use Rattle.std.specs.Prelude.{◌≡◌, ◌++◌, ◌+◌, ◌-◌, ◌≤◌, length, take, drop};

// `format!` of the Rust becomes this: the first `len` of 512 bytes.
#[derive(Drop)]
pub struct Key {
    pub bytes: [u8; model::PATH_MAX],
    pub len: usize,
}

// The destination and then the tail, from the buffer's start on.
fn compose(t: &mut [u8], destination: &[u8], tail: &[u8])
    requires { length destination.now + length tail.now ≤ length t.old }
    ensures t_len_unchanged { length t.new ≡ length t.old }
    ensures t_after { take (length destination.now + length tail.now) t.new
        ≡ destination.now ++ tail.now }
{
    let n = destination.len();
    base_fields::copy_in(t, 0, destination);
    base_fields::copy_in(t, n, tail);
}

// The destination, then what stands in the path behind its first `from` bytes.
pub fn moved_key(destination: &[u8], path: &[u8], from: usize) -> Key
    requires { (from ≤ length path.now) × (length destination.now + (length path.now - from) ≤ 512) }
    ensures len_bound { (result.len ≤ 512) × (length result.bytes ≡ 512) }
    ensures bytes_value { take result.len result.bytes ≡ destination.now ++ drop from path.now }
    ensures len_value { result.len ≡ length destination.now + (length path.now - from) }
{
    let mut bytes: [u8; model::PATH_MAX] = [0; model::PATH_MAX];
    let tail = &path[from..];
    let len = destination.len() + tail.len();
    compose(&mut bytes, destination, tail);
    Key { bytes, len }
}
