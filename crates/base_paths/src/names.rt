// The components of a path, a byte at a time: whether those that were read are in order, and the bytes of the one that
// is being read. Assumes of a state only that it counts fewer than 512 bytes and components, as many as a path has.
ghost use Rattle.std.specs.Prelude.{◌≡◌, List, ◌∷◌, ℕ, ◌+◌, ◌≤◌, ◌<◌};
ghost use Rattle.model.specs.Path.{allowed};
ghost use Rattle.base_paths.specs.Scan.{ended, completes};

// The component that is being read, and those before it.
#[derive(Clone, Copy)]
pub struct Names {
    // All so far are in order.
    pub ok: bool,
    // The bytes of the component so far.
    pub len: usize,
    // They are dots only.
    pub dots: bool,
    // The components before it.
    pub before: usize,
}

// No byte 0, backslash or colon.
pub fn is_allowed(b: u8) -> bool
    ensures { result ≡ allowed b }
{
    (b != 0) & (b != b'\\') & (b != b':')
}

// Whether all components are in order, if the one that is being read ends here.
pub fn is_ended(n: Names) -> bool
    ensures { result ≡ ended n }
{
    n.ok & ((1 <= n.len) & (n.len <= model::NAME_MAX) & !(n.dots & (n.len <= 2)))
}

// The state after one more byte.
pub fn next_names(n: Names, b: u8) -> Names
    requires { (n.len < 512) × (n.before < 512) }
    ensures by_index { (s : List ℕ) → completes result s ≡ completes n (b ∷ s) }
    ensures len_bound { (result.len ≤ n.len + 1) × (result.before ≤ n.before + 1) }
{
    if b == b'/' {
        return Names {
            ok: is_ended(n),
            len: 0,
            dots: true,
            before: n.before + 1,
        };
    }
    Names {
        ok: n.ok & is_allowed(b),
        len: n.len + 1,
        dots: n.dots & (b == b'.'),
        before: n.before,
    }
}
