// How many components a path has, and whether it is short enough for document 01's form.
ghost use Rattle.std.specs.Prelude.{◌≡◌, length};
ghost use Rattle.model.specs.Path.{components, short};

// How many components a path has: one more than slashes.
pub fn component_count(path: &[u8]) -> u64
    ensures { result ≡ length (components path.now) }
{
    1 + path.iter().filter(|&&b| b == b'/').count() as u64
}

// Whether a path has at most 512 bytes and 32 components.
pub fn is_short(path: &[u8]) -> bool
    ensures { result ≡ short path.now }
{
    let n = component_count(path);
    (path.len() <= model::PATH_MAX) & (n <= model::DEPTH_MAX as u64)
}
