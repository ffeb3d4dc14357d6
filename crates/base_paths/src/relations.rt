// How two paths stand to each other: one below the other, a child of it, before it by bytes.
// Each is one pass over the bytes that the two have in common, and for a child one over the last component.
ghost use Rattle.std.specs.Prelude.{◌≡◌, [], ◌∷◌, ◌++◌};
ghost use Rattle.model.specs.Bytes.{before};
ghost use Rattle.model.specs.Path.{below, child};

// Whether a path lies below a directory: its bytes, then a slash. Nothing is so below the root, since no path begins
// with a slash.
pub fn is_below(dir: &[u8], path: &[u8]) -> bool
    ensures { result ≡ below dir.now path.now }
{
    let n = base_fields::shared(dir, path);
    n == dir.len() && n < path.len() && path[n] == b'/'
}

// Whether a path is a child of a directory: the directory's path, a slash, and one component.
pub fn is_child(dir: &[u8], path: &[u8]) -> bool
    ensures { result ≡ child dir.now path.now }
{
    is_below(dir, path) && !path[dir.len() + 1..].contains(&b'/')
}

// Whether a key comes before a directory's path with one byte behind it. With a slash, what is not before it and is
// before the same with '0' is below.
pub fn is_before_with(key: &[u8], dir: &[u8], b: u8) -> bool
    ensures { result ≡ before key.now (dir.now ++ (b ∷ [])) }
{
    let n = base_fields::shared(key, dir);
    if n == key.len() {
        return true;
    }
    if n < dir.len() {
        key[n] < dir[n]
    } else {
        key[n] < b
    }
}
