// The ancestors of a path by where each ends in it: the next one from the top, the parent, and a list of some of them.
ghost use Rattle.std.specs.Prelude.{◌≡◌, [], ◌∷◌, ◌++◌, ◌+◌, ◌≤◌, ◌<◌, length};
ghost use Rattle.base_paths.specs.Ancestors.{next_slash, Parted};
ghost use Rattle.base_paths.specs.Dirs.{ends_of};

// Some of the directories on the way to a path, by where each ends in it: the first `count` of `ends`, from the top.
#[derive(Clone, Copy)]
pub struct Dirs {
    pub ends: [usize; model::DEPTH_MAX],
    pub count: usize,
}

// Those directories, and one more that ends at `end`.
pub fn with_end(mut dirs: Dirs, end: usize) -> Dirs
    requires { dirs.count < 32 }
    ensures result_value { ends_of result ≡ ends_of dirs ++ (end ∷ []) }
    ensures count_value { result.count ≡ dirs.count + 1 }
{
    dirs.ends[dirs.count] = end;
    dirs.count += 1;
    dirs
}

// Where the first proper ancestor of path ends whose end is at from or behind it; path's length where there is none.
pub fn next_ancestor(path: &[u8], from: usize) -> usize
    requires { from ≤ length path.now }
    ensures value { result ≡ next_slash path.now from }
    ensures lower_bound { (from ≤ result) × (result ≤ length path.now) }
{
    for i in from..path.len() {
        if path[i] == b'/' {
            return i;
        }
    }
    path.len()
}

// Where the parent of a path ends that has `from` bytes or more: the last slash. One pass back over the path's last
// component.
pub fn parent_end(path: &[u8], from: usize) -> usize
    requires { from < length path.now }
    ensures { Parted path.now from result }
{
    for end in (from + 1..path.len()).rev() {
        if path[end] == b'/' {
            return end;
        }
    }
    from
}
