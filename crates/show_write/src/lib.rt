// The names of a directory's visible children: how many bytes they take, and these bytes.
// Assumes a merge of a checked table and a checked listing, or of parts of both, in which all lies below the directory:
// only this repository's crates call. Each of `measure_names` and `put_names` is one pass over what the merge reads.
#![tactic(auto)]

ghost use Rattle.std.specs.Prelude.{◌≡◌, true, ◌++◌, ◌+◌, ◌≤◌, ◌<◌, length, drop};
ghost use Rattle.model.specs.Bytes.{every, bytes};
ghost use Rattle.model.specs.Path.{slashless};
ghost use Rattle.model.specs.Map.{keys};
ghost use Rattle.model.specs.Table.{padded};
ghost use Rattle.base_fields.specs.Write.{overwritten};
ghost use Rattle.view_merge.specs.Merges.{ahead, Merging, Next, head_path, head_node, tree_of};
ghost use Rattle.show_names.specs.Names.{name_start, names, name_bytes};
ghost use Rattle.show_write.specs.Sizes.{inside, Showing, head_names, Sized};

use view_merge::{Head, Merge};

// The bytes of the length before a name.
const LENGTH: usize = 2;

// Where a child's name begins in its path: behind the directory and the slash, below the root at the start.
fn name_start(dir: &[u8]) -> usize
    ensures { result ≡ name_start dir.now }
{
    if dir.len() == 0 {
        return 0;
    }
    dir.len() + 1
}

// Whether there is no slash behind a path's first `start` bytes.
fn is_one_component(path: &[u8], start: usize) -> bool
    requires { start ≤ length path.now }
    ensures { result ≡ slashless (drop start path.now) }
{
    base_paths::next_ancestor(path, start) == path.len()
}

// How many bytes the name of what is next takes with its length; 0 where it is no child, or nothing or a link is
// visible there. Only what is visible lies below the directory for sure, so that is asked first.
fn name_size<'a>(own: &'a [u8], part: &'a [u8], merge: Merge, head: Head, dir: &[u8]) -> usize
    requires merging { Merging own.now part.now merge }
    requires next { Next own.now part.now merge head }
    requires head_value { every (inside dir.now) (keys (tree_of (head_path own.now part.now merge head)
        (head_node own.now
        part.now merge head))) ≡ true }
    ensures { Sized dir.now own.now part.now merge head result }
{
    if !view_merge::head_exists(own, part, merge, Some(head)) {
        return 0;
    }
    let path = view_merge::head_path(own, part, merge, Some(head));
    let start = name_start(dir);
    if is_one_component(path, start) {
        return LENGTH + (path.len() - start);
    }
    0
}

// How many bytes all names take, each with its length before it.
pub fn measure_names<'a>(own: &'a [u8], part: &'a [u8], first: Merge, dir: &[u8]) -> usize
    requires { Showing own.now part.now dir.now first }
    ensures value { result ≡ length (name_bytes (names dir.now (ahead own.now part.now
        first))) }
    ensures upper_bound { result ≤ length own.now + length part.now }
{
    let mut merge = first;
    let mut sum: usize = 0;
    while let Some(head) = view_merge::head_at(own, part, merge) {
        let next = view_merge::advance(own, part, merge, head);
        sum += name_size(own, part, merge, head, dir);
        merge = next;
    }
    sum
}

// A name with its length before it, from `at` on.
fn put_sized(output: &mut [u8], at: usize, name: &[u8])
    requires { at + 2 + length name.now ≤ length output.old }
    ensures { output.new ≡ overwritten output.old at (bytes 2 (length name.now)
        ++ name.now) }
{
    base_fields::put16(output, at, name.len() as u64);
    base_fields::copy_in(output, at + LENGTH, name);
}

// The name of what is next, with its length before it, from `at` on; gives where it ends. Nothing is written where
// there is no name.
fn put_name<'a>(
    output: &mut [u8],
    at: usize,
    own: &'a [u8],
    part: &'a [u8],
    merge: Merge,
    head: Head,
    dir: &[u8],
) -> usize
    requires merging { Merging own.now part.now merge }
    requires next { Next own.now part.now merge head }
    requires head_value { every (inside dir.now) (keys (tree_of (head_path own.now part.now merge head)
        (head_node own.now
        part.now merge head))) ≡ true }
    requires head_in_bounds { at + length (name_bytes (head_names dir.now own.now part.now merge head))
        ≤ length output.old }
    ensures output_after { output.new ≡ overwritten output.old at (name_bytes (head_names dir.now
        own.now part.now merge head)) }
    ensures value { result ≡ at + length (name_bytes (head_names dir.now own.now part.now
        merge head)) }
{
    let size = name_size(own, part, merge, head, dir);
    if size == 0 {
        return at;
    }
    let path = view_merge::head_path(own, part, merge, Some(head));
    let start = path.len() + LENGTH - size;
    put_sized(output, at, &path[start..]);
    at + size
}

// All names, each with its length before it, from the start of the output on, and zeros behind them.
pub fn put_names<'a>(output: &mut [u8], own: &'a [u8], part: &'a [u8], first: Merge, dir: &[u8])
    requires showing { Showing own.now part.now dir.now first }
    requires first_in_bounds { length (name_bytes (names dir.now (ahead own.now part.now first))) ≤ length output.old }
    ensures { output.new ≡ padded (length output.old) (name_bytes (names dir.now
        (ahead own.now part.now first))) }
{
    let mut merge = first;
    let mut at: usize = 0;
    while let Some(head) = view_merge::head_at(own, part, merge) {
        let next = view_merge::advance(own, part, merge, head);
        at = put_name(output, at, own, part, merge, head, dir);
        merge = next;
    }
    base_fields::zero_from(output, at);
}
