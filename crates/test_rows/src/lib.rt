// The plain tree: a row of 32 bytes for each of 40 paths, by number. A row has what is at its path, how many bytes a
// file holds, and these; behind them all is 0. 0 is the root, which is always a directory, and the paths in a directory
// have the three numbers behind 3 times its own. They are all paths of up to three components `a`, `a-b` and `a0`; what
// has a larger number is not in the tree.
#![tactic(auto)]

ghost use Rattle.std.specs.Prelude.{◌≡◌, ◌≤◌, get_or};
ghost use Rattle.test_rows.specs.Rows.{row_at, kind_in, own_in, count_in, content_in, lent_in};

pub const PATHS: usize = 40;

const ROW: usize = 32;

const END: usize = 1280;

// The most bytes that a row holds of a file.
const MOST: usize = 30;

pub const NOTHING: u8 = 0;

pub const DIRECTORY: u8 = 1;

pub const FILE: u8 = 2;

pub const LINK: u8 = 3;

// An own file, which the table holds the content of; beside it, `FILE` in a row is a file whose content is listed.
const OWN: u8 = 4;

// Where a path's row begins; what is not in the tree has none, and the rows' end stands for it.
fn row(i: usize) -> usize
    ensures { (result ≡ row_at i) × (result ≤ 1280) }
{
    if i < PATHS { ROW * i } else { END }
}

fn byte_at(tree: &[u8], at: usize) -> u8
    ensures { result ≡ get_or tree.now at 0 }
{
    tree.get(at).copied().unwrap_or(0)
}

fn set(tree: &mut [u8], at: usize, b: u8) {
    if let Some(there) = tree.get_mut(at) {
        *there = b;
    }
}

// What is at a path; an own file is a file too.
pub fn kind(tree: &[u8], i: usize) -> u8
    ensures { result ≡ kind_in tree.now i }
{
    if i == 0 {
        return DIRECTORY;
    }
    match byte_at(tree, row(i)) {
        OWN => FILE,
        there => there,
    }
}

pub fn is_own(tree: &[u8], i: usize) -> bool
    ensures { result ≡ own_in tree.now i }
{
    byte_at(tree, row(i)) == OWN
}

// How many bytes the file at a path holds; 0 where there is none.
pub fn count(tree: &[u8], i: usize) -> usize
    ensures { (result ≡ count_in tree.now i) × (result ≤ 30) }
{
    let n = byte_at(tree, row(i) + 1) as usize;
    if n <= MOST { n } else { 0 }
}

// These bytes.
pub fn content(tree: &[u8], i: usize) -> &[u8]
    ensures { result.now ≡ content_in tree.now i }
{
    let from = row(i) + 2;
    let to = from + count(tree, i);
    tree.get(from..to).unwrap_or(&[])
}

// The bytes that an append to the path has to be lent: all that the file holds, unless it is an own one.
pub fn lent(tree: &[u8], i: usize) -> &[u8]
    ensures { result.now ≡ lent_in tree.now i }
{
    if is_own(tree, i) {
        &[]
    } else {
        content(tree, i)
    }
}

pub fn set_kind(tree: &mut [u8], i: usize, kind: u8) {
    set(tree, row(i), kind);
}

pub fn clear(tree: &mut [u8], i: usize) {
    let from = row(i);
    if let Some(bytes) = tree.get_mut(from..from + ROW) {
        bytes.fill(0);
    }
}

// A row's bytes, all with what is there, move to another row, and leave 0; to the same row they stay.
pub fn move_row(tree: &mut [u8], i: usize, to: usize) {
    let mut bytes = [0u8; ROW];
    let from = row(i);
    if let Some(there) = tree.get(from..from + ROW) {
        bytes.copy_from_slice(there);
    }
    clear(tree, i);
    put(tree, row(to), &bytes);
}

// Data that the tree has no room for are left out.
fn put(tree: &mut [u8], at: usize, data: &[u8]) {
    if let Some(there) = tree.get_mut(at..at.saturating_add(data.len())) {
        there.copy_from_slice(data);
    }
}

// The content ends at `end`, if it did not end later; a gap before it is 0 already.
fn reach(tree: &mut [u8], i: usize, end: u8) {
    if count(tree, i) < end as usize {
        set(tree, row(i) + 1, end);
    }
}

// Data go into the content from `from` on, and the file is an own one. Data for which the row has no room are left out.
pub fn write_at(tree: &mut [u8], i: usize, from: usize, data: &[u8]) {
    let end = from.saturating_add(data.len());
    if MOST < end {
        return;
    }
    put(tree, row(i) + 2 + from, data);
    reach(tree, i, end as u8);
    set_kind(tree, i, OWN);
}
