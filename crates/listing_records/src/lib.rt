// What a checked listing has at a path, and below a directory; ComponentWalk and RealTarget of overlay.rs, by value.
// Assumes bytes that are a listing: only this repository's crates call, after a check.
// Each function is one pass forward over the records up to the answer, and so are all the steps over one path together.
#![tactic(auto)]

ghost use Rattle.std.specs.Prelude.{◌≡◌, true, not, ◌+◌, ◌-◌, ◌≤◌, ◌<◌, length, take, drop};
ghost use Rattle.model.specs.Path.{Path, ends_here};
ghost use Rattle.model.specs.Map.{lookup};
ghost use Rattle.model.specs.Tree.{kind, is_directory};
ghost use Rattle.model.specs.Listing.{record_at, record_end, record_count, node_of, tree_in, is_listing};
ghost use Rattle.listing_records.specs.Found.{found_as, found_of, found_kind, target_kind};
ghost use Rattle.listing_records.specs.Place.{Standing, seek_from, node_if};
ghost use Rattle.listing_records.specs.Parts.{PartOf};
ghost use Rattle.listing_records.specs.Walk.{Walks};

// What a write's lookup finds in the published tree. A link is surfaced, and never resolved.
#[derive(Clone, Copy)]
pub enum RealTarget {
    Dir,
    File,
    Symlink,
    Absent,
}

// A listed node: a directory with its mtime bits, a file with its mtime bits and its size, or a link.
#[derive(Clone, Copy, Debug, PartialEq, Eq)]
pub enum Found {
    Directory(u64),
    File(u64, u64),
    Link,
}

// A place in a listing: `left` records stand from `at` on up to the end.
#[derive(Clone, Copy)]
pub struct Place {
    pub at: usize,
    pub left: u64,
}

// A cursor over the records: where they begin, the place behind the record at a place, and that record's path.
pub fn first_record(listing: &[u8]) -> Place
    requires { is_listing listing.now ≡ true }
    ensures value { result ≡ record { at = 9; left = record_count listing.now } }
    ensures standing { Standing listing.now result.left result.at }
{
    let at = model::LISTING_HEAD;
    let left = base_fields::le32(listing, model::LISTING_COUNT);
    Place { at, left }
}

pub fn next_record(listing: &[u8], place: Place) -> Place
    requires standing { Standing listing.now place.left place.at }
    requires left_nonzero { 0 < place.left }
    ensures value { result ≡ record { at = record_end listing.now place.at; left = place.left - 1 } }
    ensures standing_2 { Standing listing.now result.left result.at }
{
    let at = place.at + model::RECORD_HEAD + base_fields::le16(listing, place.at) as usize;
    let left = place.left - 1;
    Place { at, left }
}

pub fn record_path(listing: &[u8], place: Place) -> &[u8]
    requires standing { Standing listing.now place.left place.at }
    requires left_nonzero { 0 < place.left }
    ensures { result.now ≡ (record_at listing.now place.at).path }
{
    let start = place.at + model::RECORD_HEAD;
    let to = start + base_fields::le16(listing, place.at) as usize;
    &listing[start..to]
}

// The first of the `count` records from `from` on whose path is not before `path`; the end where there is none.
fn seek(listing: &[u8], path: &[u8], from: usize, count: u64) -> Place
    requires { Standing listing.now count from }
    ensures { result ≡ seek_from listing.now path.now count from }
{
    let mut at = from;
    for i in 0..count {
        let start = at + model::RECORD_HEAD;
        let to = start + base_fields::le16(listing, at) as usize;
        let part = &listing[start..to];
        if !base_fields::is_before(part, path) {
            let left = count - i;
            return Place { at, left };
        }
        at = to;
    }
    Place { at, left: 0 }
}

// The node of the record at `at`.
pub fn node_at(listing: &[u8], at: usize) -> Found
    requires { (at + 19 ≤ length listing.now) × (length listing.now ≤ 16777216) }
    ensures { result ≡ found_as (node_of (record_at listing.now at)) }
{
    let mtime = base_fields::le64(listing, at + 3);
    match listing[at + 2] {
        model::LISTED_DIRECTORY => Found::Directory(mtime),
        model::LISTED_FILE => Found::File(mtime, base_fields::le64(listing, at + 11)),
        _ => Found::Link,
    }
}

// The node of the first of the records from a place on, if that has this path.
fn found_at(listing: &[u8], path: &[u8], place: Place) -> Option<Found>
    requires { Standing listing.now place.left place.at }
    ensures { result ≡ found_of (node_if listing.now path.now place.left place.at) }
{
    if 0 < place.left && base_fields::is_same(record_path(listing, place), path) {
        Some(node_at(listing, place.at))
    } else {
        None
    }
}

// What a listing of `count` records has at a path.
pub fn find_in(listing: &[u8], count: u64, path: &[u8]) -> Option<Found>
    requires { (is_listing listing.now ≡ true) × (count ≡ record_count listing.now) }
    ensures { result ≡ found_of (lookup (tree_in listing.now) path.now) }
{
    let place = seek(listing, path, model::LISTING_HEAD, count);
    found_at(listing, path, place)
}

// A part in the middle of a listing: `count` records in the bytes from `from` up to `to`.
#[derive(Clone, Copy)]
pub struct Part {
    pub from: usize,
    pub to: usize,
    pub count: u64,
}

// The records below a directory: one part in the middle, since their paths ascend. It ends at the first record behind
// them.
pub fn below(listing: &[u8], dir: &[u8]) -> Part
    requires { is_listing listing.now ≡ true }
    ensures { PartOf listing.now dir.now result.from result.to result.count }
{
    let count = base_fields::le32(listing, model::LISTING_COUNT);
    let mut from: usize = model::LISTING_HEAD;
    let mut at: usize = model::LISTING_HEAD;
    let mut n: u64 = 0;
    for _ in 0..count {
        let start = at + model::RECORD_HEAD;
        let to = start + base_fields::le16(listing, at) as usize;
        let part = &listing[start..to];
        if base_paths::is_below(dir, part) {
            n += 1;
        } else if n == 0 {
            from = to;
        } else {
            break;
        }
        at = to;
    }
    Part {
        from,
        to: at,
        count: n,
    }
}

// The case that says the kind of what was found.
pub fn classify_target(found: Option<Found>) -> RealTarget
    ensures { target_kind result ≡ found_kind found }
{
    match found {
        Some(Found::Directory(_)) => RealTarget::Dir,
        Some(Found::File(_, _)) => RealTarget::File,
        Some(Found::Link) => RealTarget::Symlink,
        None => RealTarget::Absent,
    }
}

// Whether a walk goes on behind this.
pub fn is_dir(target: RealTarget) -> bool
    ensures { result ≡ is_directory (target_kind target) }
{
    matches!(target, RealTarget::Dir)
}

// A walk down a path, a component a step: `left` records stand from `at` on, and all before them are before every
// prefix to come. Exhausted once a component is no directory: nothing below one is listed.
#[derive(Clone, Copy)]
pub struct ComponentWalk {
    pub at: usize,
    pub left: u64,
    pub exhausted: bool,
}

#[derive(Clone, Copy)]
pub struct Stepped {
    pub walk: ComponentWalk,
    pub target: RealTarget,
}

impl ComponentWalk {
    pub fn new(listing: &[u8]) -> ComponentWalk
        requires { is_listing listing.now ≡ true }
        ensures { (p : Path) → Walks listing.now p result 0 }
    {
        let left = base_fields::le32(listing, model::LISTING_COUNT);
        ComponentWalk {
            at: model::LISTING_HEAD,
            left,
            exhausted: false,
        }
    }

    // What is listed at the path's first `end` bytes, where a component ends. The search goes on from where the last
    // step's ended, since the prefixes of a path ascend: all the steps over one path together read the listing once. An
    // exhausted walk reads nothing.
    pub fn step(self, listing: &[u8], path: &[u8], end: usize) -> Stepped
        requires listing_value { is_listing listing.now ≡ true }
        requires walks { Walks listing.now path.now self end }
        requires end_nonzero { (0 < end) × (end ≤ length path.now) }
        requires path_value { ends_here (drop end path.now) ≡ true }
        ensures target_value { target_kind result.target ≡ kind (lookup (tree_in listing.now))
            (take end path.now) }
        ensures exhausted_value { result.walk.exhausted ≡ not (is_directory (target_kind result.target)) }
        ensures walk_value { self.exhausted ≡ true → result.walk ≡ self }
        ensures walks_2 { Walks listing.now path.now result.walk (end + 1) }
    {
        if self.exhausted {
            return Stepped {
                walk: self,
                target: RealTarget::Absent,
            };
        }
        let prefix = &path[..end];
        let place = seek(listing, prefix, self.at, self.left);
        let found = found_at(listing, prefix, place);
        let target = classify_target(found);
        let on = is_dir(target);
        Stepped {
            walk: ComponentWalk {
                at: place.at,
                left: place.left,
                exhausted: !on,
            },
            target,
        }
    }
}
