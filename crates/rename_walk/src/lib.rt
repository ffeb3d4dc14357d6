// rename's walk: a directory's listed children without an entry are visited in ascending order, then the directories
// among them entered, the last found first. A stretch of records is entered by halves, the second first, since a
// listing can only be read forward. Assumes a listing and a table that were checked, and a path: only this repository's
// crates call. A record or an entry is passed a few times at each of 32 levels, once for each of 20 halvings there, and
// once more for each listed directory whose path its own begins with, as `a-b/c` does with `a`.
#![tactic(auto)]

ghost use Rattle.std.specs.Prelude.{◌≡◌, true, ◌&&◌, ◌+◌, ◌-◌, ◌≤◌, ◌<◌, length};
ghost use Rattle.std.proofs.Math.Option.{some};
ghost use Rattle.model.specs.Path.{Path, is_path, child};
ghost use Rattle.model.specs.Map.{lookup, is_none};
ghost use Rattle.model.specs.Tree.{Node, kind_of, is_directory};
ghost use Rattle.model.specs.Listing.{record_at, node_of, tree_in, is_listing};
ghost use Rattle.model.specs.Table.{entries_at, table_in, is_table};
ghost use Rattle.model.specs.Rename.{in_budget, visit, visits, children, walk_from};
ghost use Rattle.model.specs.Rename as rename;
ghost use Rattle.listing_records.specs.Place.{tree_at};
ghost use Rattle.listing_records.specs.Place as listing;
ghost use Rattle.listing_records.specs.Found.{found_as};
ghost use Rattle.table_entries.specs.Place.{Standing, Sought};
ghost use Rattle.table_entries.specs.Cut.{since};
ghost use Rattle.rename_walk.specs.Walked.{walk_of};
ghost use Rattle.rename_walk.specs.Stretch.{end_after, slashed, lead, Under, Halved, entered};

use base_budget::MemoryBudget;

// What stops the walk.
#[derive(Clone, Copy)]
pub enum Stop {
    AtLink,
}

// How the walk ends before it has come to its whole sum: above the budget, or at a node that stops it, with the sum so
// far.
#[derive(Clone, Copy)]
pub enum Ended {
    OverBudget,
    Stopped(Stop, u64),
}

// A stretch of records: the first `count` of the `left` that stand from `at` on.
#[derive(Clone, Copy)]
pub struct Stretch {
    pub at: usize,
    pub left: u64,
    pub count: u64,
}

// A stretch in two halves: the first records, and those behind them.
#[derive(Clone, Copy)]
pub struct Halves {
    pub low: Stretch,
    pub high: Stretch,
}

// Whether a record's path is a child without an entry, and the table's place from that path on.
#[derive(Clone, Copy)]
pub struct Bare {
    pub bare: bool,
    pub place: table_entries::Place,
}

// A cost added to a sum. It is compared with what the budget leaves, so that no addition can overflow.
fn added(total: u64, cost: u64, budget: MemoryBudget) -> Result<u64, Ended>
    ensures { walk_of result ≡ in_budget (some budget.available) (total + cost) }
{
    let Ok(rest) = budget.shrink(total) else {
        return Err(Ended::OverBudget);
    };
    if rest.check(cost) {
        Ok(total + cost)
    } else {
        Err(Ended::OverBudget)
    }
}

// One node visited, at a path of `len` bytes: a link stops the walk.
fn visited(
    total: u64,
    found: listing_records::Found,
    len: u64,
    budget: MemoryBudget,
) -> Result<u64, Ended>
    requires { len ≤ 16777216 }
    ensures { (p : Path) (n : Node) → found ≡ found_as n → len ≡ length p → walk_of result
        ≡ visit (some budget.available) (rename.sum total) p n }
{
    match found {
        listing_records::Found::Directory(_) => {
            added(total, 3 * len + model::REAL_DESCENDANT_MEMORY_USAGE, budget)
        }
        listing_records::Found::File(_, _) => {
            added(total, 2 * len + model::REAL_DESCENDANT_MEMORY_USAGE, budget)
        }
        listing_records::Found::Link => Err(Ended::Stopped(Stop::AtLink, total)),
    }
}

// Whether a listed node is a directory.
fn is_directory(found: listing_records::Found) -> bool
    ensures { (n : Node) → found ≡ found_as n → result ≡ is_directory (kind_of (some n)) }
{
    matches!(found, listing_records::Found::Directory(_))
}

// Whether the record at a place is a child of the directory and has no entry from the table's place on. The table is
// read up to the record's path.
fn bare_child(
    records: &[u8],
    here: listing_records::Place,
    table: &[u8],
    place: table_entries::Place,
    dir: &[u8],
) -> Bare
    requires standing { listing.Standing records.now here.left here.at }
    requires left_nonzero { 0 < here.left }
    requires standing_2 { Standing table.now place.left place.at }
    ensures bare_value { result.bare ≡ (child dir.now (record_at records.now here.at).path
        && is_none (lookup (entries_at table.now place.left place.at) (record_at records.now
        here.at).path)) }
    ensures sought { Sought table.now (record_at records.now here.at).path place.left
        place.at result.place.left result.place.at }
{
    let path = listing_records::record_path(records, here);
    let got = table_entries::get_from(table, place, path);
    let bare = base_paths::is_child(dir, path) & table_entries::is_absent(got.entry);
    Bare {
        bare,
        place: got.place,
    }
}

// The record at a place visited.
fn visit_record(
    records: &[u8],
    here: listing_records::Place,
    budget: MemoryBudget,
    total: u64,
) -> Result<u64, Ended>
    requires standing { listing.Standing records.now here.left here.at }
    requires left_nonzero { 0 < here.left }
    ensures { walk_of result ≡ visit (some budget.available) (rename.sum total) (record_at records.now here.at).path
        (node_of (record_at records.now here.at)) }
{
    let path = listing_records::record_path(records, here);
    let found = listing_records::node_at(records, here.at);
    visited(total, found, path.len() as u64, budget)
}

// The children of a directory in a stretch visited in ascending order, those without an entry; records and entries are
// passed side by side, since both ascend.
fn visit_children(
    records: &[u8],
    stretch: Stretch,
    table: &[u8],
    place: table_entries::Place,
    dir: &[u8],
    budget: MemoryBudget,
    total: u64,
) -> Result<u64, Ended>
    requires standing { listing.Standing records.now stretch.left stretch.at }
    requires count_le_left { stretch.count ≤ stretch.left }
    requires standing_2 { Standing table.now place.left place.at }
    ensures { walk_of result ≡ visits (some budget.available) (rename.sum total)
        (children (entries_at table.now place.left place.at) (tree_at records.now
        stretch.count stretch.at) dir.now) }
{
    let mut here = listing_records::Place {
        at: stretch.at,
        left: stretch.left,
    };
    let mut entries = place;
    let mut sum = total;
    for _ in 0..stretch.count {
        let child = bare_child(records, here, table, entries, dir);
        if child.bare {
            sum = visit_record(records, here, budget, sum)?;
        }
        entries = child.place;
        here = listing_records::next_record(records, here);
    }
    Ok(sum)
}

// The first record from a place on that does not come before all that is below a directory. From the directory's own
// record on, every record passed begins with the directory's path, as `a-b` does between `a` and `a/b`.
fn seek_below(records: &[u8], place: listing_records::Place, dir: &[u8]) -> listing_records::Place
    requires { listing.Standing records.now place.left place.at }
    ensures standing { listing.Standing records.now result.left result.at }
    ensures at_value { tree_at records.now result.left result.at ≡ since (slashed dir.now)
        (tree_at records.now place.left place.at) }
{
    let mut here = place;
    while 0 < here.left {
        let path = listing_records::record_path(records, here);
        if !base_paths::is_before_with(path, dir, b'/') {
            return here;
        }
        here = listing_records::next_record(records, here);
    }
    here
}

// How many records from a place on, one behind the other, are below a directory. It reads up to the first that is not.
fn count_below(records: &[u8], place: listing_records::Place, dir: &[u8]) -> u64
    requires { listing.Standing records.now place.left place.at }
    ensures { result ≡ lead dir.now (tree_at records.now place.left place.at) }
{
    let mut here = place;
    let mut n: u64 = 0;
    while 0 < here.left {
        let path = listing_records::record_path(records, here);
        if !base_paths::is_below(dir, path) {
            return n;
        }
        here = listing_records::next_record(records, here);
        n += 1;
    }
    n
}

// The records below a directory, among those from a place on: one stretch, since their paths ascend.
fn stretch_below(records: &[u8], place: listing_records::Place, dir: &[u8]) -> Stretch
    requires { listing.Standing records.now place.left place.at }
    ensures { Under records.now dir.now place.left place.at result.left result.at
        result.count }
{
    let first = seek_below(records, place, dir);
    let count = count_below(records, first, dir);
    Stretch {
        at: first.at,
        left: first.left,
        count,
    }
}

// The place n records on. It reads the lengths of those records.
fn skip(records: &[u8], place: listing_records::Place, n: u64) -> listing_records::Place
    requires standing { listing.Standing records.now place.left place.at }
    requires n_le_left { n ≤ place.left }
    ensures value { result ≡ record { at = end_after records.now n place.at; left = place.left - n } }
    ensures standing_2 { listing.Standing records.now result.left result.at }
{
    let mut here = place;
    for _ in 0..n {
        here = listing_records::next_record(records, here);
    }
    here
}

// A stretch of two records or more in halves.
fn halved(records: &[u8], stretch: Stretch) -> Halves
    requires standing { listing.Standing records.now stretch.left stretch.at }
    requires count_le_left { (stretch.count ≤ stretch.left) × (1 < stretch.count) }
    ensures { Halved records.now stretch.left stretch.count stretch.at result.low.left
        result.low.count result.low.at result.high.left result.high.count result.high.at }
{
    let Stretch { at, left, count } = stretch;
    let half = count / 2;
    let mid = skip(records, listing_records::Place { at, left }, half);
    let low = Stretch {
        at,
        left,
        count: half,
    };
    let high = Stretch {
        at: mid.at,
        left: mid.left,
        count: count - half,
    };
    Halves { low, high }
}

// The record at a place entered, if it is a directory among the children of `dir` without an entry: its own children
// are visited, and then the directories among them entered, one level less deep. `depth` components may still follow.
#[cycle(enter_record_enter_stretch)]
fn enter_record(
    records: &[u8],
    here: listing_records::Place,
    table: &[u8],
    place: table_entries::Place,
    dir: &[u8],
    budget: MemoryBudget,
    total: u64,
    depth: u64,
) -> Result<u64, Ended>
    requires standing { listing.Standing records.now here.left here.at }
    requires left_nonzero { 0 < here.left }
    requires standing_2 { Standing table.now place.left place.at }
    ensures { walk_of result ≡ entered depth (entries_at table.now place.left place.at)
        (tree_at records.now here.left here.at) (some budget.available) dir.now
        (tree_at records.now 1 here.at) (rename.sum total) }
{
    if depth == 0 {
        return Ok(total);
    }
    let child = bare_child(records, here, table, place, dir);
    let found = listing_records::node_at(records, here.at);
    if child.bare & is_directory(found) {
        let path = listing_records::record_path(records, here);
        let entries = child.place;
        let own = stretch_below(records, here, path);
        let on = visit_children(records, own, table, entries, path, budget, total)?;
        return enter_stretch(records, own, table, entries, path, budget, on, depth - 1);
    }
    Ok(total)
}

// The directories among the children of `dir` in a stretch entered, the last found first: the second half comes before
// the first, so the order is reversed with nothing stored. Both halves search the table from the stretch's first path
// on, so each search goes forward only.
#[cycle(enter_record_enter_stretch)]
fn enter_stretch(
    records: &[u8],
    stretch: Stretch,
    table: &[u8],
    place: table_entries::Place,
    dir: &[u8],
    budget: MemoryBudget,
    total: u64,
    depth: u64,
) -> Result<u64, Ended>
    requires standing { listing.Standing records.now stretch.left stretch.at }
    requires count_le_left { stretch.count ≤ stretch.left }
    requires standing_2 { Standing table.now place.left place.at }
    ensures { walk_of result ≡ entered depth (entries_at table.now place.left place.at)
        (tree_at records.now stretch.left stretch.at) (some budget.available) dir.now
        (tree_at records.now stretch.count stretch.at) (rename.sum total) }
{
    let Stretch { at, left, count } = stretch;
    if count == 0 {
        return Ok(total);
    }
    let here = listing_records::Place { at, left };
    let path = listing_records::record_path(records, here);
    let entries = table_entries::seek(table, place, path);
    if count == 1 {
        return enter_record(records, here, table, entries, dir, budget, total, depth);
    }
    let Halves { low, high } = halved(records, stretch);
    let on = enter_stretch(records, high, table, entries, dir, budget, total, depth)?;
    enter_stretch(records, low, table, entries, dir, budget, on, depth)
}

// The walk below a source, from 2 × its length + 1 on: its children are visited, then the directories among them
// entered. The Rust's function of this name collects what the walk finds; here nothing is collected, and the sum is
// answered. A path has at most 32 components, so 32 levels, of which the source's children are the first, reach all
// that is listed.
pub fn collect_real_descendants(
    listing: &[u8],
    table: &[u8],
    rec: model::Record,
    source: &[u8],
    budget: MemoryBudget,
) -> Result<u64, Ended>
    requires listing_value { is_listing listing.now ≡ true }
    requires rec_value { is_table table.now rec ≡ true }
    requires source_value { is_path source.now ≡ true }
    ensures { walk_of result ≡ walk_from (table_in table.now rec) (tree_in listing.now)
        (some budget.available) source.now }
{
    let start = 2 * source.len() as u64 + 1;
    let first = listing_records::first_record(listing);
    let entries = table_entries::first_entry(table, rec);
    let own = stretch_below(listing, first, source);
    let on = visit_children(listing, own, table, entries, source, budget, start)?;
    enter_stretch(listing, own, table, entries, source, budget, on, 31)
}
