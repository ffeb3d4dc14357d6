// What rename's walk adds for all that it comes to below its source, and whether a node there stops it.
// Assumes a checked listing and a checked table: only this repository's crates call.
// Cost: one pass over the part below the source and the table, behind one over the listing that finds the part.
#![tactic(auto)]

ghost use Rattle.std.specs.Prelude.{◌≡◌, true, ◌≤◌, length};
ghost use Rattle.model.specs.Path.{Path};
ghost use Rattle.model.specs.Tree.{Node};
ghost use Rattle.model.specs.Listing.{tree_in, is_listing};
ghost use Rattle.model.specs.Table.{table_in, is_table};
ghost use Rattle.model.specs.Rename as rename;
ghost use Rattle.listing_records.specs.Found.{found_as};
ghost use Rattle.rename_uncovered.specs.Ahead.{PartBelow, to_come};
ghost use Rattle.least_walk.specs.Total.{cost, costs, any_stops, reached};

// What the walk adds in all, and whether a node stops it.
#[derive(Clone, Copy)]
pub struct Total {
    pub sum: u64,
    pub stops: bool,
}

// The same of one node at a path of `len` bytes.
fn node_total(found: listing_records::Found, len: u64) -> Total
    requires { len ≤ 512 }
    ensures sum_bound { result.sum ≤ 2048 }
    ensures sum_value { (p : Path) (n : Node) → found ≡ found_as n → len ≡ length p → (result.sum ≡ cost p n)
        × (result.stops ≡ rename.stops n) }
{
    match found {
        listing_records::Found::Directory(_) => Total {
            sum: 3 * len + model::REAL_DESCENDANT_MEMORY_USAGE,
            stops: false,
        },
        listing_records::Found::File(_, _) => Total {
            sum: 2 * len + model::REAL_DESCENDANT_MEMORY_USAGE,
            stops: false,
        },
        listing_records::Found::Link => Total {
            sum: 0,
            stops: true,
        },
    }
}

// The same of the uncovered ones of the `count` records of a part below `source`. It goes on behind a node that stops
// the walk: the sum is of no use then, but stays as defined.
fn total_of(
    flags: &mut [bool; 513],
    part: &[u8],
    count: u64,
    table: &[u8],
    rec: model::Record,
    source: &[u8],
) -> Total
    requires flags_len { length flags.old ≡ 513 }
    requires part_below { PartBelow part.now source.now count }
    requires rec_value { is_table table.now rec ≡ true }
    ensures sum_value { result.sum ≡ costs (to_come (table_in table.now rec) source.now
        part.now count 0) }
    ensures stops_value { result.stops ≡ any_stops (to_come (table_in table.now rec) source.now
        part.now count 0) }
    ensures sum_bound { result.sum ≤ 0x8_0000_0000 }
{
    let mut sum: u64 = 0;
    let mut stops = false;
    let mut here = rename_uncovered::first_uncovered(flags, part, count, table, rec, source);
    while 0 < here.left {
        let place = listing_records::Place {
            at: here.at,
            left: here.left,
        };
        let path = listing_records::record_path(part, place);
        let found = listing_records::node_at(part, here.at);
        let one = node_total(found, path.len() as u64);
        sum += one.sum;
        stops = stops | one.stops;
        here = rename_uncovered::next_uncovered(flags, part, table, here, source);
    }
    Total { sum, stops }
}

// The same of all that the walk comes to below `source`. A listing has at most 16,777,216 records, and each adds at
// most 2048, so that a few such sums add up without overflow.
pub fn reached_total(listing: &[u8], table: &[u8], rec: model::Record, source: &[u8]) -> Total
    requires listing_value { is_listing listing.now ≡ true }
    requires rec_value { is_table table.now rec ≡ true }
    ensures sum_value { result.sum ≡ costs (reached (table_in table.now rec) (tree_in listing.now)
        source.now) }
    ensures stops_value { result.stops ≡ any_stops (reached (table_in table.now rec) (tree_in listing.now)
        source.now) }
    ensures sum_bound { result.sum ≤ 0x8_0000_0000 }
{
    let mut flags: [bool; 513] = [false; 513];
    let listed = listing_records::below(listing, source);
    let part = &listing[listed.from..listed.to];
    total_of(&mut flags, part, listed.count, table, rec, source)
}
