// Whether a directory has a visible child: `overlay_directory_has_children` and `real_directory_has_visible_children`
// of overlay.rs. Assumes a listing and a table that were checked: only this repository's crates call. Entries and
// records below a directory are one part each; both ascend, so each part is read once, beside one pass to find it.
#![tactic(auto)]

ghost use Rattle.std.specs.Prelude.{◌≡◌, true, ◌||◌};
ghost use Rattle.model.specs.Map.{keys};
ghost use Rattle.model.specs.Tree.{shown};
ghost use Rattle.model.specs.Listing.{tree_in, is_listing};
ghost use Rattle.model.specs.Table.{entries_at, table_in, is_table};
ghost use Rattle.model.specs.Checks.{visible_child};
ghost use Rattle.listing_records.specs.Place.{tree_at};
ghost use Rattle.listing_records.specs.Place as listing;
ghost use Rattle.table_entries.specs.Place.{Standing};
ghost use Rattle.table_below.specs.Parts.{visible_in};
ghost use Rattle.view_children.specs.Children.{listed_in};

// Whether some entry is a child and not deleted.
pub fn overlay_directory_has_children(table: &[u8], rec: model::Record, dir: &[u8]) -> bool
    requires { is_table table.now rec ≡ true }
    ensures { result ≡ visible_in dir.now (table_in table.now rec) }
{
    let part = table_below::below(table, rec, dir);
    table_below::has_visible_child(&table[part.from..part.to], part.count, dir)
}

// Whether some record of a part is a child and has no entry from a place on.
fn listed_without_entry(
    part: &[u8],
    count: u64,
    table: &[u8],
    place: table_entries::Place,
    dir: &[u8],
) -> bool
    requires standing { listing.Standing part.now count 0 }
    requires standing_2 { Standing table.now place.left place.at }
    ensures { result ≡ listed_in (entries_at table.now place.left place.at) dir.now
        (tree_at part.now count 0) }
{
    let mut at: usize = 0;
    let mut entries = place;
    for i in 0..count {
        let here = listing_records::Place {
            at,
            left: count - i,
        };
        let path = listing_records::record_path(part, here);
        let got = table_entries::get_from(table, entries, path);
        if base_paths::is_child(dir, path) && table_entries::is_absent(got.entry) {
            return true;
        }
        at = listing_records::next_record(part, here).at;
        entries = got.place;
    }
    false
}

// Whether some listed child has no entry that hides it. A link counts.
pub fn real_directory_has_visible_children(
    listing: &[u8],
    table: &[u8],
    rec: model::Record,
    dir: &[u8],
) -> bool
    requires listing_value { is_listing listing.now ≡ true }
    requires rec_value { is_table table.now rec ≡ true }
    ensures { result ≡ listed_in (table_in table.now rec) dir.now
        (tree_in listing.now) }
{
    let part = listing_records::below(listing, dir);
    let first = table_entries::first_entry(table, rec);
    listed_without_entry(&listing[part.from..part.to], part.count, table, first, dir)
}

// Whether a directory has a visible child.
pub fn has_visible_children(listing: &[u8], table: &[u8], rec: model::Record, dir: &[u8]) -> bool
    requires listing_value { is_listing listing.now ≡ true }
    requires rec_value { is_table table.now rec ≡ true }
    ensures { result ≡ (visible_child (shown (table_in table.now rec) (tree_in listing.now))
        dir.now (keys (table_in table.now rec)) || visible_child
        (shown (table_in table.now rec) (tree_in listing.now)) dir.now
        (keys (tree_in listing.now))) }
{
    overlay_directory_has_children(table, rec, dir)
        || real_directory_has_visible_children(listing, table, rec, dir)
}
