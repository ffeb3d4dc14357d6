// The checks of showing a directory (#102) between 3 and 13: 4, 5 and 7.
// Assumes a listing, a table and a path that were checked (crate check_lent): only this repository's crates call.
// Each check is a constant number of passes over table and listing.
#![tactic(auto)]

ghost use Rattle.std.specs.Prelude.{◌≡◌, true};
ghost use Rattle.model.specs.Path.{is_path};
ghost use Rattle.model.specs.Listing.{tree_in, is_listing};
ghost use Rattle.model.specs.Table.{table_in};
ghost use Rattle.model.specs.Outcome.{Given};
ghost use Rattle.listing_records.specs.Found.{target_kind};
ghost use Rattle.check_judged.specs.Judged.{check_of};
ghost use Rattle.show_names.specs.Names.{is_link, link_on_way, show_checks};

use check_judged::Judged;
use listing_records::RealTarget;
use model::{Record, Refusal};

// Whether a link is listed.
fn is_link(target: RealTarget) -> bool
    ensures { result ≡ is_link (target_kind target) }
{
    matches!(target, RealTarget::Symlink)
}

// Whether some ancestor of a path is listed as a link. It goes from the top down, and all steps together read the
// listing once. The first ancestor that is no directory decides, since nothing is listed below it.
fn has_link_on_way(listing: &[u8], path: &[u8]) -> bool
    requires listing_value { is_listing listing.now ≡ true }
    requires path_value { is_path path.now ≡ true }
    ensures { result ≡ link_on_way (tree_in listing.now) path.now }
{
    let mut walk = listing_records::ComponentWalk::new(listing);
    let mut at = base_paths::next_ancestor(path, 0);
    while at < path.len() {
        let stepped = listing_walk::step_once(walk, listing, path, at);
        let target = stepped.target;
        if !listing_records::is_dir(target) {
            return is_link(target);
        }
        walk = stepped.walk;
        at = base_paths::next_ancestor(path, at + 1);
    }
    false
}

// 4, 5 and 7. Without an entry at the path a link on the way is 4; then what is visible at the path decides.
pub fn check_shown(listing: &[u8], table: &[u8], rec: Record, path: &[u8]) -> Judged
    requires given { Given listing.now table.now rec }
    requires path_value { is_path path.now ≡ true }
    ensures { check_of result ≡ show_checks (table_in table.now rec) (tree_in listing.now)
        path.now }
{
    let entry = table_entries::get(table, rec, path);
    if table_entries::is_absent(entry) & has_link_on_way(listing, path) {
        return Err(Refusal::LinkOrRoot(0, path.len() as u64));
    }
    let visible = view_at::visible_at(listing, table, rec, path);
    check_one_path::check_directory(visible, path.len() as u64)
}
