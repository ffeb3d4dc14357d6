// Whether a path's parents are visible directories (`ensure_parent_exists`), and which of them mkdir with parents has
// to make (`overlay_dirs_to_create` of overlay.rs). Assumes a listing, a table and a path that were checked: only this
// repository's crates call. Both go from the top down once: all looks together read table and listing once.
#![tactic(auto)]

ghost use Rattle.std.specs.Prelude.{◌≡◌, true, not, ◌++◌, [], ◌+◌, ◌≤◌, ◌<◌, length, IfOk};
ghost use Rattle.model.specs.Bytes.{cons_if};
ghost use Rattle.model.specs.Path.{is_path, ancestors};
ghost use Rattle.model.specs.Tree.{shown, kind, is_directory};
ghost use Rattle.model.specs.Listing.{tree_in, is_listing};
ghost use Rattle.model.specs.Table.{table_in, is_table};
ghost use Rattle.model.specs.Checks.{pass, parent_at, parent_checks, ancestor_at, ancestors_in};
ghost use Rattle.view_at.specs.Sight.{visible_kind};
ghost use Rattle.check_judged.specs.Judged.{check_of};
ghost use Rattle.base_paths.specs.Dirs.{ends_of, climbs};
ghost use Rattle.check_parents.specs.Missing.{missing_ends};

use base_paths::Dirs;
use check_judged::Judged;
use model::Refusal;
use view_at::Visible;

// What a parent that shows this gives, for the path `which` of `len` bytes.
fn check_parent(visible: Option<Visible>, which: u64, len: u64) -> Judged
    ensures { check_of result ≡ parent_at which len (visible_kind visible) }
{
    match visible {
        None => Err(Refusal::NotFound(which, len)),
        Some(Visible::Directory) => Ok(()),
        Some(Visible::File) => Err(Refusal::NotFound(which, len)),
        Some(Visible::Link) => Err(Refusal::LinkOrRoot(which, len)),
    }
}

pub fn ensure_parent_exists(
    listing: &[u8],
    table: &[u8],
    rec: model::Record,
    path: &[u8],
    which: u64,
) -> Judged
    requires listing_value { is_listing listing.now ≡ true }
    requires rec_value { is_table table.now rec ≡ true }
    requires path_value { is_path path.now ≡ true }
    ensures { check_of result ≡ parent_checks which (shown (table_in table.now rec)
        (tree_in listing.now)) path.now }
{
    let mut sight = view_at::begin(listing, table, rec);
    let mut at = base_paths::next_ancestor(path, 0);
    while at < path.len() {
        let seen = view_at::look(sight, listing, table, rec, path, at);
        check_parent(seen.visible, which, path.len() as u64)?;
        sight = seen.sight;
        at = base_paths::next_ancestor(path, at + 1);
    }
    Ok(())
}

// What an ancestor of `end` bytes that shows this gives mkdir with parents, for a path of `len` bytes.
fn check_ancestor(visible: Option<Visible>, end: u64, len: u64) -> Judged
    ensures { check_of result ≡ ancestor_at end len (visible_kind visible) }
{
    match visible {
        None => Ok(()),
        Some(Visible::Directory) => Ok(()),
        Some(Visible::File) => Err(Refusal::NotADirectory(0, end)),
        Some(Visible::Link) => Err(Refusal::LinkOrRoot(0, len)),
    }
}

// Those directories, and an ancestor that shows this and does not refuse: it is to be made unless it is a directory.
fn with_ancestor(dirs: Dirs, visible: Option<Visible>, end: usize) -> Dirs
    requires { dirs.count < 32 }
    ensures result_value { ends_of result ≡ ends_of dirs ++ cons_if (not (is_directory (visible_kind visible))) end [] }
    ensures count_bound { result.count ≤ dirs.count + 1 }
{
    if view_at::is_directory(visible) {
        return dirs;
    }
    base_paths::with_end(dirs, end)
}

// What mkdir with parents has to make where the path itself shows nothing: the missing ancestors, from the top, and the
// path.
pub fn overlay_dirs_to_create(
    listing: &[u8],
    table: &[u8],
    rec: model::Record,
    path: &[u8],
) -> Result<Dirs, Refusal>
    requires listing_value { is_listing listing.now ≡ true }
    requires rec_value { is_table table.now rec ≡ true }
    requires path_value { (is_path path.now ≡ true) × (0 < length path.now) }
    ensures judged_value { check_of result ≡ ancestors_in (length path.now)
        (kind (shown (table_in table.now rec) (tree_in listing.now))) (ancestors
        path.now) }
    ensures dirs_value { IfOk result (λ dirs. ends_of dirs ≡ missing_ends (kind (shown (table_in table.now rec)
        (tree_in listing.now))) path.now) }
    ensures count_bound { IfOk result (λ dirs. (dirs.count ≤ 32) × (climbs 0 (length path.now) (ends_of dirs) ≡ true)) }
{
    let mut dirs = Dirs {
        ends: [0; model::DEPTH_MAX],
        count: 0,
    };
    let mut sight = view_at::begin(listing, table, rec);
    let mut end = base_paths::next_ancestor(path, 0);
    while end < path.len() {
        let seen = view_at::look(sight, listing, table, rec, path, end);
        let visible = seen.visible;
        check_ancestor(visible, end as u64, path.len() as u64)?;
        dirs = with_ancestor(dirs, visible, end);
        sight = seen.sight;
        end = base_paths::next_ancestor(path, end + 1);
    }
    Ok(base_paths::with_end(dirs, path.len()))
}
