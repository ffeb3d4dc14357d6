// The tree that a run leaves, and what it changed against the published plan, where the arguments ask for them (#102).
// What the run left is checked here, and what is behind stands on that.
ghost use Rattle.std.specs.Prelude.{◌≡◌, true, false, ◌||◌, ◌≤◌, Ok};
ghost use Rattle.model.specs.Listing.{is_listing};
ghost use Rattle.model.specs.Table.{is_table};
ghost use Rattle.view_merge.specs.Merges.{Merging};
ghost use Rattle.test_lines.specs.Totals.{total};

use crate::args::Asked;
use crate::{said, show};
use model::Record;
use std::io;
use test_lines::Counts;
use view_merge::Merge;

// Every visible path.
fn tree(rt: &impl Print, own: &[u8], part: &[u8], first: Merge, counts: Counts) -> io::Result<()>
    requires merging { Merging own.now part.now first }
    requires counts_bound { total counts ≤ 0x1_0000_0000 }
{
    let paths = counts.same + counts.new + counts.changed;
    println!(rt; "the tree has {paths} paths:")?;
    test_lines::print_lines(rt, own, part, first, false)
}

// Every path whose mark is a change.
fn changes(rt: &impl Print, own: &[u8], part: &[u8], first: Merge, counts: Counts) -> io::Result<()>
    requires { Merging own.now part.now first }
{
    let Counts {
        same: _,
        new,
        gone,
        changed,
    } = counts;
    println!(rt;
        "against the published plan {new} paths are new, {gone} gone, {changed} changed:"
    )?;
    test_lines::print_lines(rt, own, part, first, true)
}

// The marks are counted once, for both.
fn show_checked(
    rt: &impl Print,
    asked: Asked,
    listing: &[u8],
    table: &[u8],
    rec: Record,
) -> io::Result<()>
    requires { (is_listing listing.now ≡ true) × (is_table table.now rec ≡ true) }
{
    let first = Merge {
        entries: table_entries::first_entry(table, rec),
        records: listing_records::first_record(listing),
    };
    let counts = test_lines::count(table, listing, first);
    if asked.tree {
        tree(rt, table, listing, first, counts)?;
    }
    if asked.changes {
        changes(rt, table, listing, first, counts)?;
    }
    Ok(())
}

// Shows what is asked for, and answers whether it could be.
pub fn show(
    rt: &impl Print,
    err: &impl Print,
    asked: Asked,
    listing: &[u8],
    table: &[u8],
    rec: Record,
) -> io::Result<bool>
    ensures { (asked.tree || asked.changes) ≡ false → result ≡ Ok true }
{
    if !(asked.tree | asked.changes) {
        return Ok(true);
    }
    if !listing_check::check(listing) {
        said::text(err, b"variant: the run left no listing to show\n")?;
        return Ok(false);
    }
    if !table_open::check(table, rec) {
        said::text(err, b"variant: the run left no table to show\n")?;
        return Ok(false);
    }
    let shown = show_checked(rt, asked, listing, table, rec).is_ok();
    show::printed(err, shown)
}
