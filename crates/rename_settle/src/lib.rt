// 11, 12 and 13 of rename: the record that it leaves, or why it is refused, before anything is written. Assumes a
// listing, a table and two paths that were checked, up to the plan and the walk: only this repository's crates call. A
// constant number of passes over listing, table and paths.
#![tactic(auto)]

ghost use Rattle.std.specs.Prelude.{◌≡◌, true, cond, length, Ok};
ghost use Rattle.std.proofs.Math.Option.{none};
ghost use Rattle.model.specs.Path.{is_path};
ghost use Rattle.model.specs.Map.{lookup};
ghost use Rattle.model.specs.Tree.{a_directory, a_file, kind};
ghost use Rattle.model.specs.Listing.{tree_in, is_listing};
ghost use Rattle.model.specs.Table.{body_of, record_of, table_in};
ghost use Rattle.model.specs.Checks.{limited};
ghost use Rattle.model.specs.Rename.{moved};
ghost use Rattle.model.specs.Outcome.{Given, shown_in};
ghost use Rattle.rename_checks.specs.Early.{EarlyPassed};
ghost use Rattle.rename_measure.specs.Tallies.{Foretold};
ghost use Rattle.rename_write.specs.Sequence.{top_of, top};
ghost use Rattle.check_judged.specs.Judged.{check_of};
ghost use Rattle.rename_settle.specs.Settled.{last_checks, settled_of};

use listing_records::Found;
use model::{Record, Refusal};
use rename_measure::Projected;

// The length of the body that is carried from the source itself, where the table has no entry there: a listed file's
// body is its path.
fn listed_len(listing: &[u8], source: &[u8]) -> u64
    requires { is_listing listing.now ≡ true }
    ensures { result ≡ length (body_of (top_of none (lookup (tree_in listing.now) source.now))) }
{
    match listing_dir::find(listing, source) {
        Some(Found::File(_, _)) => source.len() as u64,
        _ => 0,
    }
}

// The same, wherever it is carried from: the table's entry comes first.
fn first_len(listing: &[u8], table: &[u8], rec: Record, source: &[u8]) -> u64
    requires { Given listing.now table.now rec }
    ensures { result ≡ length (body_of (top (table_in table.now rec) (tree_in listing.now)
        source.now)) }
{
    let first = table_entries::first_entry(table, rec);
    let got = table_entries::get_from(table, first, source);
    if table_entries::is_absent(got.entry) {
        return listed_len(listing, source);
    }
    let body = table_entries::entry_body(table, got.place);
    body.len() as u64
}

// 11, 12 and 13, for a table of `room` bytes.
fn settled_by(projected: Projected, limit: u64, room: u64) -> Result<Record, Refusal>
    ensures { result ≡ settled_of projected limit room }
{
    let after = projected.rec;
    if limit < projected.charge {
        return Err(Refusal::Limit);
    }
    if projected.long {
        return Err(Refusal::KeyTooLong);
    }
    if room < after.used {
        return Err(Refusal::NoRoom);
    }
    Ok(after)
}

// The charge and the record that the call leaves, without moving anything, once all checks before its plan passed.
pub fn foretell<'a>(
    listing: &'a [u8],
    table: &'a [u8],
    rec: Record,
    source: &[u8],
    destination: &[u8],
    whole: bool,
) -> Projected
    requires given { Given listing.now table.now rec }
    requires source_value { (is_path source.now ≡ true) × (is_path destination.now ≡ true) }
    requires early_passed { EarlyPassed (table_in table.now rec) (tree_in listing.now) source.now destination.now }
    requires source_value_2 { kind (shown_in listing.now table.now rec) source.now ≡ cond whole a_directory
        a_file }
    ensures { Foretold rec.entry_size (table_in table.now rec) (tree_in listing.now)
        source.now destination.now result }
{
    let len = first_len(listing, table, rec, source);
    rename_measure::projected_move(listing, table, rec, source, destination, whole, len)
}

// What the call is refused with by 11, 12 and 13, or the record that it leaves, once all checks before these passed.
pub fn last_checks<'a>(
    listing: &'a [u8],
    table: &'a [u8],
    rec: Record,
    source: &[u8],
    destination: &[u8],
    whole: bool,
    limit: u64,
) -> Result<Record, Refusal>
    requires given { Given listing.now table.now rec }
    requires source_value { (is_path source.now ≡ true) × (is_path destination.now ≡ true) }
    requires early_passed { EarlyPassed (table_in table.now rec) (tree_in listing.now) source.now destination.now }
    requires source_value_2 { kind (shown_in listing.now table.now rec) source.now ≡ cond whole a_directory
        a_file }
    ensures result_value { check_of result ≡ last_checks (limited rec.entry_size limit) (length table.now)
        (table_in table.now rec) (tree_in listing.now) source.now
        destination.now }
    ensures after_value { (after : Record) → result ≡ Ok after → after ≡ record_of rec.entry_size
        (moved (table_in table.now rec) (tree_in listing.now) source.now
        destination.now) }
{
    let projected = foretell(listing, table, rec, source, destination, whole);
    settled_by(projected, limit, table.len() as u64)
}
