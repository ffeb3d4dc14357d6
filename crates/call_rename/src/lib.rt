// rename of overlay.rs: a file, or a directory with all that is below it, from one path to another. Onto itself it does
// nothing (#104). Any bytes can be given as listing, table, work buffer and paths, and any numbers as record and limit.
// `rename_admitted` is its inner form: it assumes a listing and a table that were checked and a work buffer that is not
// shorter than the table, and does not ask 1 and 2 again. A refused call leaves all as it was: nothing is written
// before 13 is decided. An accepted one leaves the work buffer all 0. It is a constant number of passes over what it is
// lent, but for the walk (rename_walk).
#![tactic(auto)]

ghost use Rattle.std.specs.Prelude.{◌≡◌, true, false, ◌≤◌, length};
ghost use Rattle.model.specs.Path.{is_path};
ghost use Rattle.model.specs.Listing.{tree_in};
ghost use Rattle.model.specs.Table.{table_in};
ghost use Rattle.model.specs.Checks.{pass, ◌then◌, limited};
ghost use Rattle.model.specs.Rename.{rename_paths, rename_types, directory_memory, onto_itself};
ghost use Rattle.model.specs.Calls as calls;
ghost use Rattle.model.specs.Outcome.{Given, shown_in, outcome};
ghost use Rattle.check_judged.specs.Judged.{check_of};
ghost use Rattle.call_answer.specs.Meets.{requested, stored, Meets};

use check_judged::Judged;
use model::{Answered, Record};

// The plan and the walk, where the source is a directory.
fn plan_directory(
    listing: &[u8],
    table: &[u8],
    rec: Record,
    source: &[u8],
    destination: &[u8],
    limit: u64,
) -> Judged
    requires given { Given listing.now table.now rec }
    requires source_value { (is_path source.now ≡ true) × (is_path destination.now ≡ true) }
    ensures { check_of result ≡ directory_memory (limited rec.entry_size limit) (table_in table.now rec)
        (tree_in listing.now) source.now destination.now }
{
    let visible = view_at::visible_at(listing, table, rec, source);
    if view_at::is_directory(visible) {
        return rename_plan::plan_checks(listing, table, rec, source, destination, limit);
    }
    Ok(())
}

// 3, and each path by itself.
fn judge_paths(
    listing: &[u8],
    table: &[u8],
    rec: Record,
    source: &[u8],
    destination: &[u8],
) -> Judged
    requires { Given listing.now table.now rec }
    ensures { check_of result ≡ (calls.forms (calls.rename source.now destination.now)
        then rename_paths (table_in table.now rec) (tree_in listing.now) source.now
        destination.now) }
{
    check_lent::check_paths(source, destination)?;
    rename_checks::check_paths(listing, table, rec, source, destination)
}

// Both paths together, and the plan and the walk: all that is left before 11 to 13.
fn judge_move(
    listing: &[u8],
    table: &[u8],
    rec: Record,
    source: &[u8],
    destination: &[u8],
    limit: u64,
) -> Judged
    requires given { Given listing.now table.now rec }
    requires source_value { (is_path source.now ≡ true) × (is_path destination.now ≡ true) }
    ensures { check_of result ≡ (rename_types (table_in table.now rec) (tree_in listing.now)
        source.now destination.now then directory_memory (limited rec.entry_size limit)
        (table_in table.now rec) (tree_in listing.now) source.now
        destination.now) }
{
    rename_checks::check_types(listing, table, rec, source, destination)?;
    plan_directory(listing, table, rec, source, destination, limit)
}

// A move to another path, once each path by itself has passed.
fn rename_elsewhere(
    listing: &[u8],
    table: &mut [u8],
    rec: Record,
    work: &mut [u8],
    source: &[u8],
    destination: &[u8],
    limit: u64,
) -> Answered
    requires given { Given listing.now table.old rec }
    requires table_in_bounds { length table.old ≤ length work.old }
    requires destination_value { (calls.forms (calls.rename source.now destination.now) then rename_paths
        (table_in table.old rec)
        (tree_in listing.now) source.now destination.now) ≡ pass }
    requires destination_value_2 { onto_itself (shown_in listing.now table.old rec) source.now destination.now ≡ false }
    ensures { Meets (outcome listing.now (requested (calls.rename source.now
        destination.now) limit work.old) (stored table.old rec)) result table.new
        work.new }
{
    if let Err(refusal) = judge_move(listing, table, rec, source, destination, limit) {
        return call_answer::refused(refusal, rec);
    }
    let whole = view_at::is_directory(view_at::visible_at(listing, table, rec, source));
    match rename_settle::last_checks(listing, table, rec, source, destination, whole, limit) {
        Err(refusal) => call_answer::refused(refusal, rec),
        Ok(after) => {
            rename_table::write_move(table, work, rec, listing, source, destination, whole);
            Answered {
                answer: Ok(0),
                record: after,
            }
        }
    }
}

// What is at the source stands at the destination from now on, a directory with all that is below it. Onto itself all
// stays as it is, whatever the limit. Accepted, it answers 0.
pub fn rename(
    listing: &[u8],
    table: &mut [u8],
    rec: Record,
    work: &mut [u8],
    source: &[u8],
    destination: &[u8],
    limit: u64,
) -> Answered
    ensures { Meets (outcome listing.now (requested (calls.rename source.now
        destination.now) limit work.old) (stored table.old rec)) result table.new
        work.new }
{
    let admitted = check_lent::admitted(listing, table, rec, work.len());
    match admitted {
        Err(refusal) => call_answer::refused(refusal, rec),
        Ok(()) => rename_admitted(listing, table, rec, work, source, destination, limit),
    }
}

// rename behind 1 and 2.
pub fn rename_admitted(
    listing: &[u8],
    table: &mut [u8],
    rec: Record,
    work: &mut [u8],
    source: &[u8],
    destination: &[u8],
    limit: u64,
) -> Answered
    requires given { Given listing.now table.old rec }
    requires table_in_bounds { length table.old ≤ length work.old }
    ensures { Meets (outcome listing.now (requested (calls.rename source.now
        destination.now) limit work.old) (stored table.old rec)) result table.new
        work.new }
{
    if let Err(refusal) = judge_paths(listing, table, rec, source, destination) {
        return call_answer::refused(refusal, rec);
    }
    if rename_checks::is_onto_itself(listing, table, rec, source, destination) {
        base_fields::zero_from(work, 0);
        return Answered {
            answer: Ok(0),
            record: rec,
        };
    }
    rename_elsewhere(listing, table, rec, work, source, destination, limit)
}
