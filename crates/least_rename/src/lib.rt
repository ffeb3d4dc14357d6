// What would have let a rename through, change request #105: the least limit and the least length of the table buffer.
// Any bytes can be given as listing, table and paths, and any numbers as record. Nothing is changed, and there is no
// work buffer. A constant number of passes over what it is lent: the walk's sum does not depend on its order, so one
// pass finds it (least_walk).
#![tactic(auto)]

ghost use Rattle.std.specs.Prelude.{◌≡◌, true, cond, ◌+◌, ◌*◌, max, length};
ghost use Rattle.std.proofs.Math.Option.{none};
ghost use Rattle.model.specs.Path.{is_path};
ghost use Rattle.model.specs.Map.{lookup};
ghost use Rattle.model.specs.Tree.{kind, a_directory, a_file};
ghost use Rattle.model.specs.Listing.{tree_in};
ghost use Rattle.model.specs.Table.{table_in, charge};
ghost use Rattle.model.specs.Checks.{unlimited};
ghost use Rattle.model.specs.Rename.{if_directory, walk_from, planned, plan_and_walk, directory_memory};
ghost use Rattle.model.specs.Rename as model_rename;
ghost use Rattle.model.specs.Calls.{rename};
ghost use Rattle.model.specs.Outcome.{Given, shown_in};
ghost use Rattle.rename_checks.specs.Early.{EarlyPassed};
ghost use Rattle.call_answer.specs.Meets.{stored};
ghost use Rattle.least_need.specs.Need.{listed_need, directory_need};
ghost use Rattle.least_rename.specs.Reports.{Reports, NeededFor, AtMost, report_of, Known};

use model::{Record, Refusal};
use rename_measure::Projected;

// The least limit and the least length of the table buffer with which a rename is let through.
#[derive(Clone, Copy, Debug, PartialEq, Eq)]
pub struct Least {
    pub limit: u64,
    pub len: u64,
}

// What the walk needs of the limit, where the source is listed as a directory; None where a node stops it. Its start
// alone is never compared with the budget.
fn walk_need(listing: &[u8], table: &[u8], rec: Record, source: &[u8]) -> Option<u64>
    requires given { Given listing.now table.now rec }
    requires source_value { is_path source.now ≡ true }
    ensures needed_for { NeededFor (if_directory (kind (lookup (tree_in listing.now)) source.now)
        (model_rename.walked (length source.now) (walk_from (table_in table.now rec)
        (tree_in listing.now) none source.now))) (listed_need (table_in table.now rec)
        (tree_in listing.now) source.now) result }
    ensures at_most { AtMost 0x1_0000_0000_0000 result }
{
    if !rename_plan::is_listed_directory(listing, source) {
        return Some(0);
    }
    let total = least_walk::reached_total(listing, table, rec, source);
    if total.stops {
        return None;
    }
    if total.sum == 0 {
        return Some(0);
    }
    Some(2 * source.len() as u64 + 1 + total.sum)
}

// What plan and walk need beside the charge as it is.
fn plan_need(
    listing: &[u8],
    table: &[u8],
    rec: Record,
    source: &[u8],
    destination: &[u8],
) -> Option<u64>
    requires given { Given listing.now table.now rec }
    requires source_value { (is_path source.now ≡ true) × (is_path destination.now ≡ true) }
    ensures needed_for { NeededFor (plan_and_walk unlimited (table_in table.now rec) (tree_in listing.now)
        source.now destination.now) (charge rec.entry_size (table_in table.now rec)
        + planned source.now destination.now (table_in table.now rec)
        + listed_need (table_in table.now rec) (tree_in listing.now) source.now) result }
    ensures at_most { AtMost 0x2_0000_0000_0000 result }
{
    let more = walk_need(listing, table, rec, source)?;
    let sum = rename_plan::planned_sum(table, rec, source, destination);
    Some(rec.charge + sum + more)
}

// The same, where a directory is moved; a file needs neither plan nor walk.
fn directory_need(
    listing: &[u8],
    table: &[u8],
    rec: Record,
    source: &[u8],
    destination: &[u8],
    whole: bool,
) -> Option<u64>
    requires given { Given listing.now table.now rec }
    requires source_value { (is_path source.now ≡ true) × (is_path destination.now ≡ true) }
    requires source_value_2 { kind (shown_in listing.now table.now rec) source.now ≡ cond whole a_directory a_file }
    ensures needed_for { NeededFor (directory_memory unlimited (table_in table.now rec)
        (tree_in listing.now) source.now destination.now)
        (directory_need rec.entry_size (table_in table.now rec) (tree_in listing.now)
        source.now destination.now) result }
    ensures at_most { AtMost 0x2_0000_0000_0000 result }
{
    if whole {
        return plan_need(listing, table, rec, source, destination);
    }
    Some(0)
}

// The two numbers, by what plan and walk need and by what the call leaves; none, where a moved key does not fit or the
// entries do not fit the longest table.
fn report_of(need: u64, projected: Projected, used: u64) -> Option<Least>
    ensures { result ≡ report_of need projected used }
{
    let after = projected.rec.used;
    if projected.long || (model::MAX_BUFFER as u64) < after {
        return None;
    }
    Some(Least {
        limit: need.max(projected.charge),
        len: used.max(after),
    })
}

// A move to another path, once all checks before its plan passed.
fn report_move<'a>(
    listing: &'a [u8],
    table: &'a [u8],
    rec: Record,
    source: &[u8],
    destination: &[u8],
) -> Option<Least>
    requires given { Given listing.now table.now rec }
    requires source_value { (is_path source.now ≡ true) × (is_path destination.now ≡ true) }
    requires early_passed { EarlyPassed (table_in table.now rec) (tree_in listing.now) source.now destination.now }
    ensures { Known rec.entry_size (table_in table.now rec) (tree_in listing.now)
        source.now destination.now rec.used result }
{
    let visible = view_at::visible_at(listing, table, rec, source);
    let whole = view_at::is_directory(visible);
    let need = directory_need(listing, table, rec, source, destination, whole)?;
    let projected = rename_settle::foretell(listing, table, rec, source, destination, whole);
    report_of(need, projected, rec.used)
}

// Behind 1, 2 and 3: a path that is refused by itself or beside the other is refused with every limit, and a move onto
// itself needs nothing.
fn report_admitted<'a>(
    listing: &'a [u8],
    table: &'a [u8],
    rec: Record,
    source: &[u8],
    destination: &[u8],
) -> Option<Least>
    requires given { Given listing.now table.now rec }
    requires source_value { (is_path source.now ≡ true) × (is_path destination.now ≡ true) }
    ensures { Known rec.entry_size (table_in table.now rec) (tree_in listing.now)
        source.now destination.now rec.used result }
{
    let Ok(()) = rename_checks::check_paths(listing, table, rec, source, destination) else {
        return None;
    };
    if rename_checks::is_onto_itself(listing, table, rec, source, destination) {
        return Some(Least {
            limit: 0,
            len: rec.used,
        });
    }
    let Ok(()) = rename_checks::check_types(listing, table, rec, source, destination) else {
        return None;
    };
    report_move(listing, table, rec, source, destination)
}

// The least limit with which the rename is accepted when table and work buffer have 16 MiB, and the least length of the
// table buffer with which it is accepted at the largest limit and with a work buffer as long; None, where no limit and
// no length lets the call through; or why there is no answer.
pub fn report_rename<'a>(
    listing: &'a [u8],
    table: &'a [u8],
    rec: Record,
    source: &[u8],
    destination: &[u8],
) -> Result<Option<Least>, Refusal>
    ensures { Reports listing.now (stored table.now rec) (rename source.now
        destination.now) result }
{
    check_lent::admitted(listing, table, rec, table.len())?;
    check_lent::check_paths(source, destination)?;
    Ok(report_admitted(listing, table, rec, source, destination))
}
