// rename's plan and walk as one check, for a source that is a directory: both ask whether the limit allows what moving
// it may take. Assumes a listing, a table and two paths that were checked: only this repository's crates call. The plan
// reads heads and keys of the table up to the last below the source, and those below it twice; rename_walk says what
// the walk costs.
#![tactic(auto)]

ghost use Rattle.std.specs.Prelude.{◌≡◌, true, ◌≤◌, length};
ghost use Rattle.std.proofs.Math.Option.{some};
ghost use Rattle.model.specs.Path.{is_path};
ghost use Rattle.model.specs.Map.{lookup};
ghost use Rattle.model.specs.Tree.{kind, is_directory};
ghost use Rattle.model.specs.Listing.{tree_in, is_listing};
ghost use Rattle.model.specs.Table.{table_in, is_table};
ghost use Rattle.model.specs.Checks.{limited};
ghost use Rattle.model.specs.Rename.{if_directory, planned, walk_from, plan_and_walk};
ghost use Rattle.model.specs.Rename as rename;
ghost use Rattle.model.specs.Outcome.{Given};
ghost use Rattle.check_judged.specs.Judged.{check_of};
ghost use Rattle.rename_walk.specs.Walked.{walk_of};

use base_budget::MemoryBudget;
use check_judged::Judged;
use model::{Record, Refusal};
use rename_walk::{Ended, Stop};

// The plan's sum over the entries below the source, which are one part of the table.
pub fn planned_sum(table: &[u8], rec: Record, source: &[u8], destination: &[u8]) -> u64
    requires rec_value { is_table table.now rec ≡ true }
    requires source_value { (is_path source.now ≡ true) × (is_path destination.now ≡ true) }
    ensures value { result ≡ planned source.now destination.now (table_in table.now rec) }
    ensures upper_bound { result ≤ 0x1_0000_0000 }
{
    let part = table_below::below(table, rec, source);
    let from = part.from;
    let to = part.to;
    table_below::plan_sum(
        &table[from..to],
        part.count,
        source.len() as u64,
        destination.len() as u64,
    )
}

// Whether the listing has a directory at a path. The root is one.
pub fn is_listed_directory(listing: &[u8], path: &[u8]) -> bool
    requires { is_listing listing.now ≡ true }
    ensures { result ≡ is_directory (kind (lookup (tree_in listing.now)) path.now) }
{
    let target = listing_dir::kind_of(listing, path);
    listing_records::is_dir(target)
}

// What the walk gives, for a source of `len` bytes.
fn check_walked(walk: Result<u64, Ended>, len: u64) -> Judged
    ensures { check_of result ≡ rename.walked len (walk_of walk) }
{
    match walk {
        Ok(_) => Ok(()),
        Err(Ended::OverBudget) => Err(Refusal::Limit),
        Err(Ended::Stopped(Stop::AtLink, _)) => Err(Refusal::LinkOrRoot(0, len)),
    }
}

// The walk, where the source is listed as a directory. Where it is not, nothing is listed below it.
fn walk_checks(
    listing: &[u8],
    table: &[u8],
    rec: Record,
    source: &[u8],
    budget: MemoryBudget,
) -> Judged
    requires given { Given listing.now table.now rec }
    requires source_value { is_path source.now ≡ true }
    ensures { check_of result ≡ if_directory (kind (lookup (tree_in listing.now)) source.now)
        (rename.walked (length source.now) (walk_from (table_in table.now rec)
        (tree_in listing.now) (some budget.available) source.now)) }
{
    if is_listed_directory(listing, source) {
        let walk = rename_walk::collect_real_descendants(listing, table, rec, source, budget);
        return check_walked(walk, source.len() as u64);
    }
    Ok(())
}

// 11 if the charge exceeds the limit, or the plan's sum what the charge leaves of it; what both leave is the walk's
// budget.
pub fn plan_checks(
    listing: &[u8],
    table: &[u8],
    rec: Record,
    source: &[u8],
    destination: &[u8],
    limit: u64,
) -> Judged
    requires given { Given listing.now table.now rec }
    requires source_value { (is_path source.now ≡ true) × (is_path destination.now ≡ true) }
    ensures { check_of result ≡ plan_and_walk (limited rec.entry_size limit) (table_in table.now rec)
        (tree_in listing.now) source.now destination.now }
{
    let Ok(free) = base_budget::available_memory(rec.charge, limit) else {
        return Err(Refusal::Limit);
    };
    let sum = planned_sum(table, rec, source, destination);
    let Ok(rest) = free.shrink(sum) else {
        return Err(Refusal::Limit);
    };
    walk_checks(listing, table, rec, source, rest)
}
