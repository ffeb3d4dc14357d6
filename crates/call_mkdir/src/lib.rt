// mkdir of overlay.rs, with its flags parents and exist_ok. Any bytes can be given as listing, table, work buffer and
// path, and any numbers as record, mtime and limit. mkdir_admitted is its inner form: it assumes a listing and a table
// that were checked and a work buffer that is not shorter than the table, and 1 and 2 are not asked again. A refused
// call leaves all as it was; an accepted one leaves the work buffer all 0. It is a constant number of passes over what
// it is lent.
#![tactic(auto)]

ghost use Rattle.std.specs.Prelude.{◌≡◌, true, cond, [], ℕ, ◌≤◌, ◌<◌, length, Ok, Some, None, IfOk};
ghost use Rattle.model.specs.Path.{is_path};
ghost use Rattle.model.specs.Map.{puts, each};
ghost use Rattle.model.specs.Tree.{directory, kind, is_nothing};
ghost use Rattle.model.specs.Table.{table_in};
ghost use Rattle.model.specs.Checks.{Check, pass, refuse, ◌then◌, form, mkdir_at, mkdir_parents, makes};
ghost use Rattle.model.specs.Calls as calls;
ghost use Rattle.model.specs.Outcome.{Given, shown_in, outcome};
ghost use Rattle.view_at.specs.Sight.{visible_kind};
ghost use Rattle.check_judged.specs.Judged.{check_of};
ghost use Rattle.base_paths.specs.Dirs.{ends_of, climbs, prefixes};
ghost use Rattle.call_answer.specs.Meets.{requested, stored, Meets};
ghost use Rattle.call_mkdir.specs.Judged.{mkdir_checks, after_judging, Makes};

use base_paths::Dirs;
use check_judged::Judged;
use model::{Answered, Record, Refusal};
use view_at::Visible;

// Where something is at the path of `len` bytes: it is accepted, or refused as existing.
fn taken(accept: bool, len: u64) -> Judged
    ensures { check_of result ≡ cond accept pass (refuse 6 0 len) }
{
    if accept {
        return Ok(());
    }
    Err(Refusal::Exists(0, len))
}

// Where this is visible at the path of `len` bytes. A file is refused with exist_ok too.
fn check_there(visible: Visible, exist_ok: bool, len: u64) -> Judged
    ensures { (later : Check) → check_of result ≡ mkdir_at len exist_ok (visible_kind (Some visible)) later }
{
    match visible {
        Visible::Directory => taken(exist_ok, len),
        Visible::File => taken(false, len),
        Visible::Link => Err(Refusal::LinkOrRoot(0, len)),
    }
}

// The parents' check, and the directories to make where the path shows nothing: with the flag the missing ancestors and
// the path, else the path alone.
fn to_create(
    listing: &[u8],
    table: &[u8],
    rec: Record,
    path: &[u8],
    parents: bool,
) -> Result<Dirs, Refusal>
    requires given { Given listing.now table.now rec }
    requires path_value { (is_path path.now ≡ true) × (0 < length path.now) }
    ensures judged_value { check_of result ≡ mkdir_parents (shown_in listing.now table.now rec)
        path.now parents }
    ensures count_bound { IfOk result (λ dirs. (dirs.count ≤ 32) × (climbs 0 (length path.now) (ends_of dirs) ≡ true)) }
    ensures makes { IfOk result (λ dirs. is_nothing (kind (shown_in listing.now table.now rec) path.now) ≡ true
        → Makes listing.now table.now rec path.now dirs) }
{
    if parents {
        return check_parents::overlay_dirs_to_create(listing, table, rec, path);
    }
    check_parents::ensure_parent_exists(listing, table, rec, path, 0)?;
    let mut ends = [0; model::DEPTH_MAX];
    ends[0] = path.len();
    Ok(Dirs { ends, count: 1 })
}

// 4 to 8 for mkdir: what is visible at the path, then its parents. It answers the directories to make, or none where a
// directory is there and is accepted.
fn judge_at(
    listing: &[u8],
    table: &[u8],
    rec: Record,
    path: &[u8],
    parents: bool,
    exist_ok: bool,
) -> Result<Option<Dirs>, Refusal>
    requires given { Given listing.now table.now rec }
    requires path_value { is_path path.now ≡ true }
    ensures checks_value { (later : Check) → mkdir_checks (shown_in listing.now table.now rec)
        path.now parents exist_ok later ≡ after_judging result later }
    ensures makes { (dirs : Dirs) → result ≡ Ok (Some dirs) → Makes listing.now table.now rec path.now dirs }
    ensures there { result ≡ Ok None → makes (shown_in listing.now table.now rec) path.now ≡ [] }
{
    if let Some(visible) = view_at::visible_at(listing, table, rec, path) {
        check_there(visible, exist_ok, path.len() as u64)?;
        return Ok(None);
    }
    let dirs = to_create(listing, table, rec, path, parents)?;
    Ok(Some(dirs))
}

// 3 to 8 for mkdir.
fn judge_mkdir(
    listing: &[u8],
    table: &[u8],
    rec: Record,
    path: &[u8],
    parents: bool,
    exist_ok: bool,
) -> Result<Option<Dirs>, Refusal>
    requires { Given listing.now table.now rec }
    ensures checks_value { (later : Check) → (form 0 path.now then mkdir_checks (shown_in listing.now
        table.now rec) path.now parents exist_ok later) ≡ after_judging result later }
    ensures makes { (dirs : Dirs) → result ≡ Ok (Some dirs) → (is_path path.now ≡ true) × Makes listing.now
        table.now rec path.now dirs }
    ensures there { result ≡ Ok None → makes (shown_in listing.now table.now rec) path.now ≡ [] }
{
    check_lent::check_path(path, 0)?;
    judge_at(listing, table, rec, path, parents, exist_ok)
}

// A directory with this mtime at the path; with the flag parents, at its missing ancestors too. With exist_ok a
// directory that is there is accepted, and nothing changes but the work buffer, which is zeroed.
pub fn mkdir(
    listing: &[u8],
    table: &mut [u8],
    rec: Record,
    work: &mut [u8],
    path: &[u8],
    parents: bool,
    exist_ok: bool,
    mtime: u64,
    limit: u64,
) -> Answered
    ensures { Meets (outcome listing.now (requested (calls.mkdir path.now parents
        exist_ok mtime) limit work.old) (stored table.old rec)) result table.new
        work.new }
{
    let admitted = check_lent::admitted(listing, table, rec, work.len());
    match admitted {
        Err(refusal) => call_answer::refused(refusal, rec),
        Ok(()) => mkdir_admitted(
            listing, table, rec, work, path, parents, exist_ok, mtime, limit,
        ),
    }
}

// mkdir behind 1 and 2.
pub fn mkdir_admitted(
    listing: &[u8],
    table: &mut [u8],
    rec: Record,
    work: &mut [u8],
    path: &[u8],
    parents: bool,
    exist_ok: bool,
    mtime: u64,
    limit: u64,
) -> Answered
    requires given { Given listing.now table.old rec }
    requires table_in_bounds { length table.old ≤ length work.old }
    ensures { Meets (outcome listing.now (requested (calls.mkdir path.now parents
        exist_ok mtime) limit work.old) (stored table.old rec)) result table.new
        work.new }
{
    match judge_mkdir(listing, table, rec, path, parents, exist_ok) {
        Err(refusal) => call_answer::refused(refusal, rec),
        Ok(None) => {
            base_fields::zero_from(work, 0);
            Answered {
                answer: Ok(0),
                record: rec,
            }
        }
        Ok(Some(dirs)) => {
            let inserted = table_dirs::insert_all(table, work, rec, path, dirs, mtime, limit);
            call_answer::answered(inserted, rec, 0)
        }
    }
}
