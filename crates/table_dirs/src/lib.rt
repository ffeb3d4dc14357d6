// Up to 32 directories along one path put into a table together, for mkdir with parents: `check_replacements` of
// overlay_state.rs and the inserts behind it. Assumes a table that agrees with its record, and ends that ascend along
// the path: only this repository's crates call, after a check. The prefixes of a path ascend, so measuring them and
// writing them is one pass over the table each.
#![tactic(auto)]

ghost use Rattle.std.specs.Prelude.{◌≡◌, true, ℕ, ◌≤◌, length, replicate};
ghost use Rattle.model.specs.Path.{is_path};
ghost use Rattle.model.specs.Map.{puts, each};
ghost use Rattle.model.specs.Tree.{directory};
ghost use Rattle.model.specs.Table.{encode, padded, record_of, table_in, is_table};
ghost use Rattle.base_paths.specs.Dirs.{ends_of, climbs, prefixes};
ghost use Rattle.table_insert.specs.Insert.{insertion, if_done};

use model::DIRECTORY;

// The record as if these directories were put. The Rust's function of this name compares the charge with the limit;
// here `insert_all` does.
pub fn check_replacements(
    table: &[u8],
    rec: model::Record,
    path: &[u8],
    dirs: base_paths::Dirs,
) -> model::Record
    requires rec_value { is_table table.now rec ≡ true }
    requires path_value { is_path path.now ≡ true }
    requires count_bound { (dirs.count ≤ 32) × (climbs 0 (length path.now) (ends_of dirs) ≡ true) }
    ensures { (m : ℕ) → result ≡ record_of rec.entry_size (puts (each (directory m) (prefixes path.now
        (ends_of dirs))) (table_in table.now rec)) }
{
    let mut place = table_entries::first_entry(table, rec);
    let mut after = rec;
    for &end in &dirs.ends[..dirs.count] {
        let next = table_measure::projected(table, place, after, &path[..end], 0);
        place = next.place;
        after = next.rec;
    }
    // Each step changes the three sums; the entry size stays the table's own.
    model::Record {
        entry_size: rec.entry_size,
        ..after
    }
}

// The table anew with these directories in it, once it is known that they fit.
fn insert_all_unchecked(
    table: &mut [u8],
    work: &mut [u8],
    rec: model::Record,
    path: &[u8],
    dirs: base_paths::Dirs,
    mtime: u64,
)
    requires rec_value { is_table table.old rec ≡ true }
    requires path_value { is_path path.now ≡ true }
    requires count_bound { (dirs.count ≤ 32) × (climbs 0 (length path.now) (ends_of dirs) ≡ true)
        × (length table.old ≤ length work.old) }
    requires rec_in_bounds { length (encode (puts (each (directory mtime) (prefixes path.now (ends_of dirs)))
        (table_in table.old
        rec))) ≤ length table.old }
    ensures table_after { table.new ≡ padded (length table.old) (encode (puts (each (directory mtime)
        (prefixes path.now (ends_of dirs))) (table_in table.old rec))) }
    ensures work_after { work.new ≡ replicate (length work.old) 0 }
{
    let mut merge = table_write::Merge {
        at: 0,
        left: rec.count,
        out: 0,
    };
    for &end in &dirs.ends[..dirs.count] {
        merge = table_write::put_next(work, table, merge, &path[..end], DIRECTORY, mtime, 0, &[]);
    }
    table_write::finish(table, work, merge, rec.used as usize);
}

// These directories inserted, if the charge then is within the limit and the table then fits its buffer; else all stays
// as it is.
pub fn insert_all(
    table: &mut [u8],
    work: &mut [u8],
    rec: model::Record,
    path: &[u8],
    dirs: base_paths::Dirs,
    mtime: u64,
    limit: u64,
) -> Result<model::Record, table_insert::InsertError>
    requires rec_value { is_table table.old rec ≡ true }
    requires path_value { is_path path.now ≡ true }
    requires count_bound { (dirs.count ≤ 32) × (climbs 0 (length path.now) (ends_of dirs) ≡ true)
        × (length table.old ≤ length work.old) }
    ensures value { result ≡ insertion rec.entry_size limit (length table.old) (puts (each (directory mtime)
        (prefixes path.now (ends_of dirs))) (table_in table.old rec)) }
    ensures table_after { table.new ≡ if_done result (padded (length table.old)
        (encode (puts (each (directory mtime) (prefixes path.now (ends_of dirs)))
        (table_in table.old rec)))) table.old }
    ensures work_after { work.new ≡ if_done result (replicate (length work.old) 0) work.old }
{
    let projected = check_replacements(table, rec, path, dirs);
    let after = table_insert::judge(projected, limit, table.len() as u64)?;
    insert_all_unchecked(table, work, rec, path, dirs, mtime);
    Ok(after)
}
