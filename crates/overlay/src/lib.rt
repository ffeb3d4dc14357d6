// The calls of document 01, the writer and the reader of kept files (#101), showing a directory (#102), and what would
// let a rename through (#105), for programs in C or Rust to link: numbers and byte slices in, the answer packed in one
// number out. Nothing is assumed of what is lent, but that no two of the buffers overlap: any bytes and any numbers can
// be given. A record that is not four numbers is answered with 1, and is no table's. A refused call leaves every lent
// buffer, the record too, as it was; what a script that is not run leaves stands at `overlay_run_new`. The cost is that
// of the call itself.
#![tactic(auto)]

ghost use Rattle.std.specs.Prelude.{◌≡◌, ◌&&◌};
ghost use Rattle.model.specs.Listing.{is_listing};
ghost use Rattle.model.specs.Table.{is_table};
ghost use Rattle.model.specs.Calls as calls;
ghost use Rattle.model.specs.Outcome.{opened};
ghost use Rattle.model.specs.Runs.{begin};
ghost use Rattle.call_answer.specs.Meets.{requested, stored};
ghost use Rattle.run_script.specs.Script.{steps_in};
ghost use Rattle.run_calls.specs.Runs.{requests, Holds};
ghost use Rattle.overlay_packed.specs.Packed.{packed, if_accepted, numbers, record_in};
ghost use Rattle.overlay.specs.Exported.{is_four, left, called, asked, opening};
ghost use Rattle.overlay.specs.Exported.{run_left, script_run, new_script_run};
ghost use Rattle.overlay.specs.Exported.{write_left, kept_written, children_shown, read_left, kept_read, LeastLeft};

use call_content::{append_bytes, write_file_at};
use call_one_path::write_bytes;
use model::Record;

// The numbers of a record: used, count, charge and entry size.
const NUMBERS: usize = 4;

// The numbers that tell where the listing stands in a kept file: its start and its length.
const PLACE: usize = 2;

// The numbers of a report: the least limit and the least length.
const LEAST: usize = 2;

// Makes the buffer an empty table for entries of this size.
#[unsafe(no_mangle)]
pub extern "C" fn overlay_open_table(table: &mut [u8], rec: &mut [u64], entry_size: u64) -> u64
    ensures value { result ≡ packed (opening entry_size table.old rec.old) }
    ensures rec_after { rec.new ≡ if_accepted (opening entry_size table.old rec.old)
        (numbers (opened entry_size table.old).store.rec) rec.old }
    ensures table_after { table.new ≡ if_accepted (opening entry_size table.old rec.old)
        (opened entry_size table.old).store.table table.old }
{
    if rec.len() != NUMBERS {
        return overlay_packed::MALFORMED_TABLE;
    }
    let answered = table_open::open(table, entry_size);
    overlay_packed::store_and_pack(rec, answered)
}

// Whether bytes are a listing; whether bytes and a record are a table.
#[unsafe(no_mangle)]
pub extern "C" fn overlay_check_listing(listing: &[u8]) -> bool
    ensures { result ≡ is_listing listing.now }
{
    listing_check::check(listing)
}

#[unsafe(no_mangle)]
pub extern "C" fn overlay_check_table(table: &[u8], rec: &[u64]) -> bool
    ensures { result ≡ (is_four rec.now && is_table table.now (record_in rec.now)) }
{
    if rec.len() != NUMBERS {
        return false;
    }
    table_open::check(table, overlay_packed::record_in(rec))
}

// Whether anything but a link is visible at the path; a file; a directory.
#[unsafe(no_mangle)]
pub extern "C" fn overlay_exists(listing: &[u8], table: &[u8], rec: &[u64], path: &[u8]) -> u64
    ensures { result ≡ packed (asked calls.exists listing.now path.now table.now
        rec.now) }
{
    if rec.len() != NUMBERS {
        return overlay_packed::MALFORMED_TABLE;
    }
    let finding = call_queries::exists(listing, table, overlay_packed::record_in(rec), path);
    overlay_packed::pack_finding(finding)
}

#[unsafe(no_mangle)]
pub extern "C" fn overlay_is_file(listing: &[u8], table: &[u8], rec: &[u64], path: &[u8]) -> u64
    ensures { result ≡ packed (asked calls.is_file listing.now path.now table.now
        rec.now) }
{
    if rec.len() != NUMBERS {
        return overlay_packed::MALFORMED_TABLE;
    }
    let finding = call_queries::is_file(listing, table, overlay_packed::record_in(rec), path);
    overlay_packed::pack_finding(finding)
}

#[unsafe(no_mangle)]
pub extern "C" fn overlay_is_dir(listing: &[u8], table: &[u8], rec: &[u64], path: &[u8]) -> u64
    ensures { result ≡ packed (asked calls.is_dir listing.now path.now table.now
        rec.now) }
{
    if rec.len() != NUMBERS {
        return overlay_packed::MALFORMED_TABLE;
    }
    let finding = call_queries::is_dir(listing, table, overlay_packed::record_in(rec), path);
    overlay_packed::pack_finding(finding)
}

// The data becomes the content of the path's own file, with these mtime bits.
#[unsafe(no_mangle)]
pub extern "C" fn overlay_write_bytes(
    listing: &[u8],
    table: &mut [u8],
    rec: &mut [u64],
    work: &mut [u8],
    path: &[u8],
    data: &[u8],
    mtime: u64,
    limit: u64,
) -> u64
    ensures { left result rec.new table.new work.new ≡ called listing.now
        (requested (calls.write path.now mtime «data».now) limit work.old)
        table.old rec.old }
{
    if rec.len() != NUMBERS {
        return overlay_packed::MALFORMED_TABLE;
    }
    let before = overlay_packed::record_in(&*rec);
    let answered = write_bytes(listing, table, before, work, path, mtime, data, limit);
    overlay_packed::store_and_pack(rec, answered)
}

// The data behind what the path's file holds, with these mtime bits. `lent` are the bytes of a listed file.
#[unsafe(no_mangle)]
pub extern "C" fn overlay_append_bytes(
    listing: &[u8],
    table: &mut [u8],
    rec: &mut [u64],
    work: &mut [u8],
    path: &[u8],
    data: &[u8],
    lent: &[u8],
    mtime: u64,
    limit: u64,
) -> u64
    ensures { left result rec.new table.new work.new ≡ called listing.now
        (requested (calls.append path.now mtime «data».now lent.now) limit
        work.old) table.old rec.old }
{
    if rec.len() != NUMBERS {
        return overlay_packed::MALFORMED_TABLE;
    }
    let before = overlay_packed::record_in(&*rec);
    let answered = append_bytes(listing, table, before, work, path, mtime, data, lent, limit);
    overlay_packed::store_and_pack(rec, answered)
}

// The data from the offset on, inside the path's own file, with these mtime bits.
#[unsafe(no_mangle)]
pub extern "C" fn overlay_write_file_at(
    listing: &[u8],
    table: &mut [u8],
    rec: &mut [u64],
    work: &mut [u8],
    path: &[u8],
    data: &[u8],
    offset: u64,
    mtime: u64,
    limit: u64,
) -> u64
    ensures { left result rec.new table.new work.new ≡ called listing.now
        (requested (calls.write_inside path.now mtime offset «data».now) limit
        work.old) table.old rec.old }
{
    if rec.len() != NUMBERS {
        return overlay_packed::MALFORMED_TABLE;
    }
    let before = overlay_packed::record_in(&*rec);
    let answered = write_file_at(
        listing, table, before, work, path, mtime, offset, data, limit,
    );
    overlay_packed::store_and_pack(rec, answered)
}

// A directory with these mtime bits at the path; with the flag parents, at its missing ancestors too.
#[unsafe(no_mangle)]
pub extern "C" fn overlay_mkdir(
    listing: &[u8],
    table: &mut [u8],
    rec: &mut [u64],
    work: &mut [u8],
    path: &[u8],
    parents: bool,
    exist_ok: bool,
    mtime: u64,
    limit: u64,
) -> u64
    ensures { left result rec.new table.new work.new ≡ called listing.now
        (requested (calls.mkdir path.now parents exist_ok mtime) limit work.old)
        table.old rec.old }
{
    if rec.len() != NUMBERS {
        return overlay_packed::MALFORMED_TABLE;
    }
    let before = overlay_packed::record_in(&*rec);
    let answered = call_mkdir::mkdir(
        listing, table, before, work, path, parents, exist_ok, mtime, limit,
    );
    overlay_packed::store_and_pack(rec, answered)
}

// The path shows nothing from now on.
#[unsafe(no_mangle)]
pub extern "C" fn overlay_unlink(
    listing: &[u8],
    table: &mut [u8],
    rec: &mut [u64],
    work: &mut [u8],
    path: &[u8],
    limit: u64,
) -> u64
    ensures { left result rec.new table.new work.new ≡ called listing.now
        (requested (calls.unlink path.now) limit work.old) table.old
        rec.old }
{
    if rec.len() != NUMBERS {
        return overlay_packed::MALFORMED_TABLE;
    }
    let before = overlay_packed::record_in(&*rec);
    let answered = call_one_path::unlink(listing, table, before, work, path, limit);
    overlay_packed::store_and_pack(rec, answered)
}

// The same for an empty directory.
#[unsafe(no_mangle)]
pub extern "C" fn overlay_rmdir(
    listing: &[u8],
    table: &mut [u8],
    rec: &mut [u64],
    work: &mut [u8],
    path: &[u8],
    limit: u64,
) -> u64
    ensures { left result rec.new table.new work.new ≡ called listing.now
        (requested (calls.rmdir path.now) limit work.old) table.old
        rec.old }
{
    if rec.len() != NUMBERS {
        return overlay_packed::MALFORMED_TABLE;
    }
    let before = overlay_packed::record_in(&*rec);
    let answered = call_one_path::rmdir(listing, table, before, work, path, limit);
    overlay_packed::store_and_pack(rec, answered)
}

// What is visible at the source, and below it, moves to the destination.
#[unsafe(no_mangle)]
pub extern "C" fn overlay_rename(
    listing: &[u8],
    table: &mut [u8],
    rec: &mut [u64],
    work: &mut [u8],
    source: &[u8],
    destination: &[u8],
    limit: u64,
) -> u64
    ensures { left result rec.new table.new work.new ≡ called listing.now
        (requested (calls.rename source.now destination.now) limit work.old)
        table.old rec.old }
{
    if rec.len() != NUMBERS {
        return overlay_packed::MALFORMED_TABLE;
    }
    let before = overlay_packed::record_in(&*rec);
    let answered = call_rename::rename(listing, table, before, work, source, destination, limit);
    overlay_packed::store_and_pack(rec, answered)
}

// Runs the script on the table: its calls one after another, and for each a row in the report. A malformed script, or a
// report without a row for each call, changes nothing.
#[unsafe(no_mangle)]
pub extern "C" fn overlay_run(
    listing: &[u8],
    table: &mut [u8],
    rec: &mut [u64],
    work: &mut [u8],
    script: &[u8],
    report: &mut [u8],
) -> u64
    ensures { run_left result rec.new table.new work.new report.new
        ≡ script_run listing.now table.old rec.old work.old
        script.now report.old }
{
    if rec.len() != NUMBERS {
        return overlay_packed::MALFORMED_TABLE;
    }
    let first = overlay_packed::record_in(&*rec);
    let ran = run_calls::run(listing, table, first, work, script, report);
    overlay_packed::store_and_pack_run(rec, ran, first)
}

// Makes the buffer an empty table for entries of this size, and runs the script on it. Where it is done, demand 3 of
// document 01 holds of its calls. A malformed script or a short report leaves the table opened, with its record.
#[unsafe(no_mangle)]
pub extern "C" fn overlay_run_new(
    listing: &[u8],
    table: &mut [u8],
    rec: &mut [u64],
    work: &mut [u8],
    script: &[u8],
    report: &mut [u8],
    entry_size: u64,
) -> u64
    ensures report_after { run_left result rec.new table.new work.new report.new
        ≡ new_script_run listing.now entry_size table.old rec.old work.old
        script.now report.old }
    ensures holds { result ≡ 0 → Holds listing.now (begin listing.now entry_size
        table.old) (requests listing.now (steps_in script.now)
        (begin listing.now entry_size table.old).store work.old)
        (stored table.new (record_in rec.new)) }
{
    if rec.len() != NUMBERS {
        return overlay_packed::MALFORMED_TABLE;
    }
    let ran = run_calls::run_new(listing, entry_size, table, work, script, report);
    let first = Record {
        used: 0,
        count: 0,
        charge: 0,
        entry_size,
    };
    overlay_packed::store_and_pack_run(rec, ran, first)
}

// Writes the names of the path's visible children, each with its length before it, and zeros behind them.
#[unsafe(no_mangle)]
pub extern "C" fn overlay_show<'a>(
    listing: &'a [u8],
    table: &'a [u8],
    rec: &[u64],
    path: &[u8],
    output: &mut [u8],
) -> u64
    ensures { write_left result output.new ≡ children_shown listing.now table.now
        rec.now path.now output.old }
{
    if rec.len() != NUMBERS {
        return overlay_packed::MALFORMED_TABLE;
    }
    let answer = show_dir::show(listing, table, overlay_packed::record_in(rec), path, output);
    overlay_packed::pack_answer(answer)
}

// Reports what would let a rename through: the least limit and the least length of the table, in two numbers. Two
// numbers that are not two are answered with 1 too.
#[unsafe(no_mangle)]
pub extern "C" fn overlay_least_rename<'a>(
    listing: &'a [u8],
    table: &'a [u8],
    rec: &[u64],
    source: &[u8],
    destination: &[u8],
    least: &mut [u64],
) -> u64
    ensures { LeastLeft listing.now table.now rec.now least.old
        (calls.rename source.now destination.now) result least.new }
{
    if rec.len() != NUMBERS {
        return overlay_packed::MALFORMED_TABLE;
    }
    if least.len() != LEAST {
        return overlay_packed::MALFORMED_TABLE;
    }
    let before = overlay_packed::record_in(rec);
    let report = least_rename::report_rename(listing, table, before, source, destination);
    overlay_packed::store_and_pack_report(least, report)
}

// Writes the kept file of the listing and the table, and zeros behind it.
#[unsafe(no_mangle)]
pub extern "C" fn overlay_write_kept(
    listing: &[u8],
    table: &[u8],
    rec: &[u64],
    output: &mut [u8],
) -> u64
    ensures { write_left result output.new ≡ kept_written listing.now table.now
        rec.now output.old }
{
    if rec.len() != NUMBERS {
        return overlay_packed::MALFORMED_TABLE;
    }
    let writing = kept_write::write(listing, table, overlay_packed::record_in(rec), output);
    overlay_packed::pack_writing(writing)
}

// Makes the buffer the table that a kept file holds, whatever its bytes were, and tells its record and where the
// listing stands in the file. A place that is not two numbers is answered with 1 too.
#[unsafe(no_mangle)]
pub extern "C" fn overlay_read_kept(
    file: &[u8],
    table: &mut [u8],
    rec: &mut [u64],
    place: &mut [u64],
) -> u64
    ensures { read_left result rec.new place.new table.new
        ≡ kept_read file.now table.old rec.old place.old }
{
    if rec.len() != NUMBERS {
        return overlay_packed::MALFORMED_TABLE;
    }
    if place.len() != PLACE {
        return overlay_packed::MALFORMED_TABLE;
    }
    let reading = kept_read::read(file, table);
    overlay_packed::store_and_pack_reading(rec, place, reading)
}
