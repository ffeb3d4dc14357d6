// The call that shows a directory, change request #102: the names of its visible children, written to an output.
// Any bytes can be given as listing, table, path and output, and any numbers as record. All is judged before the first
// byte is written, and only the output is changed.
#![tactic(auto)]

ghost use Rattle.std.specs.Prelude.{◌≡◌, ◌≤◌, length};
ghost use Rattle.model.specs.Listing.{tree_in, is_listing};
ghost use Rattle.model.specs.Table.{table_in, is_table};
ghost use Rattle.model.specs.Checks.{◌then◌, unless, form};
ghost use Rattle.model.specs.Answer.{told};
ghost use Rattle.model.specs.Outcome.{Given};
ghost use Rattle.check_judged.specs.Judged.{check_of};
ghost use Rattle.show_names.specs.Names.{show_checks, child_names, showing};
ghost use Rattle.show_dir.specs.Spans.{SpanOf, fitted};

use check_judged::Judged;
use model::{Answer, Record, Refusal};
use view_merge::Merge;

// From where a directory's children are read: the table's entries, and records in the listing's bytes from `from` up to
// `to`.
#[derive(Clone, Copy)]
struct Span {
    merge: Merge,
    from: usize,
    to: usize,
}

// All that lies below a directory; below the root all lies.
fn span_below(listing: &[u8], table: &[u8], rec: Record, dir: &[u8]) -> Span
    requires { Given listing.now table.now rec }
    ensures from_le_to { (result.from ≤ result.to) × (result.to ≤ length listing.now) }
    ensures span_of { SpanOf listing.now table.now rec dir.now result }
{
    if dir.len() == 0 {
        let entries = table_entries::first_entry(table, rec);
        let records = listing_records::first_record(listing);
        return Span {
            merge: Merge { entries, records },
            from: 0,
            to: listing.len(),
        };
    }
    let own = table_below::below(table, rec, dir);
    let listed = listing_records::below(listing, dir);
    Span {
        merge: Merge {
            entries: table_entries::Place {
                at: own.from,
                left: own.count,
            },
            records: listing_records::Place {
                at: 0,
                left: listed.count,
            },
        },
        from: listed.from,
        to: listed.to,
    }
}

// 1, 2 and 3, then 4, 5 or 7.
fn may_show(listing: &[u8], table: &[u8], rec: Record, path: &[u8]) -> Judged
    ensures { check_of result ≡ (unless 1 (is_table table.now rec)
        then unless 2 (is_listing listing.now) then form 0 path.now then show_checks
        (table_in table.now rec) (tree_in listing.now) path.now) }
{
    check_lent::ready(listing, table, rec, table.len(), path)?;
    show_checks::check_shown(listing, table, rec, path)
}

// 13, then the names and zeros behind them, and how many bytes the names take.
fn show_admitted<'a>(
    listing: &'a [u8],
    table: &'a [u8],
    rec: Record,
    path: &[u8],
    output: &mut [u8],
) -> Answer
    requires { Given listing.now table.now rec }
    ensures result_value { told result ≡ (fitted (child_names listing.now table.now rec path.now)
        output.old).reply }
    ensures output_after { output.new ≡ (fitted (child_names listing.now table.now rec
        path.now) output.old).output }
{
    let span = span_below(listing, table, rec, path);
    let merge = span.merge;
    let from = span.from;
    let to = span.to;
    let part = &listing[from..to];
    let len = show_write::measure_names(table, part, merge, path);
    if output.len() < len {
        return Err(Refusal::NoRoom);
    }
    show_write::put_names(output, table, part, merge, path);
    Ok(len as u64)
}

// Writes the names of a directory's visible children, each with its length before it, and zeros behind them, and
// answers how many bytes the names take; refused, it leaves the output as it was. It is a constant number of passes
// over listing and table to check them and the path and to find what lies below it, one over that part of both to
// measure and, if all passes, one to write; then the bytes behind the names are written once.
pub fn show<'a>(
    listing: &'a [u8],
    table: &'a [u8],
    rec: Record,
    path: &[u8],
    output: &mut [u8],
) -> Answer
    ensures result_value { told result ≡ (showing listing.now table.now rec path.now
        output.old).reply }
    ensures output_after { output.new ≡ (showing listing.now table.now rec path.now
        output.old).output }
{
    may_show(listing, table, rec, path)?;
    show_admitted(listing, table, rec, path, output)
}
