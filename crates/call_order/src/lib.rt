// A changing call, given as a value, made by one function.
// Any bytes can be given as listing, table, work buffer, paths and data, and any numbers as record and order.
// It costs what the call itself costs.
#![tactic(auto)]

ghost use Rattle.model.specs.Outcome.{outcome};
ghost use Rattle.call_answer.specs.Meets.{requested, stored, Meets};
ghost use Rattle.call_values.specs.Values.{call_of};

use call_content::{append_bytes, write_file_at};
use call_mkdir::mkdir;
use call_one_path::{rmdir, unlink, write_bytes};
use call_rename::rename;
use call_values::{Kind, Order};
use model::{Answered, Record};

// Makes the call. `first` is its path, a rename's source; `second` is the data of the three calls that write, and a
// rename's destination; `lent` are the bytes that an append is lent. No other call looks at these two.
pub fn make(
    listing: &[u8],
    table: &mut [u8],
    rec: Record,
    work: &mut [u8],
    first: &[u8],
    second: &[u8],
    lent: &[u8],
    order: Order,
) -> Answered
    ensures { Meets (outcome listing.now (requested (call_of order first.now
        second.now lent.now) order.limit work.old) (stored table.old
        rec)) result table.new work.new }
{
    let Order {
        kind,
        parents,
        exist_ok,
        mtime,
        limit,
        offset,
    } = order;
    match kind {
        Kind::Write => write_bytes(listing, table, rec, work, first, mtime, second, limit),
        Kind::Append => append_bytes(listing, table, rec, work, first, mtime, second, lent, limit),
        Kind::WriteInside => {
            write_file_at(
                listing, table, rec, work, first, mtime, offset, second, limit,
            )
        }
        Kind::Mkdir => mkdir(
            listing, table, rec, work, first, parents, exist_ok, mtime, limit,
        ),
        Kind::Unlink => unlink(listing, table, rec, work, first, limit),
        Kind::Rmdir => rmdir(listing, table, rec, work, first, limit),
        Kind::Rename => rename(listing, table, rec, work, first, second, limit),
    }
}
