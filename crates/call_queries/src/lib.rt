// The calls of document 01 that ask: exists, is_file and is_dir of overlay.rs.
// Any bytes can be given as listing, table and path, and any numbers as record.
// Nothing is changed. Each is a constant number of passes over what it is lent.
#![tactic(auto)]

ghost use Rattle.std.specs.Prelude.{◌≡◌};
ghost use Rattle.model.specs.Calls as calls;
ghost use Rattle.model.specs.Answer.{told_finding};
ghost use Rattle.model.specs.Outcome.{ask};
ghost use Rattle.view_at.specs.Sight.{visible_kind};
ghost use Rattle.call_answer.specs.Meets.{stored};
ghost use Rattle.call_queries.specs.Seen.{told_seen};

use model::{Finding, Record, Refusal};
use view_at::Visible;

// "Anything but a link": what exists, is_file and is_dir say of what is visible.
fn is_there(visible: Option<Visible>) -> bool
    ensures { result ≡ calls.says calls.exists (visible_kind visible) }
{
    matches!(visible, Some(Visible::Directory | Visible::File))
}

fn is_a_file(visible: Option<Visible>) -> bool
    ensures { result ≡ calls.says calls.is_file (visible_kind visible) }
{
    matches!(visible, Some(Visible::File))
}

fn is_a_dir(visible: Option<Visible>) -> bool
    ensures { result ≡ calls.says calls.is_dir (visible_kind visible) }
{
    matches!(visible, Some(Visible::Directory))
}

// 1, 2 and 3, then what is visible at the path: all that a query asks.
fn seen(listing: &[u8], table: &[u8], rec: Record, path: &[u8]) -> Result<Option<Visible>, Refusal>
    ensures { (q : calls.Query) → told_seen q result ≡ ask q listing.now path.now (stored table.now rec) }
{
    check_lent::ready(listing, table, rec, table.len(), path)?;
    Ok(view_at::visible_at(listing, table, rec, path))
}

pub fn exists(listing: &[u8], table: &[u8], rec: Record, path: &[u8]) -> Finding
    ensures { told_finding result ≡ ask calls.exists listing.now path.now
        (stored table.now rec) }
{
    Ok(is_there(seen(listing, table, rec, path)?))
}

pub fn is_file(listing: &[u8], table: &[u8], rec: Record, path: &[u8]) -> Finding
    ensures { told_finding result ≡ ask calls.is_file listing.now path.now
        (stored table.now rec) }
{
    Ok(is_a_file(seen(listing, table, rec, path)?))
}

pub fn is_dir(listing: &[u8], table: &[u8], rec: Record, path: &[u8]) -> Finding
    ensures { told_finding result ≡ ask calls.is_dir listing.now path.now
        (stored table.now rec) }
{
    Ok(is_a_dir(seen(listing, table, rec, path)?))
}
