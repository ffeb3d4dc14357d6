// What a program sees to around each changing call: before it the table is copied and the work buffer filled with a
// byte; after it, a refused call must have kept every byte and the record, and an accepted one must have left a
// well-formed table and the work buffer all 0. Each function costs one pass over the buffers that it is lent.
#![tactic(auto)]

ghost use Rattle.std.specs.Prelude.{◌≡◌, cond, leb, length, take, replicate};
ghost use Rattle.model.specs.Bytes.{same};
ghost use Rattle.model.specs.Table.{same_record};
ghost use Rattle.base_fields.specs.Write.{overwritten};
ghost use Rattle.test_kept.specs.Left.{filled, unchanged, kept, clean};

use model::Record;

// What the work buffer is filled with.
const FILL: u8 = 165;

fn is_filled(s: &[u8]) -> bool
    ensures { result ≡ filled s.now }
{
    s.iter().all(|b| *b == FILL)
}

// Copies the table to the start of `old`, where it has room for it, and fills the work buffer.
pub fn prepare(table: &[u8], old: &mut [u8], work: &mut [u8])
    ensures copied { old.new ≡ cond (leb (length table.now) (length old.old))
        (overwritten old.old 0 table.now) old.old }
    ensures full { work.new ≡ replicate (length work.old) 165 }
{
    work.fill(FILL);
    if table.len() <= old.len() {
        base_fields::copy_in(old, 0, table);
    }
}

// Whether the table's bytes stand at the start of `old`.
fn is_same_table(table: &[u8], old: &[u8]) -> bool
    ensures { result ≡ same table.now (take (length table.now) old.now) }
{
    old.starts_with(table)
}

fn is_same_record(a: Record, b: Record) -> bool
    ensures { result ≡ same_record a b }
{
    a == b
}

// Whether table and record are those of before `prepare`.
pub fn is_unchanged(table: &[u8], old: &[u8], a: Record, b: Record) -> bool
    ensures { result ≡ unchanged table.now old.now a b }
{
    is_same_table(table, old) & is_same_record(a, b)
}

// Whether nothing changed since `prepare`: the table, the record and the work buffer.
pub fn is_kept(table: &[u8], old: &[u8], work: &[u8], a: Record, b: Record) -> bool
    ensures { result ≡ kept table.now old.now work.now a b }
{
    is_unchanged(table, old, a, b) & is_filled(work)
}

// Whether the table is well-formed and agrees with its record, and the work buffer is all 0.
pub fn is_clean(table: &[u8], work: &[u8], rec: Record) -> bool
    ensures { result ≡ clean table.now work.now rec }
{
    table_open::check(table, rec) & base_fields::all_zero(work, 0)
}
