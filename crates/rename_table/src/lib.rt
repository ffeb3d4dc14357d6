// The table that rename leaves, written anew as the definition has it. Assumes a checked table and a checked listing,
// two paths that passed rename's checks before its plan, short new keys, and buffers with room: only this repository's
// crates call, once all checks passed.
#![tactic(auto)]

ghost use Rattle.std.specs.Prelude.{◌≡◌, true, cond, ◌≤◌, length, replicate};
ghost use Rattle.model.specs.Bytes.{every};
ghost use Rattle.model.specs.Path.{short};
ghost use Rattle.model.specs.Map.{keys, rekey};
ghost use Rattle.model.specs.Tree.{a_directory, a_file, kind};
ghost use Rattle.model.specs.Listing.{tree_in};
ghost use Rattle.model.specs.Table.{encode, padded, table_in};
ghost use Rattle.model.specs.Rename.{carried, moved};
ghost use Rattle.model.specs.Outcome.{Given, shown_in};
ghost use Rattle.rename_checks.specs.Early.{EarlyPassed};

// The table anew with what rename moves; `whole` tells whether the source is a directory.
pub fn write_move(
    table: &mut [u8],
    work: &mut [u8],
    rec: model::Record,
    listing: &[u8],
    source: &[u8],
    destination: &[u8],
    whole: bool,
)
    requires given { Given listing.now table.old rec }
    requires early_passed { EarlyPassed (table_in table.old rec) (tree_in listing.now) source.now destination.now }
    requires source_value { kind (shown_in listing.now table.old rec) source.now ≡ cond whole a_directory
        a_file }
    requires source_value_2 { every short (keys (rekey source.now destination.now (carried (table_in table.old rec)
        (tree_in listing.now) source.now))) ≡ true }
    requires destination_in_bounds { length (encode (moved (table_in table.old rec) (tree_in listing.now)
        source.now destination.now))
        ≤ length table.old }
    requires table_in_bounds { length table.old ≤ length work.old }
    ensures table_after { table.new ≡ padded (length table.old)
        (encode (moved (table_in table.old rec) (tree_in listing.now) source.now
        destination.now)) }
    ensures work_after { work.new ≡ replicate (length work.old) 0 }
{
    rename_write::write_ordered(table, work, rec, listing, source, destination, whole);
}
