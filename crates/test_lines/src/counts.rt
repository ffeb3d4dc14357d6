// How many paths stand how to what the published plan lists there (#102). Assumes a checked listing and table.
ghost use Rattle.std.specs.Prelude.{◌+◌, ◌≤◌};
ghost use Rattle.view_merge.specs.Merges.{Merging};
ghost use Rattle.test_lines.specs.Totals.{total};

use view_marks::Mark;
use view_merge::Merge;

// How many paths have each mark.
#[derive(Clone, Copy)]
pub struct Counts {
    pub same: u64,
    pub new: u64,
    pub gone: u64,
    pub changed: u64,
}

// One more with this mark.
fn counted(counts: Counts, mark: Mark) -> Counts
    requires { total counts ≤ 0x1_0000_0000 }
    ensures { total result ≤ total counts + 1 }
{
    match mark {
        Mark::Same => Counts {
            same: counts.same + 1,
            ..counts
        },
        Mark::New => Counts {
            new: counts.new + 1,
            ..counts
        },
        Mark::Gone => Counts {
            gone: counts.gone + 1,
            ..counts
        },
        Mark::Changed => Counts {
            changed: counts.changed + 1,
            ..counts
        },
        Mark::Nothing => counts,
    }
}

// The marks of all that is to come, in one pass.
pub fn count(own: &[u8], part: &[u8], first: Merge) -> Counts
    requires { Merging own.now part.now first }
    ensures { total result ≤ 0x1_0000_0000 }
{
    let mut counts = Counts {
        same: 0,
        new: 0,
        gone: 0,
        changed: 0,
    };
    let mut merge = first;
    while let Some(head) = view_merge::head_at(own, part, merge) {
        let mark = view_marks::mark_at(own, part, merge, Some(head));
        counts = counted(counts, mark);
        merge = view_merge::advance(own, part, merge, head);
    }
    counts
}
