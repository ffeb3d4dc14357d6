// Paths: whether bytes are one, in one pass, and what is asked of paths. All functions on paths alone stand in this
// crate. The counterpart of path_security.rs.
#![tactic(auto)]

mod names;
mod prefixes;
mod relations;
mod sizes;
mod utf8;

ghost use Rattle.std.specs.Prelude.{◌≡◌};
ghost use Rattle.model.specs.Path.{is_path};

use names::{Names, is_ended, next_names};
pub use prefixes::{Dirs, next_ancestor, parent_end, with_end};
pub use relations::{is_before_with, is_below, is_child};
pub use sizes::{component_count, is_short};
pub use utf8::{Tail, next_tail};

// Whether s is a path.
pub fn is_path(s: &[u8]) -> bool
    ensures { result ≡ is_path s.now }
{
    if model::PATH_MAX < s.len() {
        return false;
    }
    if s.is_empty() {
        return true;
    }
    let mut t = Tail {
        need: 0,
        low: 0,
        high: 0,
    };
    let mut n = Names {
        ok: true,
        len: 0,
        dots: true,
        before: 0,
    };
    for &b in s {
        t = next_tail(t, b);
        n = next_names(n, b);
    }
    (t.need == 0) & (is_ended(n) & (n.before < model::DEPTH_MAX))
}
