// ComponentWalk's step with the walk lent, as in overlay.rs: a thin function above listing_records' step by value,
// which does the work. Assumes bytes that are a listing: only this repository's crates call, after a check.
#![tactic(auto)]

ghost use Rattle.std.specs.Prelude.{◌≡◌, true, ◌≤◌, ◌<◌, length, drop};
ghost use Rattle.model.specs.Path.{ends_here};
ghost use Rattle.model.specs.Listing.{is_listing};
ghost use Rattle.listing_records.specs.Walk.{Walks};
ghost use Rattle.listing_walk.specs.Steps.{Steps};

// What is listed at the path's first `end` bytes, where a component ends. The walk's place and exhausted flag move on.
pub fn step(
    walk: &mut listing_records::ComponentWalk,
    listing: &[u8],
    path: &[u8],
    end: usize,
) -> listing_records::RealTarget
    requires { (is_listing listing.now ≡ true) × (Walks listing.now path.now walk.old end) × (0 < end)
        × (end ≤ length path.now) × (ends_here (drop end path.now) ≡ true) }
    ensures { Steps listing.now path.now end walk.old result walk.new }
{
    let stepped = listing_records::ComponentWalk::step(*walk, listing, path, end);
    *walk = stepped.walk;
    stepped.target
}

// The same for a walk that is held by value: it is lent for the step. A loop that calls this holds no reference to its
// walk.
pub fn step_once(
    walk: listing_records::ComponentWalk,
    listing: &[u8],
    path: &[u8],
    end: usize,
) -> listing_records::Stepped
    requires { (is_listing listing.now ≡ true) × (Walks listing.now path.now walk end) × (0 < end)
        × (end ≤ length path.now) × (ends_here (drop end path.now) ≡ true) }
    ensures { Steps listing.now path.now end walk result.target result.walk }
{
    let mut lent = walk;
    let target = step(&mut lent, listing, path, end);
    listing_records::Stepped { walk: lent, target }
}
