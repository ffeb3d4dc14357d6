// Dir of overlay.rs: a reader that holds the lent listing and its count, with thin functions that give kind and record
// at a path. The work is done by listing_records' `find_in`, on the slice and the number; `kind_of` and `find`, whose
// parameters are plain, serve every other caller. Assumes bytes that are a listing: only the crates of this repository
// call, after a check.
#![tactic(auto)]

ghost use Rattle.std.specs.Prelude.{◌≡◌, true};
ghost use Rattle.model.specs.Map.{lookup};
ghost use Rattle.model.specs.Tree.{kind};
ghost use Rattle.model.specs.Listing.{record_count, tree_in, is_listing};
ghost use Rattle.listing_records.specs.Found.{found_of, target_kind};

use listing_records::{Found, RealTarget};

#[derive(Drop)]
pub struct Dir<'a> {
    pub listing: &'a [u8],
    pub count: u64,
    pub ghost checked: { is_listing listing.now ≡ true },
    pub ghost counted: { count ≡ record_count listing.now },
}

impl<'a> Dir<'a> {
    // Reads the head alone.
    pub fn new(listing: &'a [u8]) -> Dir<'a>
        requires { is_listing listing.now ≡ true }
        ensures { (result.listing ≡ listing.entry) × (result.count ≡ record_count listing.now) }
    {
        let count = listing_records::first_record(listing).left;
        Dir { listing, count }
    }

    // The root is always a directory.
    pub fn kind_at<'b>(self, path: &'b [u8]) -> RealTarget
        ensures { target_kind result ≡ kind (lookup (tree_in self.entry.listing.now)) path.now }
    {
        if path.is_empty() {
            return RealTarget::Dir;
        }
        listing_records::classify_target(self.record_at(path))
    }

    pub fn record_at<'b>(self, path: &'b [u8]) -> Option<Found>
        ensures { result ≡ found_of (lookup (tree_in self.entry.listing.now) path.now) }
    {
        listing_records::find_in(self.listing, self.count, path)
    }
}

// What kind the listing has at a path.
pub fn kind_of(listing: &[u8], path: &[u8]) -> RealTarget
    requires { is_listing listing.now ≡ true }
    ensures { target_kind result ≡ kind (lookup (tree_in listing.now)) path.now }
{
    Dir::new(listing).kind_at(path)
}

// What the listing has at a path.
pub fn find(listing: &[u8], path: &[u8]) -> Option<Found>
    requires { is_listing listing.now ≡ true }
    ensures { result ≡ found_of (lookup (tree_in listing.now) path.now) }
{
    Dir::new(listing).record_at(path)
}
