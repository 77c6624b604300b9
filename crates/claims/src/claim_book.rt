// The book that tells which station has a paper file.
ghost use Rattle.std.specs.Prelude.{◌≡◌, length};
ghost use Rattle.claims.specs.Limits.{claim_places};
ghost use Rattle.claims.specs.ClaimBook.{ClaimedOnce};

use crate::claim::Claim;

pub mod calls;

// A table of places, each free or with a claim. A claim takes the first free place, so a place that was freed is used again.
#[derive(Drop)]
pub struct ClaimBook {
    places: Vec<Option<Claim>>,
    ghost full: { length places.items ≡ claim_places },
    ghost once: { ClaimedOnce places.items },
}
