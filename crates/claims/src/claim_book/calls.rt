// What can be done with a claim book.
ghost use Rattle.std.specs.Prelude.{◌≡◌, position, IfOk};
ghost use Rattle.books.specs.Answers.{Answered};
ghost use Rattle.claims.specs.ClaimBook.{Places, empty_places, claim_count, claim_at, claim_of, claim_verdict_number, is_taken, making_verdict, releasing_verdict, made as claimed, released, claim_act, claim_verdict, act_next, claim_next, is_free, holds_claim};
ghost use Rattle.claims.specs.ClaimState.{places_of};
ghost use Rattle.std.proofs.lemmas.Bool.{cond-false, ne_eqb};

use crate::claim::{Claim, ClaimAct};
use crate::claim_book::ClaimBook;
use crate::claim_verdict::ClaimVerdict;
use crate::limits::CLAIM_PLACES;
use books::book::{Book, MalformedNote, StartingBook};
use books::search::{at_place, count_where, find_first, first_place};
use protocol::note::Note;
use std::alloc::{AllocError, Global};

impl ClaimBook {
    // A book with all places free.
    pub fn new(heap: Global) -> Result<ClaimBook, AllocError>
        ensures { IfOk result (λ b. places_of b ≡ empty_places) }
    {
        let places = vec![in heap; None; CLAIM_PLACES]?;
        Ok(ClaimBook { places })
    }

    // How many files are claimed.
    pub fn count(&self) -> usize
        ensures { result ≡ claim_count (places_of self.now) }
    {
        count_where(&self.places, Option::is_some)
    }

    // The claim at a place, counted from 1: none at a free place.
    pub fn at(&self, place: usize) -> Option<Claim>
        ensures { result ≡ claim_at place (places_of self.now) }
    {
        at_place(&self.places, place).flatten()
    }

    // The claim of a file.
    pub fn find(&self, file: u32) -> Option<Claim>
        ensures { result ≡ claim_of file (places_of self.now) }
    {
        find_first(
            &self.places,
            |place| place.is_some_and(|claim| claim.file == file),
        )
        .flatten()
    }

    // The first free place, counted from 0.
    fn free_place(&self) -> Option<usize>
        ensures { result ≡ position is_free (places_of self.now) }
    {
        first_place(&self.places, Option::is_none)
    }

    // The place of a claim, counted from 0.
    fn place_of(&self, claim: Claim) -> Option<usize>
        ensures { result ≡ position (holds_claim claim) (places_of self.now) }
    {
        first_place(
            &self.places,
            |place| place.is_some_and(|held| held.file == claim.file
                && held.station == claim.station),
        )
    }

    // Enters a claim at the first free place.
    fn make(&mut self, claim: Claim) -> ClaimVerdict
        ensures { Answered claim_verdict_number places_of self.old self.new result (making_verdict claim (places_of self.old)) (claimed claim (places_of self.old)) }
    {
        if self.find(claim.file).is_some() {
            return ClaimVerdict::AlreadyClaimed;
        }
        let Some(place) = self.free_place() else {
            return ClaimVerdict::NoPlace;
        };
        self.places[place] = Some(claim);
        ClaimVerdict::Taken
    }

    // Frees the place of a claim.
    fn release(&mut self, claim: Claim) -> ClaimVerdict
        ensures { Answered claim_verdict_number places_of self.old self.new result (releasing_verdict claim (places_of self.old)) (released claim (places_of self.old)) }
    {
        let Some(place) = self.place_of(claim) else {
            return ClaimVerdict::NotClaimed;
        };
        self.places[place] = None;
        ClaimVerdict::Taken
    }
}

impl Book for ClaimBook {
    type Verdict = ClaimVerdict;

    const PLACES: usize = CLAIM_PLACES;

    ghost State = { Places };

    ghost means = { places_of };

    ghost next = { claim_next };

    ghost verdict = { claim_verdict };

    ghost refused = { λ s x refused. cond-false (is_taken (claim_verdict s x)) (act_next (claim_act x) s) s (ne_eqb (claim_verdict_number (claim_verdict s x)) 0 refused) };

    fn give(&mut self, note: Note) -> ClaimVerdict {
        match ClaimAct::try_from(note) {
            Ok(ClaimAct::Make(claim)) => self.make(claim),
            Ok(ClaimAct::Release(claim)) => self.release(claim),
            Err(MalformedNote) => ClaimVerdict::Malformed,
        }
    }
}

impl StartingBook for ClaimBook {
    fn duplicate(&self) -> Result<ClaimBook, AllocError> {
        // one copy of all places, where a clone would be made place by place
        let places = Vec::from_slice(*self.places.allocator(), &self.places)?;
        Ok(ClaimBook { places })
    }
}
