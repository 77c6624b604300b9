// What the claim book answers.
ghost use Rattle.claims.specs.ClaimBook.{claim_verdict_number};

use books::book::Verdict;

#[derive(Clone, Copy, PartialEq, Eq, Debug)]
pub enum ClaimVerdict {
    Taken = 0,
    // another kind of note, a figure out of range, or not 0 where 0 is due
    Malformed = 1,
    // the file is claimed already, by whichever station
    AlreadyClaimed = 2,
    // no place is left for another claim
    NoPlace = 3,
    // the station to release the file has not claimed it
    NotClaimed = 4,
}

impl Verdict for ClaimVerdict {
    ghost number = { claim_verdict_number };

    fn number(&self) -> u8 {
        *self as u8
    }
}
