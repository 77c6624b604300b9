// What the entry book answers.
ghost use Rattle.entries.specs.EntryBook.{entry_verdict_number};

use books::book::Verdict;

#[derive(Clone, Copy, PartialEq, Eq, Debug)]
pub enum EntryVerdict {
    Taken = 0,
    // another kind of note, a figure out of range, or not 0 where 0 is due
    Malformed = 1,
    // an entry of that number was opened before, and may be closed by now
    OpenedBefore = 2,
    // no place is left for another entry
    NoPlace = 3,
    // no entry has that number
    UnknownEntry = 4,
    // the entry is closed
    Closed = 5,
    // that amount was given before
    GivenBefore = 6,
    // an entry cannot be closed without freight
    NoFreight = 7,
}

impl Verdict for EntryVerdict {
    ghost number = { entry_verdict_number };

    fn number(&self) -> u8 {
        *self as u8
    }
}
