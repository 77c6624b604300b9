// What a book's verdict is in words.
ghost use Rattle.std.specs.Prelude.{Some};
ghost use Rattle.sheet.specs.Outcomes.{outcome};

use entries::entry_verdict::EntryVerdict;
use std::fmt;

// The words are the office's, each as it is printed, number and all, so they stand here and not with the verdicts.
#[derive(Clone, Copy, PartialEq, Eq, Debug)]
pub struct Outcome(pub EntryVerdict);

impl fmt::Display for Outcome {
    ghost output = { λ x. Some (outcome x.0) };

    fn fmt<W: fmt::Write>(&self, f: &mut fmt::Formatter<W>) -> fmt::Result {
        f.write_str(match self.0 {
            EntryVerdict::Taken => "taken",
            EntryVerdict::Malformed => "refused, verdict 1: the note is malformed",
            EntryVerdict::OpenedBefore => "refused, verdict 2: the entry was opened before",
            EntryVerdict::NoPlace => "refused, verdict 3: no place is left",
            EntryVerdict::UnknownEntry => "refused, verdict 4: no entry has this number",
            EntryVerdict::Closed => "refused, verdict 5: the entry is closed",
            EntryVerdict::GivenBefore => "refused, verdict 6: this amount was given before",
            EntryVerdict::NoFreight => "refused, verdict 7: the freight is not given yet",
        })
    }
}
