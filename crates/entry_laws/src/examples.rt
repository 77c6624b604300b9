// Worked examples of the rules.
ghost use Rattle.entry_laws.specs.EntryExamples.{DutyOf69840, ClosingWithoutFreight};

// The examples hold.
pub fn book_examples()
    ensures duty { DutyOf69840 }
    ensures closing { ClosingWithoutFreight }
{}
