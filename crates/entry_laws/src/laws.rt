// The laws of the entry book. Each function's contract is one of them; the functions do nothing.
ghost use Rattle.entry_laws.specs.EntryLaws.{ClosedEntriesNeverChange, EntriesStay, EntriesAreFound, NoNumberTwice, DutiesAreDue, NeverOverFull, FiguresStayInRange};

// A closed entry never changes again.
pub fn closed_entries_never_change()
    ensures { ClosedEntriesNeverChange }
{}

// An entry once opened stays at its place, with its number, price, rate and all amounts given.
pub fn entries_stay()
    ensures { EntriesStay }
{}

// Each entry is found by its number.
pub fn entries_are_found()
    ensures { EntriesAreFound }
{}

// No number stands twice.
pub fn no_number_twice()
    ensures { NoNumberTwice }
{}

// The duty of a closed entry is what its figures give.
pub fn duties_are_due()
    ensures { DutiesAreDue }
{}

// A book never holds more entries than it has places.
pub fn never_over_full()
    ensures { NeverOverFull }
{}

// All figures of all entries are in range.
pub fn figures_stay_in_range()
    ensures { FiguresStayInRange }
{}
