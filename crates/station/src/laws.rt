// What the rules of a station keep, as theorems.
ghost use Rattle.station.specs.Laws.{TurnByCalls, FewFrames, CallsGrow, BooksFollow, IgnoredFrames, CallsSettle};

// Opening, saying until none is due, and passing come to the whole turn.
pub fn turn_by_calls()
    ensures { TurnByCalls }
{}

// A turn posts at most 11 frames.
pub fn few_frames()
    ensures { FewFrames }
{}

// Journals grow at their end alone, firm counts and known places only rise, and none of them passes the length.
pub fn calls_grow()
    ensures { CallsGrow }
{}

// A book is the starting book fed with the notes of the firm part, for books whose states are S.
pub fn books_follow<S>()
    ensures { BooksFollow S }
{}

// A frame that is ignored leaves the station as it was.
pub fn ignored_frames()
    ensures { IgnoredFrames }
{}

// After each call of a ring, nothing more can be made firm.
pub fn calls_settle()
    ensures { CallsSettle }
{}
