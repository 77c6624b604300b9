// A station without its outbox and its book.
ghost use Rattle.std.specs.Prelude.{◌≤◌, length};

use crate::status::Status;
use crate::store::Journal;

// What a station keeps of itself and of the others, and its journal.
#[derive(Drop)]
pub struct Member<J: Journal> {
    pub status: Status,
    pub journal: J,
    // the firm count is within the journal
    ghost settled: { status.firm ≤ length (J.entries journal) },
}
