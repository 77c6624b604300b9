// How an entry stands to a journal.
ghost use Rattle.std.specs.Prelude.{◌≡◌};
ghost use Rattle.taking.specs.Take.{filing};

use journal::reading::{entry_at, last_turn};
use protocol::entry::Entry;

// Held already, the next one, ahead of the next one, or none of these.
#[derive(Clone, Copy)]
pub enum Filing {
    Held,
    Next,
    Ahead,
    Stray,
}

// How an entry stands to a journal, where the entry before it has the turn `before`.
pub fn filing_of(journal: &[Entry], entry: &Entry, before: u32) -> Filing
    ensures { result ≡ filing journal.now entry.now before }
{
    let next = journal.len() + 1;
    let place = entry.place as usize;
    if entry_at(journal, place).is_some_and(|held| held.turn == entry.turn) {
        Filing::Held
    } else if place == next && before == last_turn(journal) {
        Filing::Next
    } else if place > next {
        Filing::Ahead
    } else {
        Filing::Stray
    }
}
