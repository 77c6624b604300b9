// What a journal says: the turn at a place, its end, which ends match it, and its newest view.
ghost use Rattle.std.specs.Prelude.{◌≡◌, ◌≤◌, length};
ghost use Rattle.protocol.specs.Limits.{journal_places};
ghost use Rattle.journal.specs.Journal.{turn_at, last_turn, entry_at, end_of, matches, newest_view};

use books::search::at_place;
use protocol::entry::{Body, End, Entry};

// The turn of the entry at a place, counted from 1; 0 at place 0 and past the end.
pub fn turn_at(journal: &[Entry], place: usize) -> u32
    ensures { result ≡ turn_at journal.now place }
{
    entry_at(journal, place).map_or(0, |e| e.turn)
}

// The turn of the last entry, 0 when there is none.
pub fn last_turn(journal: &[Entry]) -> u32
    ensures { result ≡ last_turn journal.now }
{
    turn_at(journal, journal.len())
}

// The entry at a place, counted from 1; none outside the journal.
pub fn entry_at(journal: &[Entry], place: usize) -> Option<Entry>
    ensures { result ≡ entry_at journal.now place }
{
    at_place(journal, place)
}

// The last place of a journal and that entry's turn; (0, 0) when it is empty.
pub fn end_of(journal: &[Entry]) -> End
    requires { length journal.now ≤ journal_places }
    ensures { result ≡ end_of journal.now }
{
    (journal.len() as u16, last_turn(journal))
}

// Whether an end is (0, 0), or the journal has that turn at that place.
pub fn end_matches(journal: &[Entry], end: End) -> bool
    ensures { result ≡ matches journal.now end }
{
    let (place, turn) = end;
    place as usize <= journal.len() && turn_at(journal, place as usize) == turn
}

// The members that the last view of a journal names, or the whole roll.
pub fn view_of(journal: &[Entry], whole: u8) -> u8
    ensures { result ≡ newest_view whole journal.now }
{
    for e in journal.iter().rev() {
        if let Body::View(mask) = e.body {
            return mask;
        }
    }
    whole
}
