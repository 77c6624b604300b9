// The token of a turn: opening gives it, saying uses it for one note and hands it back, passing ends it.
ghost use Rattle.std.specs.Prelude.{◌≡◌};
ghost use Rattle.journal.specs.Members.{member_core};
ghost use Rattle.turning.specs.Calls.{is_own};

use journal::member::Member;
use journal::reading::last_turn;
use journal::store::Journal;

pub mod opening;
pub mod passing;
pub mod saying;

// The right to speak in one turn: whose it is, its number, and how many notes may still be said. It is not `Drop`, and
// no other crate can make one or take one apart, so its only end is passing.
pub struct Token {
    station: u8,
    turn: u32,
    left: u8,
}

impl Token {
    // Whether the token is the station's own, and not older than its journal's last turn.
    fn is_own<J: Journal>(&self, member: &Member<J>) -> bool
        ensures { result ≡ is_own self.now (member_core member.now) }
    {
        self.station == member.status.me && last_turn(member.journal.as_slice()) <= self.turn
    }
}
