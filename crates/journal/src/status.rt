// A station without its journal, outbox and book.
ghost use Rattle.std.specs.Prelude.{◌<◌, ◌≤◌};
ghost use Rattle.protocol.specs.Limits.{max_stations};

use crate::peer::{PEERS, Peer};
use crate::state::State;

// What a station keeps beside its memory, which is lent at each call. The table has a record for each number that a
// station can have; its own is never acted on.
#[derive(Clone, Copy)]
pub struct Status {
    pub me: u8,
    pub roll: u8,
    pub state: State,
    pub firm: u16,
    pub peers: [Peer; PEERS],
    ghost on_roll: { me < roll },
    ghost few: { roll ≤ max_stations },
}
