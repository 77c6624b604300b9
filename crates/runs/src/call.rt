// The calls on a ring.
use protocol::note::Note;

// A call on a ring, with the station that it names: data, which scripts hold.
#[derive(Clone, Copy, PartialEq, Eq, Debug)]
pub enum Call {
    // puts a note in an outbox
    Note { at: u32, note: Note },
    // performs the next turn
    Turn,
    // lets a station take its oldest frame
    Take { at: u32 },
    // removes a station's oldest frame unread
    Lose { at: u32 },
    // puts a station out
    Stop { at: u32 },
    // makes a station that is out joining
    Enter { at: u32 },
}
