// What stations send one another.
ghost use Rattle.std.specs.Prelude.{◌≡◌};
ghost use Rattle.protocol.specs.Frames.{sender_of};

use crate::entry::{End, Entry};

// An entry, with the turn of the entry before it (0 at place 1); or a heartbeat or a join frame, with the end of the sender's journal.
#[derive(Clone, Copy, PartialEq, Eq, Debug)]
pub enum Frame {
    Entry {
        sender: u8,
        entry: Entry,
        before: u32,
    },
    Heartbeat {
        sender: u8,
        end: End,
    },
    Join {
        sender: u8,
        end: End,
    },
}

impl Frame {
    // What fills the places of a wire before any frame is posted.
    pub const IDLE: Frame = Frame::Heartbeat {
        sender: 0,
        end: (0, 0),
    };

    // The station that posted the frame.
    pub fn sender(&self) -> u8
        ensures { result ≡ sender_of self.now }
    {
        match self {
            Frame::Entry { sender, .. }
            | Frame::Heartbeat { sender, .. }
            | Frame::Join { sender, .. } => *sender,
        }
    }
}
