// The entries of a journal.
use crate::note::Note;

// What an entry holds: a note, or a view, which is the mask of the ring's members.
#[derive(Clone, Copy, PartialEq, Eq, Debug)]
pub enum Body {
    Note(Note),
    View(u8),
}

// One place of a journal, counted from 1, and the turn that made it.
#[derive(Clone, Copy, PartialEq, Eq, Debug)]
pub struct Entry {
    pub place: u16,
    pub turn: u32,
    pub body: Body,
}

// The end of a journal: its last place and that entry's turn, (0, 0) when it is empty. A pair, as the rules speak of it.
pub type End = (u16, u32);
