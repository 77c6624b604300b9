// Every limit of the rules, named once.

// the most stations of a roll, which are the bits of a mask
pub const MAX_STATIONS: u8 = 8;
// the frames that a line has room for
pub const LINE_PLACES: usize = 32;
// the frames that the lines of any roll have room for
pub const LINES_PLACES: usize = MAX_STATIONS as usize * LINE_PLACES;
// the places of a pool that serves all lines
pub const POOL_PLACES: usize = 256;
// the entries that a journal has room for
pub const JOURNAL_PLACES: usize = 256;
// the notes that an outbox has room for
pub const OUTBOX_PLACES: usize = 16;
// a note is appended only to a journal shorter than this
pub const NOTE_ROOM: usize = 240;
// the most notes that a station says in one turn
pub const NOTES_PER_TURN: u8 = 8;
// the most entries that are posted again for one wish
pub const RESENT_PER_TURN: usize = 8;
// the last turn's number
pub const LAST_TURN: u32 = 1_000_000;
// the largest weight of a station
pub const MAX_WEIGHT: u8 = 100;
