// A claim, and what a note asks for it.
ghost use Rattle.claims.specs.ClaimBook.{Asks};

use books::book::MalformedNote;
use books::limits::MAX_NUMBER;
use protocol::limits::MAX_STATIONS;
use protocol::note::Note;

// The station has the paper file.
#[derive(Clone, Copy, PartialEq, Eq, Debug)]
pub struct Claim {
    pub file: u32,
    pub station: u8,
}

// Makes a claim, or releases it.
#[derive(Clone, Copy, PartialEq, Eq, Debug)]
pub enum ClaimAct {
    Make(Claim),
    Release(Claim),
}

// What the note asks.
impl TryFrom<Note> for ClaimAct {
    type Error = MalformedNote;

    ghost try_from_gives = { Asks };

    fn try_from(note: Note) -> Result<ClaimAct, MalformedNote> {
        if !(1..=MAX_NUMBER).contains(&note.b) || note.c >= u32::from(MAX_STATIONS) || note.d != 0 {
            return Err(MalformedNote);
        }
        let claim = Claim {
            file: note.b,
            station: note.c as u8,
        };
        match note.a {
            1 => Ok(ClaimAct::Make(claim)),
            2 => Ok(ClaimAct::Release(claim)),
            _ => Err(MalformedNote),
        }
    }
}
