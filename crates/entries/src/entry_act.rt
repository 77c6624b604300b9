// What a note asks of the entry book.
ghost use Rattle.entries.specs.EntryBook.{Asks};

use crate::limits::{MAX_AMOUNT, MAX_RATE};
use books::book::MalformedNote;
use books::limits::MAX_NUMBER;
use protocol::note::Note;

// Opens an entry, gives its freight or its insurance, or closes it. That its figures are in range is asked where it is
// performed: an enum has no ghost field, and a struct round it would be opened at each use.
#[derive(Clone, Copy, PartialEq, Eq, Debug)]
pub enum EntryAct {
    Open { price: u32, rate: u32 },
    Freight(u32),
    Insurance(u32),
    Close,
}

// What the note asks of the entry of number b.
impl TryFrom<Note> for EntryAct {
    type Error = MalformedNote;

    ghost try_from_gives = { Asks };

    fn try_from(note: Note) -> Result<EntryAct, MalformedNote> {
        let Note { a, b, c, d } = note;
        if !(1..=MAX_NUMBER).contains(&b) || c > MAX_AMOUNT {
            return Err(MalformedNote);
        }
        match (a, c, d) {
            (1, price, rate) if rate <= MAX_RATE => Ok(EntryAct::Open { price, rate }),
            (2, freight, 0) => Ok(EntryAct::Freight(freight)),
            (3, insurance, 0) => Ok(EntryAct::Insurance(insurance)),
            (4, 0, 0) => Ok(EntryAct::Close),
            _ => Err(MalformedNote),
        }
    }
}
