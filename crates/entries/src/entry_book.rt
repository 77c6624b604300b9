// The book of customs entries.
ghost use Rattle.std.specs.Prelude.{◌≤◌, vec_len, vec_capacity};
ghost use Rattle.entries.specs.Limits.{entry_places};
ghost use Rattle.books.specs.Places.{Apart};
ghost use Rattle.entries.specs.EntryBook.{numbers, InRange};

use crate::customs_entry::CustomsEntry;

pub mod calls;

// The entries in order of opening. The room for all of them is there from the start, so giving a note never allocates.
// No number stands twice, so a number says which entry is meant.
#[derive(Drop)]
pub struct EntryBook {
    entries: Vec<CustomsEntry>,
    ghost room: { entry_places ≤ vec_capacity entries },
    ghost bounded: { vec_len entries ≤ entry_places },
    ghost apart: { Apart (numbers entries.items) },
    ghost ranged: { InRange entries.items },
}
