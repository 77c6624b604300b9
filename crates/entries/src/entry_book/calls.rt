// What can be done with an entry book.
ghost use Rattle.std.specs.Prelude.{◌≡◌, ◌<◌, true, List, [], length, position, IfOk, None, slice_index_or, slice_set};
ghost use Rattle.books.specs.Places.{at_place};
ghost use Rattle.books.specs.Answers.{Answered};
ghost use Rattle.books.specs.Limits.{is_number};
ghost use Rattle.entries.specs.EntryBook.{entry_verdict_number, lawful_act, has_number, no_entry, entry_of, is_taken, entry_after, act_next, asked_next, entry_act, known_verdict, unknown_verdict, entry_verdict, entry_next};
ghost use Rattle.entries.specs.EntryState.{entries_of};
ghost use Rattle.entries.specs.declared.customs_entry.CustomsEntry.{CustomsEntry};
ghost use Rattle.std.proofs.lemmas.Bool.{cond-false, ne_eqb};

use crate::customs_entry::CustomsEntry;
use crate::entry_act::EntryAct;
use crate::entry_book::EntryBook;
use crate::entry_verdict::EntryVerdict;
use crate::limits::ENTRY_PLACES;
use books::book::{Book, StartingBook};
use books::search::{at_place, find_first, first_place};
use protocol::note::Note;
use std::alloc::{AllocError, Global};

impl EntryBook {
    // An empty book.
    pub fn new(heap: Global) -> Result<EntryBook, AllocError>
        ensures { IfOk result (λ b. entries_of b ≡ []) }
    {
        let entries = Vec::with_capacity(heap, ENTRY_PLACES)?;
        Ok(EntryBook { entries })
    }

    // How many entries the book holds.
    pub fn count(&self) -> usize
        ensures { result ≡ length (entries_of self.now) }
    {
        self.entries.len()
    }

    // The entries in order of opening.
    pub fn entries(&self) -> &[CustomsEntry]
        ensures { result.now ≡ entries_of self.now }
    {
        self.entries.as_slice()
    }

    // The entry at a place, counted from 1 in order of opening.
    pub fn at(&self, place: usize) -> Option<CustomsEntry>
        ensures { result ≡ at_place place (entries_of self.now) }
    {
        at_place(&self.entries, place)
    }

    // The entry of that number.
    pub fn find(&self, number: u32) -> Option<CustomsEntry>
        ensures { result ≡ entry_of number (entries_of self.now) }
    {
        find_first(&self.entries, |entry| entry.number == number)
    }

    // The place of the entry of that number, counted from 0.
    fn place_of(&self, number: u32) -> Option<usize>
        ensures { result ≡ position (has_number number) (entries_of self.now) }
    {
        first_place(&self.entries, |entry| entry.number == number)
    }

    // Performs an act that names no entry of the book.
    fn enter(&mut self, number: u32, act: EntryAct) -> EntryVerdict
        requires unknown { position (has_number number) (entries_of self.old) ≡ None }
        requires numbered { is_number number ≡ true }
        requires lawful { lawful_act act ≡ true }
        ensures { Answered entry_verdict_number entries_of self.old self.new result (unknown_verdict act (length (entries_of self.old))) (act_next act number (entries_of self.old)) }
    {
        let EntryAct::Open { price, rate } = act else {
            return EntryVerdict::UnknownEntry;
        };
        if self.count() >= ENTRY_PLACES {
            return EntryVerdict::NoPlace;
        }
        self.entries.push_reserved(CustomsEntry {
            number,
            price,
            rate,
            freight: None,
            insurance: None,
            duty: None,
        });
        EntryVerdict::Taken
    }

    // Performs an act that names the entry at that place, counted from 0.
    fn change(&mut self, place: usize, act: EntryAct) -> EntryVerdict
        requires within { place < length (entries_of self.old) }
        requires lawful { lawful_act act ≡ true }
        ensures { let entry = slice_index_or (entries_of self.old) place no_entry in Answered entry_verdict_number entries_of self.old self.new result (known_verdict act entry) (slice_set (entries_of self.old) place (entry_after act entry)) }
    {
        let entry = self.entries[place];
        let verdict = entry.verdict_on(act);
        if matches!(verdict, EntryVerdict::Taken) {
            self.entries[place] = entry.after(act);
        }
        verdict
    }
}

impl Book for EntryBook {
    type Verdict = EntryVerdict;

    const PLACES: usize = ENTRY_PLACES;

    ghost State = { List CustomsEntry };

    ghost means = { entries_of };

    ghost next = { entry_next };

    ghost verdict = { entry_verdict };

    ghost refused = { λ s x refused. cond-false (is_taken (entry_verdict s x)) (asked_next (entry_act x) x.b s) s (ne_eqb (entry_verdict_number (entry_verdict s x)) 0 refused) };

    fn give(&mut self, note: Note) -> EntryVerdict {
        let Ok(act) = EntryAct::try_from(note) else {
            return EntryVerdict::Malformed;
        };
        match self.place_of(note.b) {
            Some(place) => self.change(place, act),
            None => self.enter(note.b, act),
        }
    }
}

impl StartingBook for EntryBook {
    fn duplicate(&self) -> Result<EntryBook, AllocError> {
        // a clone has no room for further entries
        let mut entries = Vec::with_capacity(*self.entries.allocator(), ENTRY_PLACES)?;
        entries.extend_from_slice(&self.entries)?;
        Ok(EntryBook { entries })
    }
}
