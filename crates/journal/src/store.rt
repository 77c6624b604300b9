// Where a journal is kept: the rules are proved over any journal, and the owned one is the first.
ghost use Rattle.std.specs.Prelude.{◌≡◌, ℕ, ◌<◌, ◌≤◌, List, [], ◌∷◌, ◌++◌, length, vec_len, vec_capacity};
ghost use Rattle.protocol.specs.Limits.{journal_places};
ghost use Rattle.protocol.specs.declared.entry.Entry.{Entry};

use protocol::entry::Entry;

// A journal of at most 256 entries, wherever its memory is.
pub trait Journal {
    ghost entries: { Self → List Entry };

    // where the memory is: pushing leaves it there, so what lent it gets the journal back
    ghost home: { Self → ℕ };

    fn as_slice(&self) -> &[Entry]
        ensures value { result.now ≡ entries self.now }
        ensures bound { length result.now ≤ journal_places };

    fn push(&mut self, e: Entry)
        requires { length (entries self.old) < journal_places }
        ensures entries { entries self.new ≡ entries self.old ++ (e ∷ []) }
        ensures home { home self.new ≡ home self.old };
}

// A journal in memory of its own, which has room for all entries from the start.
#[derive(Drop)]
pub struct Owned {
    pub items: Vec<Entry>,
    ghost room: { journal_places ≤ vec_capacity items },
    ghost bounded: { vec_len items ≤ journal_places },
}

impl Journal for Owned {
    ghost entries = { λ j. j.items.items };

    ghost home = { λ _. 0 };

    fn as_slice(&self) -> &[Entry] {
        self.items.as_slice()
    }

    fn push(&mut self, e: Entry) {
        self.items.push_reserved(e);
    }
}
