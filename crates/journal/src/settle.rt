// What a member's journal says of the others, and working its firm count out again.
ghost use Rattle.std.specs.Prelude.{◌≡◌, ◌≤◌, length};
ghost use Rattle.journal.specs.Core.{core_of};
ghost use Rattle.journal.specs.Journal.{end_of};
ghost use Rattle.journal.specs.Settle.{feed, fed, view, known_to_all, settle};
ghost use Rattle.journal.specs.Members.{member_core, Followed};

use crate::member::Member;
use crate::peer::least_of;
use crate::reading::{end_of, view_of};
use crate::status::Status;
use crate::store::Journal;
use books::book::Book;
use protocol::entry::{Body, End, Entry};
use vote::mask::whole;

// Gives the note of an entry, if it has one, to a book.
fn feed_body<B: Book>(book: &mut B, body: &Body)
    ensures { B.means book.new ≡ feed B.next (B.means book.old) body.now }
{
    if let Body::Note(note) = body {
        let _ = book.give(*note);
    }
}

// Gives the notes of entries to a book, in order.
fn feed_all<B: Book>(book: &mut B, entries: &[Entry])
    ensures { B.means book.new ≡ fed B.next (B.means book.old) entries.now }
{
    for e in entries {
        feed_body(book, &e.body);
    }
}

impl Status {
    // The members of the newest view.
    pub fn newest_view(&self, journal: &[Entry]) -> u8
        ensures { result ≡ view (core_of self.now journal.now) }
    {
        view_of(journal, whole(self.roll))
    }
}

impl<J: Journal> Member<J> {
    // The last place of its journal and that entry's turn.
    pub fn end(&self) -> End
        ensures { result ≡ end_of (member_core self.now).journal }
    {
        end_of(self.journal.as_slice())
    }

    // The members of its newest view.
    pub fn newest_view(&self) -> u8
        ensures { result ≡ view (member_core self.now) }
    {
        self.status.newest_view(self.journal.as_slice())
    }

    // The smallest of its length and the known places of the other members of its newest view.
    fn known_to_all(&self) -> u16
        ensures value { result ≡ known_to_all (member_core self.now) }
        ensures bound { result ≤ length (J.entries self.now.journal) }
    {
        let status = &self.status;
        let length = self.journal.as_slice().len() as u16;
        least_of(&status.peers, status.me, self.newest_view(), length)
    }

    // Works the firm count out again, and gives newly firm notes to the book.
    pub fn settle<B: Book>(&mut self, book: &mut B)
        ensures station { member_core self.new ≡ settle (member_core self.old) }
        ensures journal { self.new.journal ≡ self.old.journal }
        ensures book { Followed B.means B.next self.old self.new book.old book.new }
    {
        let before = usize::from(self.status.firm);
        self.status.firm = self.status.firm.max(self.known_to_all());
        let firm = usize::from(self.status.firm);
        feed_all(book, &self.journal.as_slice()[before..firm]);
    }
}
