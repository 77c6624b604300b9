// What a station answers about itself.
ghost use Rattle.std.specs.Prelude.{◌≡◌, ◌≤◌, length};
ghost use Rattle.std.specs.List.{slice_get};
ghost use Rattle.protocol.specs.Limits.{journal_places, outbox_places};
ghost use Rattle.journal.specs.Journal.{entry_at, end_of};
ghost use Rattle.journal.specs.Settle.{view};
ghost use Rattle.turning.specs.Calls.{waiting};
ghost use Rattle.station.specs.Meaning.{core};
ghost use Rattle.station.specs.Sound.{peer_of, KnownWithin, HasPlace};

use super::Station;
use journal::peer::Peer;
use journal::reading::entry_at;
use journal::state::State;
use journal::store::Journal;
use protocol::entry::{End, Entry};
use protocol::note::Note;
use taking::lawful::is_other;

impl<B> Station<B> {
    // Its number on the roll.
    pub fn number(&self) -> u8
        ensures { result ≡ (core self.now).me }
    {
        self.member.status.me
    }

    // How many stations its roll has.
    pub fn roll(&self) -> u8
        ensures { result ≡ (core self.now).roll }
    {
        self.member.status.roll
    }

    // Whether it runs, is joining, or is out, and why.
    pub fn state(&self) -> State
        ensures { result ≡ (core self.now).state }
    {
        self.member.status.state
    }

    // How many entries its journal has.
    pub fn len(&self) -> usize
        ensures value { result ≡ length (core self.now).journal }
        ensures bound { result ≤ journal_places }
    {
        self.member.journal.as_slice().len()
    }

    // The entries of its journal, in order.
    pub fn journal(&self) -> &[Entry]
        ensures { result.now ≡ (core self.now).journal }
    {
        let held = &self.member.journal;
        held.as_slice()
    }

    // The entry at a place of its journal, counted from 1; none outside.
    pub fn entry(&self, place: usize) -> Option<Entry>
        ensures value { result ≡ entry_at (core self.now).journal place }
        ensures at { HasPlace place result }
    {
        entry_at(self.member.journal.as_slice(), place)
    }

    // The last place of its journal and that entry's turn.
    pub fn end(&self) -> End
        ensures { result ≡ end_of (core self.now).journal }
    {
        self.member.end()
    }

    // The members of its newest view.
    pub fn newest_view(&self) -> u8
        ensures { result ≡ view (core self.now) }
    {
        self.member.newest_view()
    }

    // How many entries of its journal are firm.
    pub fn firm(&self) -> u16
        ensures value { result ≡ (core self.now).firm }
        ensures bound { result ≤ length (core self.now).journal }
    {
        self.member.status.firm
    }

    // Its book.
    pub fn book(&self) -> &B
        ensures { result.now ≡ self.now.book }
    {
        &self.book
    }

    // How many notes wait in its outbox.
    pub fn waiting(&self) -> usize
        ensures value { result ≡ length (waiting self.now.outbox) }
        ensures bound { result ≤ outbox_places }
    {
        self.outbox.len()
    }

    // The waiting note that has `i` older ones before it.
    pub fn waiting_note(&self, i: usize) -> Option<Note>
        ensures { result ≡ slice_get (waiting self.now.outbox) i }
    {
        self.outbox.get(i)
    }

    // What it keeps of another station of the roll: heard mark, known place and wish; none for any other number.
    pub fn peer(&self, s: u8) -> Option<Peer>
        ensures value { result ≡ peer_of (core self.now) s }
        ensures bound { KnownWithin (length (core self.now).journal) result }
    {
        let status = &self.member.status;
        if !is_other(status.me, status.roll, s) {
            return None;
        }
        Some(status.peers[s as usize])
    }
}
