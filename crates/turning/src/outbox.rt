// The notes that wait to be said.
ghost use Rattle.std.specs.Prelude.{◌≡◌, ◌≤◌, false, [], length, is_some, nat_lt};
ghost use Rattle.std.specs.List.{slice_get};
ghost use Rattle.protocol.specs.Limits.{outbox_places};
ghost use Rattle.queue.specs.Contents.{offered, oldest, rest};
ghost use Rattle.turning.specs.Calls.{waiting};

use protocol::limits::OUTBOX_PLACES;
use protocol::note::Note;
use queue::Queue;

// A circular queue, and the places that it is lent.
#[derive(Clone, Copy)]
pub struct Outbox {
    queue: Queue,
    notes: [Note; OUTBOX_PLACES],
}

impl Outbox {
    // An outbox in which no note waits.
    pub fn new() -> Outbox
        ensures { waiting result ≡ [] }
    {
        Outbox {
            queue: Queue::new(),
            notes: [Note::default(); OUTBOX_PLACES],
        }
    }

    // Adds a note behind the others; false where 16 wait already, and then nothing changes. There is no other reason.
    pub fn put(&mut self, note: Note) -> bool
        ensures value { result ≡ nat_lt (length (waiting self.old)) outbox_places }
        ensures after { waiting self.new ≡ offered outbox_places note (waiting self.old) }
        ensures same { result ≡ false → self.new ≡ self.old }
    {
        self.queue.push(&mut self.notes, note)
    }

    // Takes the oldest note out, if any waits.
    pub fn next(&mut self) -> Option<Note>
        ensures value { result ≡ oldest (waiting self.old) }
        ensures after { waiting self.new ≡ rest (waiting self.old) }
        ensures same { is_some result ≡ false → self.new ≡ self.old }
    {
        self.queue.pop(&self.notes)
    }

    // How many notes wait.
    pub fn len(&self) -> usize
        ensures value { result ≡ length (waiting self.now) }
        ensures bound { result ≤ outbox_places }
    {
        self.queue.len(&self.notes)
    }

    // The note that has `i` older ones before it.
    pub fn get(&self, i: usize) -> Option<Note>
        ensures { result ≡ slice_get (waiting self.now) i }
    {
        self.queue.get(&self.notes, i)
    }
}
