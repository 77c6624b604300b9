// What a book is: it reads notes, keeps a state and answers each note by a verdict.
ghost use Rattle.std.specs.Prelude.{◌≡◌, ℕ, IfOk, ◌≢◌};
ghost use Rattle.protocol.specs.declared.note.Note.{Note};

use protocol::note::Note;
use std::alloc::AllocError;

// A book's answer to a note, an enum of its own whose cases the rules number. The number is 0 if the note was taken.
pub trait Verdict {
    ghost number: { Self → ℕ };

    fn number(&self) -> u8
        ensures { result ≡ number self.now };
}

// A book means a state; a state and a note determine the next state and the verdict.
pub trait Book {
    type Verdict: Verdict + Drop;

    // how many things the book has room for
    const PLACES: usize;

    ghost State: { Type 0 };

    ghost means: { Self → State };

    ghost next: { State → Note → State };

    ghost verdict: { State → Note → Self.Verdict };

    // Answers a note. One that is not taken leaves the whole book as it is, and not only what it means.
    fn give(&mut self, note: Note) -> Self::Verdict
        ensures after { means self.new ≡ next (means self.old) note }
        ensures value { result ≡ verdict (means self.old) note }
        ensures same { (Self.Verdict.Verdict.number result ≢ 0) → self.new ≡ self.old };

    // A note that is not taken leaves the state as it is.
    ghost refused: { (s : State) (x : Note) → (Self.Verdict.Verdict.number (verdict s x) ≢ 0) → next s x ≡ s };
}

// A note that asks nothing of a book: another kind of note, a figure out of its range, or not 0 where 0 is due.
#[derive(Clone, Copy, PartialEq, Eq, Debug)]
pub struct MalformedNote;

// A book that others can start from.
pub trait StartingBook: Book + Sized {
    // A second book that means the same.
    fn duplicate(&self) -> Result<Self, AllocError>
        ensures { IfOk result (λ b. Self.Book.means b ≡ Self.Book.means self.now) };
}

// Gives a book a note and answers the verdict's number.
pub fn give_number<B: Book>(book: &mut B, note: Note) -> u8
    ensures after { B.means book.new ≡ B.next (B.means book.old) note }
    ensures value { result ≡ B.Verdict.Verdict.number (B.verdict (B.means book.old) note) }
    ensures same { (result ≢ 0) → book.new ≡ book.old }
{
    let verdict = book.give(note);
    verdict.number()
}
