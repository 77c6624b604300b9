// A station with its memory.
ghost use Rattle.std.specs.Prelude.{◌≡◌, true};
ghost use Rattle.journal.specs.Members.{member_core};
ghost use Rattle.station.specs.Sound.{is_sound};

use journal::member::Member;
use journal::store::Owned;
use turning::outbox::Outbox;

pub mod calls;
pub mod making;
pub mod questions;
pub mod turns;

// A member of a ring with a journal of its own, the notes that wait to be said, and its book.
#[derive(Drop)]
pub struct Station<B> {
    member: Member<Owned>,
    outbox: Outbox,
    book: B,
    // known places are within the journal, and every entry has its place
    ghost sound: { is_sound (member_core member) ≡ true },
}
