// Making a station.
ghost use Rattle.std.specs.Prelude.{◌≡◌, None, Ok, Err};
ghost use Rattle.station.specs.Model.{new_model};
ghost use Rattle.station.specs.Rules.{new_refused, NotMade};
ghost use Rattle.station.specs.Meaning.{model};

use super::Station;
use books::book::Book;
use journal::member::Member;
use journal::peer::{PEERS, Peer};
use journal::state::State;
use journal::status::Status;
use journal::store::Owned;
use protocol::limits::{JOURNAL_PLACES, MAX_STATIONS};
use protocol::refusal::{MakeError, Refusal};
use std::alloc::Global;
use turning::outbox::Outbox;

// What a station of a new ring keeps of each other one.
const NEW_PEER: Peer = Peer {
    heard: true,
    known: 0,
    wish: None,
};

impl<B: Book + Drop> Station<B> {
    // A station of a new ring: number `me` on a roll of so many, with this book to start from.
    pub fn new(me: u8, roll: u8, book: B, heap: Global) -> Result<Station<B>, MakeError>
        ensures { elim result [ Ok s ↦ (new_refused me roll ≡ None) × (model B.Book.means s ≡ new_model me roll (B.Book.means book)) × (s.book ≡ book) | Err e ↦ NotMade (new_refused me roll) e ] }
    {
        if me >= roll {
            return Err(Refusal::NotOnRoll.into());
        }
        if roll > MAX_STATIONS {
            return Err(Refusal::RollSize.into());
        }
        let items = Vec::with_capacity(heap, JOURNAL_PLACES)?;
        Ok(Station {
            member: Member {
                status: Status {
                    me,
                    roll,
                    state: State::Running,
                    firm: 0,
                    peers: [NEW_PEER; PEERS],
                },
                journal: Owned { items },
            },
            outbox: Outbox::new(),
            book,
        })
    }
}
