// What a ring answers about each of its stations: state, journal, firm count, book, outbox, and what it keeps of the others.
#![tactic(auto)]

// Each question stands written out: a function `ask(ring, at, |station| ..)` for all would be no shorter than `ring.station(at)?`.
ghost use Rattle.std.specs.Prelude.{◌≡◌, Ok, Err};
ghost use Rattle.ring.specs.Meaning.{meaning};
ghost use Rattle.ring.specs.Questions.{asked};
ghost use Rattle.asking.specs.Parts.{state_of, length_of, entry_of, end_of_journal, view_of, firm_of, book_of, waiting_of, note_of, peer_in};

use books::book::Book;
use journal::peer::Peer;
use journal::state::State;
use protocol::entry::{End, Entry};
use protocol::frame::Frame;
use protocol::note::Note;
use protocol::refusal::Refusal;
use ring::ring::Ring;
use wires::wire::Wire;

// Whether a station runs, is joining, or is out, and why.
pub fn state<W: Wire<Frame>, B: Book, R>(ring: &Ring<W, B, R>, at: u32) -> Result<State, Refusal>
    ensures { result ≡ asked (meaning B.means W.lines ring.now) at state_of }
{
    Ok(ring.station(at)?.state())
}

// How many entries a station's journal has.
pub fn len<W: Wire<Frame>, B: Book, R>(ring: &Ring<W, B, R>, at: u32) -> Result<usize, Refusal>
    ensures { result ≡ asked (meaning B.means W.lines ring.now) at length_of }
{
    Ok(ring.station(at)?.len())
}

// The entry at a place of a station's journal, counted from 1; none outside.
pub fn entry<W: Wire<Frame>, B: Book, R>(
    ring: &Ring<W, B, R>,
    at: u32,
    place: usize,
) -> Result<Option<Entry>, Refusal>
    ensures { result ≡ asked (meaning B.means W.lines ring.now) at (entry_of place) }
{
    Ok(ring.station(at)?.entry(place))
}

// The last place of a station's journal and that entry's turn.
pub fn end<W: Wire<Frame>, B: Book, R>(ring: &Ring<W, B, R>, at: u32) -> Result<End, Refusal>
    ensures { result ≡ asked (meaning B.means W.lines ring.now) at end_of_journal }
{
    Ok(ring.station(at)?.end())
}

// The members of a station's newest view.
pub fn newest_view<W: Wire<Frame>, B: Book, R>(ring: &Ring<W, B, R>, at: u32) -> Result<u8, Refusal>
    ensures { result ≡ asked (meaning B.means W.lines ring.now) at view_of }
{
    Ok(ring.station(at)?.newest_view())
}

// How many entries of a station's journal are firm.
pub fn firm<W: Wire<Frame>, B: Book, R>(ring: &Ring<W, B, R>, at: u32) -> Result<u16, Refusal>
    ensures { result ≡ asked (meaning B.means W.lines ring.now) at firm_of }
{
    Ok(ring.station(at)?.firm())
}

// A station's book.
pub fn book<W: Wire<Frame>, B: Book, R>(ring: &Ring<W, B, R>, at: u32) -> Result<&B, Refusal>
    ensures { elim result [ Ok b ↦ asked (meaning B.means W.lines ring.now) at book_of ≡ Ok (B.means b.now) | Err e ↦ asked (meaning B.means W.lines ring.now) at book_of ≡ Err e ] }
{
    Ok(ring.station(at)?.book())
}

// How many notes wait in a station's outbox.
pub fn waiting<W: Wire<Frame>, B: Book, R>(ring: &Ring<W, B, R>, at: u32) -> Result<usize, Refusal>
    ensures { result ≡ asked (meaning B.means W.lines ring.now) at waiting_of }
{
    Ok(ring.station(at)?.waiting())
}

// The note of a station's outbox that has `i` older ones before it.
pub fn waiting_note<W: Wire<Frame>, B: Book, R>(
    ring: &Ring<W, B, R>,
    at: u32,
    i: usize,
) -> Result<Option<Note>, Refusal>
    ensures { result ≡ asked (meaning B.means W.lines ring.now) at (note_of i) }
{
    Ok(ring.station(at)?.waiting_note(i))
}

// What a station keeps of another one: heard mark, known place and wish; none for any other number.
pub fn peer<W: Wire<Frame>, B: Book, R>(
    ring: &Ring<W, B, R>,
    at: u32,
    other: u32,
) -> Result<Option<Peer>, Refusal>
    ensures { result ≡ asked (meaning B.means W.lines ring.now) at (peer_in other) }
{
    let station = ring.station(at)?;
    let other = u8::try_from(other).ok();
    Ok(other.and_then(|other| station.peer(other)))
}
