// What a ring answers: each of its stations, how many frames wait for it, and the next turn.
ghost use Rattle.std.specs.Prelude.{◌≡◌, Some, None, Ok, Err};
ghost use Rattle.std.specs.List.{slice_get};
ghost use Rattle.protocol.specs.declared.refusal.Refusal.TheVariants.{NotOnRoll};
ghost use Rattle.station.specs.Meaning.{model};
ghost use Rattle.ring.specs.Meaning.{meaning};
ghost use Rattle.ring.specs.Questions.{asked, frames_for};

use super::Ring;
use books::book::Book;
use protocol::frame::Frame;
use protocol::refusal::Refusal;
use station::station::Station;
use wires::wire::Wire;

impl<W: Wire<Frame>, B: Book, R> Ring<W, B, R> {
    // A station of the roll, to be asked.
    pub fn station(&self, at: u32) -> Result<&Station<B>, Refusal>
        ensures { elim result [ Ok x ↦ slice_get (meaning B.means W.lines self.now).stations at ≡ Some (model B.means x.now) | Err e ↦ (slice_get (meaning B.means W.lines self.now).stations at ≡ None) × (e ≡ NotOnRoll) ] }
    {
        self.stations.get(at as usize).ok_or(Refusal::NotOnRoll)
    }

    // How many frames wait in a station's line.
    pub fn frames_waiting(&self, at: u32) -> Result<usize, Refusal>
        ensures { result ≡ asked (meaning B.means W.lines self.now) at (frames_for (meaning B.means W.lines self.now) at) }
    {
        self.station(at)?;
        Ok(self.wire.count(at as u8).unwrap_or(0))
    }

    // The number of the next turn.
    pub fn next_turn(&self) -> u32
        ensures { result ≡ (meaning B.means W.lines self.now).turn }
    {
        self.turn
    }
}
