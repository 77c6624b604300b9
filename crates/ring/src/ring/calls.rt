// The six calls on a ring.
ghost use Rattle.std.specs.Prelude.{◌≡◌, OnErr, slice_get};
ghost use Rattle.std.specs.Borrow.{sem};
ghost use Rattle.queue.specs.Contents.{oldest};
ghost use Rattle.wires.specs.Calls.{taken};
ghost use Rattle.runs.specs.declared.call.Call.TheVariants as call;
ghost use Rattle.ring.specs.Seats.{LendsSeat};
ghost use Rattle.ring.specs.Calls.{Stepped};

use super::Ring;
use books::book::Book;
use protocol::frame::Frame;
use protocol::note::Note;
use protocol::refusal::Refusal;
use std::alloc::Allocator;
use vote::rule::VotingRule;
use wires::wire::Wire;

// The station in a place, or else this refusal. With an `ok_or` for the `else`, the check loses what the station is lent from.
fn seat<T, A: Allocator>(
    stations: &mut Vec<T, A>,
    at: u32,
    refusal: Refusal,
) -> Result<&mut T, Refusal>
    ensures* writes_back { sem 𝓛 (LendsSeat T.row A.row A.Allocator stations.entry at result) }
    ensures value { elim result [ Ok x ↦ slice_get stations.old.items at ≡ Some x.now | Err e ↦ (slice_get stations.old.items at ≡ None) × (e ≡ refusal) ] }
{
    let Some(station) = stations.get_mut(at as usize) else {
        return Err(refusal);
    };
    Ok(station)
}

// Takes the oldest frame of a station's line off the wire.
fn next_frame<W: Wire<Frame>>(wire: &mut W, at: u8) -> Result<Frame, Refusal>
    ensures value { elim result [ Ok f ↦ oldest ((W.lines wire.old).at at) ≡ Some f | Err e ↦ (oldest ((W.lines wire.old).at at) ≡ None) × (e ≡ Refusal.LineEmpty) ] }
    ensures after { W.lines wire.new ≡ taken (W.lines wire.old) at }
    ensures same { OnErr result (wire.new ≡ wire.old) }
{
    wire.take(at).ok().flatten().ok_or(Refusal::LineEmpty)
}

impl<W: Wire<Frame>, B: Book, R: VotingRule> Ring<W, B, R> {
    // Puts a note in a station's outbox.
    pub fn note(&mut self, at: u32, note: Note) -> Result<(), Refusal>
        ensures { Stepped B.means W.lines R.size R.votes B.next (call.Note at note) self.old result self.new }
    {
        // taken by its place, here and in `stop`: their must-fail edits put another place there
        self.station(at)?;
        self.stations[at as usize].note(note)
    }

    // Performs the next whole turn.
    pub fn turn(&mut self) -> Result<(), Refusal>
        ensures { Stepped B.means W.lines R.size R.votes B.next call.Turn self.old result self.new }
    {
        let owner = (self.turn - 1) % self.rule.roll() as u32;
        let station = seat(&mut self.stations, owner, Refusal::WrongTurn)?;
        station.turn(&mut self.wire, &self.rule, self.turn)?;
        self.turn += 1;
        Ok(())
    }

    // Lets a station take its oldest frame.
    pub fn take(&mut self, at: u32) -> Result<(), Refusal>
        ensures { Stepped B.means W.lines R.size R.votes B.next (call.Take at) self.old result self.new }
    {
        let station = seat(&mut self.stations, at, Refusal::NotOnRoll)?;
        if station.state().is_out() {
            return Err(Refusal::IsOut);
        }
        let frame = next_frame(&mut self.wire, at as u8)?;
        station.take(&self.rule, &frame)
    }

    // Removes the oldest frame of a station's line unread.
    pub fn lose(&mut self, at: u32) -> Result<(), Refusal>
        ensures { Stepped B.means W.lines R.size R.votes B.next (call.Lose at) self.old result self.new }
    {
        self.station(at)?;
        let _ = next_frame(&mut self.wire, at as u8)?;
        Ok(())
    }

    // Puts a station out.
    pub fn stop(&mut self, at: u32) -> Result<(), Refusal>
        ensures { Stepped B.means W.lines R.size R.votes B.next (call.Stop at) self.old result self.new }
    {
        self.station(at)?;
        self.stations[at as usize].stop()
    }

    // Makes a station that is out joining, and clears its line.
    pub fn enter(&mut self, at: u32) -> Result<(), Refusal>
        ensures { Stepped B.means W.lines R.size R.votes B.next (call.Enter at) self.old result self.new }
    {
        let station = seat(&mut self.stations, at, Refusal::NotOnRoll)?;
        station.enter()?;
        let _ = self.wire.clear(at as u8);
        Ok(())
    }
}
