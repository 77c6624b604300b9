// The calls on a station outside its turn.
ghost use Rattle.std.specs.Prelude.{◌≡◌, true, false, Ok, Err};
ghost use Rattle.journal.specs.Core.{is_out};
ghost use Rattle.station.specs.Rules.{note_call, take_call, stop_call, enter_call};
ghost use Rattle.station.specs.Meaning.{core, model, Answered};

use super::Station;
use books::book::Book;
use journal::peer::clear_wishes;
use journal::state::{Cause, State};
use protocol::frame::Frame;
use protocol::note::Note;
use protocol::refusal::Refusal;
use taking::take::take;
use vote::rule::VotingRule;

impl<B: Book> Station<B> {
    // Refuses what is not for a station that is out.
    fn refuse_out(&self) -> Result<(), Refusal>
        ensures { elim result [ Ok k ↦ is_out (core self.now).state ≡ false | Err e ↦ (is_out (core self.now).state ≡ true) × (e ≡ Refusal.IsOut) ] }
    {
        if self.member.status.state.is_out() {
            return Err(Refusal::IsOut);
        }
        Ok(())
    }

    // Puts a note in the outbox.
    pub fn note(&mut self, note: Note) -> Result<(), Refusal>
        ensures { Answered B.means (note_call note (model B.means self.old)) self.old result self.new }
    {
        self.refuse_out()?;
        if !self.outbox.put(note) {
            return Err(Refusal::OutboxFull);
        }
        Ok(())
    }

    // Takes a frame.
    pub fn take<R: VotingRule>(&mut self, rule: &R, frame: &Frame) -> Result<(), Refusal>
        ensures { Answered B.means (take_call B.next (R.votes rule.now) frame.now (model B.means self.old)) self.old result self.new }
    {
        self.refuse_out()?;
        take(&mut self.member, &mut self.book, rule, frame);
        Ok(())
    }

    // Puts the station out.
    pub fn stop(&mut self) -> Result<(), Refusal>
        ensures { Answered B.means (stop_call (model B.means self.old)) self.old result self.new }
    {
        self.refuse_out()?;
        self.member.status.state = State::Out(Cause::Stopped);
        Ok(())
    }

    // Lets a station that is out ask to be let in again. Its ring clears its line.
    pub fn enter(&mut self) -> Result<(), Refusal>
        ensures { Answered B.means (enter_call B.next (model B.means self.old)) self.old result self.new }
    {
        if !self.member.status.state.is_out() {
            return Err(Refusal::NotOut);
        }
        self.member.status.state = State::Joining;
        clear_wishes(&mut self.member.status.peers);
        self.member.settle(&mut self.book);
        Ok(())
    }
}
