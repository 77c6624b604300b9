// Calls on a ring as values, one and many, and runs of calls on a new ring.
ghost use Rattle.std.specs.Prelude.{◌≡◌, map, None, Ok, Err};
ghost use Rattle.station.specs.Rules.{NotMade};
ghost use Rattle.runs.specs.Rings.{result_number};
ghost use Rattle.ring.specs.Calls.{Stepped, Called};
ghost use Rattle.ring.specs.Making.{ring_refused};
ghost use Rattle.ring.specs.Performing.{Performed};

use super::Ring;
use books::book::{Book, StartingBook};
use protocol::frame::Frame;
use protocol::refusal::{MakeError, Refusal};
use runs::call::Call;
use std::alloc::{AllocError, Global};
use vote::rule::VotingRule;
use wires::wire::{Roll, Wire};

impl<W: Wire<Frame>, B: Book, R: VotingRule> Ring<W, B, R> {
    // Makes one call.
    pub fn call(&mut self, call: Call) -> Result<(), Refusal>
        ensures { Stepped B.means W.lines R.size R.votes B.next call self.old result self.new }
    {
        match call {
            Call::Note { at, note } => self.note(at, note),
            Call::Turn => self.turn(),
            Call::Take { at } => self.take(at),
            Call::Lose { at } => self.lose(at),
            Call::Stop { at } => self.stop(at),
            Call::Enter { at } => self.enter(at),
        }
    }

    // Makes some calls in order, and hands back what each answered. Where memory is wanting for these, no call is made.
    pub fn call_all(
        &mut self,
        heap: Global,
        calls: &[Call],
    ) -> Result<Vec<Result<(), Refusal>>, AllocError>
        ensures { elim result [ Ok v ↦ Called B.means W.lines R.size R.votes B.next calls.now self.old v.items self.new | Err e ↦ self.new ≡ self.old ] }
    {
        let mut given = Vec::with_capacity(heap, calls.len())?;
        for call in calls {
            given.push_reserved(self.call(*call));
        }
        Ok(given)
    }
}

// Makes a new ring and some calls on it: what they leave and answer, and what is promised of every such run.
pub fn perform<W: Roll<Frame> + Drop, B: StartingBook + Drop, R: VotingRule + Drop>(
    heap: Global,
    wire: W,
    rule: R,
    book: &B,
    calls: &[Call],
) -> Result<(Ring<W, B, R>, Vec<Result<(), Refusal>>), MakeError>
    ensures { elim result [ Ok p ↦ (ring_refused (W.Wire.lines wire).roll (R.size rule) ≡ None) × (p.0.rule ≡ rule) × Performed B.Book.means W.Wire.lines R.size R.votes B.Book.next (B.Book.means book.now) calls.now p.0 (map result_number p.1.items) | Err e ↦ NotMade (ring_refused (W.Wire.lines wire).roll (R.size rule)) e ] }
{
    let mut ring = Ring::new(heap, wire, rule, book)?;
    let given = ring.call_all(heap, calls)?;
    Ok((ring, given))
}
