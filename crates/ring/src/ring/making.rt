// Making a ring.
ghost use Rattle.std.specs.Prelude.{◌≡◌, ◌≤◌, map, None, Ok, Err};
ghost use Rattle.protocol.specs.Limits.{max_stations};
ghost use Rattle.wires.specs.Lines.{silent};
ghost use Rattle.station.specs.Rules.{NotMade};
ghost use Rattle.station.specs.Meaning.{model};
ghost use Rattle.runs.specs.Rings.{new_stations, new_ring};
ghost use Rattle.ring.specs.Meaning.{meaning, ruling};
ghost use Rattle.ring.specs.Making.{ring_refused};

use super::Ring;
use books::book::StartingBook;
use protocol::frame::Frame;
use protocol::refusal::{MakeError, Refusal};
use station::station::Station;
use std::alloc::Global;
use vote::rule::VotingRule;
use wires::wire::Roll;

// Empties every line.
fn silence<W: Roll<Frame>>(wire: &mut W)
    ensures { W.Wire.lines wire.new ≡ silent (W.Wire.lines wire.old).roll }
{
    for at in 0..wire.roll() {
        let _ = wire.clear(at);
    }
}

// A new station for each number on the roll, each with a book of its own that means what the starting book means.
fn recruit<B: StartingBook + Drop>(
    heap: Global,
    roll: u8,
    book: &B,
) -> Result<Vec<Station<B>>, MakeError>
    requires { roll ≤ max_stations }
    ensures { elim result [ Ok v ↦ map (model B.Book.means) v.items ≡ new_stations roll (B.Book.means book.now) 0 roll | Err e ↦ NotMade None e ] }
{
    let mut stations = Vec::with_capacity(heap, roll as usize)?;
    for me in 0..roll {
        let own = book.duplicate()?;
        let station = Station::new(me, roll, own, heap)?;
        stations.push_reserved(station);
    }
    Ok(stations)
}

impl<W: Roll<Frame> + Drop, B: StartingBook + Drop, R: VotingRule + Drop> Ring<W, B, R> {
    // A ring whose stations are new and whose lines are empty, before turn 1. The wire and the rule have to be for one roll.
    pub fn new(heap: Global, mut wire: W, rule: R, book: &B) -> Result<Ring<W, B, R>, MakeError>
        ensures { elim result [ Ok v ↦ (ring_refused (W.Wire.lines wire).roll (R.size rule) ≡ None) × (meaning B.Book.means W.Wire.lines v ≡ new_ring (ruling R.size R.votes B.Book.next v) (B.Book.means book.now)) × (v.rule ≡ rule) | Err e ↦ NotMade (ring_refused (W.Wire.lines wire).roll (R.size rule)) e ] }
    {
        let roll = rule.roll();
        if wire.roll() != roll {
            return Err(Refusal::RollSize.into());
        }
        let stations = recruit(heap, roll, book)?;
        silence(&mut wire);
        Ok(Ring {
            stations,
            wire,
            rule,
            turn: 1,
        })
    }
}
