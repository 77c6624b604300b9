// The making of the wire, and its four calls: each works on the queue of a station, with the station's own places.
ghost use Rattle.std.specs.Prelude.{◌≡◌, ◌+◌, ◌*◌, ◌<◌, Some, None, Ok, Err, vec_len};
ghost use Rattle.protocol.specs.Limits.{line_places, max_stations};
ghost use Rattle.wires.specs.Lines.{silent};
ghost use Rattle.wires.specs.Calls.{changed, offering};
ghost use Rattle.lines.specs.LineWire.{line_lines};
ghost use Rattle.wires.specs.Making.{lines_refused};
ghost use Rattle.lines.specs.LineSound.{line_sound};

use super::LineWire;
use protocol::limits::{LINE_PLACES, MAX_STATIONS};
use protocol::refusal::Refusal;
use queue::Queue;
use std::ops::Range;
use wires::making::{Rejected, lent, lines_refused};
use wires::wire::{Roll, Wire, on_roll};

impl<T: Copy> LineWire<T> {
    // A wire whose lines are empty. It keeps its frames in the places that it is lent, 32 for each station, and hands
    // them back where it is refused.
    pub fn new(roll: u32, places: Vec<T>) -> Result<LineWire<T>, Rejected<Vec<T>>>
        ensures { elim result [ Ok w ↦ (lines_refused roll (vec_len places) ≡ None) × (line_lines w ≡ silent roll) | Err e ↦ (lines_refused roll (vec_len places) ≡ Some e.refusal) × (e.memory ≡ places) ] }
    {
        let places = lent(lines_refused(roll, places.len()), places)?;
        Ok(LineWire {
            roll: roll as u8,
            queues: [Queue::new(); MAX_STATIONS as usize],
            places,
        })
    }

    // Adds a frame to one line; a full line loses it.
    fn offer(&mut self, station: u8, frame: T)
        requires { station < self.old.roll }
        ensures { line_lines self.new ≡ changed (line_lines self.old) station (offering frame) }
    {
        let at = station as usize;
        self.queues[at].push(&mut self.places[part(at)], frame);
    }
}

impl<T: Copy> Wire<T> for LineWire<T> {
    ghost lines = { line_lines };

    ghost sound = { λ w. line_sound w };

    fn post(&mut self, sender: u8, frame: T) -> Result<(), Refusal> {
        on_roll(self.roll, sender)?;
        for station in 0..self.roll {
            if station != sender {
                self.offer(station, frame);
            }
        }
        Ok(())
    }

    fn take(&mut self, station: u8) -> Result<Option<T>, Refusal> {
        let at = on_roll(self.roll, station)?;
        Ok(self.queues[at].pop(&self.places[part(at)]))
    }

    fn clear(&mut self, station: u8) -> Result<(), Refusal> {
        let at = on_roll(self.roll, station)?;
        self.queues[at].clear();
        Ok(())
    }

    fn count(&self, station: u8) -> Result<usize, Refusal> {
        let at = on_roll(self.roll, station)?;
        Ok(self.queues[at].len(&self.places[part(at)]))
    }
}

impl<T: Copy> Roll<T> for LineWire<T> {
    fn roll(&self) -> u8 {
        self.roll
    }
}

// The places of one station.
fn part(at: usize) -> Range<usize>
    requires { at < max_stations }
    ensures start { result.start ≡ at * line_places }
    ensures end { result.end ≡ at * line_places + line_places }
{
    let start = at * LINE_PLACES;
    start..start + LINE_PLACES
}
