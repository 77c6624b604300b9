// The making of the wire, and its four calls: a frame is put in once, and goes out when the last station has taken it.
ghost use Rattle.std.specs.Prelude.{◌≡◌, ℕ, ◌^◌, ◌<◌, ◌≤◌, false, length, is_some, Some, None, Ok, Err, vec_len};
ghost use Rattle.protocol.specs.Limits.{line_places, pool_places};
ghost use Rattle.queue.specs.Contents.{oldest};
ghost use Rattle.vote.specs.Mask.{has};
ghost use Rattle.wires.specs.Lines.{silent};
ghost use Rattle.wires.specs.Calls.{taken};
ghost use Rattle.wires.specs.Making.{pool_refused};
ghost use Rattle.pool.specs.Pool.{receives};
ghost use Rattle.pool.specs.PoolWire.{pool_lines};
ghost use Rattle.pool.specs.Pools.{line_off};

use super::PoolWire;
use super::places::{line_len, oldest_at};
use crate::place::Place;
use protocol::limits::LINE_PLACES;
use protocol::refusal::Refusal;
use vote::mask::{with, without};
use wires::making::{Rejected, lent, pool_refused};
use wires::wire::{Roll, Wire, on_roll};

impl<T: Copy> PoolWire<T> {
    // A wire whose lines are empty. It keeps its frames in the places that it is lent, 256 or more, and hands them back
    // where it is refused. What the places hold does not matter.
    pub fn new(roll: u32, places: Vec<Place<T>>) -> Result<PoolWire<T>, Rejected<Vec<Place<T>>>>
        ensures { elim result [ Ok w ↦ (pool_refused roll (vec_len places) ≡ None) × (pool_lines w ≡ silent roll) | Err e ↦ (pool_refused roll (vec_len places) ≡ Some e.refusal) × (e.memory ≡ places) ] }
    {
        let mut places = lent(pool_refused(roll, places.len()), places)?;
        places.clear();
        Ok(PoolWire {
            roll: roll as u8,
            pool: places,
        })
    }

    // How many places are in use: never more than 256, and fewer while some line has room.
    pub fn used(&self) -> usize
        ensures value { result ≡ length self.now.pool.items }
        ensures most { result ≤ pool_places }
        ensures free { (s : ℕ) → s < self.now.roll → length ((pool_lines self.now).at s) < line_places → result < pool_places }
    {
        self.pool.len()
    }

    // Removes the oldest frame of a line. A place that waits for no other station is free again.
    fn remove_oldest(&mut self, station: u8) -> Option<T>
        requires { station < self.old.roll }
        ensures value { result ≡ oldest ((pool_lines self.old).at station) }
        ensures after { pool_lines self.new ≡ taken (pool_lines self.old) station }
        ensures same { is_some result ≡ false → self.new ≡ self.old }
    {
        let at = oldest_at(&self.pool, station)?;
        let place = self.pool[at];
        let waits = without(place.waits, with(0, station));
        if waits == 0 {
            self.pool.remove(at);
        } else {
            self.pool[at].waits = waits;
        }
        Some(place.frame)
    }

    // The stations that a frame is put in line for: those on the roll that have room, but for the sender.
    fn receivers(&self, sender: u8) -> u8
        ensures each { (t : ℕ) → has result t ≡ receives self.now.roll self.now.pool.items sender t }
        ensures bound { result < 2 ^ self.now.roll }
    {
        let mut set = 0;
        for station in 0..self.roll {
            if station != sender && line_len(&self.pool, station) < LINE_PLACES {
                set = with(set, station);
            }
        }
        set
    }
}

impl<T: Copy> Wire<T> for PoolWire<T> {
    ghost lines = { pool_lines };

    ghost sound = { λ w. record { some = w.some; few = w.few; short = w.short; off = λ s h. line_off w.roll s w.pool.items h w.listed } };

    fn post(&mut self, sender: u8, frame: T) -> Result<(), Refusal> {
        on_roll(self.roll, sender)?;
        let waits = self.receivers(sender);
        if waits != 0 {
            self.pool.push_reserved(Place { frame, waits });
        }
        Ok(())
    }

    fn take(&mut self, station: u8) -> Result<Option<T>, Refusal> {
        on_roll(self.roll, station)?;
        Ok(self.remove_oldest(station))
    }

    fn clear(&mut self, station: u8) -> Result<(), Refusal> {
        on_roll(self.roll, station)?;
        while self.remove_oldest(station).is_some() {}
        Ok(())
    }

    fn count(&self, station: u8) -> Result<usize, Refusal> {
        on_roll(self.roll, station)?;
        Ok(line_len(&self.pool, station))
    }
}

impl<T: Copy> Roll<T> for PoolWire<T> {
    fn roll(&self) -> u8 {
        self.roll
    }
}
