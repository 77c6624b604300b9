// The wire that keeps a queue of 32 places for each station.
ghost use Rattle.std.specs.Prelude.{◌*◌, ◌≤◌, vec_len};
ghost use Rattle.protocol.specs.Limits.{line_places, max_stations};

use protocol::limits::MAX_STATIONS;
use queue::Queue;

pub mod calls;

#[derive(Drop)]
pub struct LineWire<T> {
    roll: u8,
    // one for each number that a station can have; each call lends it its part of the places
    queues: [Queue; MAX_STATIONS as usize],
    // those of station 0 come first, then those of station 1, and so on
    places: Vec<T>,
    ghost some: { 1 ≤ roll },
    ghost few: { roll ≤ max_stations },
    ghost fits: { roll * line_places ≤ vec_len places },
}
