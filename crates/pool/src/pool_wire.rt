// The wire that keeps each frame once, in the order of posting, with the mask of the stations that it waits for.
ghost use Rattle.std.specs.Prelude.{◌≤◌, vec_capacity};
ghost use Rattle.protocol.specs.Limits.{max_stations, pool_places};
ghost use Rattle.pool.specs.Pool.{Busy, Listed, Short};

use crate::place::Place;

pub mod calls;
mod places;

#[derive(Drop)]
pub struct PoolWire<T> {
    roll: u8,
    // the places in use; the others are the rest of its memory
    pool: Vec<Place<T>>,
    ghost some: { 1 ≤ roll },
    ghost few: { roll ≤ max_stations },
    ghost room: { pool_places ≤ vec_capacity pool },
    ghost busy: { Busy pool.items },
    ghost listed: { Listed roll pool.items },
    ghost short: { Short pool.items },
}
