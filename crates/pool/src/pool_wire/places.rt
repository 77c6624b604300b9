// The places of a pool that are in use, searched for one station.
ghost use Rattle.std.specs.Prelude.{◌≡◌, [], length, MatchOption};
ghost use Rattle.pool.specs.Pool.{line_of, First};

use crate::place::Place;
use vote::mask::contains;

// How many frames wait for a station: a sum, since `filter` and `count` took up to twice the time, at every post.
pub fn line_len<T: Copy>(pool: &[Place<T>], station: u8) -> usize
    ensures { result ≡ length (line_of station pool.now) }
{
    pool.iter()
        .map(|place| usize::from(contains(place.waits, station)))
        .sum()
}

// The place of the oldest frame that waits for a station.
pub fn oldest_at<T: Copy>(pool: &[Place<T>], station: u8) -> Option<usize>
    ensures { MatchOption result (line_of station pool.now ≡ []) (λ i. First station pool.now i) }
{
    pool.iter().position(|place| contains(place.waits, station))
}
