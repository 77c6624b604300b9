// Sets of stations as masks: station s is in a mask if its bit s is set. Plain numbers, as they stand in views and prints.
ghost use Rattle.std.specs.Prelude.{◌≡◌, min};
ghost use Rattle.protocol.specs.Limits.{max_stations};
ghost use Rattle.vote.specs.Mask.{has, everyone, adding, removing};

use protocol::limits::MAX_STATIONS;

// Whether the station is in the mask.
pub fn contains(mask: u8, station: u8) -> bool
    ensures { result ≡ has mask station }
{
    station < MAX_STATIONS && (mask >> station) % 2 == 1
}

// The mask with the station. No mask holds station 8 or above.
pub fn with(mask: u8, station: u8) -> u8
    ensures { result ≡ adding mask station }
{
    if station < MAX_STATIONS {
        mask | 1 << station
    } else {
        mask
    }
}

// The mask without the stations of the other.
pub fn without(mask: u8, other: u8) -> u8
    ensures { result ≡ removing mask other }
{
    mask & !other
}

// The first n stations, at most 8.
pub fn whole(n: u8) -> u8
    ensures { result ≡ everyone (min n max_stations) }
{
    if n < MAX_STATIONS { (1 << n) - 1 } else { 255 }
}
