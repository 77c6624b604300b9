// Going round the ring.
ghost use Rattle.std.specs.Prelude.{◌≡◌, ◌<◌, ◌≤◌};
ghost use Rattle.protocol.specs.Limits.{max_stations};
ghost use Rattle.turning.specs.Round.{around};

// The station k after s, of a roll.
pub fn station_after(roll: u8, s: u8, k: u8) -> u8
    requires { (s < roll) × ((k < roll) × (roll ≤ max_stations)) }
    ensures value { result ≡ around roll s k }
    ensures bound { result < roll }
{
    (s + k) % roll
}
