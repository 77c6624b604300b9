// A ring: its stations, the wire between them, the voting rule, and the number of the next turn.
ghost use Rattle.std.specs.Prelude.{◌≤◌, vec_len};
ghost use Rattle.protocol.specs.Limits.{max_stations};

use station::station::Station;

pub mod calls;
pub mod making;
pub mod performing;
pub mod questions;

// Any wire, any book and any voting rule will do: what the ring means is said by what they mean.
#[derive(Drop)]
pub struct Ring<W, B, R> {
    stations: Vec<Station<B>>,
    wire: W,
    rule: R,
    turn: u32,
    // a roll has at most 8 stations
    ghost few: { vec_len stations ≤ max_stations },
    // turns are numbered from 1
    ghost begun: { 1 ≤ turn },
}
