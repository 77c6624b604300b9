// The installer's look, before anything is made.
ghost use Rattle.std.specs.Prelude.{◌≡◌, Some, None};
ghost use Rattle.wires.specs.Look.{memory_refused, rule_refused, least, look_refused, LookAgrees};

use crate::making::{lines_refused, pool_refused};
use protocol::refusal::Refusal;
use vote::heads::Heads;
use vote::weights::Weights;

// The places lent for a wire: for frames in lines, or in the pool.
#[derive(Clone, Copy)]
pub enum Memory {
    Lines(usize),
    Pool(usize),
}

// The refusal that the makers of the wire and of the rule will answer with the smallest number, or none. The rule is by
// heads where there are no weights.
pub fn look(stations: u32, memory: Memory, weights: Option<&[u8]>) -> Option<Refusal>
    ensures { elim weights.entry [ None ↦ result ≡ look_refused stations memory None | Some ws ↦ result ≡ look_refused stations memory (Some ws.now) ] }
{
    let rule = match weights {
        Some(weights) => weights_refused(stations, weights),
        None => heads_refused(stations),
    };
    smaller(wire_refused(stations, memory), rule)
}

// The makers are refused as the look says.
pub fn look_agrees()
    ensures { LookAgrees }
{}

fn wire_refused(stations: u32, memory: Memory) -> Option<Refusal>
    ensures { result ≡ memory_refused stations memory }
{
    match memory {
        Memory::Lines(lent) => lines_refused(stations, lent),
        Memory::Pool(lent) => pool_refused(stations, lent),
    }
}

fn heads_refused(stations: u32) -> Option<Refusal>
    ensures { result ≡ rule_refused stations None }
{
    Heads::new(stations).err()
}

fn weights_refused(stations: u32, weights: &[u8]) -> Option<Refusal>
    ensures { result ≡ rule_refused stations (Some weights.now) }
{
    if weights.len() != stations as usize {
        return Some(Refusal::RollSize);
    }
    Weights::new(weights).err()
}

// Of two refusals the one with the smaller number.
fn smaller(a: Option<Refusal>, b: Option<Refusal>) -> Option<Refusal>
    ensures { result ≡ least a b }
{
    match (a, b) {
        (Some(x), Some(y)) => Some(if x.number() <= y.number() { x } else { y }),
        _ => a.or(b),
    }
}
