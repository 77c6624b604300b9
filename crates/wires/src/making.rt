// When a wire is made, and why it is not.
ghost use Rattle.std.specs.Prelude.{◌≡◌, Some, None, Ok, Err};
ghost use Rattle.wires.specs.Making.{wire_refused, lines_refused, pool_refused};

use protocol::limits::{LINE_PLACES, POOL_PLACES};
use protocol::refusal::Refusal;
use protocol::roll::roll_size;

// Why a wire was not made, with the memory that was lent for it.
#[derive(Drop)]
pub struct Rejected<M> {
    pub refusal: Refusal,
    pub memory: M,
}

// The memory that was lent, or the refusal with the memory handed back.
pub fn lent<M>(refusal: Option<Refusal>, memory: M) -> Result<M, Rejected<M>>
    ensures { elim result [ Ok m ↦ (refusal ≡ None) × (m ≡ memory) | Err e ↦ (refusal ≡ Some e.refusal) × (e.memory ≡ memory) ] }
{
    match refusal {
        Some(refusal) => Err(Rejected { refusal, memory }),
        None => Ok(memory),
    }
}

// The refusal of a wire that keeps a line for each of n stations, where it is lent so many places for frames.
// An Option, since the places are handed back beside the refusal.
pub fn lines_refused(n: u32, lent: usize) -> Option<Refusal>
    ensures { result ≡ lines_refused n lent }
{
    refused(n, n as usize * LINE_PLACES, lent)
}

// The refusal of a wire that keeps each frame once, where its pool is lent so many places.
pub fn pool_refused(n: u32, lent: usize) -> Option<Refusal>
    ensures { result ≡ pool_refused n lent }
{
    refused(n, POOL_PLACES, lent)
}

// The roll's size comes before the places.
fn refused(n: u32, needed: usize, lent: usize) -> Option<Refusal>
    ensures { result ≡ wire_refused n needed lent }
{
    let too_few = (lent < needed).then_some(Refusal::TooFewPlaces);
    roll_size(n as usize).err().or(too_few)
}
