// How many stations a roll may have. A rule and a wire each keep their count with this bound in their own type: a type for
// the count would be opened at every use.
ghost use Rattle.std.specs.Prelude.{◌≡◌, true, false, Ok, Err};
ghost use Rattle.protocol.specs.Limits.{roll_fits};
ghost use Rattle.protocol.specs.declared.refusal.Refusal.TheVariants.{RollSize};

use crate::limits::MAX_STATIONS;
use crate::refusal::Refusal;

// Whether a roll can have n stations.
pub fn is_roll_size(n: usize) -> bool
    ensures { result ≡ roll_fits n }
{
    1 <= n && n <= MAX_STATIONS as usize
}

// The number of stations of a roll of n, or its refusal.
pub fn roll_size(n: usize) -> Result<u8, Refusal>
    ensures { elim result [ Ok k ↦ (roll_fits n ≡ true) × (k ≡ n) | Err e ↦ (roll_fits n ≡ false) × (e ≡ RollSize) ] }
{
    if !is_roll_size(n) {
        return Err(Refusal::RollSize);
    }
    Ok(n as u8)
}
