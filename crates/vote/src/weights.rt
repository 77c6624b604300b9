// The rule by weight: more than half of the whole weight.
ghost use Rattle.std.specs.Prelude.{◌≡◌, ◌^◌, ◌<◌, ◌≤◌, true, false, length, take, Some, None, Ok, Err};
ghost use Rattle.protocol.specs.Limits.{max_stations};
ghost use Rattle.vote.specs.Majority.{total, weight, majority};
ghost use Rattle.vote.specs.Refused.{each_fits, weights_refused};
ghost use Rattle.std.proofs.Common.{subst};
ghost use Rattle.vote.specs.Majorities.{length_taken, majority_roll, majority_shares, majority_grows, majority_everyone};

use crate::majority::more_than_half;
use crate::mask::whole;
use crate::rule::VotingRule;
use protocol::limits::{MAX_STATIONS, MAX_WEIGHT};
use protocol::refusal::Refusal;
use protocol::roll::roll_size;

// a weight for each number that a station can have
const PLACES: usize = MAX_STATIONS as usize;

#[derive(Clone, Copy)]
pub struct Weights {
    stations: u8,
    // those of the stations come first, and nothing is said of the rest; an array, since a rule is Copy and asks for no memory
    weights: [u8; PLACES],
    sum: u16,
    ghost some: { 1 ≤ stations },
    ghost few: { stations ≤ max_stations },
    ghost places: { length weights ≡ max_stations },
    ghost light: { each_fits (take stations weights) ≡ true },
    ghost summed: { sum ≡ total (take stations weights) },
    ghost positive: { 0 < sum },
    ghost bounded: { sum ≤ 800 },
}

impl Weights {
    // The rule by these weights, one for each station.
    pub fn new(weights: &[u8]) -> Result<Weights, Refusal>
        ensures { elim result [ Ok w ↦ (weights_refused weights.now ≡ None) × (take w.stations w.weights ≡ weights.now) | Err e ↦ weights_refused weights.now ≡ Some e ] }
    {
        let stations = roll_size(weights.len())?;
        match checked_sum(weights) {
            Some(sum) if sum > 0 => Ok(Weights {
                stations,
                weights: padded(weights),
                sum,
            }),
            _ => Err(Refusal::WeightRange),
        }
    }
}

// The sum of at most 8 weights, or none where one is over 100.
fn checked_sum(weights: &[u8]) -> Option<u16>
    requires { length weights.now ≤ 8 }
    ensures { elim result [ Some t ↦ (each_fits weights.now ≡ true) × (t ≡ total weights.now) × (t ≤ 800) | None ↦ each_fits weights.now ≡ false ] }
{
    let mut sum: u16 = 0;
    for w in weights {
        if *w > MAX_WEIGHT {
            return None;
        }
        sum += u16::from(*w);
    }
    Some(sum)
}

// At most 8 weights, and zeros behind them.
fn padded(weights: &[u8]) -> [u8; PLACES]
    requires { length weights.now ≤ 8 }
    ensures { take (length weights.now) result ≡ weights.now }
{
    let mut all = [0; PLACES];
    all[..weights.len()].copy_from_slice(weights);
    all
}

// What the stations of the mask weigh together. The mask is halved as the definition halves it.
fn weigh(weights: &[u8], mask: u8) -> u16
    requires { total weights.now < 2 ^ 16 }
    ensures { result ≡ weight weights.now mask }
{
    let mut rest = mask;
    let mut sum: u16 = 0;
    for w in weights {
        if rest % 2 == 1 {
            sum += u16::from(*w);
        }
        rest /= 2;
    }
    sum
}

impl VotingRule for Weights {
    ghost size = { λ w. w.stations };

    ghost votes = { λ w. majority (take w.stations w.weights) };

    ghost few = { λ w. (w.some, w.few) };

    ghost within = { λ w. majority_roll (take w.stations w.weights) (length_taken w.stations max_stations w.weights w.few w.places) };

    ghost shares = { λ w. majority_shares (take w.stations w.weights) (length_taken w.stations max_stations w.weights w.few w.places) };

    ghost grows = { λ w. majority_grows (take w.stations w.weights) (length_taken w.stations max_stations w.weights w.few w.places) };

    ghost all = { λ w. majority_everyone (take w.stations w.weights) (length_taken w.stations max_stations w.weights w.few w.places) (subst (λ k. 0 < k) w.summed w.positive) };

    fn roll(&self) -> u8 {
        self.stations
    }

    fn has_vote(&self, mask: u8) -> bool {
        let n = self.roll();
        mask <= whole(n) && more_than_half(weigh(&self.weights[0..n as usize], mask), self.sum)
    }
}
