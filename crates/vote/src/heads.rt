// The rule by heads: more than half of the stations. It is the rule by weights of 1, and counts in place of adding them.
ghost use Rattle.std.specs.Prelude.{◌≡◌, ◌<◌, ◌≤◌, Some, None, Ok, Err};
ghost use Rattle.std.proofs.Common.{subst, sym};
ghost use Rattle.protocol.specs.Limits.{max_stations};
ghost use Rattle.vote.specs.Majority.{heads, majority};
ghost use Rattle.vote.specs.Refused.{heads_refused};
ghost use Rattle.vote.specs.Majorities.{majority_roll, length_heads, majority_shares, majority_grows, majority_everyone, total_heads};

use crate::majority::more_than_half;
use crate::mask::whole;
use crate::rule::VotingRule;
use protocol::refusal::Refusal;
use protocol::roll::roll_size;

#[derive(Clone, Copy)]
pub struct Heads {
    stations: u8,
    ghost some: { 1 ≤ stations },
    ghost few: { stations ≤ max_stations },
}

impl Heads {
    // The rule over n stations.
    pub fn new(n: u32) -> Result<Heads, Refusal>
        ensures { elim result [ Ok h ↦ (heads_refused n ≡ None) × (h.stations ≡ n) | Err e ↦ heads_refused n ≡ Some e ] }
    {
        let stations = roll_size(n as usize)?;
        Ok(Heads { stations })
    }
}

impl VotingRule for Heads {
    ghost size = { λ h. h.stations };

    ghost votes = { λ h. majority (heads h.stations) };

    ghost few = { λ h. (h.some, h.few) };

    ghost within = { λ h. majority_roll (heads h.stations) (length_heads h.stations) };

    ghost shares = { λ h. majority_shares (heads h.stations) (length_heads h.stations) };

    ghost grows = { λ h. majority_grows (heads h.stations) (length_heads h.stations) };

    ghost all = { λ h. majority_everyone (heads h.stations) (length_heads h.stations) (subst (λ k. 0 < k) (sym (total_heads h.stations)) h.some) };

    fn roll(&self) -> u8 {
        self.stations
    }

    fn has_vote(&self, mask: u8) -> bool {
        let n = self.roll();
        mask <= whole(n) && more_than_half(mask.count_ones() as u16, u16::from(n))
    }
}
