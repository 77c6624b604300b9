// A voting rule over a roll of stations.
ghost use Rattle.std.specs.Prelude.{◌≡◌, ℕ, ◌^◌, ◌<◌, ◌≤◌, Bool, true};
ghost use Rattle.protocol.specs.Limits.{max_stations};
ghost use Rattle.vote.specs.Mask.{Within, Share, everyone};

pub trait VotingRule {
    // how many stations the roll has
    ghost size: { Self → ℕ };

    // whether the set of a mask has the vote
    ghost votes: { Self → ℕ → Bool };

    // The number of stations on the roll.
    fn roll(&self) -> u8
        ensures { result ≡ size self.now };

    // Whether the stations of the mask have the vote.
    fn has_vote(&self, mask: u8) -> bool
        ensures { result ≡ votes self.now mask };

    // a roll has 1 to 8 stations
    ghost few: { (x : Self) → (1 ≤ size x) × (size x ≤ max_stations) };

    // a mask with a bit off the roll lacks the vote
    ghost within: { (x : Self) (m : ℕ) → votes x m ≡ true → m < 2 ^ size x };

    // two sets that have the vote share a station
    ghost shares: { (x : Self) (a b : ℕ) → votes x a ≡ true → votes x b ≡ true → Share (size x) a b };

    // adding stations of the roll never takes the vote away
    ghost grows: { (x : Self) (a b : ℕ) → Within a b → b < 2 ^ size x → votes x a ≡ true → votes x b ≡ true };

    // the whole roll has the vote
    ghost all: { (x : Self) → votes x (everyone (size x)) ≡ true };
}
