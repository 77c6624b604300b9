// Decimal numbers without leading zeros.
ghost use Rattle.std.specs.Prelude.{◌≡◌, ℕ, ◌^◌, ◌<◌, decimal, MatchOption, ◌≢◌};

// A number of more digits than this does not begin with 0.
const LONE: usize = 1;

// The number that the digits write.
pub(crate) fn number(digits: &[u8]) -> Option<u32>
    ensures { MatchOption result ((n : ℕ) → n < 2 ^ 32 → digits.now ≢ decimal n) (λ n. (digits.now ≡ decimal n) × (n < 2 ^ 32)) }
{
    if digits.starts_with(b"+") {
        return None;
    }
    if digits.starts_with(b"0") && digits.len() > LONE {
        return None;
    }
    std::str::from_utf8(digits).ok()?.parse().ok()
}
