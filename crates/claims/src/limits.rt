// The limits of the claim book, named once.

// the places of the claim book
pub const CLAIM_PLACES: usize = 32;
