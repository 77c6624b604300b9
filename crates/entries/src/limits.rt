// The limits of the entry book, named once.

// the places of the entry book
pub const ENTRY_PLACES: usize = 32;
// the largest price, freight or insurance, in cents
pub const MAX_AMOUNT: u32 = 1_000_000_000;
// the largest rate, in hundredths of a per cent
pub const MAX_RATE: u32 = 10_000;
// the rate at which the duty is the whole value
pub const WHOLE_RATE: u64 = 10_000;
