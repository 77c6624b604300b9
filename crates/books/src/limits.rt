// A limit that the books share.

// the largest number of an entry or of a paper file; the smallest is 1
pub const MAX_NUMBER: u32 = 9_999_999;
