// The limit of a script's text.

// the most bytes of a text
pub const MAX_TEXT: usize = 16_384;
