// The limits of a text (own rules).

/// The length of the longest text that is read, in bytes.
pub const LONGEST_TEXT: usize = 262_144;

/// The most units of a text.
pub const MOST_UNITS: usize = 64;

/// The most instructions of a unit, each `)` counted.
pub const MOST_INSTRUCTIONS: usize = 4096;

/// The most parentheses of a unit that are open at once.
pub const MOST_OPEN: usize = 16;
