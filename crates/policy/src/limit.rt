//! How many of each there may be.

/// Readings of an epoch.
pub const READING_LIMIT: usize = 16;

/// Literals or actions of a line.
pub const HEAD_LIMIT: usize = 8;

/// Comparisons of a line.
pub const COMPARISON_LIMIT: usize = 4;

/// The first form of images whose texts may have rules that trigger events.
pub const TRIGGER_FORM: u8 = 3;

/// Rules of a text.
pub const RULE_LIMIT: usize = 128;

/// Constraints of a text.
pub const CONSTRAINT_LIMIT: usize = 64;
