//! The rules that a pattern can break, by the numbers under which they are reported.

/// The pattern ends with `%`.
pub const ENDS_WITH_ESCAPE: u8 = 1;
/// A set has no `]` at its end.
pub const MISSING_BRACKET: u8 = 2;
/// Fewer than two bytes stand behind `%b`.
pub const MISSING_ARGUMENTS: u8 = 3;
/// No set stands behind `%f`.
pub const MISSING_SET: u8 = 4;
/// A `)` closes nothing.
pub const NOTHING_TO_CLOSE: u8 = 5;
/// The pattern ends within a capture.
pub const UNFINISHED_CAPTURE: u8 = 6;
/// A capture is opened when there are 32.
pub const TOO_MANY_CAPTURES: u8 = 7;
/// A digit behind `%` is the number of no capture that has ended.
pub const INVALID_REFERENCE: u8 = 8;
