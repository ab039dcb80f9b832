//! The limits of a log.

/// The most events that a log holds.
pub const MAX_EVENTS: usize = 1_048_576;

/// The greatest position of a run, which is the number of steps made.
pub const MAX_POSITION: u64 = 1_099_511_627_775;

/// The greatest time of an event: that of the last step of a run to the greatest position.
pub const MAX_TIME: u64 = MAX_POSITION - 1;
