//! The rests between sessions.

/// The longest rest between two sessions, in seconds: one that was done is followed at the next full minute.
pub const LONGEST_REST: u32 = 60;

/// The rest after a session that was not done, in seconds.
pub const SHORT_REST: u32 = 1;
