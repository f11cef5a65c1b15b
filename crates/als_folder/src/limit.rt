/// The most bytes of a log that are read whole: those of the largest log device.
pub const LOG_LIMIT: u64 = 2_147_483_648;

/// How many pieces of 64 KiB stay in memory in front of the one in which a log ends that is followed.
pub const FOLLOWED_PIECES: u64 = 64;
