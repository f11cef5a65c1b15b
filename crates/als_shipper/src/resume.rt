/// What a Resume frame begins with.
pub const RESUME: u8 = 81;

/// Bytes of a Resume frame, up to those that say how many takeovers follow.
pub const FRONT: usize = 29;

/// So many takeovers a history has at most.
pub const TAKEOVERS: u32 = 32;

/// Bytes of a Resume frame, at most.
pub const LONGEST: usize = 285;
