use als_epochs::History;
use als_record::Lsn;

/// What a backup is.
#[derive(Clone, Copy)]
pub struct Said {
    /// Where it ends: up to there its source had acknowledged its log.
    pub end: Lsn,
    /// The takeovers before its source that are at or below that end.
    pub history: History,
    /// The SHA-256 of it.
    pub digest: [u8; 32],
    /// How many bytes of it were written now.
    pub new: u64,
}
