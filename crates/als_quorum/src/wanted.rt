use als_record::Lsn;

/// What a leader waits for its followers to acknowledge.
#[derive(Clone, Copy, Debug)]
pub struct Wanted {
    /// Each of them holds the log up to there.
    pub lsn: Lsn,
    /// Each of them answered a frame of this round of the tail, or of a later one, so that it followed when the round
    /// began. 0: any frame.
    pub round: u64,
}
