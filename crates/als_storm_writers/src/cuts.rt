/// What the crashes of writers cut.
#[derive(Clone, Copy, Debug)]
pub struct Cuts {
    /// Deeds that were answered and not forced, and were not found again.
    pub lost: u64,
    /// Openings that found a log which is owed records.
    pub unended: u64,
}

impl Cuts {
    /// Nothing was cut.
    pub const NONE: Cuts = Cuts {
        lost: 0,
        unended: 0,
    };

    /// Adds what others cut.
    pub fn add(&mut self, other: Cuts) {
        self.lost = self.lost.saturating_add(other.lost);
        self.unended = self.unended.saturating_add(other.unended);
    }
}
