use std::time::Duration;

/// What the board shows of a group: how many of its transactions are committed, and how long its force took,
/// with its confirmation if followers have to acknowledge it.
#[derive(Clone, Copy, Debug)]
pub(crate) struct Group {
    committed: u64,
    /// When its last transaction was taken, by the clock.
    taken: Duration,
    /// From then to its first answer. None: nothing is answered yet.
    forced: Option<Duration>,
}

impl Group {
    /// An empty group.
    pub const NONE: Group = Group {
        committed: 0,
        taken: Duration::ZERO,
        forced: None,
    };

    /// The leader took a transaction, or found none.
    pub fn take(&mut self, now: Duration) {
        self.taken = now;
    }

    /// A transaction of the group is answered.
    pub fn tell(&mut self, now: Duration, is_committed: bool) {
        if self.forced.is_none() {
            self.forced = Some(now.saturating_sub(self.taken));
        }
        if is_committed {
            self.committed = self.committed.saturating_add(1);
        }
    }

    /// Ends the group: how many are committed, and how long the force took. None: nothing was answered.
    pub fn end(&mut self) -> Option<(u64, Duration)> {
        let (committed, forced) = (self.committed, self.forced);
        *self = Group::NONE;
        Some((committed, forced?))
    }
}
