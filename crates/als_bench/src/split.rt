use std::io;
use std::rt::Clock;
use std::time::{Duration, Instant};

/// What following was occupied with, and for how long.
#[derive(Clone, Copy)]
pub struct Split {
    pub frames: u32,
    pub records: u64,
    /// Receiving frames from the network, and acknowledging them.
    pub moved: Duration,
    pub fed: Duration,
    pub written: Duration,
    pub synced: Duration,
    pub marked: Duration,
    pub acknowledged: Duration,
    pub published: Duration,
    pub redone: Duration,
    /// The pages' writes and syncs.
    pub flushed: Duration,
    pub checkpointed: Duration,
}

impl Split {
    pub const NOTHING: Split = Split {
        frames: 0,
        records: 0,
        moved: Duration::ZERO,
        fed: Duration::ZERO,
        written: Duration::ZERO,
        synced: Duration::ZERO,
        marked: Duration::ZERO,
        acknowledged: Duration::ZERO,
        published: Duration::ZERO,
        redone: Duration::ZERO,
        flushed: Duration::ZERO,
        checkpointed: Duration::ZERO,
    };

    /// The whole time.
    pub fn whole(&self) -> Duration {
        let log = self.written.saturating_add(self.synced);
        let mark = self.marked.saturating_add(self.acknowledged);
        let pages = self.redone.saturating_add(self.flushed);
        let rest = self.published.saturating_add(self.checkpointed);
        self.moved
            .saturating_add(self.fed)
            .saturating_add(log)
            .saturating_add(mark)
            .saturating_add(pages)
            .saturating_add(rest)
    }

    /// Prints the parts, in microseconds a frame.
    pub fn tell<R: Print>(&self, rt: &R) -> io::Result<()> {
        println!(rt;
            "  us a frame: network {}, feed {}, log writes {}, log syncs {}, mark writes {}, control syncs {}, publish {}, redo {}, pages {}, checkpoints {}",
            self.each(self.moved),
            self.each(self.fed),
            self.each(self.written),
            self.each(self.synced),
            self.each(self.marked),
            self.each(self.acknowledged),
            self.each(self.published),
            self.each(self.redone),
            self.each(self.flushed),
            self.each(self.checkpointed)
        )
    }

    /// Microseconds a frame.
    fn each(&self, took: Duration) -> u64 {
        u64::try_from(took.as_micros()).unwrap_or(u64::MAX) / u64::from(self.frames.max(1))
    }
}

/// Adds the time since then to a part.
pub fn add<R: Clock>(rt: &R, part: &mut Duration, start: Instant) -> io::Result<()> {
    *part = part.saturating_add(start.elapsed(rt)?);
    Ok(())
}
