ghost use Rattle.std.specs.Prelude.{◌≡◌, ◌≤◌, ◌<◌, ◌*◌, ◌⊎◌, ℕ};

/// Which blocks of a file an opening reads, and which of them it writes back.
#[derive(Clone, Copy, Drop)]
pub(crate) struct Extent {
    /// The blocks below this one are read. The others are taken as zeros.
    pub(crate) read: u64,
    /// Of these, what is read with this one or above it is written back.
    pub(crate) settled: u64,
}

impl Extent {
    /// Each of so many blocks is read and written back.
    pub(crate) fn whole(blocks: u64) -> Extent
        ensures { result.read ≡ blocks }
    {
        Extent {
            read: blocks,
            settled: 0,
        }
    }

    /// The blocks that have one of the first bytes are read. The last one of them is written back.
    pub(crate) fn below(blocks: u64, bytes: u64) -> Extent
        ensures within { result.read ≤ blocks }
        ensures all { (blocks ≡ result.read) ⊎ (bytes ≤ result.read * 512) }
        ensures none { (k : ℕ) → bytes ≤ k * 512 → result.read ≤ k }
    {
        let read = bytes.div_ceil(512).min(blocks);
        Extent {
            read,
            settled: read.saturating_sub(1),
        }
    }
}
