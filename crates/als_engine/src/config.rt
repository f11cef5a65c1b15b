ghost use Rattle.std.specs.Prelude.{IsTrue, ◌↔◌};
ghost use Rattle.als_engine.specs.Config.{IsConfig, IsWorld};

use als_disk::BlockDisk;
use als_store::Disks;

/// The blocks of the largest log device.
pub const LOG_BLOCK_LIMIT: u64 = 4_194_304;

/// The blocks that a control device has at least: the control block's, and two checkpoint regions
/// of 160.
pub const CONTROL_BLOCKS: u64 = 321;

/// What an engine is made with. Numbers out of range are refused when it is made.
#[derive(Clone, Copy, Debug, PartialEq, Eq)]
pub struct Config {
    /// Pages of the database, 1 to 4,096.
    pub pages: u64,
    /// Frames of the buffer pool, 1 to 4,096.
    pub frames: u64,
    /// From how many pending changes on feed is refused, 1 to 1,000,000.
    pub pending: u64,
    /// Readers, 1 to 8.
    pub readers: u64,
}

impl Config {
    ghost use Rattle.std.specs.Prelude.{IsTrue, ◌↔◌};
    ghost use Rattle.als_engine.specs.Config.{IsConfig};

    /// Each number is in its range.
    pub fn is_valid(&self) -> bool
        ensures { IsTrue result ↔ IsConfig self.now }
    {
        (1..=4096).contains(&self.pages)
            && (1..=4096).contains(&self.frames)
            && (1..=1_000_000).contains(&self.pending)
            && (1..=8).contains(&self.readers)
    }

    /// And each device has as many blocks as it needs.
    pub fn fits<D: BlockDisk>(&self, disks: &Disks<D>) -> bool
        ensures { IsTrue result ↔ IsWorld self.now (D.block_count disks.now.log)
            (D.block_count disks.now.control) (D.block_count disks.now.pages) }
    {
        self.is_valid()
            && (1..=LOG_BLOCK_LIMIT).contains(&disks.log.blocks())
            && disks.control.blocks() >= CONTROL_BLOCKS
            && disks.pages.blocks() >= self.pages
    }
}
