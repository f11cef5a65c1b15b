/// The devices of a standby.
#[derive(Drop)]
pub struct Disks<D> {
    /// The log's: 1 to 4,194,304 blocks.
    pub log: D,
    /// The control block's and the checkpoints': at least 321 blocks.
    pub control: D,
    /// The pages': at least as many blocks as pages.
    pub pages: D,
}
