use als_disk::{FailingDisk, MemDisk};

/// A device of a simulation: in memory, and failing where its fuse burns.
pub type Disk = FailingDisk<MemDisk>;
