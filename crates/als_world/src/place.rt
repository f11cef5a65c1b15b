use crate::standby::Standby;
use als_disk::BlockDisk;
use als_engine::Disks;

/// A standby that is up, or the devices that it left.
#[derive(Drop)]
pub enum Place<D: BlockDisk> {
    Up(Standby<D>),
    Down(Disks<D>),
}
