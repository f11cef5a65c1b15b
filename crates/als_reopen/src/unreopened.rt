use crate::disks::Disks;
use crate::fault::Fault;

/// Devices that were not taken up again, and why.
#[derive(Drop)]
pub struct Unreopened<D> {
    pub disks: Disks<D>,
    pub fault: Fault,
}
