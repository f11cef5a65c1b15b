use crate::fault::Fault;
use als_store::Disks;

/// Devices over which no engine could be made, handed back.
#[derive(Drop)]
pub struct Refused<D> {
    pub disks: Disks<D>,
    /// BadConfig, Device or Memory.
    pub fault: Fault,
}
