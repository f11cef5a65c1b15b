use crate::fault::Fault;
use als_reopen::Disks;

/// Devices that were not formatted, handed back.
#[derive(Drop)]
pub struct Unformatted<D> {
    pub disks: Disks<D>,
    /// Device or Memory.
    pub fault: Fault,
}
