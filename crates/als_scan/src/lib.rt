//! The log that stands on a device below a mark, read record by record and judged.
#![tactic(auto)]

// Why no record is read.
mod fault;
// What takes records one after another.
mod taking;
// Bytes in, records of a valid log out.
mod judge;
// The bytes of a device.
mod reading;
// A device that comes back with a fault.
mod unread;
// The records one by one.
mod scan;
// All records, counted.
mod counting;
// Which records are asked for.
mod wanted;

pub use counting::read_all;
pub use fault::Fault;
pub use scan::Scan;
pub use taking::TakeRecord;
pub use unread::Unread;
pub use wanted::Wanted;
