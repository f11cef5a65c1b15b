use crate::fault::Fault;
use als_scan::Fault as ScanFault;

/// Why a record is refused. A file that ends within a record has no mark that would be wrong.
pub fn told(fault: ScanFault, is_file: bool) -> Fault {
    match fault {
        ScanFault::BadControl if is_file => Fault::Cut,
        fault => Fault::Log(fault),
    }
}
