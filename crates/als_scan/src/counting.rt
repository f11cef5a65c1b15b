ghost use Rattle.std.specs.Prelude.{◌≡◌, ◌+◌, length, OnOk, IfOk, IfErr};
ghost use Rattle.als_scan.specs.Scanned.{Scanned, IsScanned, IsWhole, RefusesNext};

use crate::fault::Fault;
use crate::scan::Scan;
use als_disk::BlockDisk;

/// Reads all records, and answers how many there are. Else the first one that is none, or may not
/// follow those before it, begins where those read end.
pub fn read_all<D: BlockDisk>(scan: &mut Scan<D>) -> Result<u64, Fault>
    // The whole text is that of a valid log.
    ensures whole { OnOk result (IsWhole scan.new) }
    // So many records were handed out.
    ensures count { IfOk result (λ count. length scan.new.log ≡ length scan.old.log + count) }
    ensures fails { IfErr result (λ fault. (mid : Scanned) × RefusesNext mid fault scan.new) }
    ensures facts { IsScanned scan.new }
{
    let _ = scan.end();
    for count in 0..u64::MAX {
        match scan.next() {
            Ok(Some(_)) => {}
            Ok(None) => return Ok(count),
            Err(fault) => return Err(fault),
        }
    }
    Err(Fault::Memory)
}
