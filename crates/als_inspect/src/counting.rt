ghost use Rattle.std.specs.Prelude.{◌≡◌, ◌+◌, length, OnOk, IfOk, IfErr};
ghost use Rattle.als_scan.specs.Scanned.{Scanned, IsScanned, IsWhole, RefusesNext};

use als_disk::BlockDisk;
use als_progress::{Advance, Work};
use als_scan::{Fault, Scan};

/// Reads all records of so many bytes, and answers how many there are, as `als_scan::read_all` does.
/// `advance` receives how far they were read.
pub(crate) fn read_all_telling<D: BlockDisk, A: Advance>(
    scan: &mut Scan<D>,
    whole: u64,
    advance: &mut A,
) -> Result<u64, Fault>
    // The whole text is that of a valid log.
    ensures whole { OnOk result (IsWhole scan.new) }
    // So many records were handed out.
    ensures count { IfOk result (λ count. length scan.new.log ≡ length scan.old.log + count) }
    ensures fails { IfErr result (λ fault. (mid : Scanned) × RefusesNext mid fault scan.new) }
    ensures facts { IsScanned scan.new }
{
    let _ = scan.end();
    for count in 0..u64::MAX {
        if is_told(count) {
            advance.advances(Work::Judge, scan.end().0, whole);
        }
        match scan.next() {
            Ok(Some(_)) => {}
            Ok(None) => return Ok(count),
            Err(fault) => return Err(fault),
        }
    }
    Err(Fault::Memory)
}

/// Whether a work reports how far it has come, after this many records.
pub(crate) fn is_told(count: u64) -> bool {
    count % 1_024 == 0
}
