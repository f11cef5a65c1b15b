// The bytes of a device, block by block, for a judge.
ghost use Rattle.std.specs.Prelude.{◌≡◌, ◌≢◌, ℕ, ◌<◌, ◌≤◌, ◌+◌, ◌*◌, List, length, OnOk, OnErr};
ghost use Rattle.std.specs.Prelude.{IfOk, IfErr, Some, Ok};
ghost use Rattle.als_record.specs.LogText.{header_bytes};
ghost use Rattle.als_record.specs.HeaderReading.{read_header};
ghost use Rattle.als_disk.specs.Slot.{SameBlocks};
ghost use Rattle.als_record.specs.declared.fault.Fault.TheVariants as shape;
ghost use Rattle.als_scan.specs.declared.fault.Fault.TheVariants.{Shape};
ghost use Rattle.als_scan.specs.Judged.{begun, position_of, Reads, IsReady, FailsToRead, HasHeader};
ghost use Rattle.als_scan.specs.Judged.{FailsToBegin};
ghost use Rattle.als_scan.specs.Texts.{StandsBelow};

use crate::fault::Fault;
use crate::judge::Judge;
use als_disk::BlockDisk;
use als_record::{Fault as ShapeFault, LogHeader};
use std::alloc::Global;

/// Whether these 16 bytes are the header of a log of a database with so many pages.
fn check_header(front: &[u8], pages: u32) -> Result<(), Fault>
    requires { length front.now ≡ 16 }
    ensures ok { OnOk result (front.now ≡ header_bytes pages) }
    ensures err { IfErr result (λ fault. (fault ≡ Shape shape.BadHeader)
        × (read_header front.now ≢ Ok (Some (record { pages = pages })))) }
{
    match LogHeader::decode(front) {
        Ok(Some(header)) => {
            if header.pages == pages {
                return Ok(());
            }
            Err(Fault::Shape(ShapeFault::BadHeader))
        }
        Ok(None) => Err(Fault::Shape(ShapeFault::BadHeader)),
        Err(_) => Err(Fault::Shape(ShapeFault::BadHeader)),
    }
}

/// Reads the header, for a judge of the records behind it.
pub(crate) fn begin<D: BlockDisk>(alloc: Global, disk: &mut D, pages: u32) -> Result<Judge, Fault>
    requires { 1 ≤ D.block_count disk.old }
    ensures ok { IfOk result (λ j. j ≡ begun pages) }
    ensures header { OnOk result (HasHeader (D.slot disk.old) pages) }
    ensures err { IfErr result (λ fault. FailsToBegin fault (D.slot disk.old) pages
        (D.failures disk.old) (D.failures disk.new)) }
    ensures done { OnOk result (D.failures disk.new ≡ D.failures disk.old) }
    ensures same { SameBlocks (D.slot disk.old) (D.slot disk.new) }
    ensures count { D.block_count disk.new ≡ D.block_count disk.old }
    ensures attempts { D.attempts disk.new ≡ D.attempts disk.old }
{
    let mut block = [0; 512];
    disk.read(0, &mut block)?;
    check_header(&block[..16], pages)?;
    let judge = Judge::new(alloc, pages)?;
    Ok(judge)
}

/// Reads the bytes that come next, of one block and below a mark.
fn read_more<D: BlockDisk>(disk: &mut D, judge: &mut Judge, mark: u64) -> Result<(), Fault>
    requires few { D.block_count disk.old ≤ 4194304 }
    requires high { mark ≤ 512 * D.block_count disk.old }
    requires more { position_of judge.old < mark }
    ensures log { judge.new ≡ record judge.old { kept = judge.new.kept } }
    // For every text that stands below the mark, they are its next ones.
    ensures ok { OnOk result ((text : List ℕ) → StandsBelow (D.slot disk.old) text mark
        → Reads text judge.old → Reads text judge.new) }
    ensures more { OnOk result ((position_of judge.old < position_of judge.new)
        × (position_of judge.new ≤ mark)) }
    ensures err { IfErr result (λ fault. FailsToRead fault (D.failures disk.old)
        (D.failures disk.new)) }
    ensures stays { OnErr result (judge.new ≡ judge.old) }
    ensures done { OnOk result (D.failures disk.new ≡ D.failures disk.old) }
    ensures same { SameBlocks (D.slot disk.old) (D.slot disk.new) }
    ensures count { D.block_count disk.new ≡ D.block_count disk.old }
    ensures attempts { D.attempts disk.new ≡ D.attempts disk.old }
{
    let at = judge.position();
    let mut block = [0; 512];
    disk.read(at / 512, &mut block)?;
    let low = (at % 512) as usize;
    let size = ((512 - low) as u64).min(mark - at) as usize;
    judge.push(&block[low..low + size])?;
    Ok(())
}

/// Where the next record is not whole, reads on until as many bytes have come as the longest record
/// has, or all below a mark. So most records want no read, and few bytes are moved.
#[inline]
pub(crate) fn fill<D: BlockDisk>(disk: &mut D, judge: &mut Judge, mark: u64) -> Result<(), Fault>
    requires few { D.block_count disk.old ≤ 4194304 }
    requires high { mark ≤ 512 * D.block_count disk.old }
    requires within { position_of judge.old ≤ mark }
    ensures log { judge.new ≡ record judge.old { kept = judge.new.kept } }
    ensures reads { (text : List ℕ) → StandsBelow (D.slot disk.old) text mark → Reads text judge.old
        → Reads text judge.new }
    ensures within { position_of judge.new ≤ mark }
    ensures ok { OnOk result (IsReady judge.new mark) }
    ensures err { IfErr result (λ fault. FailsToRead fault (D.failures disk.old)
        (D.failures disk.new)) }
    ensures done { OnOk result (D.failures disk.new ≡ D.failures disk.old) }
    ensures same { SameBlocks (D.slot disk.old) (D.slot disk.new) }
    ensures count { D.block_count disk.new ≡ D.block_count disk.old }
    ensures attempts { D.attempts disk.new ≡ D.attempts disk.old }
{
    if judge.is_whole() {
        return Ok(());
    }
    while judge.position() < mark && judge.is_short() {
        read_more(disk, judge, mark)?;
    }
    Ok(())
}
