// Devices are synced before they are read.
ghost use Rattle.std.specs.Prelude.{◌≡◌, ℕ, ◌<◌, ◌+◌, OnOk, OnErr, IfErr};
ghost use Rattle.als_disk.specs.Slot.{KeepsReadable};
ghost use Rattle.als_reopen.specs.Outcomes.{IsLeft, IsOnceAtMost, IsSync};

use crate::disks::Disks;
use crate::fault::Fault;
use als_disk::BlockDisk;

/// Syncs a device.
///
/// `Device`: it failed, and each block is as it was.
fn sync_one<D: BlockDisk>(disk: &mut D) -> Result<(), Fault>
    ensures ok { OnOk result ((k : ℕ) → KeepsReadable (D.slot disk.old k) (D.slot disk.new k)) }
    ensures left { (k : ℕ) → IsLeft (D.slot disk.old k) (D.slot disk.new k) }
    ensures done { OnOk result (D.failures disk.new ≡ D.failures disk.old) }
    ensures err { IfErr result (λ fault. (fault ≡ Fault.Device)
        × (D.failures disk.old < D.failures disk.new)) }
    ensures count { D.block_count disk.new ≡ D.block_count disk.old }
    ensures attempts { D.attempts disk.new ≡ D.attempts disk.old + 1 }
{
    disk.sync()?;
    Ok(())
}

/// Syncs the log, the control block and the pages, in this order.
///
/// `Device`: one of them failed.
pub(crate) fn sync_all<D: BlockDisk>(disks: &mut Disks<D>) -> Result<(), Fault>
    ensures log { OnOk result (IsSync (D.slot disks.old.log) (D.slot disks.new.log)) }
    ensures control { OnOk result (IsSync (D.slot disks.old.control) (D.slot disks.new.control)) }
    ensures pages { OnOk result (IsSync (D.slot disks.old.pages) (D.slot disks.new.pages)) }
    ensures once { OnOk result ((D.attempts disks.new.log ≡ D.attempts disks.old.log + 1)
        × (D.attempts disks.new.control ≡ D.attempts disks.old.control + 1)
        × (D.attempts disks.new.pages ≡ D.attempts disks.old.pages + 1)) }
    ensures done { OnOk result ((D.failures disks.new.log ≡ D.failures disks.old.log)
        × (D.failures disks.new.control ≡ D.failures disks.old.control)
        × (D.failures disks.new.pages ≡ D.failures disks.old.pages)) }
    ensures err { IfErr result (λ fault. (fault ≡ Fault.Device)
        × (D.failures disks.old.log + D.failures disks.old.control + D.failures disks.old.pages
        < D.failures disks.new.log + D.failures disks.new.control + D.failures disks.new.pages)) }
    ensures left_log { (k : ℕ) → IsLeft (D.slot disks.old.log k) (D.slot disks.new.log k) }
    ensures left_control { (k : ℕ) → IsLeft (D.slot disks.old.control k)
        (D.slot disks.new.control k) }
    ensures left_pages { (k : ℕ) → IsLeft (D.slot disks.old.pages k) (D.slot disks.new.pages k) }
    ensures counts { (D.block_count disks.new.log ≡ D.block_count disks.old.log)
        × (D.block_count disks.new.control ≡ D.block_count disks.old.control)
        × (D.block_count disks.new.pages ≡ D.block_count disks.old.pages) }
    ensures attempts { IsOnceAtMost (D.attempts disks.old.log) (D.attempts disks.new.log)
        × IsOnceAtMost (D.attempts disks.old.control) (D.attempts disks.new.control)
        × IsOnceAtMost (D.attempts disks.old.pages) (D.attempts disks.new.pages) }
{
    sync_one(&mut disks.log)?;
    sync_one(&mut disks.control)?;
    sync_one(&mut disks.pages)?;
    Ok(())
}
