ghost use Rattle.std.specs.Prelude.{◌≡◌, ℕ, ◌≤◌, ◌+◌, false, length, min};
ghost use Rattle.als_disk.specs.Crash.{LeavesPicked, choices_below};
ghost use Rattle.als_reopen.specs.Node.{Node, IsNode};
ghost use Rattle.als_reopen.specs.Outcomes.{AreSettled};
ghost use Rattle.als_store.specs.Devices.{AreKept};
ghost use Rattle.als_store.specs.Leaving.{HoldsLeft, IsCrashOf};
ghost use Rattle.als_store.specs.Staying.{StaysNode};
ghost use Rattle.als_store.specs.Stopped.{LeavesByPicks, CrashesTo, NamesState, devices_of};
ghost use Rattle.als_store.specs.Warm.{WasWarm};

use super::Store;
use als_disk::Restart;
use als_reopen::Disks;

/// A device as a crash leaves it, and how many picks were used.
fn crash_one<D: Restart>(disk: D, picks: &[u8]) -> (D, usize)
    ensures candidate { IsCrashOf (D.slot disk) (D.slot result.0) }
    ensures settled { AreSettled (D.slot result.0) }
    ensures picked { LeavesPicked (D.slot disk) picks.now (D.slot result.0) }
    ensures used { result.1 ≡ min (length picks.now)
        (choices_below (D.slot disk) (D.block_count disk)) }
    ensures count { D.block_count result.0 ≡ D.block_count disk }
    ensures failures { D.failures result.0 ≡ D.failures disk }
    ensures attempts { D.attempts result.0 ≡ D.attempts disk }
{
    disk.crash(picks)
}

/// Stopped devices as a crash leaves them: each block has one of its candidates. The blocks that
/// have more than one take the picks in rising order, those of the log first, then those of the
/// control device, then those of the pages. The answer tells how many picks were used.
pub fn crash_disks<D: Restart>(disks: Disks<D>, picks: &[u8]) -> (Disks<D>, usize)
    ensures picked { LeavesByPicks (devices_of D.slot D.block_count disks) picks.now
        (devices_of D.slot D.block_count result.0) result.1 }
    ensures log { AreSettled (D.slot result.0.log) }
    ensures control { AreSettled (D.slot result.0.control) }
    ensures pages { AreSettled (D.slot result.0.pages) }
    ensures log_left { IsCrashOf (D.slot disks.log) (D.slot result.0.log) }
    ensures control_left { IsCrashOf (D.slot disks.control) (D.slot result.0.control) }
    ensures pages_left { IsCrashOf (D.slot disks.pages) (D.slot result.0.pages) }
    // What devices still hold that could not be taken up, they hold on.
    ensures stays { (count blocks : ℕ) (n : Node)
        → StaysNode count blocks (D.slot disks.log) (D.slot disks.control) (D.slot disks.pages) n
        → IsNode count blocks (D.slot result.0.log) (D.slot result.0.control)
        (D.slot result.0.pages) n }
    ensures log_blocks { D.block_count result.0.log ≡ D.block_count disks.log }
    ensures control_blocks { D.block_count result.0.control ≡ D.block_count disks.control }
    ensures page_blocks { D.block_count result.0.pages ≡ D.block_count disks.pages }
    ensures failures { D.failures result.0.log + D.failures result.0.control
        + D.failures result.0.pages
        ≡ D.failures disks.log + D.failures disks.control + D.failures disks.pages }
    ensures attempts { D.attempts result.0.log + D.attempts result.0.control
        + D.attempts result.0.pages
        ≡ D.attempts disks.log + D.attempts disks.control + D.attempts disks.pages }
{
    let Disks {
        log,
        control,
        pages,
    } = disks;
    let (log, first) = crash_one(log, picks);
    let (_, rest) = picks.split_at(first);
    let (control, second) = crash_one(control, rest);
    let (_, rest) = rest.split_at(second);
    let (pages, third) = crash_one(pages, rest);
    (
        Disks {
            log,
            control,
            pages,
        },
        first + second + third,
    )
}

impl<D: Restart> Store<D> {
    /// The devices as a crash leaves them: each block has the one of its candidates that the picks
    /// name, as `crash_disks` says. The answer tells how many picks were used.
    pub fn crash(self, picks: &[u8]) -> (Disks<D>, usize)
        ensures picked { CrashesTo self.stored picks.now (devices_of D.slot D.block_count result.0)
            result.1 }
        // Where no device has failed, one of the first picks names the control state that is left.
        ensures state { self.stored.broken ≡ false → NamesState self.stored picks.now
            (devices_of D.slot D.block_count result.0) }
        // Whatever the devices held when the store was made: all acknowledged bytes are there, and
        // are the log's.
        ensures kept { AreKept self.stored (D.slot result.0.log) (D.slot result.0.control) }
        // They hold one of the control states that were synced or written since, and the front of
        // the log that ends at its mark.
        ensures node { WasWarm self.stored
            → HoldsLeft self.stored (D.slot result.0.log) (D.slot result.0.control)
            (D.slot result.0.pages) }
        ensures log { AreSettled (D.slot result.0.log) }
        ensures control { AreSettled (D.slot result.0.control) }
        ensures pages { AreSettled (D.slot result.0.pages) }
        ensures log_blocks { D.block_count result.0.log ≡ self.stored.blocks }
        ensures some_blocks { 1 ≤ self.stored.blocks }
        ensures few_blocks { self.stored.blocks ≤ 4194304 }
        ensures control_blocks { 321 ≤ D.block_count result.0.control }
        ensures page_blocks { self.stored.pages ≤ D.block_count result.0.pages }
        ensures failures { D.failures result.0.log + D.failures result.0.control
            + D.failures result.0.pages ≡ self.stored.failures }
        ensures attempts { D.attempts result.0.log + D.attempts result.0.control
            + D.attempts result.0.pages ≡ self.stored.attempts }
    {
        let disks = self.into_disks();
        crash_disks(disks, picks)
    }
}
