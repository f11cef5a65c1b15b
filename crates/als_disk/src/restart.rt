ghost use Rattle.std.specs.Prelude.{◌≡◌, ℕ, length, min};
ghost use Rattle.als_disk.specs.Crash.{LeavesPicked, choices_below};
ghost use Rattle.als_disk.specs.Slot.{KeepsCandidate};

use crate::BlockDisk;

/// A device that can crash and start again.
pub trait Restart: BlockDisk {
    /// Leaves in each block one of its candidates.
    ///
    /// The blocks that have more than one take the picks in rising order. Pick 0 is the content of
    /// the last sync, pick n that of the n-th write since, or of the last one where n is too large.
    /// Missing picks are 0. The answer tells how many picks were used.
    fn crash(self, picks: &[u8]) -> (Self, usize)
        ensures picked { LeavesPicked (Self.slot self) picks.now (Self.slot result.0) }
        ensures used { result.1 ≡ min (length picks.now)
            (choices_below (Self.slot self) (Self.block_count self)) }
        ensures candidate { (k : ℕ) → KeepsCandidate (Self.slot self k) (Self.slot result.0 k) }
        ensures count { Self.block_count result.0 ≡ Self.block_count self }
        ensures failures { Self.failures result.0 ≡ Self.failures self }
        ensures attempts { Self.attempts result.0 ≡ Self.attempts self };
}
