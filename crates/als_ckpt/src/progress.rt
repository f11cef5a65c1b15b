ghost use Rattle.std.specs.Prelude.{◌≡◌, ◌≢◌, ◌⊎◌, true, false, ◌+◌, ◌<◌, ◌≤◌, None as NoneBegun};
ghost use Rattle.std.specs.Prelude.{IsSomeAnd, IfOk, IfErr};
ghost use Rattle.als_ckpt_codec.specs.Checkpoint.{checkpoint_bytes};
ghost use Rattle.als_ckpt.specs.Regions.{first_block, part_of, block_written, blocks_synced};
ghost use Rattle.als_ckpt.specs.Regions.{position_of, HasBlockLeft, IsWhole, IsBegun};
ghost use Rattle.als_ckpt.specs.Outcomes.{IsNotReady};

use crate::begun::Begun;
use crate::fault::Fault;
use crate::region::Region;
use als_record::{BLOCK_LEN, Lsn};

/// Whether a checkpoint is begun, or the newest state names another region than the synced one.
pub(crate) fn is_busy(begun: &Option<Begun>, newest: Option<Region>, synced: Option<Region>) -> bool
    ensures busy { result ≡ true → (begun.now ≢ NoneBegun) ⊎ (newest ≢ synced) }
    ensures free { result ≡ false → (begun.now ≡ NoneBegun) × (newest ≡ synced) }
{
    begun.is_some() || newest != synced
}

/// Where the next block of a checkpoint goes, and what it holds.
///
/// `NothingToDo`: no checkpoint is begun, or each of its blocks is written.
pub(crate) fn next_block(begun: &Option<Begun>) -> Result<(u64, [u8; BLOCK_LEN]), Fault>
    ensures ok { IfOk result (λ n. IsSomeAnd begun.now (λ b. IsBegun b × HasBlockLeft b
        × (n.0 ≡ first_block b.region + b.written)
        × (n.1 ≡ part_of (checkpoint_bytes b.checkpoint) b.written))) }
    ensures err { IfErr result (λ f. (f ≡ Fault.NothingToDo)
        × (IsSomeAnd begun.now HasBlockLeft → ⊥)) }
{
    match begun {
        Some(begun) if begun.has_block_left() => Ok(begun.next_block()),
        _ => Err(Fault::NothingToDo),
    }
}

/// Notes that the next block is written.
pub(crate) fn note_written(begun: &mut Option<Begun>)
    requires { IsSomeAnd begun.old HasBlockLeft }
    ensures { begun.new ≡ block_written begun.old }
{
    match begun {
        Some(begun) => begun.note_written(),
        None => {}
    }
}

/// Notes that the device is synced.
pub(crate) fn note_synced(begun: &mut Option<Begun>)
    ensures { begun.new ≡ blocks_synced begun.old }
{
    match begun {
        Some(begun) => begun.note_synced(),
        None => {}
    }
}

/// The region and the position of a checkpoint that can be published, for a log that is
/// acknowledged up to a mark.
///
/// `NothingToDo`: none is begun. `CkptBusy`: a block of it is not written and synced. `LogBehind`:
/// its position is above the mark.
pub(crate) fn place_of(begun: &Option<Begun>, acknowledged: Lsn) -> Result<(Region, Lsn), Fault>
    ensures ok { IfOk result (λ p. IsSomeAnd begun.now (λ b. IsWhole b
        × (position_of b ≤ acknowledged.0) × (p.0 ≡ b.region)
        × (p.1 ≡ b.checkpoint.numbers.position))) }
    ensures err { IfErr result (λ f. IsNotReady f acknowledged.0 begun.now) }
{
    match begun {
        None => Err(Fault::NothingToDo),
        Some(begun) => {
            if !begun.is_whole() {
                return Err(Fault::CkptBusy);
            }
            if acknowledged.0 < begun.position().0 {
                return Err(Fault::LogBehind);
            }
            Ok((begun.region, begun.position()))
        }
    }
}
