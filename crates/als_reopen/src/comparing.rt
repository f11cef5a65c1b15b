// The checkpoint of a front of the log, compared with that front.
ghost use Rattle.std.specs.Prelude.{◌≡◌, true, false, MatchBool, IfOk, IfErr};
ghost use Rattle.als_scan.specs.Scanned.{IsScanned};
ghost use Rattle.als_tables.specs.Counting.{IsCountOf};
ghost use Rattle.als_tables.specs.Fronts.{numbers_of, IsCheckpointOf};

use crate::fault::Fault;
use als_ckpt_codec::{Checkpoint, Numbers};
use als_disk::BlockDisk;
use als_record::LoggedTransaction;
use als_scan::Scan;
use als_tables::{CommitCount, fits_checkpoint, logged_rows};
use std::alloc::Global;

/// The numbers of the records handed out.
fn numbers<D: BlockDisk>(scan: &Scan<D>, count: &CommitCount) -> Numbers
    requires { IsCountOf count.now scan.now.log }
    ensures { result ≡ numbers_of scan.now.log }
{
    let validator = scan.validator();
    Numbers {
        position: scan.end(),
        greatest: validator.greatest(),
        open_checkpoint: validator.open_checkpoint(),
        commits: count.commits,
        last_commit: count.last_commit,
    }
}

/// Whether two checkpoints' numbers are the same.
fn are_same_numbers(a: &Numbers, b: &Numbers) -> bool
    ensures same { result ≡ true → a.now ≡ b.now }
    ensures differ { result ≡ false → a.now ≡ b.now → ⊥ }
{
    a == b
}

/// Whether two checkpoints' transaction rows are the same.
fn are_same_rows(a: &[LoggedTransaction], b: &[LoggedTransaction]) -> bool
    ensures same { result ≡ true → a.now ≡ b.now }
    ensures differ { result ≡ false → a.now ≡ b.now → ⊥ }
{
    a == b
}

/// Whether the numbers and the transaction rows of a checkpoint are those of the records handed
/// out.
///
/// `Memory`: an allocation failed.
pub(crate) fn is_checkpoint_of<D: BlockDisk>(
    alloc: Global,
    scan: &Scan<D>,
    count: &CommitCount,
    checkpoint: &Checkpoint,
) -> Result<bool, Fault>
    requires facts { IsScanned scan.now }
    requires counted { IsCountOf count.now scan.now.log }
    ensures ok { IfOk result (λ is. MatchBool is (IsCheckpointOf scan.now.log checkpoint.now)
        (IsCheckpointOf scan.now.log checkpoint.now → ⊥)) }
    ensures err { IfErr result (λ fault. fault ≡ Fault.Memory) }
{
    fits_checkpoint();
    let numbers = numbers(scan, count);
    let transactions = logged_rows(alloc, scan.table().rows())?;
    if !are_same_numbers(&checkpoint.numbers, &numbers) {
        return Ok(false);
    }
    Ok(are_same_rows(checkpoint.transactions.as_slice(), transactions.as_slice()))
}
