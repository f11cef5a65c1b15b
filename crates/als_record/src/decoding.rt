ghost use Rattle.std.specs.Prelude.{◌≡◌, ℕ, ◌≤◌, ◌++◌, List, length, take, slice_index, Some, Ok};
ghost use Rattle.std.specs.Prelude.{IfOk, IfErr, IfSome};
ghost use Rattle.std.specs.Result.{IsErrOf};
ghost use Rattle.als_record.specs.declared.record.Record.{Record as AnyRecord};
ghost use Rattle.als_record.specs.declared.fault.Fault.TheVariants.{Memory};
ghost use Rattle.als_record.specs.Spelling.{spelling, record_len, IsRecord};
ghost use Rattle.als_record.specs.Reading.{Gives, TakesMemory, read_record};

use crate::fault::Fault;
use crate::lsn::Lsn;
use crate::record::Record;
use crate::viewing::view_record;
use std::alloc::Global;

/// A copy of what `view_record` shows.
#[inline(always)]
fn copied(
    alloc: Global,
    bytes: &[u8],
    at: Lsn,
    pages: u32,
) -> Result<Option<(Record, usize)>, Fault>
    ensures exact { Gives (λ o. o) result (read_record pages at.0 bytes.now) }
    ensures memory { IfErr result (λ e. e ≡ Memory
        → TakesMemory (read_record pages at.0 bytes.now)) }
{
    match view_record(bytes, at, pages)? {
        None => Ok(None),
        Some((view, len)) => {
            let record = view.to_record(alloc)?;
            Ok(Some((record, len)))
        }
    }
}

/// The record at the front of the bytes, and its length in bytes, for a log in which it stands at
/// `at` and a database of `pages` pages. `None`: more bytes are needed.
///
/// The first of these that applies decides: `BadLength` for a length that its type may not have,
/// `BadType`, `BadReserved`, `WrongLsn` for another own LSN than `at`, `None` for a record that is
/// not whole, `BadKey`, `BadValue`, and `BadLength` for a length that its fields do not make.
/// `Memory`: the rows of an end_chkpt found no room.
// Inlined with all that it calls but for the rows of an end_chkpt, so that a record is not moved
// from answer to answer.
#[inline(always)]
pub fn decode(
    alloc: Global,
    bytes: &[u8],
    at: Lsn,
    pages: u32,
) -> Result<Option<(Record, usize)>, Fault>
    // What is found is spelled so.
    ensures found { IfOk result (λ o. IfSome o (λ x. (take x.1 bytes.now ≡ spelling x.0)
        × (x.1 ≡ record_len x.0)
        × (x.1 ≤ length bytes.now) × (x.0.lsn.0 ≡ at.0) × IsRecord pages x.0)) }
    // What is spelled so is found, unless memory runs out.
    ensures only { (r : AnyRecord) (rest : List ℕ) → IsRecord pages r → r.lsn.0 ≡ at.0
        → bytes.now ≡ spelling r ++ rest
        → Gives (λ o. o) result (Ok (Some (r, record_len r))) }
    // Which fault it is, and when more bytes are needed.
    ensures exact { Gives (λ o. o) result (read_record pages at.0 bytes.now) }
    // Memory is wanted for nothing but the rows of an end_chkpt record that is there.
    ensures memory { IsErrOf result Memory → slice_index bytes.now 4 ≡ 7 }
    ensures rows { IsErrOf result Memory → TakesMemory (read_record pages at.0 bytes.now) }
{
    copied(alloc, bytes, at, pages)
}
