ghost use Rattle.std.specs.Prelude.{◌≡◌, true, false, None, ◌<◌, IsSome, OnOk, OnErr, IfErr};
ghost use Rattle.std.specs.Result.{IsErrOf};
ghost use Rattle.als_record.specs.Shown.{shown as seen, shown_body};
ghost use Rattle.als_record.specs.Spelling.{IsRecord, spelling};
ghost use Rattle.als_record.specs.LogText.{end_of};
ghost use Rattle.als_record.specs.Transactions.{is_commit};
ghost use Rattle.als_record.specs.Validity.{first_bad};
ghost use Rattle.als_store.specs.declared.fault.Fault.TheVariants as fault;
ghost use Rattle.als_store.specs.Spare.{HasSpare};
ghost use Rattle.als_store.specs.Stored.{IsRefused, IsTooLong};
ghost use Rattle.als_store.specs.Takeover.{is_following};
ghost use Rattle.als_engine.specs.Readers.{ViewGoesOn};
ghost use Rattle.als_engine.specs.TakingIn.{HoldsRecord};

use als_commits::Commit;
use als_disk::BlockDisk;
use als_record::{BodyView, RecordView};
use als_store::{Fault, Store};
use als_view::{View, a_view_goes_on};
use std::alloc::Global;

/// Holds a record, and queues for readers the commit that it makes, if it makes one. All memory is
/// taken before the record is held.
pub(crate) fn hold<D: BlockDisk>(
    alloc: Global,
    held: &mut Store<D>,
    shown: &mut View,
    logged: &RecordView<'_>,
    bytes: &[u8],
) -> Result<(), Fault>
    requires fits { IsRecord held.old.stored.pages (seen logged.now) }
    requires at { logged.now.lsn.0 ≡ end_of held.old.stored.log }
    requires spelled { bytes.now ≡ spelling (seen logged.now) }
    requires following { is_following held.old.stored ≡ true }
    ensures ok { OnOk result (HoldsRecord held.old.stored (seen logged.now) held.new.stored) }
    ensures err { OnErr result (held.new.stored ≡ held.old.stored) }
    ensures cause { IfErr result (IsRefused held.old.stored (seen logged.now)) }
    ensures goes_on { ViewGoesOn held.old.stored.log shown.old held.new.stored.log shown.new }
    // Memory is wanted for a commit, or for a record that may follow and for which a part has no
    // room yet.
    ensures reserved { is_commit (shown_body logged.now.body) ≡ false
        → (first_bad held.old.stored.log (seen logged.now) ≡ None
        → (IsTooLong held.old.stored (seen logged.now) → ⊥)
        → HasSpare held.old.spare (seen logged.now))
        → IsErrOf result fault.Memory → ⊥ }
{
    if is_commit_record(&logged.body) {
        hold_commit(alloc, held, shown, logged, bytes)?;
        return Ok(());
    }
    held.admit(logged, bytes)?;
    // For the prover alone: what always holds of the log.
    let _ = held.end();
    a_view_goes_on();
    Ok(())
}

/// Whether a record commits its transaction.
fn is_commit_record(body: &BodyView<'_>) -> bool
    ensures { result ≡ is_commit (shown_body body.now) }
{
    matches!(body, BodyView::Commit)
}

/// Holds a commit record, and queues its commit.
fn hold_commit<D: BlockDisk>(
    alloc: Global,
    held: &mut Store<D>,
    shown: &mut View,
    logged: &RecordView<'_>,
    bytes: &[u8],
) -> Result<(), Fault>
    requires fits { IsRecord held.old.stored.pages (seen logged.now) }
    requires at { logged.now.lsn.0 ≡ end_of held.old.stored.log }
    requires spelled { bytes.now ≡ spelling (seen logged.now) }
    requires following { is_following held.old.stored ≡ true }
    ensures ok { OnOk result (HoldsRecord held.old.stored (seen logged.now) held.new.stored) }
    ensures err { OnErr result (held.new.stored ≡ held.old.stored) }
    ensures cause { IfErr result (IsRefused held.old.stored (seen logged.now)) }
    ensures goes_on { ViewGoesOn held.old.stored.log shown.old held.new.stored.log shown.new }
{
    let found = held.commit_of(alloc, logged)?;
    reserve_place(shown, &found)?;
    held.admit(logged, bytes)?;
    shown.take(found);
    Ok(())
}

/// Room for a commit, if there is one.
pub(crate) fn reserve_place(shown: &mut View, found: &Option<Commit>) -> Result<(), Fault>
    ensures same { shown.new ≡ record shown.old { room = shown.new.room } }
    ensures ok { OnOk result (IsSome found.now → 0 < shown.new.room) }
    ensures err { IfErr result (λ f. f ≡ fault.Memory) }
{
    match shown.make_room(found) {
        Ok(()) => Ok(()),
        Err(_) => Err(Fault::Memory),
    }
}
