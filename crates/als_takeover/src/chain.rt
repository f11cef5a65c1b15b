// The records of an undo chain.
ghost use Rattle.std.specs.Prelude.{◌≡◌};
ghost use Rattle.als_record.specs.Transactions.{is_update};
ghost use Rattle.als_record.specs.UndoChain.{goes_to};

use als_record::{Body, Record};

/// Whether a record is an update.
pub(crate) fn is_update_record(found: &Record) -> bool
    ensures { result ≡ is_update found.now.body }
{
    matches!(&found.body, Body::Update { .. })
}

/// Where undo goes on behind a record: behind a compensation at its UndoNxtLSN, behind any other at
/// the record before it.
pub(crate) fn next_of(found: &Record) -> u64
    ensures { result ≡ goes_to found.now found.now.body }
{
    match &found.body {
        Body::Compensation { undo_next, .. } => undo_next.0,
        _ => found.prev.0,
    }
}

/// Lets a record go: its drop is proved here alone.
pub(crate) fn let_go(_found: Record) {}
