ghost use Rattle.std.specs.Prelude.{◌≡◌};
ghost use Rattle.als_folder.specs.Troubles.{trouble_of_kind};

use crate::part::Part;
use crate::trouble::{Trouble, Wrong};
use als_fault::FaultKind;

/// What of a folder is wrong, where its standby is refused so. None: nothing is, or no file of it
/// alone.
pub fn trouble_of(kind: FaultKind) -> Option<Trouble>
    ensures { result ≡ trouble_of_kind kind }
{
    let (part, wrong) = match kind {
        FaultKind::BadControl => (Part::Control, Wrong::BadControl),
        FaultKind::BadHeader => (Part::Log, Wrong::NoHeader),
        FaultKind::LogFull => (Part::Log, Wrong::Full),
        FaultKind::BadPage { page } => (Part::Pages, Wrong::BadPage { page }),
        FaultKind::Device => (Part::Itself, Wrong::Failed),
        FaultKind::BadLength
        | FaultKind::BadType
        | FaultKind::BadReserved
        | FaultKind::WrongLsn
        | FaultKind::BadKey
        | FaultKind::BadValue
        | FaultKind::BadPrev
        | FaultKind::OldTransaction
        | FaultKind::WrongState
        | FaultKind::WrongUndoNext
        | FaultKind::WrongCompensation
        | FaultKind::RecordHeld { .. }
        | FaultKind::BeforeImage
        | FaultKind::TooManyTransactions
        | FaultKind::BadCheckpoint => (Part::Log, Wrong::BadRecord),
        _ => return None,
    };
    Some(Trouble { part, wrong })
}
