ghost use Rattle.std.specs.Prelude.{◌≡◌, false, true, Some, Err, IfSome, IfNone};
ghost use Rattle.als_operate.specs.FaultNames.{kind_of};
ghost use Rattle.als_service.specs.Endings.{is_final, ends_it};
ghost use Rattle.als_service.specs.Losses.{IsLost};

use als_fault::FaultKind;
use als_operate::Fault;
use als_ship::Fault as SessionFault;

/// The fault of a session that ends all, if it is one that asking again can't mend.
pub(crate) fn final_fault(ended: Option<Result<(), Fault>>) -> Option<Fault>
    ensures ends { IfSome result (λ fault. ended ≡ Some (Err fault)) }
    ensures over { IfSome result (λ fault. is_final (kind_of fault) ≡ true) }
    ensures goes_on { IfNone result (ends_it ended ≡ false) }
{
    match ended {
        Some(Err(fault)) => {
            let mut found = None;
            if is_final(fault.kind()) {
                found = Some(fault);
            }
            found
        }
        Some(Ok(())) => None,
        None => None,
    }
}

/// Whether asking again can't mend it: the database was taken over, its log has no room, a device failed
/// or had failed, a page or the control block is damaged, or the primary's log is another one.
fn is_final(kind: FaultKind) -> bool
    ensures { result ≡ is_final kind }
{
    match kind {
        FaultKind::Sealed => true,
        FaultKind::LogFull => true,
        FaultKind::Device => true,
        FaultKind::Stopped => true,
        FaultKind::BadPage { page: _ } => true,
        FaultKind::BadControl => true,
        FaultKind::Diverged { seal: _ } => true,
        FaultKind::OtherEpoch { epoch: _ } => true,
        FaultKind::OtherLog => true,
        _ => false,
    }
}

/// Whether the connection was lost, or there was none.
pub(crate) fn is_lost(fault: Fault) -> bool
    ensures { result ≡ false → IsLost fault → ⊥ }
{
    matches!(
        fault,
        Fault::Stream | Fault::Session(SessionFault::Cut | SessionFault::Stream)
    )
}

/// Whether what the primary sent is refused, and it is not the connection that was lost, nor memory that
/// is wanted here.
pub(crate) fn is_refusal(fault: Fault) -> bool
    ensures { result ≡ true → IsLost fault → ⊥ }
{
    match fault.kind() {
        FaultKind::Memory => false,
        _ => !is_lost(fault),
    }
}
