ghost use Rattle.std.specs.Prelude.{◌≡◌, ◌≤◌, ◌<◌, ◌+◌, ◌-◌, ℕ, length, take, drop, IfOk, IfErr};
ghost use Rattle.als_ship.specs.declared.fault.Fault.TheVariants as fault;
ghost use Rattle.als_backup.specs.Fresh.{IsRefused};

use als_ship::Fault as SessionFault;

/// What of the bytes of a frame, which stand at an offset of the text of an epoch, is new: behind what has
/// come, and below the end that is wanted.
///
/// OtherEpoch: the frame is of another epoch than the source's. Gap: it begins past what has come.
pub(crate) fn fresh<'a>(
    of: u32,
    epoch: u32,
    offset: u64,
    bytes: &'a [u8],
    at: u64,
    end: u64,
) -> Result<&'a [u8], SessionFault>
    requires { at ≤ end }
    ensures ok { IfOk result (λ new. (of ≡ epoch) × (offset ≤ at)
        × ((n : ℕ) × (new.now ≡ take n (drop (at - offset) bytes.now)))
        × (at + length new.now ≤ end)) }
    ensures fails { IfErr result (IsRefused of epoch offset at) }
{
    if of != epoch {
        return Err(SessionFault::OtherEpoch { epoch: of });
    }
    if offset > at {
        return Err(SessionFault::Gap);
    }
    let past = (at - offset).min(bytes.len() as u64);
    let (_, behind) = bytes.split_at(past as usize);
    let wanted = (end - at).min(behind.len() as u64);
    let (new, _) = behind.split_at(wanted as usize);
    Ok(new)
}
