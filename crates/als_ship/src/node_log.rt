ghost use Rattle.std.specs.Prelude.{◌≡◌, IfOk, OnOk, true};
ghost use Rattle.als_record.specs.LogText.{header_bytes};
ghost use Rattle.als_record.specs.Validity.{is_valid};
ghost use Rattle.als_ship.specs.Sourced.{SpellsTo, IsAcknowledged};

use crate::fault::Fault;
use crate::source::LogBytes;
use als_engine::Events;
use als_record::{LogHeader, Lsn, encode, encoded_len};
use std::alloc::Global;

/// The log of a node as far as it is acknowledged, in memory, with the node's history.
///
/// Memory: there was none for it. Refused: a read of the log device failed.
pub fn acknowledged_log<E: Events>(alloc: Global, events: &mut E) -> Result<LogBytes, Fault>
    ensures is { IfOk result (λ s. E.alone → IsAcknowledged (E.machine events.old) s) }
    ensures same { OnOk result (E.alone → E.machine events.new ≡ E.machine events.old) }
{
    let header = LogHeader {
        pages: events.pages(),
    };
    let history = events.history();
    let limit = events.status().acknowledged;
    let mut bytes = Vec::new(alloc);
    bytes.extend_from_slice(&header.encode())?;
    spell_to(events, limit, &mut bytes)?;
    LogBytes::with_history(bytes, history)
}

/// Spells the log's records behind its header, up to the last one that ends at or below a limit.
fn spell_to<E: Events>(events: &mut E, limit: Lsn, bytes: &mut Vec<u8>) -> Result<(), Fault>
    requires header { E.alone → bytes.old.items ≡ header_bytes (E.machine events.old).held.pages }
    requires valid { E.alone → is_valid (E.machine events.old).held.log ≡ true }
    ensures all { OnOk result (E.alone → SpellsTo (E.machine events.old).held.pages
        (E.machine events.old).held.log limit.0 bytes.new.items) }
    ensures same { OnOk result (E.alone → E.machine events.new ≡ E.machine events.old) }
{
    for _ in 0..u64::MAX {
        let at = bytes.len() as u64;
        let Some(record) = events.record_at(Lsn(at))? else {
            return Ok(());
        };
        if at + encoded_len(&record) as u64 > limit.0 {
            return Ok(());
        }
        match encode(&record, bytes) {
            Ok(()) => {}
            Err(_) => return Err(Fault::Memory),
        }
    }
    Err(Fault::Stream)
}
