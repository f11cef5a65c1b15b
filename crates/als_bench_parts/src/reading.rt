ghost use Rattle.std.specs.Prelude.{◌≡◌, true};
ghost use Rattle.als_validator.specs.Validated.{judges};

use als_receiver::Receiver;
use als_record::{BodyView, Lsn, RecordView, decode, view_record};
use als_sample_logs::{FIRST, PAGES};
use als_validator::Validator;
use std::alloc::Global;

/// The last byte of what a record writes, 0 for none. The jobs below ask for it, since a record
/// that nobody reads is not even made.
#[inline(never)]
fn last_byte(logged: &RecordView<'_>) -> usize {
    let (BodyView::Update { after, .. } | BodyView::Compensation { after, .. }) = &logged.body
    else {
        return 0;
    };
    match after.bytes {
        Some(bytes) => bytes.last().map_or(0, |byte| *byte as usize),
        None => 0,
    }
}

/// Views each record where it lies, and answers how many there are.
pub fn view_all(text: &[u8]) -> u64 {
    let mut at = FIRST;
    let mut records = 0u64;
    for _ in 0..u64::MAX {
        let Some(rest) = text.get(at..) else {
            break;
        };
        match view_record(rest, Lsn(at as u64), PAGES) {
            Ok(Some((logged, len))) if last_byte(&logged) <= text.len() => {
                at = at.saturating_add(len);
            }
            _ => break,
        }
        records = records.saturating_add(1);
    }
    records
}

/// Decodes each record, and answers how many there are.
pub fn decode_all(alloc: Global, text: &[u8]) -> u64 {
    let mut at = FIRST;
    let mut records = 0u64;
    for _ in 0..u64::MAX {
        let Some(rest) = text.get(at..) else {
            break;
        };
        match decode(alloc, rest, Lsn(at as u64), PAGES) {
            Ok(Some((logged, len))) if last_byte(&logged.view()) <= text.len() => {
                at = at.saturating_add(len);
            }
            _ => break,
        }
        records = records.saturating_add(1);
    }
    records
}

/// Decodes each record and lets the validator judge and take it, and does not look ahead.
pub fn judge_all(alloc: Global, text: &[u8]) -> u64 {
    let Ok(mut validator) = Validator::new(alloc, PAGES) else {
        return 0;
    };
    let mut at = FIRST;
    let mut records = 0u64;
    for _ in 0..u64::MAX {
        let Some(rest) = text.get(at..) else {
            break;
        };
        let Ok(Some((logged, len))) = view_record(rest, Lsn(at as u64), PAGES) else {
            break;
        };
        if validator.check(&logged).is_err() {
            break;
        }
        match validator.reserve() {
            Ok(()) => validator.admit(&logged),
            Err(_) => break,
        }
        at = at.saturating_add(len);
        records = records.saturating_add(1);
    }
    records
}

/// Takes a log in pieces of so many bytes, and hands out its records.
pub fn receive_all(alloc: Global, text: &[u8], piece: usize) -> u64 {
    let mut receiver = Receiver::new(alloc, Lsn(FIRST as u64), PAGES);
    let mut records = 0u64;
    for bytes in text.get(FIRST..).unwrap_or(&[]).chunks(piece.max(1)) {
        if bytes.len() as u64 >= u64::MAX - receiver.position() {
            break;
        }
        if receiver.push(bytes).is_err() {
            break;
        }
        for _ in 0..u64::MAX {
            match receiver.peek() {
                Ok(Some((logged, len))) if last_byte(&logged) <= text.len() => {
                    receiver.advance(len);
                    records = records.saturating_add(1);
                }
                _ => break,
            }
        }
    }
    records
}

/// Lets the validator judge and take each record that is whole, and answers how many there were. It
/// looks ahead.
fn judge_whole(receiver: &mut Receiver, validator: &mut Validator) -> u64
    requires { judges validator.old ≡ true }
    ensures { judges validator.new ≡ true }
{
    let mut records = 0u64;
    let mut ahead = 0usize;
    for _ in 0..u64::MAX {
        if ahead == 0 {
            ahead = validator.look_ahead(receiver.front(receiver.partial()));
        }
        let Ok(Some((logged, len))) = receiver.peek() else {
            break;
        };
        if validator.check(&logged).is_err() {
            break;
        }
        match validator.reserve() {
            Ok(()) => validator.admit(&logged),
            Err(_) => break,
        }
        receiver.advance(len);
        ahead = ahead.saturating_sub(len);
        records = records.saturating_add(1);
    }
    records
}

/// Takes a log in pieces of so many bytes, and lets the validator judge and take its records.
pub fn judge_pieces(alloc: Global, text: &[u8], piece: usize) -> u64 {
    let Ok(mut validator) = Validator::new(alloc, PAGES) else {
        return 0;
    };
    let mut receiver = Receiver::new(alloc, Lsn(FIRST as u64), PAGES);
    let mut records = 0u64;
    for bytes in text.get(FIRST..).unwrap_or(&[]).chunks(piece.max(1)) {
        if bytes.len() as u64 >= u64::MAX - receiver.position() {
            break;
        }
        if receiver.push(bytes).is_err() {
            break;
        }
        records = records.saturating_add(judge_whole(&mut receiver, &mut validator));
    }
    records
}
