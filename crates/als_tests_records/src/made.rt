// Records of the tests, told in numbers: their keys are slots of page 0, their values have one byte.
use als_record::{Body, Image, Key, Lsn, Record, TransId, Value};

// What a record says. The tests hand it on, and not the record, which is many times as large.
#[derive(Clone, Copy)]
pub enum Said {
    Update {
        slot: u8,
        before: Option<u8>,
        after: u8,
    },
    Undo {
        slot: u8,
        after: Option<u8>,
        next: u64,
    },
    Commit,
    Rollback,
    End,
    BeginCheckpoint,
    Prepare,
}

// An update of a slot.
pub fn update(slot: u8, before: Option<u8>, after: u8) -> Said {
    Said::Update {
        slot,
        before,
        after,
    }
}

// A compensation at a slot, behind which the undo goes on at the next LSN.
pub fn undo(slot: u8, after: Option<u8>, next: u64) -> Said {
    Said::Undo { slot, after, next }
}

// A value of one byte, or none.
pub fn image(value: Option<u8>) -> Image {
    let mut bytes = Value::new();
    match bytes.try_push(value?) {
        Ok(()) => Some(bytes),
        Err(_) => None,
    }
}

fn body(said: Said) -> Body {
    match said {
        Said::Update {
            slot,
            before,
            after,
        } => Body::Update {
            key: Key { page: 0, slot },
            before: image(before),
            after: image(Some(after)),
        },
        Said::Undo { slot, after, next } => Body::Compensation {
            undo_next: Lsn(next),
            key: Key { page: 0, slot },
            after: image(after),
        },
        Said::Commit => Body::Commit,
        Said::Rollback => Body::Rollback,
        Said::End => Body::End,
        Said::BeginCheckpoint => Body::BeginCheckpoint,
        Said::Prepare => Body::Prepare,
    }
}

// The record that says it.
pub fn record(lsn: u64, prev: u64, trans: u32, said: Said) -> Record {
    Record {
        lsn: Lsn(lsn),
        prev: Lsn(prev),
        trans: TransId(trans),
        body: body(said),
    }
}
