use als_record::{Body, Image, Key, Lsn, Record, TransId, Value, encode};
use std::alloc::Global;

/// A value of one byte, or none.
pub fn image(byte: Option<u8>) -> Image {
    let mut bytes = Value::new();
    match bytes.try_push(byte?) {
        Ok(()) => Some(bytes),
        Err(_) => None,
    }
}

/// An update of a key from one byte, or none, to another.
#[derive(Clone, Copy)]
pub struct Change {
    pub key: Key,
    pub before: Option<u8>,
    pub after: Option<u8>,
}

/// Spells a record behind those that the text has, which begins at an offset, and answers its LSN.
/// `None`: allocation failed.
fn put(text: &mut Vec<u8>, from: Lsn, trans: u8, prev: Lsn, body: Body) -> Option<Lsn> {
    let lsn = Lsn(from.0.saturating_add(text.len() as u64));
    let logged = Record {
        lsn,
        prev,
        trans: TransId(u32::from(trans)),
        body,
    };
    encode(&logged, text).ok()?;
    Some(lsn)
}

/// The records of a transaction, of which the first one is at an offset: its updates, its commit
/// and its end. `None`: allocation failed.
pub fn transaction(alloc: Global, from: Lsn, trans: u8, changes: &[Change]) -> Option<Vec<u8>> {
    let mut text = Vec::new(alloc);
    let mut last = Lsn(0);
    for change in changes {
        let body = Body::Update {
            key: change.key,
            before: image(change.before),
            after: image(change.after),
        };
        last = put(&mut text, from, trans, last, body)?;
    }
    let committed = put(&mut text, from, trans, last, Body::Commit)?;
    put(&mut text, from, trans, committed, Body::End)?;
    Some(text)
}
