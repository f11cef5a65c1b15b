use als_record::{Body, Image, Key, Lsn, Record, TransId, Value, encode};
use std::alloc::Global;

/// A value of one byte, or none.
fn image(byte: Option<u8>) -> Image {
    let mut bytes = Value::new();
    match bytes.try_push(byte?) {
        Ok(()) => Some(bytes),
        Err(_) => None,
    }
}

/// A log text, spelled record by record, one transaction after another.
#[derive(Drop)]
pub(crate) struct Spelled {
    bytes: Vec<u8>,
    from: Lsn,
    trans: TransId,
    last: Lsn,
    // Memory was not refused.
    is_whole: bool,
}

impl Spelled {
    /// The text from an offset on, which has no record yet.
    pub(crate) fn new(alloc: Global, from: Lsn) -> Spelled {
        Spelled {
            bytes: Vec::new(alloc),
            from,
            trans: TransId(0),
            last: Lsn(0),
            is_whole: true,
        }
    }

    /// The records that follow are of this transaction.
    pub(crate) fn begin(&mut self, trans: u32) {
        self.trans = TransId(trans);
        self.last = Lsn(0);
    }

    /// An update of a slot from one byte, or none, to another.
    pub(crate) fn update(&mut self, page: u32, slot: u8, before: Option<u8>, after: Option<u8>) {
        self.put(Body::Update {
            key: Key { page, slot },
            before: image(before),
            after: image(after),
        });
    }

    pub(crate) fn commit(&mut self) {
        self.put(Body::Commit);
    }

    pub(crate) fn end(&mut self) {
        self.put(Body::End);
    }

    pub(crate) fn prepare(&mut self) {
        self.put(Body::Prepare);
    }

    /// A record behind those that the text has.
    fn put(&mut self, body: Body) {
        let lsn = Lsn(self.from.0.saturating_add(self.bytes.len() as u64));
        let logged = Record {
            lsn,
            prev: self.last,
            trans: self.trans,
            body,
        };
        self.is_whole = encode(&logged, &mut self.bytes).is_ok() && self.is_whole;
        self.last = lsn;
    }

    /// The text. `None`: allocation failed.
    pub(crate) fn text(self) -> Option<Vec<u8>> {
        let Spelled {
            bytes,
            is_whole,
            ..
        } = self;
        if is_whole { Some(bytes) } else { None }
    }
}
