use crate::words::Words;
use als_text::{RawBody, RawRecord};

/// The record of a line; None where it is no record line.
pub fn parse_record(line: &str) -> Option<RawRecord> {
    let mut words = Words::of(line);
    let record = match words.next()? {
        "u" => raw_record(words.number()?, update(&mut words)?),
        "c" => raw_record(words.number()?, compensation(&mut words)?),
        "commit" => raw_record(words.number()?, RawBody::Commit),
        "rollback" => raw_record(words.number()?, RawBody::Rollback),
        "end" => raw_record(words.number()?, RawBody::End),
        "prepare" => raw_record(words.number()?, RawBody::Prepare),
        "ckpt" => raw_record(0, RawBody::BeginCheckpoint),
        "ckptend" => raw_record(0, RawBody::EndCheckpoint),
        _ => return None,
    };
    if words.is_at_end() {
        return Some(record);
    }
    let prev = words.labelled("prev=")?;
    words.ending(RawRecord {
        prev: Some(prev),
        ..record
    })
}

/// A record of a transaction, with no PrevLSN of its own.
fn raw_record(trans: u32, body: RawBody) -> RawRecord {
    RawRecord {
        trans,
        prev: None,
        body,
    }
}

/// `P S BEFORE AFTER`.
fn update(words: &mut Words) -> Option<RawBody> {
    Some(RawBody::Update {
        page: words.number()?,
        slot: words.number()?,
        before: words.image()?,
        after: words.image()?,
    })
}

/// `P S AFTER NEXT`.
fn compensation(words: &mut Words) -> Option<RawBody> {
    Some(RawBody::Compensation {
        page: words.number()?,
        slot: words.number()?,
        after: words.image()?,
        undo_next: words.number()?,
    })
}
