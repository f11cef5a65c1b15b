use crate::shown_image::ShownImage;
use als_record::{Body, Record};
use std::fmt;

/// A record as `show log` has it.
#[derive(Drop)]
pub struct ShownRecord<'a>(pub &'a Record);

impl fmt::Display for ShownRecord<'_> {
    fn fmt<W: fmt::Write>(&self, f: &mut fmt::Formatter<W>) -> fmt::Result {
        let record = self.0;
        write!(f, "{} {}", record.lsn.0, kind(&record.body))?;
        if is_of_a_transaction(&record.body) {
            write!(f, " trans={}", record.trans.0)?;
        }
        match &record.body {
            Body::Update { key, before, after } => {
                let (before, after) = (ShownImage(before), ShownImage(after));
                write!(f, " {}/{} {before} {after}", key.page, key.slot)?;
            }
            Body::Compensation { key, after, .. } => {
                write!(f, " {}/{} {}", key.page, key.slot, ShownImage(after))?;
            }
            Body::BeginCheckpoint => return Ok(()),
            _ => {}
        }
        write!(f, " prev={}", record.prev.0)?;
        match &record.body {
            Body::Compensation { undo_next, .. } => write!(f, " next={}", undo_next.0),
            _ => Ok(()),
        }
    }
}

/// The word for a record's kind.
fn kind(body: &Body) -> &'static str {
    match body {
        Body::Update { .. } => "update",
        Body::Compensation { .. } => "clr",
        Body::Commit => "commit",
        Body::Rollback => "rollback",
        Body::End => "end",
        Body::BeginCheckpoint => "begin_chkpt",
        Body::EndCheckpoint { .. } => "end_chkpt",
        Body::Prepare => "prepare",
    }
}

/// A checkpoint's records are of none.
fn is_of_a_transaction(body: &Body) -> bool {
    match body {
        Body::BeginCheckpoint | Body::EndCheckpoint { .. } => false,
        _ => true,
    }
}
