ghost use Rattle.std.specs.Prelude.{◌≡◌, ◌++◌, length, IfOk, OnOk, Some};
ghost use Rattle.als_record.specs.LogText.{header_bytes};
ghost use Rattle.als_record.specs.Spelling.{spelling};
ghost use Rattle.als_text.specs.RawRecord.{record_of};

use crate::appending::append_record;
use crate::raw_body::RawBody;
use crate::raw_record::RawRecord;
use als_record::LogHeader;
use std::alloc::{AllocError, Global};
use std::collections::HashMap;
use std::marker::Model;

/// The log text of raw records: a header, and each record with its place and its PrevLSN filled in.
pub struct LogText {
    bytes: Vec<u8>,
    /// Where the header and then each record ends.
    ends: Vec<usize>,
    /// The LSN of the last record of each TransID.
    last_of: HashMap<u32, u64>,
    /// The LSN of the last begin_chkpt record, 0 before the first.
    last_checkpoint: u64,
}

impl Model for LogText {
    ghost use Rattle.std.specs.Prelude.{ℕ, List};

    ghost Value = { List ℕ };

    ghost view = { λ t. t.bytes.items };
}

// Written out: a derived drop is proved part by part wherever a text is dropped, this one only
// here.
impl Drop for LogText {
    fn drop(self) {
        let LogText {
            bytes,
            ends,
            last_of,
            last_checkpoint: _,
        } = self;
        drop(bytes);
        drop(ends);
        drop(last_of);
    }
}

impl LogText {
    /// A log of no records, of a database of so many pages.
    pub fn new(alloc: Global, pages: u32) -> Result<LogText, AllocError>
        ensures { IfOk result (λ t. t ≡ header_bytes pages) }
    {
        let header = LogHeader { pages }.encode();
        let bytes = Vec::from_slice(alloc, &header)?;
        let mut ends = Vec::new(alloc);
        ends.push(bytes.len())?;
        Ok(LogText {
            bytes,
            ends,
            last_of: HashMap::new(alloc),
            last_checkpoint: 0,
        })
    }

    /// The text so far.
    pub fn bytes(&self) -> &[u8]
        ensures { result.now ≡ self.now }
    {
        self.bytes.as_slice()
    }

    /// Where the header and then each record ends.
    pub fn ends(&self) -> &[usize] {
        self.ends.as_slice()
    }

    /// Appends a record: it stands where the text ends, and has its own PrevLSN where it gives itself
    /// one.
    pub fn push(&mut self, raw: &RawRecord) -> Result<(), AllocError>
        ensures { OnOk result ((prev : _)
            × (self.new ≡ self.old ++ spelling
            (record_of (length self.old) prev raw.now.trans raw.now.body))
            × ((own : _) → raw.now.prev ≡ Some own → prev ≡ own)) }
    {
        let lsn = self.bytes.len() as u64;
        let prev = match raw.prev {
            Some(prev) => prev,
            None => self.prev_of(raw),
        };
        append_record(&mut self.bytes, lsn, prev, raw.trans, &raw.body)?;
        self.note(raw, lsn)
    }

    /// Keeps where the last record begins and ends.
    fn note(&mut self, raw: &RawRecord, lsn: u64) -> Result<(), AllocError>
        ensures { self.new ≡ self.old }
    {
        self.ends.push(self.bytes.len())?;
        self.last_of.insert(raw.trans, lsn)?;
        if let RawBody::BeginCheckpoint = raw.body {
            self.last_checkpoint = lsn;
        }
        Ok(())
    }

    /// The PrevLSN of a record that gives itself none: the last record of the same TransID;
    /// for an end_chkpt the last begin_chkpt, and none for a begin_chkpt.
    fn prev_of(&self, raw: &RawRecord) -> u64 {
        match &raw.body {
            RawBody::BeginCheckpoint => 0,
            RawBody::EndCheckpoint => self.last_checkpoint,
            _ => self.last_of.get(&raw.trans).copied().unwrap_or(0),
        }
    }
}
