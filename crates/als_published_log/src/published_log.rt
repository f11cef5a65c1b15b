ghost use Rattle.std.specs.Prelude.{◌≡◌, ◌<◌, ◌≤◌, ◌^◌, true, All, length, IfOk, OnErr};
ghost use Rattle.als_view.specs.Showing.{View as AnyView};
ghost use Rattle.als_validator.specs.Validated.{judges};
ghost use Rattle.als_published_log.specs.Keeping.{HasLog, IsSameView, IsReaderOf};

use crate::fault::Fault;
use crate::holding::hold;
use als_record::{Lsn, view_record};
use als_validator::Validator;
use als_view::{Reader, Told, View};
use std::alloc::{AllocError, Global};
use std::sync::Wait;

/// The offset of a log's first record.
const FIRST: u64 = 16;

/// A log in memory whose records are judged. The commits that they make wait, and a publish shows
/// them: all of the log counts as acknowledged.
pub struct PublishedLog {
    alloc: Global,
    pages: u32,
    // The offset behind the last record.
    end: Lsn,
    validator: Validator,
    view: View,
    ghost kept: { HasLog pages end.0 validator view },
    ghost judging: { judges validator ≡ true },
}

// Written out: a derived drop is proved wherever a log is dropped, this one only here.
impl Drop for PublishedLog {
    fn drop(self) {
        let PublishedLog {
            alloc: _,
            pages: _,
            end: _,
            validator,
            view,
        } = self;
        drop(validator);
        drop(view);
    }
}

impl PublishedLog {
    /// The empty log of a database with so many pages, with an empty published list, and so many
    /// readers of it.
    pub fn new<R: Wait>(
        alloc: Global,
        rt: &R,
        pages: u32,
        readers: usize,
    ) -> Result<(PublishedLog, Vec<Reader>), Fault>
        requires { (0 < readers) × (readers < 2 ^ 32) }
        ensures readers { IfOk result (λ t. All (IsReaderOf t.0.view) t.1.items) }
        ensures count { IfOk result (λ t. length t.1.items ≡ readers) }
    {
        let Ok(validator) = Validator::new(alloc, pages) else {
            return Err(Fault::Memory);
        };
        let (view, all) = View::new(alloc, rt, pages, readers, true)?;
        let log = PublishedLog {
            alloc,
            pages,
            end: Lsn(FIRST),
            validator,
            view,
        };
        Ok((log, all))
    }

    /// The offset at which the next record must be.
    pub fn end(&self) -> Lsn
        ensures { result ≡ self.now.end }
    {
        self.end
    }

    /// Takes the record that the bytes begin with, and answers how many bytes it has, 0 where more
    /// bytes are needed. At an `Err` the log is that of before.
    fn take_first(&mut self, bytes: &[u8]) -> Result<usize, Fault>
        ensures same { IsSameView self.old.view self.new.view }
        ensures size { IfOk result (λ len. len ≤ length bytes.now) }
    {
        let (logged, len) = match view_record(bytes, self.end, self.pages) {
            Ok(Some(found)) => found,
            Ok(None) => return Ok(0),
            Err(_) => return Err(Fault::NoRecord),
        };
        let Some(end) = self.end.0.checked_add(len as u64) else {
            return Ok(0);
        };
        let PublishedLog {
            alloc,
            pages: _,
            end: at,
            validator,
            view,
        } = self;
        hold(*alloc, validator, view, &logged)?;
        *at = Lsn(end);
        Ok(len)
    }

    /// Takes the records that the bytes consist of, behind those that the log has. The commits that
    /// they make wait. At an `Err` the log has those in front of the refused one.
    pub fn feed(&mut self, bytes: &[u8]) -> Result<(), Fault>
        ensures same { IsSameView self.old.view self.new.view }
    {
        let mut rest = bytes;
        for _ in 0..bytes.len() {
            let taken = self.take_first(rest)?;
            let (_, after) = rest.split_at(taken);
            rest = after;
            if taken == 0 {
                break;
            }
        }
        Ok(())
    }

    /// Publishes each commit of the log at once. It waits for readers that are still in the copy of
    /// before the last call. At an `Err` readers see what they saw.
    pub fn publish<R: Wait>(&mut self, rt: &R) -> Result<(), AllocError>
        ensures same { IsSameView self.old.view self.new.view }
        ensures err { OnErr result (self.new.view.published ≡ self.old.view.published) }
    {
        let PublishedLog { view, .. } = self;
        view.publish_ended(rt, Lsn(u64::MAX))
    }

    /// The view of the log.
    pub fn view(&self) -> &View
        ensures { result.now ≡ self.now.view }
    {
        &self.view
    }

    /// The whole published list, for any reader of the log.
    pub fn tell(&self) -> Told
        ensures { result.seen.book ≡ self.now.view.book }
    {
        self.view.tell()
    }

    /// Waits for the readers that are in a copy, and ends the view: reads are then refused with
    /// Stopped.
    pub fn close<R: Wait>(self, rt: &R) {
        let PublishedLog {
            alloc: _,
            pages: _,
            end: _,
            validator,
            view,
        } = self;
        drop(validator);
        view.close(rt);
    }
}
