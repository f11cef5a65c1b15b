ghost use Rattle.std.specs.Prelude.{◌≡◌, ◌≢◌, ◌+◌, ◌<◌, ◌≤◌, ◌^◌, [], ◌++◌, length, take};
ghost use Rattle.std.specs.Prelude.{MatchBool, IfErr, IsOk, OnOk, OnErr};
ghost use Rattle.als_record.specs.declared.fault.Fault.TheVariants.{Memory};

use crate::refusal::Refusal;
use als_record::{Fault, Lsn, Record, RecordView, view_record};
use bytes::BytesMut;
use std::alloc::{AllocError, Global};
use std::marker::Model;

/// Takes the bytes of a log text in pieces, however they are cut, and hands out its records one by
/// one. It keeps the bytes of a record that is not whole yet, and after bytes that are no record it
/// gives the same refusal for good.
pub struct Receiver {
    pages: u32,
    wanted: Lsn,
    kept: BytesMut,
    refusal: Option<Refusal>,
}

// Written out: a derived drop is proved wherever a receiver is dropped, this one only here.
impl Drop for Receiver {
    fn drop(self) {
        let Receiver {
            pages: _,
            wanted: _,
            kept,
            refusal: _,
        } = self;
        drop(kept);
    }
}

impl Model for Receiver {
    ghost use Rattle.std.specs.Prelude.{◌≢◌, ◌+◌, ◌<◌, ◌^◌, length, IfSome};
    ghost use Rattle.als_record.specs.declared.fault.Fault.TheVariants.{Memory};
    ghost use Rattle.als_receiver.specs.Reception.{Reception};

    ghost Value = { Reception };

    ghost view = { λ r. record {
      pages = r.pages;
      wanted = r.wanted.0;
      kept = r.kept.items;
      room = r.kept.spare;
      refusal = r.refusal;
    } };

    ghost invariant = { λ r. (r.wanted.0 + length r.kept.items < 2 ^ 64)
        × IfSome r.refusal (λ refusal. refusal.fault ≢ Memory) };
}

impl Receiver {
    ghost use Rattle.als_receiver.specs.Reception.{fresh, with_kept, with_room, with_refusal};
    ghost use Rattle.als_receiver.specs.Reception.{behind, is_memory, IsShown, Shows, Copies};
    ghost use Rattle.als_receiver.specs.Reception.{Answers};

    /// A receiver for a database of `pages` pages that wants the record at `at` first. It takes no
    /// memory.
    pub fn new(alloc: Global, at: Lsn, pages: u32) -> Receiver
        ensures { result ≡ fresh at.0 pages }
    {
        Receiver {
            pages,
            wanted: at,
            kept: BytesMut::new(alloc),
            refusal: None,
        }
    }

    /// Adds bytes to those kept. Only an allocation can fail, where the room was too small and
    /// could not grow, and loses nothing. Log texts have less than 2^64 bytes: `position` tells
    /// where these begin.
    pub fn push(&mut self, piece: &[u8]) -> Result<(), AllocError>
        requires { self.old.wanted + length self.old.kept + length piece.now < 2 ^ 64 }
        ensures ok { OnOk result (self.new
            ≡ with_kept self.old (self.old.kept ++ piece.now) self.new.room) }
        ensures err { OnErr result (self.new ≡ with_room self.old self.new.room) }
        // Where there is room it takes no memory, and no more room than the piece is long.
        ensures reserved { length piece.now ≤ self.old.room → IsOk result }
        ensures room { self.old.room ≤ self.new.room + length piece.now }
        ensures kept_room { OnErr result (self.old.room ≤ self.new.room) }
    {
        self.kept.extend_from_slice(piece)
    }

    /// Makes room for so many bytes more, which can then be pushed with no memory. Only want of
    /// allocation fails, where the room was too small and could not grow. Nothing changes but the
    /// room, which never shrinks.
    pub fn reserve(&mut self, len: usize) -> Result<(), AllocError>
        ensures same { self.new ≡ with_room self.old self.new.room }
        ensures ok { OnOk result (len ≤ self.new.room) }
        ensures reserved { len ≤ self.old.room → IsOk result }
        ensures room { self.old.room ≤ self.new.room }
    {
        self.kept.reserve(len)
    }

    /// The next record as it lies in the bytes kept, and how many of them it has; `None` where more
    /// bytes are needed. A refusal says where the record should stand and which of the shape faults
    /// it has. It takes no memory, and nothing changes.
    // Inlined, as `view_record` is, so that a view is not moved from answer to answer.
    #[inline(always)]
    pub fn peek(&self) -> Result<Option<(RecordView<'_>, usize)>, Refusal>
        ensures shows { Shows self.now result }
        ensures no_memory { IfErr result (λ refusal. refusal.fault ≢ Memory) }
    {
        if let Some(refusal) = self.refusal {
            return Err(refusal);
        }
        match view_record(self.kept.as_slice(), self.wanted, self.pages) {
            Ok(found) => Ok(found),
            Err(fault) => Err(Refusal {
                lsn: self.wanted,
                fault,
            }),
        }
    }

    /// A copy of the record that `peek` shows.
    #[inline(always)]
    fn copied(&self) -> Result<Option<(Record, usize)>, Refusal>
        ensures { Copies self.now result }
    {
        match self.peek()? {
            None => Ok(None),
            Some((view, len)) => match view.to_record(*self.kept.allocator()) {
                Ok(record) => Ok(Some((record, len))),
                Err(_) => Err(Refusal {
                    lsn: self.wanted,
                    fault: Fault::Memory,
                }),
            },
        }
    }

    /// The first of the bytes kept, so many: those of the record that `peek` has shown.
    #[inline(always)]
    pub fn front(&self, len: usize) -> &[u8]
        requires { len ≤ length self.now.kept }
        ensures { result.now ≡ take len self.now.kept }
    {
        let (front, _) = self.kept.as_slice().split_at(len);
        front
    }

    /// Hands out the record that `peek` has shown, of so many bytes: the next one is wanted behind
    /// it. It takes no memory.
    #[inline(always)]
    pub fn advance(&mut self, len: usize)
        requires { IsShown self.old len }
        ensures { self.new ≡ behind self.old len }
    {
        self.kept.advance(len);
        self.wanted = Lsn(self.wanted.0 + len as u64);
    }

    /// A copy of the record that `peek` shows, which is handed out; `None` where more bytes are
    /// needed. A refusal is that of `peek`, and every later call gives it again; but want of
    /// memory, which only the rows of an end_chkpt meet, is not kept: the call may be made again.
    #[inline(always)]
    pub fn next(&mut self) -> Result<Option<Record>, Refusal>
        ensures { Answers self.old result self.new }
    {
        match self.copied() {
            Ok(None) => Ok(None),
            Ok(Some((record, len))) => {
                self.advance(len);
                Ok(Some(record))
            }
            Err(refusal) => {
                self.keep(refusal);
                Err(refusal)
            }
        }
    }

    // The refusal of the bytes kept, which stays unless memory is wanted.
    fn keep(&mut self, refusal: Refusal)
        ensures { MatchBool (is_memory refusal.fault) (self.new ≡ self.old) (self.new
            ≡ with_refusal self.old refusal) }
    {
        if refusal.fault != Fault::Memory {
            self.refusal = Some(refusal);
        }
    }

    /// How many bytes are kept: fewer than the longest record's 54,560 once `next` has answered
    /// `None`.
    pub fn partial(&self) -> usize
        ensures { result ≡ length self.now.kept }
    {
        self.kept.len()
    }

    /// Forgets the bytes kept, whose room is free again. It takes no memory, and a refusal stays.
    pub fn drop_partial(&mut self)
        ensures same { self.new ≡ with_kept self.old [] self.new.room }
        ensures room { self.old.room + length self.old.kept ≤ self.new.room }
    {
        self.kept.clear();
    }

    /// The offset behind the records handed out, at which the next one should stand.
    pub fn next_lsn(&self) -> Lsn
        ensures { result.0 ≡ self.now.wanted }
    {
        self.wanted
    }

    /// The offset of the byte that is to be pushed next: behind the records handed out and the
    /// bytes kept.
    pub fn position(&self) -> u64
        ensures { result ≡ self.now.wanted + length self.now.kept }
    {
        self.wanted.0 + self.kept.len() as u64
    }
}
