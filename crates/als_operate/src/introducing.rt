// How a standby says to its source which folder it has.
ghost use Rattle.std.specs.Prelude.{◌≡◌, ◌∷◌, false, true, IfOk, OnOk, if◌then◌else◌};
ghost use Rattle.std.specs.Io.KnownBytes.{Appends};
ghost use Rattle.als_operate.specs.declared.introducing.Takes.TheVariants.{Id, SessionAlone};
ghost use Rattle.als_operate.specs.declared.replies.Reply.TheVariants.{Rank, HungUp};
ghost use Rattle.als_operate.specs.Replies.{replies_of, IsKnownBy, front_of};

use crate::fault::Fault;
use crate::patience::{dial, silence};
use crate::replies::{Replies, Reply};
use crate::standby_command::Following;
use als_compare::{ask_rank, write_id};
use als_folder::FolderId;
use als_ship::Fault as SessionFault;
use std::io::Write;
use std::net::{Net, OpenStream};
use std::thread;
use std::time::{Clock, Duration};

/// Milliseconds between two questions.
const PAUSE: u64 = 200;

/// What a source takes in front of the frames of a session.
#[derive(Clone, Copy, Debug, PartialEq, Eq)]
pub enum Takes {
    /// The id of the follower's folder.
    Id,
    /// Nothing: it is of before the id, and counts its followers by their addresses.
    SessionAlone,
}

/// A standby that says the id of its folder in front of each session.
pub struct Introducing {
    id: FolderId,
    /// A source has answered for its rank. From then on none gets a session without the id.
    is_known: bool,
    /// What came to each question, for clauses alone.
    replies: Replies,
}

impl Drop for Introducing {
    fn drop(self) {
        let Introducing {
            id: _,
            is_known: _,
            replies,
        } = self;
        drop(replies);
    }
}

impl Introducing {
    /// The standby of the folder with this id. No source was asked yet.
    pub fn new(id: FolderId) -> Introducing
        ensures { result.id ≡ id }
    {
        Introducing {
            id,
            is_known: false,
            replies: Replies::Nothing,
        }
    }

    /// A connection for a session, over which nothing was written but the id, where the source takes one.
    ///
    /// Stream: there was no connection, or no answer for the rank in time. Session: the source hung up on that question,
    /// and one answered it before; or the connection failed.
    pub fn dial<R: AllocGlobal + Net + Clock>(
        &mut self,
        rt: &R,
        following: Following<'_>,
    ) -> Result<R::Stream, Fault>
        ensures id { self.new.id ≡ self.old.id }
    {
        let takes = self.ask(rt, following)?;
        let mut stream = dial(rt, following)?;
        introduce(&mut stream, takes, &self.id)?;
        Ok(stream)
    }

    /// What the source takes: it is asked for its rank over connections of their own. One that is of before that question
    /// hangs up; so does one that has no place, and may have one a moment later.
    fn ask<R: AllocGlobal + Net + Clock>(
        &mut self,
        rt: &R,
        following: Following<'_>,
    ) -> Result<Takes, Fault>
        ensures known { IfOk result (IsKnownBy (replies_of self.old.replies)
            (replies_of self.new.replies)) }
        // One that was answered once begins no session without its id.
        ensures never { IfOk result (λ takes. takes ≡ SessionAlone → self.old.is_known ≡ false) }
        ensures kept { IfOk result (λ takes. takes ≡ Id → self.new.is_known ≡ true) }
        ensures id { self.new.id ≡ self.old.id }
    {
        if self.is_answered(rt, following)? {
            return Ok(Takes::Id);
        }
        if self.is_answered_later(rt, following)? {
            return Ok(Takes::Id);
        }
        if self.is_answered_later(rt, following)? {
            return Ok(Takes::Id);
        }
        if self.is_known {
            return Err(Fault::Session(SessionFault::Cut));
        }
        Ok(Takes::SessionAlone)
    }

    /// Whether the source answers a moment later.
    fn is_answered_later<R: AllocGlobal + Net + Clock>(
        &mut self,
        rt: &R,
        following: Following<'_>,
    ) -> Result<bool, Fault>
        ensures asked { IfOk result (λ yes. replies_of self.new.replies
            ≡ (if yes then Rank else HungUp) ∷ replies_of self.old.replies) }
        ensures known { IfOk result (λ yes. self.new.is_known
            ≡ (if yes then true else self.old.is_known)) }
        ensures id { self.new.id ≡ self.old.id }
    {
        thread::sleep(rt, Duration::from_millis(PAUSE));
        self.is_answered(rt, following)
    }

    /// Whether the source answers for its rank. Stream: there was no connection, or nothing came in time.
    fn is_answered<R: AllocGlobal + Net + Clock>(
        &mut self,
        rt: &R,
        following: Following<'_>,
    ) -> Result<bool, Fault>
        ensures asked { IfOk result (λ yes. replies_of self.new.replies
            ≡ (if yes then Rank else HungUp) ∷ replies_of self.old.replies) }
        ensures known { IfOk result (λ yes. self.new.is_known
            ≡ (if yes then true else self.old.is_known)) }
        ensures id { self.new.id ≡ self.old.id }
    {
        let reply = reply_of(rt, following)?;
        self.replies.note(reply);
        match reply {
            Reply::Rank => {
                self.is_known = true;
                Ok(true)
            }
            Reply::HungUp => Ok(false),
            Reply::Silence => Err(Fault::Stream),
        }
    }
}

/// What comes to the question for the rank, over a connection of its own. Stream: there was no connection.
fn reply_of<R: AllocGlobal + Net + Clock>(
    rt: &R,
    following: Following<'_>,
) -> Result<Reply, Fault> {
    let mut writer = dial(rt, following)?;
    let mut reader = writer.try_clone()?;
    let begun = rt.monotonic()?;
    match ask_rank(&mut reader, &mut writer) {
        Ok(_) => Ok(Reply::Rank),
        Err(_) => {
            let waited = rt.monotonic()?.saturating_sub(begun);
            Ok(missed(silence(following.timeout), waited))
        }
    }
}

/// What came where no rank did, and it was waited for so long.
fn missed(limit: Option<Duration>, waited: Duration) -> Reply {
    match limit {
        Some(limit) if waited >= limit => Reply::Silence,
        Some(_) | None => Reply::HungUp,
    }
}

/// Writes what stands in front of a session. Session: the connection failed.
pub(crate) fn introduce<W: Write>(writer: &mut W, takes: Takes, id: &FolderId) -> Result<(), Fault>
    ensures { OnOk result (Appends (W.contents writer.old) (W.contents writer.new)
        (front_of takes id.now.bytes)) }
{
    match takes {
        Takes::Id => match write_id(writer, &id.bytes) {
            Ok(()) => Ok(()),
            Err(fault) => Err(Fault::Session(SessionFault::from(fault))),
        },
        Takes::SessionAlone => Ok(()),
    }
}
