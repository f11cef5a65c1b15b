ghost use Rattle.std.specs.Prelude.{◌≡◌, [], ℕ, List, Option};
ghost use Rattle.als_shipper.specs.History.{visits_of};

use crate::asker::Asks;
use crate::askers::Askers;
use crate::bounded::Bounded;
use crate::history::History;
use crate::questions::{Questions, Unanswered};
use crate::turn::Turn;
use crate::visitors::Visitors;
use als_compare::read_whole_id;
use std::alloc::Global;
use std::io;
use std::io::{ErrorKind, Read, Write};
use std::net::{OpenListener, OpenStream};
use std::sync::Arc;
use std::time::{Clock, Duration};

/// Those who connect to a listener. Who asks a question is answered beside the sessions.
#[derive(Drop)]
pub struct Callers<'a, L: OpenListener<Stream = S>, S, C, Q = Unanswered> {
    alloc: Global,
    clock: &'a C,
    askers: Askers<'a, L, S, C>,
    questions: Q,
    met: History<Bounded<'a, S, C>>,
}

impl<'a, L: OpenListener<Stream = S>, S, C> Callers<'a, L, S, C> {
    /// Nobody has come yet. Each connection may be silent, and each frame of it take, for so long. Who asks a
    /// question is passed over.
    pub fn new(
        alloc: Global,
        listener: &'a L,
        clock: &'a C,
        silence: Option<Duration>,
    ) -> Callers<'a, L, S, C> {
        Callers::answering(alloc, listener, clock, silence, Unanswered)
    }
}

impl<'a, L: OpenListener<Stream = S>, S, C, Q> Callers<'a, L, S, C, Q> {
    /// The same, where questions are answered.
    pub fn answering(
        alloc: Global,
        listener: &'a L,
        clock: &'a C,
        silence: Option<Duration>,
        questions: Q,
    ) -> Callers<'a, L, S, C, Q> {
        Callers {
            alloc,
            clock,
            askers: Askers::new(alloc, listener, clock, silence),
            questions,
            met: History::Nobody,
        }
    }
}

/// Both ends of a stream, of which a frame takes so long.
fn ends<'a, S: OpenStream + Drop, C>(
    alloc: Global,
    clock: &'a C,
    stream: S,
    limit: Option<Duration>,
) -> io::Result<(Bounded<'a, S, C>, Bounded<'a, S, C>)> {
    let turn = Arc::new(alloc, Turn::new())?;
    let reader = stream.try_clone()?;
    let reader = Bounded::new(reader, clock, Arc::try_clone(&turn)?, limit);
    Ok((reader, Bounded::new(stream, clock, turn, limit)))
}

impl<
    'a,
    L: OpenListener<Stream = S>,
    S: Read + Write + OpenStream + Drop,
    C: Clock,
    Q: Questions,
> Callers<'a, L, S, C, Q> {
    /// The next who comes for a session, of which the id of its folder was read, where it said one. Those who ask a
    /// question before it are answered.
    fn next_session(&mut self) -> io::Result<(Bounded<'a, S, C>, Bounded<'a, S, C>)>
        ensures { self.new.met ≡ self.old.met }
    {
        for _ in 0..u64::MAX {
            let (stream, limit, asks) = self.askers.next()?;
            let (mut reader, mut writer) = ends(self.alloc, self.clock, stream, limit)?;
            match asks {
                Asks::Question if self.questions.are_answered() => {
                    self.questions.answer(&mut reader, &mut writer);
                    drop(reader);
                    drop(writer);
                }
                Asks::NamedSession => {
                    // Of one that goes away on the way the session reads the same.
                    let _ = read_whole_id(&mut reader);
                    return Ok((reader, writer));
                }
                Asks::Question | Asks::Session => return Ok((reader, writer)),
            }
        }
        Err(ErrorKind::TimedOut.into())
    }
}

impl<
    'a,
    L: OpenListener<Stream = S>,
    S: Read + Write + OpenStream + Drop,
    C: Clock,
    Q: Questions,
> Visitors<Bounded<'a, S, C>> for Callers<'a, L, S, C, Q> {
    ghost use Rattle.als_shipper.specs.History.{visits_of};
    ghost use Rattle.als_shipper.specs.declared.bounded.Bounded.{Bounded};

    ghost met = { λ callers. visits_of (λ (b : Bounded S C). S.remaining b.stream) (λ (b : Bounded S C). S.contents b.stream) callers.met };

    fn next(&mut self) -> io::Result<(Bounded<'a, S, C>, Bounded<'a, S, C>)> {
        let (reader, writer) = self.next_session()?;
        self.met.come(&reader, &writer);
        Ok((reader, writer))
    }

    fn part(&mut self, reader: Bounded<'a, S, C>, writer: Bounded<'a, S, C>) {
        self.met.go(&reader, &writer);
        drop(reader);
        drop(writer);
    }
}
