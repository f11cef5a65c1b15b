ghost use Rattle.std.specs.Prelude.{◌≡◌, None, List, IfOk, IfErr, OnOk};
ghost use Rattle.als_service.specs.Inquiries.{inquiries_of, MayBegin};
ghost use Rattle.als_service.specs.Sessions.{Session, begins, ends, refuses};
ghost use Rattle.als_service.specs.Met.{sessions_of};

use crate::comparing::Comparing;
use crate::met::Met;
use als_operate::{Fault, Following, Introducing, Line};
use std::fs::File;
use std::io::{Read, Write};
use std::net::{Net, OpenStream};
use std::rt::Files;
use std::time::Clock;

/// The connections to a primary, one after another.
pub trait Primaries<S: Read + Write> {
    /// The sessions with it, the last one first: what was written in each, and how it ended.
    ghost met: { Self → List Session };

    /// The next connection, twice: to be read, and to be written.
    fn next(&mut self) -> Result<(S, S), Fault>
        ensures begins { IfOk result (λ streams. met self.new
            ≡ begins (S.contents streams.1) (met self.old)) }
        ensures none { IfErr result (λ fault. met self.new ≡ refuses fault (met self.old)) };

    /// Whether the primary was asked in vain whether its log is the held one, and is followed all the same.
    fn was_unanswered(&self) -> bool {
        false
    }

    /// The last one has ended so: it is closed.
    fn part(&mut self, reader: S, writer: S, ended: Option<Result<(), Fault>>)
        ensures ends { met self.new ≡ ends (S.contents writer) ended (met self.old) };
}

/// A connection, to be read and to be written.
pub(crate) type Lines<S> = (Line<S>, Line<S>);

/// The connections to the primary of a standby.
pub(crate) struct Dialled<'a, R: Net + Clock> {
    rt: &'a R,
    following: Following<'a>,
    /// The first connection, where it stands.
    greeted: Option<Lines<R::Stream>>,
    /// The held log, which it is asked about.
    comparing: Comparing<R>,
    /// Says which folder it is, in front of each session.
    introducing: Introducing,
    met: Met<Line<R::Stream>>,
}

impl<R: Net + Clock + Drop> Drop for Dialled<'_, R> {
    fn drop(self) {
        let Dialled {
            rt: _,
            following: _,
            greeted,
            comparing,
            introducing,
            met,
        } = self;
        drop(greeted);
        drop(comparing);
        drop(introducing);
        drop(met);
    }
}

impl<'a, R: AllocGlobal + Files<File = File> + Net + Clock> Dialled<'a, R> {
    /// The connections to a primary, none of which there was yet but the one that was greeted.
    pub fn new(
        rt: &'a R,
        following: Following<'a>,
        greeted: Option<Lines<R::Stream>>,
        comparing: Comparing<R>,
        introducing: Introducing,
    ) -> Dialled<'a, R> {
        Dialled {
            rt,
            following,
            greeted,
            comparing,
            introducing,
            met: Met::Nobody,
        }
    }
}

/// A new connection, over which the id of the folder was said.
fn connect<R: AllocGlobal + Net + Clock>(
    rt: &R,
    following: Following<'_>,
    introducing: &mut Introducing,
) -> Result<Lines<R::Stream>, Fault> {
    let writer = introducing.dial(rt, following)?;
    let reader = writer.try_clone()?;
    let alloc = rt.alloc();
    Ok((Line::new(alloc, reader), Line::new(alloc, writer)))
}

impl<R: AllocGlobal + Files<File = File> + Net + Clock> Dialled<'_, R> {
    /// The next connection, to a primary that has no other log: the one that was greeted, or else a new one.
    fn reach(&mut self) -> Result<Lines<R::Stream>, Fault>
        ensures met { self.new.met ≡ self.old.met }
        // No session begins uncompared over a held record, unless the caller said so.
        ensures compared { self.old.greeted ≡ None → OnOk result (MayBegin
            self.old.comparing.uncompared (inquiries_of self.old.comparing.inquiries)
            (inquiries_of self.new.comparing.inquiries)) }
    {
        if let Some(lines) = self.greeted.take() {
            return Ok(lines);
        }
        self.comparing.clear(self.rt, self.following)?;
        let lines = connect(self.rt, self.following, &mut self.introducing)?;
        Ok(lines)
    }
}

impl<R: AllocGlobal + Files<File = File> + Net + Clock> Primaries<Line<R::Stream>>
    for Dialled<'_, R> {
    ghost use Rattle.als_service.specs.Met.{sessions_of};

    ghost met = { λ dialled. sessions_of ⟦<Line<R::Stream> as Write>⟧.contents dialled.met };

    fn next(&mut self) -> Result<Lines<R::Stream>, Fault> {
        match self.reach() {
            Ok((reader, writer)) => {
                self.met.begin(&writer);
                Ok((reader, writer))
            }
            Err(fault) => {
                self.met.refuse(fault);
                Err(fault)
            }
        }
    }

    fn was_unanswered(&self) -> bool {
        self.comparing.was_unanswered()
    }

    fn part(
        &mut self,
        reader: Line<R::Stream>,
        writer: Line<R::Stream>,
        ended: Option<Result<(), Fault>>,
    ) {
        self.met.end(&writer, ended);
        drop(reader);
        drop(writer);
    }
}
