ghost use Rattle.std.specs.Prelude.{IfErr};
ghost use Rattle.als_shipper.specs.Faults.{IsOfShipping};

use crate::beside::Beside;
use crate::lasting::Sessions;
use crate::outbox::Outbox;
use crate::outcome::Outcome;
use crate::stop::Stop;
use crate::strayed::Strayed;
use als_followers::{Allowed, Followers, Quorum, Serves, Tail, Terms, What};
use als_operate::Fault;
use als_record::Lsn;
use als_ship::Fault as SessionFault;
use std::alloc::{AllocError, Global};
use std::io;
use std::io::Write;
use std::net::TcpListener;
use std::sync::{Arc, Wait};
use std::thread::Threads;
use std::time::{Clock, Duration};

/// The most followers that are served at once.
const FOLLOWERS: u32 = 8;

/// Milliseconds between two looks for followers that hung up.
const MOMENT: u64 = 100;

/// The most remarks that are printed in one turn.
const NOTICES: u32 = 64;

/// What the threads of a shipper share with the one that prints.
pub(crate) struct Shared {
    pub outbox: Arc<Outbox, Global>,
    pub stop: Arc<Stop, Global>,
}

impl Drop for Shared {
    fn drop(self) {
        let Shared { outbox, stop } = self;
        drop(outbox);
        drop(stop);
    }
}

impl Shared {
    /// Nobody has anything to say yet.
    pub fn new(alloc: Global) -> Result<Shared, AllocError> {
        Ok(Shared {
            outbox: Arc::new(alloc, Outbox::new(alloc)?)?,
            stop: Arc::new(alloc, Stop::new())?,
        })
    }
}

/// Serves a log to those who come to a listener, up to eight at once, each in a thread of its own. This
/// thread prints, a line at a time, how each session came out. It ends with what ends the shipper: once all
/// threads have ended.
pub(crate) fn serve_crowd<
    R: AllocGlobal + Threads + Wait + Clock + Clone + Send + Drop + 'static,
    S: Serves + Send + Sync + Drop + 'static,
    B: Beside,
    M: Sessions,
    O: Write,
>(
    rt: &R,
    listener: TcpListener,
    source: S,
    beside: &mut B,
    shared: Shared,
    terms: Terms,
    meetings: &mut M,
    output: &mut O,
) -> Fault
    ensures { IsOfShipping result }
{
    let followers = match start(rt, listener, source, terms) {
        Ok(followers) => followers,
        Err(e) => return Fault::from(e),
    };
    let fault = tell_all(rt, &followers, &shared.outbox, beside, meetings, output);
    shared.stop.set();
    beside.end();
    shared.outbox.close(rt);
    followers.close(rt);
    fault
}

/// Starts the threads. Anybody may come. Nobody waits for what they acknowledge.
fn start<
    R: AllocGlobal + Threads + Wait + Clock + Clone + Send + Drop + 'static,
    S: Serves + Send + Sync + Drop + 'static,
>(rt: &R, listener: TcpListener, source: S, terms: Terms) -> io::Result<Followers<S>> {
    let alloc = rt.alloc();
    let tail = Arc::new(alloc, Tail::new(Lsn(0)))?;
    let anybody = Allowed::new(alloc);
    let quorum = Arc::new(alloc, Quorum::new(alloc, FOLLOWERS, anybody)?)?;
    Followers::start(rt, alloc, listener, source, tail, quorum, terms)
}

/// Prints how sessions came out, until one ends the shipper.
fn tell_all<
    R: Wait + Clock,
    S: Serves + Send + Sync + Drop + 'static,
    B: Beside,
    M: Sessions,
    O: Write,
>(
    rt: &R,
    followers: &Followers<S>,
    outbox: &Outbox,
    beside: &mut B,
    meetings: &mut M,
    output: &mut O,
) -> Fault
    ensures { IsOfShipping result }
{
    let mut strayed = None;
    for _ in rt.forever() {
        let came = outbox.take(rt, Duration::from_millis(MOMENT));
        if let Err(fault) = tell(came, &mut strayed, meetings, output) {
            return fault;
        }
        if let Err(fault) = tell(beside.turn(), &mut strayed, meetings, output) {
            return fault;
        }
        tell_crowded(rt, followers, meetings);
    }
    unreachable!()
}

/// Prints how a session came out, where one did. An error: it ends the shipper.
fn tell<M: Sessions, O: Write>(
    outcome: Option<Outcome>,
    strayed: &mut Option<Strayed>,
    meetings: &mut M,
    output: &mut O,
) -> Result<(), Fault>
    ensures { IfErr result IsOfShipping }
{
    let Some(outcome) = outcome else {
        return Ok(());
    };
    match outcome {
        Outcome::Asked => {}
        Outcome::Sent(bytes, last) => {
            meetings.acknowledged(last);
            writeln!(output, "sent={bytes}")?;
            output.flush()?;
        }
        Outcome::Compared => {}
        Outcome::PassedOver(fault) => meetings.passed_over(fault),
        Outcome::Ended(fault, last) => {
            meetings.acknowledged(last);
            meetings.ended(fault);
        }
        Outcome::Closed(fault) => meetings.closed(fault),
        Outcome::Strayed(why) => {
            if *strayed != Some(why) {
                meetings.strayed(why);
                *strayed = Some(why);
            }
            if !why.is_served() {
                return Err(Fault::Session(SessionFault::Stream));
            }
        }
    }
    Ok(())
}

/// Tells who was hung up on: so many follow.
fn tell_crowded<R: Wait, S: Serves + Send + Sync + Drop + 'static, M: Sessions>(
    rt: &R,
    followers: &Followers<S>,
    meetings: &mut M,
) {
    for _ in 0..NOTICES {
        let Some(notice) = followers.notice(rt) else {
            break;
        };
        if let What::Crowded = notice.what {
            meetings.crowded(notice.peer);
        }
    }
}
