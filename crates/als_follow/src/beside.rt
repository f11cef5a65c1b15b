ghost use Rattle.std.specs.Prelude.{◌≡◌, ◌+◌, ◌<◌, ◌≤◌, false, OnOk, IfSome, Some, None, Ok};
ghost use Rattle.als_store.specs.Stored.{acknowledged};
ghost use Rattle.als_engine.specs.Tally.{no_events};
ghost use Rattle.als_share.specs.Reaching.{Reaches, ReachesFrom, ReachesFollowing, FollowsFrom};
ghost use Rattle.als_ship.specs.Vouching.{TellsVouched};
ghost use Rattle.als_operate.specs.Upkeep.{IsQuiet};
ghost use Rattle.als_share.specs.Ledgers.{AreNamed, CountsNoTakeover};
ghost use Rattle.als_follow.specs.Answered.{IsAnswered};

use crate::context::Context;
use crate::coordinator::{SessionEnd, coordinate};
use crate::followed::Followed;
use crate::scheduler::Scheduler;
use crate::session::Session;
use als_engine::{Events, Fault as EngineFault};
use als_operate::Fault;
use als_share::{Blanks, Counts, Ledgers, Runtime, Settled, settle, share};
use als_workers::HandOff;
use std::alloc::Global;
use std::io::{Read, Write};
use std::marker::Brand;

/// Beside the workers: a dispatcher, a flusher, a checkpointer and the follower.
const OTHERS: usize = 4;

/// Follows one session with so many workers, 1 to 8, and with a checkpoint each so many bytes of log
/// (0: none on the way), and then puts all that is held on the devices, however the session ended.
/// The engine and both ends of the stream come back.
pub fn follow_beside<E: Counts + Send + Drop, R: Runtime, I: Read + Drop, O: Write + Drop>(
    rt: &R,
    alloc: Global,
    engine: E,
    workers: usize,
    each: u64,
    reader: I,
    writer: O,
) -> Followed<E, I, O>
    // What threads did is a run of the small machine's events, so that what is true of each run is
    // true of this one.
    ensures reached { E.alone → Reaches (E.machine engine) (E.machine result.engine) }
    // No event of it is of a takeover, and none is counted: it never seals, undoes, finishes or
    // resolves.
    ensures follows { E.alone → ReachesFollowing (E.machine engine) (E.machine result.engine) }
    ensures counted { CountsNoTakeover (E.tally result.engine) }
    ensures book { E.book result.engine ≡ E.book engine }
    // Each LSN that its primary was answered is acknowledged in the engine that comes back: it was
    // written a Resume frame, and behind it Acknowledged frames of such LSNs, or a front of that.
    ensures vouched { E.alone → TellsVouched (acknowledged (E.machine result.engine).held)
        (O.contents writer) (O.contents result.writer) }
    // Then nothing waits, no page is dirty, and the log is acknowledged to its end.
    ensures quiet { IfSome result.ended (λ ended. OnOk ended
        (E.alone → IsQuiet (E.machine result.engine))) }
    // Ok: it asked, and read a history and frames up to one with no bytes, and wrote an answer to each
    // of them.
    ensures answered { IfSome result.ended (λ ended. OnOk ended (IsAnswered (I.remaining reader)
        (I.remaining result.reader) (O.contents writer) (O.contents result.writer))) }
    // None: nothing was read or written, and the machine is the one that was handed in.
    ensures reader { result.ended ≡ None → result.reader ≡ reader }
    ensures writer { result.ended ≡ None → result.writer ≡ writer }
    ensures machine { result.ended ≡ None → E.machine result.engine ≡ E.machine engine }
{
    let workers = workers.clamp(1, 8);
    let blanks = Blanks::new((workers + OTHERS) as u64);
    follow_shared::<Brand, E, R, I, O>(rt, alloc, engine, blanks, workers, each, reader, writer)
}

/// The same, over ledgers that are picked.
fn follow_shared<
    L: Ledgers + Send + Sync,
    E: Counts + Send + Drop,
    R: Runtime,
    I: Read + Drop,
    O: Write + Drop,
>(
    rt: &R,
    alloc: Global,
    engine: E,
    blanks: Blanks,
    workers: usize,
    each: u64,
    reader: I,
    writer: O,
) -> Followed<E, I, O>
    requires start { L.start ≡ Some (E.machine engine) }
    requires book { L.book ≡ E.book engine }
    requires names { AreNamed L.names blanks.names }
    requires parts { (blanks.parts ≡ L.shares) × (workers + 4 ≡ L.shares) }
    requires workers { (0 < workers) × (workers ≤ 8) }
    requires takes_over { L.takes_over ≡ false }
    ensures reached { E.alone → ReachesFrom L.start (E.machine result.engine) }
    ensures follows { E.alone → FollowsFrom L.start (E.machine result.engine) }
    ensures counted { CountsNoTakeover (E.tally result.engine) }
    ensures book { E.book result.engine ≡ L.book }
    ensures vouched { E.alone → TellsVouched (acknowledged (E.machine result.engine).held)
        (O.contents writer) (O.contents result.writer) }
    ensures quiet { IfSome result.ended (λ ended. OnOk ended
        (E.alone → IsQuiet (E.machine result.engine))) }
    ensures answered { IfSome result.ended (λ ended. OnOk ended (IsAnswered (I.remaining reader)
        (I.remaining result.reader) (O.contents writer) (O.contents result.writer))) }
    ensures reader { result.ended ≡ None → result.reader ≡ reader }
    ensures writer { result.ended ≡ None → result.writer ≡ writer }
    ensures machine { result.ended ≡ None → L.start ≡ Some (E.machine result.engine) }
{
    let engine = counted(engine);
    let Ok((queue, pass)) = HandOff::new(alloc) else {
        return not_followed(engine, reader, writer);
    };
    let scheduler = Scheduler::new(rt, engine.pages(), engine.status().end, each);
    match share::<L, E>(alloc, engine, workers + OTHERS, blanks, false) {
        Ok((shared, shares, acknowledger)) => {
            let context = Context {
                rt,
                alloc,
                shared: &shared,
                queue: &queue,
                scheduler: &scheduler,
            };
            let SessionEnd {
                session,
                others,
                ended,
            } = coordinate(
                &context,
                pass,
                shares,
                acknowledger,
                workers,
                reader,
                writer,
            );
            let Session {
                share,
                acknowledger,
                reader,
                writer,
            } = session;
            let Settled { engine, touched } = settle(shared, share, others, acknowledger);
            let (engine, ended) = checked(engine, ended, touched);
            Followed {
                engine,
                reader,
                writer,
                ended,
            }
        }
        Err(engine) => not_followed(engine, reader, writer),
    }
}

/// The same engine, whose tally starts.
fn counted<E: Counts>(engine: E) -> E
    ensures tally { E.tally result ≡ no_events }
    ensures machine { E.machine result ≡ E.machine engine }
    ensures book { E.book result ≡ E.book engine }
{
    let mut engine = engine;
    engine.start_tally();
    engine
}

/// Allocation failed, and no frame was asked for.
fn not_followed<E, I, O>(engine: E, reader: I, writer: O) -> Followed<E, I, O>
    ensures engine { result.engine ≡ engine }
    ensures reader { result.reader ≡ reader }
    ensures writer { result.writer ≡ writer }
    ensures ended { result.ended ≡ None }
{
    Followed {
        engine,
        reader,
        writer,
        ended: None,
    }
}

/// The engine that nobody shares any more. Where all was put away, it is asked whether that is so.
/// Where no frame was asked for, but a thread made an event, Memory is refused: no thread makes one
/// before all have started.
fn checked<E: Events>(
    engine: E,
    ended: Option<Result<(), Fault>>,
    touched: bool,
) -> (E, Option<Result<(), Fault>>)
    ensures same { result.0 ≡ engine }
    ensures ok { IfSome result.1 (λ after. OnOk after (ended ≡ Some (Ok tt))) }
    ensures none { result.1 ≡ None → ended ≡ None }
    ensures untouched { result.1 ≡ None → touched ≡ false }
    ensures quiet { IfSome result.1 (λ ended. OnOk ended (E.alone → IsQuiet (E.machine result.0))) }
{
    let ended = match ended {
        Some(Ok(())) => Some(quiet(&engine)),
        Some(Err(fault)) => Some(Err(fault)),
        None => not_touched(touched),
    };
    (engine, ended)
}

/// None, unless a thread made an event.
fn not_touched(touched: bool) -> Option<Result<(), Fault>>
    ensures none { result ≡ None → touched ≡ false }
    ensures some { IfSome result (λ after. OnOk after ⊥) }
{
    if touched {
        Some(Err(Fault::Refused(EngineFault::Memory)))
    } else {
        None
    }
}

/// Refused as NotDrained, unless nothing waits, no page is dirty and the log is acknowledged to its
/// end.
fn quiet<E: Events>(engine: &E) -> Result<(), Fault>
    ensures { OnOk result (E.alone → IsQuiet (E.machine engine.now)) }
{
    let status = engine.status();
    let waits = engine.next_pending(0);
    let dirty = engine.dirty(0);
    if status.acknowledged.0 < status.end.0 {
        return Err(Fault::Refused(EngineFault::NotDrained));
    }
    match (waits, dirty) {
        (None, None) => Ok(()),
        _ => Err(Fault::Refused(EngineFault::NotDrained)),
    }
}
