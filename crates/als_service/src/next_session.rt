ghost use Rattle.std.specs.Prelude.{◌≡◌};
ghost use Rattle.als_store.specs.Stored.{acknowledged};
ghost use Rattle.als_engine.specs.Telling.{Stands};
ghost use Rattle.als_share.specs.Reaching.{Reaches, ReachesFollowing};
ghost use Rattle.als_service.specs.Sessions.{VouchesLast, EndsOne};

use crate::answered::Answered;
use crate::heard::Heard;
use crate::keeping::Pace;
use crate::notices::Notices;
use crate::outages::Outages;
use crate::primaries::Primaries;
use crate::signs::Signs;
use als_engine::{Events, State as EngineState};
use als_follow::{Followed, follow_beside};
use als_operate::Fault;
use als_report::Board;
use als_share::{Counts, Runtime};
use als_ship::Fault as SessionFault;
use std::alloc::Global;
use std::io::{Read, Write};
use std::sync::Wait;
use std::time::{Clock, Duration};

/// A connection that ends within so many seconds is one that was ended at once.
const SOON: u64 = 1;

/// What a session leaves, and how it ended. None: a thread could not be started, or allocation failed,
/// and no frame was asked for.
pub(crate) struct Turn<E, N: Drop> {
    pub events: E,
    pub notices: Notices<N>,
    pub ended: Option<Result<(), Fault>>,
    /// The connection was ended at once, before anything came over it.
    pub is_hang_up: bool,
}

/// Connects to the primary and follows one session. What was refused before is asked for again.
// What calls it stays small: clang does not come to an end over both in one function.
#[inline(never)]
pub(crate) fn follow_next<
    E: Counts + Send + Drop,
    R: Runtime + Clock,
    S: Read + Write + Drop,
    L: Primaries<S>,
    N: Outages + Drop,
>(
    rt: &R,
    alloc: Global,
    events: E,
    pace: Pace,
    primaries: &mut L,
    board: &Board,
    notices: Notices<N>,
) -> Turn<E, N>
    ensures reached { E.alone → Reaches (E.machine events) (E.machine result.events) }
    ensures follows { E.alone → ReachesFollowing (E.machine events) (E.machine result.events) }
    ensures book { E.book result.events ≡ E.book events }
    // One session came, or there was no connection. Each LSN that its primary was answered is
    // acknowledged then.
    ensures vouched { E.alone → VouchesLast (acknowledged (E.machine result.events).held)
        (L.met primaries.old) (L.met primaries.new) }
    // It ended so.
    ensures ended { EndsOne result.ended (L.met primaries.old) (L.met primaries.new) }
{
    let signs = Signs::new(board);
    let turn = follow_one(rt, alloc, events, pace, primaries, &signs, notices);
    turn
}

/// The same, with the signs of a session that begins.
#[inline(never)]
#[tactic(auto, using(crate::proofs::Chains::reaches_self, crate::proofs::Chains::reaches_both, crate::proofs::Chains::follows_both, crate::proofs::Vouched::vouches_last, crate::proofs::Vouched::vouches_nobody, crate::proofs::Endings::ends_one, crate::proofs::Endings::ends_unbegun))]
fn follow_one<
    E: Counts + Send + Drop,
    R: Runtime + Clock,
    S: Read + Write + Drop,
    L: Primaries<S>,
    N: Outages + Drop,
>(
    rt: &R,
    alloc: Global,
    events: E,
    pace: Pace,
    primaries: &mut L,
    signs: &Signs<'_>,
    notices: Notices<N>,
) -> Turn<E, N>
    ensures reached { E.alone → Reaches (E.machine events) (E.machine result.events) }
    ensures follows { E.alone → ReachesFollowing (E.machine events) (E.machine result.events) }
    ensures book { E.book result.events ≡ E.book events }
    // One session came, or there was no connection. Each LSN that its primary was answered is
    // acknowledged then.
    ensures vouched { E.alone → VouchesLast (acknowledged (E.machine result.events).held)
        (L.met primaries.old) (L.met primaries.new) }
    // It ended so.
    ensures ended { EndsOne result.ended (L.met primaries.old) (L.met primaries.new) }
{
    let mut events = events;
    let mut notices = notices;
    make_ready(rt, &mut events);
    let begun = moment(rt);
    match primaries.next() {
        Ok((reader, writer)) => {
            tell_uncompared(rt, primaries, &mut notices);
            let Followed {
                engine,
                reader,
                writer,
                ended,
            } = follow_beside(
                rt,
                alloc,
                events,
                pace.workers,
                pace.each,
                Heard::new(reader, signs, rt, notices),
                Answered::new(writer, signs),
            );
            let is_silent = reader.is_silent();
            signs.board().set_epoch(u64::from(engine.history().epoch()));
            let (reader, notices) = reader.end();
            primaries.part(reader, writer.end(), ended);
            Turn {
                events: engine,
                notices,
                ended,
                is_hang_up: is_silent && is_hang_up(ended, begun, moment(rt)),
            }
        }
        Err(fault) => Turn {
            events,
            notices,
            ended: Some(Err(fault)),
            is_hang_up: is_hang_up(Some(Err(fault)), begun, moment(rt)),
        },
    }
}

/// Says that the primary did not answer what log it has, and is followed all the same.
pub(crate) fn tell_uncompared<C: Clock, S: Read + Write, L: Primaries<S>, N: Outages + Drop>(
    clock: &C,
    primaries: &L,
    notices: &mut Notices<N>,
) {
    if primaries.was_unanswered() {
        notices.uncompared(clock);
    }
}

/// Takes the log again, if a record of it was refused, and publishes what the session before left
/// unpublished.
#[tactic(auto, using(crate::proofs::Chains::reaches_both, crate::proofs::Chains::follows_both))]
fn make_ready<R: Wait, E: Events>(rt: &R, events: &mut E)
    ensures reached { E.alone → Reaches (E.machine events.old) (E.machine events.new) }
    ensures follows { E.alone → ReachesFollowing (E.machine events.old) (E.machine events.new) }
    ensures book { E.book events.new ≡ E.book events.old }
{
    take_again(events);
    publish(rt, events);
}

/// Takes the log again, if a record of it was refused.
#[tactic(auto, using(crate::proofs::Chains::reaches_self, crate::proofs::Chains::follows_self))]
fn take_again<E: Events>(events: &mut E)
    ensures reached { E.alone → Reaches (E.machine events.old) (E.machine events.new) }
    ensures follows { E.alone → ReachesFollowing (E.machine events.old) (E.machine events.new) }
    ensures book { E.book events.new ≡ E.book events.old }
{
    match events.status().state {
        EngineState::Refusing { lsn: _, fault: _ } => resync(events),
        EngineState::Recovering
        | EngineState::Following
        | EngineState::Sealed
        | EngineState::Primary
        | EngineState::Stopped => {}
    }
}

/// One `resync`. Where it is refused, the next session meets that.
#[tactic(auto, using(crate::proofs::Chains::reaches_resync, crate::proofs::Chains::follows_resync))]
fn resync<E: Events>(events: &mut E)
    ensures reached { E.alone → Reaches (E.machine events.old) (E.machine events.new) }
    ensures follows { E.alone → ReachesFollowing (E.machine events.old) (E.machine events.new) }
    ensures book { E.book events.new ≡ E.book events.old }
{
    let answer = events.resync();
    stands(events);
    drop(answer);
}

/// Publishes for readers the commits that are acknowledged. Where it is refused, as where there are no more
/// than before, the next session does so again.
#[tactic(auto, using(crate::proofs::Chains::reaches_publish, crate::proofs::Chains::follows_publish))]
fn publish<R: Wait, E: Events>(rt: &R, events: &mut E)
    ensures reached { E.alone → Reaches (E.machine events.old) (E.machine events.new) }
    ensures follows { E.alone → ReachesFollowing (E.machine events.old) (E.machine events.new) }
    ensures book { E.book events.new ≡ E.book events.old }
{
    let answer = events.publish_view(rt);
    stands(events);
    drop(answer);
}

/// What always holds between two events does.
fn stands<E: Events>(events: &E)
    ensures { E.alone → Stands (E.machine events.now) }
{
    let _ = events.status();
}

/// The time of a clock, where it can be read.
pub(crate) fn moment<C: Clock>(clock: &C) -> Option<Duration> {
    clock.monotonic().ok()
}

/// Whether a session ended by its other end.
pub(crate) fn is_hung_up(ended: Result<(), Fault>) -> bool {
    matches!(ended, Err(Fault::Session(SessionFault::Cut)))
}

/// Whether a connection over which nothing came was ended by the other end, and that at once: it may
/// also be one that was silent for too long.
pub(crate) fn is_hang_up(
    ended: Option<Result<(), Fault>>,
    begun: Option<Duration>,
    now: Option<Duration>,
) -> bool {
    match ended {
        Some(Err(Fault::Session(SessionFault::Cut))) => true,
        Some(Err(Fault::Session(SessionFault::Stream))) => match (begun, now) {
            (Some(begun), Some(now)) => now.saturating_sub(begun) < Duration::from_secs(SOON),
            _ => false,
        },
        _ => false,
    }
}
