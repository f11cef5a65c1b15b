ghost use Rattle.std.specs.Prelude.{◌≡◌};
ghost use Rattle.als_store.specs.Stored.{acknowledged};
ghost use Rattle.als_engine.specs.Telling.{Stands};
ghost use Rattle.als_share.specs.Reaching.{Reaches, ReachesFollowing};
ghost use Rattle.als_service.specs.Sessions.{VouchesAll, EndsLast};
ghost use Rattle.als_service.specs.Losses.{IsLost};

use crate::ending::{final_fault, is_refusal};
use crate::next_session::{Turn, follow_next};
use crate::notices::Notices;
use crate::outages::Outages;
use crate::pause::Pause;
use crate::primaries::Primaries;
use als_operate::Fault;
use als_record::Lsn;
use als_report::{Board, State};
use als_share::{Counts, Runtime};
use std::alloc::Global;
use std::io::{Read, Write};
use std::thread;
use std::time::{Clock, Duration};

/// With how many workers a session is followed, and with a checkpoint each so many bytes of log (0:
/// none on the way).
#[derive(Clone, Copy, Debug)]
pub struct Pace {
    pub workers: usize,
    pub each: u64,
}

/// The events that come back, and what ended.
pub struct Kept<E, F> {
    pub events: E,
    pub ended: F,
}

/// Follows one session after another over the same events. After the end of the primary's log, and
/// after a connection that was lost, it connects again: at once after a session that brought
/// something, else after a pause. After a refusal it asks again for what was refused, after a longer
/// pause. Only what asking again can't mend ends it.
#[tactic(auto, using(crate::proofs::Chains::reaches_self, crate::proofs::Chains::reaches_both, crate::proofs::Chains::follows_self, crate::proofs::Vouched::vouches_none, crate::proofs::Vouched::vouches_more, crate::proofs::Endings::goes_on_none))]
pub fn follow_sessions<
    E: Counts + Send + Drop,
    R: Runtime + Clock,
    S: Read + Write + Drop,
    L: Primaries<S>,
    N: Outages + Drop,
>(
    rt: &R,
    alloc: Global,
    events: E,
    pace: Pace,
    primaries: &mut L,
    board: &Board,
    outages: N,
) -> Kept<E, Fault>
    // All sessions together are one run of the small machine's events.
    ensures reached { E.alone → Reaches (E.machine events) (E.machine result.events) }
    // No event of it is of a takeover.
    ensures follows { E.alone → ReachesFollowing (E.machine events) (E.machine result.events) }
    ensures book { E.book result.events ≡ E.book events }
    // Each LSN that its primary was answered in any session is acknowledged in the end.
    ensures vouched { E.alone → VouchesAll (acknowledged (E.machine result.events).held)
        (L.met primaries.old) (L.met primaries.new) }
    // What ends it is how the last session ended, with a fault that asking again can't mend. Each
    // session before it was followed to its end, and each connection that was given is one.
    ensures last { EndsLast result.ended (L.met primaries.old) (L.met primaries.new) }
    // A lost connection does not end it.
    ensures ended { IsLost result.ended → ⊥ }
{
    let mut held = events;
    let mut pause = Pause::new();
    let mut notices = Notices::new(outages);
    for _ in rt.forever() {
        let before = position(&held);
        let Turn {
            events: back,
            notices: told,
            ended,
            is_hang_up,
        } = follow_next(rt, alloc, held, pace, primaries, board, notices);
        held = back;
        notices = told;
        note(board, ended);
        if let Some(fault) = final_fault(ended) {
            return Kept {
                events: held,
                ended: fault,
            };
        }
        if position(&held).0 > before.0 {
            pause.begin_again();
        }
        notices.hang_up(rt, is_hang_up);
        notices.room(rt, position(&held), board.capacity());
        rest(rt, &mut pause, &mut notices, ended, board);
    }
    unreachable!()
}

/// Where the log ends that is held.
fn position<E: Counts>(events: &E) -> Lsn
    ensures { E.alone → Stands (E.machine events.now) }
{
    events.status().end
}

/// Waits before the primary is asked again.
fn rest<C: Clock, N: Outages + Drop>(
    clock: &C,
    pause: &mut Pause,
    notices: &mut Notices<N>,
    ended: Option<Result<(), Fault>>,
    board: &Board,
) {
    let millis = match ended {
        Some(Err(fault)) if is_refusal(fault) => {
            board.set_state(State::Refusing);
            let millis = pause.next_refused();
            notices.refusal(clock, fault, millis);
            millis
        }
        _ => {
            board.set_state(State::Waiting);
            let millis = pause.next();
            if millis > 0 {
                notices.outage(clock, why(ended), millis);
            }
            millis
        }
    };
    if millis > 0 {
        thread::sleep(clock, Duration::from_millis(millis));
    }
}

/// Counts a session that a fault has ended.
fn note(board: &Board, ended: Option<Result<(), Fault>>) {
    if let Some(fault) = why(ended) {
        board.note_failure(u64::from(fault.number()));
    }
}

/// Why nobody sends.
fn why(ended: Option<Result<(), Fault>>) -> Option<Fault> {
    match ended {
        Some(Err(fault)) => Some(fault),
        _ => None,
    }
}
