ghost use Rattle.std.specs.Prelude.{ℕ, List, OnOk};
ghost use Rattle.als_service.specs.Inquiries.{inquiries_of, MayBegin};
ghost use Rattle.als_service.specs.Leading.{IsTakenOver};

use crate::comparing::Comparing;
use crate::ending::is_lost;
use crate::leading::{
    Led, Wants, check_granted, check_taken_over, of_primary, offered_to, wanted_by,
};
use crate::next_session::{is_hang_up, moment};
use crate::notices::Notices;
use crate::outages::Outages;
use crate::pause::Pause;
use crate::waiting_room::WaitingRoom;
use als_engine::{Config, Fault as EngineFault, LOG_BLOCK_LIMIT};
use als_operate::{Fault, Following, Held, PENDING, hold};
use als_report::{Board, State};
use als_share::Runtime;
use als_ship::Fault as SessionFault;
use std::alloc::Global;
use std::fs::File;
use std::net::{Net, TcpListener, TcpStream};
use std::random::RandomSource;
use std::rt::Files;
use std::sync::Arc;
use std::thread;
use std::time::{Clock, Duration};

/// What answers while a folder is not opened.
#[derive(Clone, Copy)]
pub(crate) struct Meanwhile<'a> {
    /// Where reads are answered. None: nowhere.
    pub listener: Option<&'a TcpListener>,
    pub board: &'a Arc<Board, Global>,
    /// Threads that answer.
    pub readers: u64,
}

/// Holds the folder of a standby, and opens it for so many readers. One without a database asks its primary first, and
/// nothing is written before that has answered. So does a former primary's that is kept: it is not opened before. One
/// that is kept asks again where nobody answers, and answers reads by 503 meanwhile.
///
/// As `als_operate::hold`, `confirm`, `compare_once` and `wanted_by` say; with `keep` no connection that was lost, none that could not be
/// had, and no log that is shorter.
pub(crate) fn hold_at_last<
    R: AllocGlobal
        + Files<File = File>
        + Net<Listener = TcpListener, Stream = TcpStream>
        + Runtime
        + Clock
        + RandomSource
        + Clone
        + Send
        + Drop
        + 'static,
    P: Outages,
>(
    rt: &R,
    following: Following<'_>,
    keep: bool,
    meanwhile: Meanwhile<'_>,
    comparing: &mut Comparing<R>,
    outages: &mut P,
) -> Result<Held<R::Stream>, Fault> {
    check_numbers(following, meanwhile.readers)?;
    let wants = wanted_by(rt, following.dir, following.pages)?;
    if !keep {
        if let Wants::Takeover(_) = &wants {
            tell_standing(meanwhile.board, &wants);
            compare_once(rt, following, comparing)?;
        }
        return hold(rt, following, meanwhile.readers, true);
    }
    tell_standing(meanwhile.board, &wants);
    let room = room_for(rt, &wants, meanwhile)?;
    let held = ask_at_last(rt, following, meanwhile, comparing, outages);
    if let Some(room) = room {
        room.close(rt);
    }
    held
}

/// Refuses a number that is out of its range, before a folder is looked at.
fn check_numbers(following: Following<'_>, readers: u64) -> Result<(), Fault> {
    let config = Config {
        pages: following.pages,
        frames: following.pages,
        pending: PENDING,
        readers,
    };
    if config.is_valid() && (1..=LOG_BLOCK_LIMIT).contains(&following.log_blocks) {
        return Ok(());
    }
    Err(Fault::Refused(EngineFault::BadConfig))
}

/// What answers while the primary of a folder is asked, where somebody may come to ask.
fn room_for<R: AllocGlobal + Runtime + Clock + RandomSource + Clone + Send + Drop + 'static>(
    rt: &R,
    wants: &Wants,
    meanwhile: Meanwhile<'_>,
) -> Result<Option<WaitingRoom>, Fault> {
    let Meanwhile {
        listener,
        board,
        readers,
    } = meanwhile;
    match (wants, listener) {
        (Wants::Greeting | Wants::Takeover(_), Some(listener)) => {
            let room = WaitingRoom::open(rt, rt.alloc(), listener, board, readers)?;
            Ok(Some(room))
        }
        _ => Ok(None),
    }
}

/// What is known of a folder before it is opened: a board has where the log of a primary's ends, and its epoch.
fn tell_standing(board: &Board, wants: &Wants) {
    match wants {
        Wants::Nothing => {}
        Wants::Greeting => board.set_state(State::Waiting),
        Wants::Takeover(led) => {
            board.set_state(State::Waiting);
            board.set_log(led.end, led.end);
            board.set_epoch(u64::from(led.history.epoch()));
        }
    }
}

/// Asks the primary for what the folder wants as often as it takes, and opens it then.
fn ask_at_last<
    R: AllocGlobal + Files<File = File> + Net + Runtime + Clock + RandomSource,
    P: Outages,
>(
    rt: &R,
    following: Following<'_>,
    meanwhile: Meanwhile<'_>,
    comparing: &mut Comparing<R>,
    outages: &mut P,
) -> Result<Held<R::Stream>, Fault> {
    let mut pause = Pause::new();
    let mut notices = Notices::new(outages);
    for _ in rt.forever() {
        let begun = moment(rt);
        match ask_once(rt, following, meanwhile, comparing) {
            Err(fault) if may_mend(fault) => {
                meanwhile.board.note_failure(u64::from(fault.number()));
                notices.hang_up(rt, is_hang_up(Some(Err(fault)), begun, moment(rt)));
                rest(rt, &mut pause, &mut notices, fault);
            }
            tried => return tried,
        }
    }
    unreachable!()
}

/// Asks the primary once, and opens the folder behind what it wants. `hold` asks again what a new database needs, and
/// writes nothing before.
fn ask_once<R: AllocGlobal + Files<File = File> + Net + Runtime + Clock + RandomSource>(
    rt: &R,
    following: Following<'_>,
    meanwhile: Meanwhile<'_>,
    comparing: &mut Comparing<R>,
) -> Result<Held<R::Stream>, Fault> {
    let wants = wanted_by(rt, following.dir, following.pages)?;
    match &wants {
        Wants::Takeover(led) => {
            tell_standing(meanwhile.board, &wants);
            confirm(rt, following, led, comparing)?;
        }
        Wants::Nothing | Wants::Greeting => {}
    }
    hold(rt, following, meanwhile.readers, true)
}

/// Asks whether a primary took over from a former primary's folder, and whether that folder's log, which a board shows, is
/// a front of the primary's. That it is another log is said before that it parted.
fn confirm<R: AllocGlobal + Files<File = File> + Net + Clock>(
    rt: &R,
    following: Following<'_>,
    led: &Led,
    comparing: &mut Comparing<R>,
) -> Result<(), Fault>
    // Nobody is shown what a former primary's log has behind the takeover.
    ensures granted { OnOk result ((offered : List ℕ) × IsTakenOver led.now offered) }
    ensures compared { OnOk result (MayBegin comparing.old.uncompared
        (inquiries_of comparing.old.inquiries) (inquiries_of comparing.new.inquiries)) }
{
    let offered = offered_to(rt, following, led)?;
    check_taken_over(&led.history, &offered)?;
    comparing.clear(rt, following)?;
    check_granted(led, &offered)?;
    Ok(())
}

/// Asks whether the primary's log is that of a former primary's folder, before its one session: the greeting of that
/// begins it, since a primary may serve one alone. A log that is shorter is of no later epoch.
///
/// As `Comparing::clear` says, but for Gap. Device: nobody took over from the folder.
fn compare_once<R: AllocGlobal + Files<File = File> + Net + Clock>(
    rt: &R,
    following: Following<'_>,
    comparing: &mut Comparing<R>,
) -> Result<(), Fault>
    ensures { OnOk result (MayBegin comparing.old.uncompared (inquiries_of comparing.old.inquiries)
        (inquiries_of comparing.new.inquiries)) }
{
    match comparing.clear(rt, following) {
        Ok(()) => Ok(()),
        Err(Fault::Session(SessionFault::Gap)) => Err(of_primary()),
        Err(fault) => Err(fault),
    }
}

/// Whether asking again may mend it: the connection was lost, there was none, or the primary has less log.
fn may_mend(fault: Fault) -> bool {
    is_lost(fault) || fault == Fault::Session(SessionFault::Gap)
}

/// Waits before the primary is asked again.
fn rest<C: Clock, N: Outages + Drop>(
    clock: &C,
    pause: &mut Pause,
    notices: &mut Notices<N>,
    fault: Fault,
) {
    let millis = pause.next();
    if millis > 0 {
        notices.unopened(clock, fault, millis);
        thread::sleep(clock, Duration::from_millis(millis));
    }
}
