use crate::answered::Answered;
use crate::cascade::Cascade;
use crate::comparing::Comparing;
use crate::heard::Heard;
use crate::holding_on::{Meanwhile, hold_at_last};
use crate::keeping::{Kept, Pace, follow_sessions};
use crate::named::Named;
use crate::next_session::{is_hung_up, tell_uncompared};
use crate::notices::Notices;
use crate::outages::Outages;
use crate::primaries::{Dialled, Lines, Primaries};
use crate::reporting::{BoardReporter, Reported};
use crate::seats::{new_board, serve_reads};
use crate::service::Service;
use crate::shipping::{Cascading, Shipping, end_sessions, log_file, ship, shipping_of};
use crate::signs::Signs;
use als_disk::FileDisk;
use als_drive::{Progress, recover_telling};
use als_engine::{Engine, Events, Reader};
use als_folder::Folder;
use als_follow::{Followed, follow_beside};
use als_http::{Servers, listen};
use als_operate::{Fault, Following, Held, conclude, follow};
use als_record::FIRST_LSN;
use als_report::{Board, State, Watch};
use als_share::{Counts, Observed, Runtime};
use std::alloc::Global;
use std::fs::File;
use std::io::{Read, Write};
use std::net::{Net, TcpListener, TcpStream};
use std::random::RandomSource;
use std::rt::Files;
use std::sync::{Arc, Wait};
use std::thread::Threads;
use std::time::Clock;

/// The bytes of a megabyte.
const MEGABYTE: u64 = 1_048_576;

/// The bytes of a block.
const BLOCK: u64 = 512;

/// A connection over which the primary was greeted, where it was.
type Greeted<S> = Option<Lines<S>>;

/// The standby of a folder that follows one session or one after another, and then prints `end=E ack=A`. It
/// may answer reads over HTTP and serve followers of its own. Its reads are answered from the moment that its folder is held: 503 until
/// what that holds is redone, which waits for the primary where the folder has no database, or is a former primary's.
///
/// As `hold_at_last` says. Stream: an address can't be listened at, and no file was touched; or
/// the primary does not answer, without `keep`. BadConfig: also what is asked of its own followers. Then as a session
/// ends; with `keep` only by what asking again can't mend.
pub fn standby<
    R: AllocGlobal
        + Files<File = File>
        + Net<Listener = TcpListener, Stream = TcpStream>
        + Runtime
        + Clock
        + RandomSource
        + Clone
        + Send
        + Drop
        + 'static,
    P: Progress + Outages,
    O: Write,
>(
    rt: &R,
    following: Following<'_>,
    service: Service<'_>,
    progress: &mut P,
    output: &mut O,
) -> Result<(), Fault> {
    let listener = match service.serve {
        Some(addr) => Some(listen(rt, rt.alloc(), addr)?),
        None => None,
    };
    let shipping = shipping_of(rt, service)?;
    let board = new_board(rt.alloc())?;
    let watch = Watch::new(Arc::try_clone(&board)?, rt.clone()?);
    let mut comparing = Comparing::new(watch, service.uncompared);
    let meanwhile = Meanwhile {
        listener: listener.as_ref(),
        board: &board,
        readers: seats(service.readers),
    };
    let held = hold_at_last(
        rt,
        following,
        service.keep,
        meanwhile,
        &mut comparing,
        progress,
    )?;
    let opened = Opened {
        held,
        listener,
        shipping,
        board,
        comparing,
    };
    stand(rt, opened, following, service, progress, output)
}

/// A standby whose folder is opened.
struct Opened<R: Net + Clock> {
    held: Held<R::Stream>,
    listener: Option<TcpListener>,
    shipping: Option<Shipping>,
    board: Arc<Board, Global>,
    comparing: Comparing<R>,
}

/// A reader for each of so many threads, and one for the thread that is spare. Of eight one is spare.
fn seats(readers: u64) -> u64 {
    if (1..=7).contains(&readers) {
        readers + 1
    } else {
        readers
    }
}

/// The same, where it is kept.
fn kept_if<T: Drop>(is_kept: bool, thing: Option<T>) -> Option<T> {
    if is_kept {
        thing
    } else {
        drop(thing);
        None
    }
}

/// Bytes that the log of a folder takes at most. None: the files of the folder can't be read.
fn capacity_of<R: AllocGlobal + Files<File = File>>(rt: &R, folder: &Folder) -> Option<u64> {
    let files = folder.open_to_read(rt).ok()?;
    Some(files.sizes().ok()?.log.saturating_mul(BLOCK))
}

/// Answers reads and follows, over a folder that is held.
fn stand<
    R: AllocGlobal
        + Files<File = File>
        + Net<Listener = TcpListener, Stream = TcpStream>
        + Runtime
        + Clock
        + RandomSource
        + Clone
        + Send
        + Drop
        + 'static,
    P: Progress + Outages,
    O: Write,
>(
    rt: &R,
    opened: Opened<R>,
    following: Following<'_>,
    service: Service<'_>,
    progress: &mut P,
    output: &mut O,
) -> Result<(), Fault> {
    let Opened {
        held,
        listener,
        shipping,
        board,
        comparing,
    } = opened;
    let Held {
        folder,
        engine,
        readers,
        is_new: _,
        greeted,
        introducing,
    } = held;
    // The session refuses a former primary's log that keeps its role: nobody is shown it before.
    let is_shown = folder.role(rt)?.is_none();
    let listener = kept_if(is_shown, listener);
    let shipping = kept_if(is_shown, shipping);
    let names = folder.names(rt)?;
    names.look_now(rt);
    let own = rt.clone()?;
    let mut named = Named {
        inner: progress,
        names,
        rt: own,
    };
    board.set_state(State::Recovering);
    let servers = answer(rt, listener, &board, readers)?;
    if let Some(bytes) = capacity_of(rt, &folder) {
        board.set_capacity(bytes);
    }
    let greeted = first_lines(service.keep, &engine, greeted);
    let mut primaries = Dialled::new(rt, following, greeted, comparing, introducing);
    let (cascade, cascading) = cascade_of(
        rt,
        shipping,
        &engine,
        &board,
        following,
        service.window,
    )?;
    let pace = Pace {
        workers: service.workers,
        each: following.checkpoint_mb.saturating_mul(MEGABYTE),
    };
    let reporter = BoardReporter::new(rt, &board, cascade.as_ref());
    let Kept {
        events: engine,
        ended,
    } = drive(
        rt,
        engine,
        reporter,
        pace,
        service.keep,
        &mut primaries,
        &board,
        &mut named,
    );
    board.set_state(State::Stopped);
    end_sessions(rt, cascading);
    close(rt, servers);
    conclude(&folder, &engine, ended, output)
}

/// The connection over which the primary was greeted, for the first session. A standby that is kept gives it up
/// where it holds a record: before that session too the primary is asked whether it has the same log.
fn first_lines<S: Drop>(keep: bool, engine: &Engine<FileDisk>, greeted: Greeted<S>) -> Greeted<S> {
    if keep && engine.status().acknowledged.0 > FIRST_LSN.0 {
        drop(greeted);
        return None;
    }
    greeted
}

/// What the standby shares with the sessions of its own followers, and these sessions, where somebody may
/// follow it.
fn cascade_of<
    R: AllocGlobal + Files<File = File> + Runtime + Clock + Clone + Send + Drop + 'static,
>(
    rt: &R,
    shipping: Option<Shipping>,
    engine: &Engine<FileDisk>,
    board: &Arc<Board, Global>,
    following: Following<'_>,
    window: u32,
) -> Result<(Option<Cascade>, Option<Cascading<R>>), Fault> {
    let Some(shipping) = shipping else {
        return Ok((None, None));
    };
    let end = engine.status().acknowledged;
    let cascade = Cascade::new(rt.alloc(), end, engine.history())?;
    let file = log_file(rt, following.dir)?;
    let timeout = following.timeout;
    let cascading = ship(rt, shipping, file, &cascade, board, timeout, window)?;
    Ok((Some(cascade), Some(cascading)))
}

/// Where somebody may come to ask, the threads that answer.
fn answer<R: AllocGlobal + Threads + Wait + Clock + RandomSource + Clone + Send + Drop + 'static>(
    rt: &R,
    listener: Option<TcpListener>,
    board: &Arc<Board, Global>,
    readers: Vec<Reader>,
) -> Result<Option<Servers>, Fault> {
    let Some(listener) = listener else {
        drop(readers);
        return Ok(None);
    };
    let servers = serve_reads(rt, rt.alloc(), &listener, board, readers)?;
    Ok(Some(servers))
}

/// Ends the threads that answer, if there are any.
fn close<R: Threads>(rt: &R, servers: Option<Servers>) {
    if let Some(servers) = servers {
        servers.close(rt);
    }
}

/// Redoes what the engine holds, and then follows.
fn drive<
    E: Counts + Send + Drop,
    R: AllocGlobal + Runtime + Clock,
    S: Read + Write + Drop,
    L: Primaries<S>,
    P: Progress + Outages,
>(
    rt: &R,
    engine: E,
    reporter: BoardReporter<'_, R>,
    pace: Pace,
    keep: bool,
    primaries: &mut L,
    board: &Board,
    progress: &mut P,
) -> Kept<E, Result<(), Fault>> {
    let mut events: Reported<'_, R, E> = Observed::new(reporter, engine);
    let ended = match recover_telling(rt, &mut events, progress) {
        Ok(()) => None,
        Err(fault) => Some(Fault::Refused(fault)),
    };
    if let Some(fault) = ended {
        return Kept {
            events: events.end(),
            ended: Err(fault),
        };
    }
    board.set_epoch(u64::from(events.history().epoch()));
    board.set_state(State::Waiting);
    if keep {
        let Kept { events, ended } = follow_sessions(
            rt,
            rt.alloc(),
            events,
            pace,
            primaries,
            board,
            progress,
        );
        Kept {
            events: events.end(),
            ended: Err(ended),
        }
    } else {
        let notices = Notices::new(progress);
        let Kept { events, ended } = follow_once(rt, events, pace, primaries, board, notices);
        Kept {
            events: events.end(),
            ended,
        }
    }
}

/// Connects to the primary and follows one session. Without workers, and where a thread can't be started, all is
/// done in this one.
fn follow_once<
    E: Counts + Send + Drop,
    R: AllocGlobal + Runtime + Clock,
    S: Read + Write + Drop,
    L: Primaries<S>,
    N: Outages + Drop,
>(
    rt: &R,
    events: E,
    pace: Pace,
    primaries: &mut L,
    board: &Board,
    notices: Notices<N>,
) -> Kept<E, Result<(), Fault>> {
    let alloc = rt.alloc();
    let mut notices = notices;
    let (reader, writer) = match primaries.next() {
        Ok(streams) => streams,
        Err(fault) => {
            return Kept {
                events,
                ended: Err(fault),
            };
        }
    };
    tell_uncompared(rt, primaries, &mut notices);
    let signs = Signs::new(board);
    let heard = Heard::new(reader, &signs, rt, notices);
    let answered = Answered::new(writer, &signs);
    let Followed {
        mut engine,
        mut reader,
        mut writer,
        ended,
    } = begin_beside(rt, alloc, events, pace, heard, answered);
    let ended = match ended {
        Some(ended) => ended,
        None => follow(rt, alloc, &mut engine, pace.each, &mut reader, &mut writer),
    };
    let is_silent = reader.is_silent();
    let (reader, mut notices) = reader.end();
    if is_silent && is_hung_up(ended) {
        notices.hung_up();
    }
    drop(notices);
    primaries.part(reader, writer.end(), Some(ended));
    Kept {
        events: engine,
        ended,
    }
}

/// Follows a session with threads beside it, where there are to be workers. Else, and where a thread can't be started,
/// nothing is asked for yet.
fn begin_beside<E: Counts + Send + Drop, R: Runtime, I: Read + Drop, O: Write + Drop>(
    rt: &R,
    alloc: Global,
    events: E,
    pace: Pace,
    heard: I,
    answered: O,
) -> Followed<E, I, O> {
    if pace.workers == 0 {
        return Followed {
            engine: events,
            reader: heard,
            writer: answered,
            ended: None,
        };
    }
    follow_beside(rt, alloc, events, pace.workers, pace.each, heard, answered)
}
