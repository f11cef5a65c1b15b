ghost use Rattle.std.specs.Prelude.{IfOk};
ghost use Rattle.als_program.specs.Status.{IsStatus};

use crate::backing_up::keep;
use crate::failure::Failure;
use crate::laying_out::lay_out_new;
use crate::meeting_lines::MeetingLines;
use crate::patience::stand_at_last;
use crate::redo_lines::RedoLines;
use crate::refusal::Refusal;
use crate::sound_pages::{check_followable, check_sound};
use crate::terminals::Terminals;
use crate::weighing::{tell_alone, weigh};
use crate::{log_sizes, loss_lines, options, partings, troubles};
use als_command::Command;
use als_drive::Progress;
use als_engine::Decision;
use als_fanout::{Lasting, ship_node_on, ship_on};
use als_fault::FaultKind;
use als_folder::{Part, Trouble, Wrong};
use als_inspect::{Wanted, dump, get, status, verify_telling};
use als_lead::NewDatabase;
use als_lookback::{
    Fault as LookFault, Until, commit_of, commits, cut, get as get_at, grow, open as open_log,
    show, status as status_at,
};
use als_operate::{Following, TakenOver, Verdict, forget, resolve, takeover};
use als_progress::Advance;
use als_rebuild::rebuild_pages;
use als_record::{Key, Lsn, TransId};
use als_renew::{Fault as RenewFault, begin};
use als_rewind::{Fault as RewindFault, rewind};
use als_service::{Outages, Service, standby as serve_standby};
use als_shipper::{NodeShipping, Shipping, ship, ship_node};
use std::alloc::{AllocError, Global};
use std::fs;
use std::fs::File;
use std::io::Write;
use std::net::{Net, TcpListener, TcpStream};
use std::random::RandomSource;
use std::rt::Files;
use std::sync::Wait;
use std::thread::Threads;
use std::time::Clock;

/// The most threads that redo pages beside the one that follows.
const WORKER_LIMIT: u64 = 8;

/// The bytes of a log's header.
const HEADER: u64 = 16;

/// The log blocks of a new database, where the command line does not say.
const LOG_BLOCKS: u64 = 2_048;

/// The frames that are sent ahead of their answers, where the command line does not say.
pub const WINDOW: u32 = 16;

/// For how many seconds since its standbys answered a primary reads, where the command line does not say.
pub const READ_FOR: u64 = 5;

/// The threads that answer reads, where the command line does not say.
const READERS: u64 = 2;

/// A command on files, that reads no standard input. More is said of a refusal where that was asked
/// for, or a person sees it.
pub fn operate<
    R: AllocGlobal
        + Files<File = File>
        + Net<Listener = TcpListener, Stream = TcpStream>
        + Threads
        + Wait
        + Sync
        + Clock
        + RandomSource
        + Clone
        + Send
        + Drop
        + 'static,
    O: Write,
    E: Write,
>(
    rt: &R,
    terminals: Terminals,
    command: Command,
    output: &mut O,
    errors: &mut E,
) -> Result<u8, Failure>
    ensures status { IfOk result IsStatus }
{
    match attempt(rt, terminals, command, output, errors) {
        Ok(()) => Ok(0),
        Err(refusal) => refused(rt, terminals, command, refusal, output, errors),
    }
}

/// Reports a refusal, and says more of it where that was asked for, or a person sees it.
pub fn refused<R: AllocGlobal + Files<File = File>, O: Write, E: Write>(
    rt: &R,
    terminals: Terminals,
    command: Command,
    refusal: Refusal,
    output: &mut O,
    errors: &mut E,
) -> Result<u8, Failure>
    ensures status { IfOk result IsStatus }
{
    let failure = Failure::from(refusal);
    loss_lines::tell(rt, command, refusal.kind, errors);
    // What was printed comes before what is said of it.
    output.flush()?;
    let status = failure.report(errors);
    tell_cause(rt, command, refusal, errors);
    let Some(path) = told_of(command, terminals.errors) else {
        return Ok(status);
    };
    match refusal.trouble {
        Some(trouble) => explain(rt, path, trouble, errors),
        None => explain_path(rt, path, refusal.kind, errors),
    }
    explain_file(rt, path, errors);
    if refusal.kind == FaultKind::Stream {
        explain_addresses(command, errors);
    }
    // Where it can't be said, the status has to do.
    let _ = match command {
        Command::Standby { .. } => partings::tell(errors, path, refusal.kind),
        Command::Takeover { .. } => partings::tell_leader(errors, path, refusal.kind),
        _ => Ok(()),
    };
    Ok(status)
}

/// Says which option a command is refused for, and whether the folder of a primary has a database, and of which
/// sizes: that is always said, since the number has several causes.
fn tell_cause<R: AllocGlobal + Files<File = File>, E: Write>(
    rt: &R,
    command: Command,
    refusal: Refusal,
    errors: &mut E,
) {
    if refusal.kind == FaultKind::BadConfig {
        if let Some(mistake) = options::mistake_in(command) {
            // Where it can't be said, the page of help has the ranges.
            let _ = options::tell(errors, mistake);
            return;
        }
    }
    match command {
        Command::Primary {
            dir,
            pages,
            log_blocks,
            ..
        }
        | Command::Commit {
            dir,
            pages,
            log_blocks,
            ..
        } => log_sizes::tell_primary(rt, dir, pages, log_blocks, refusal, errors),
        _ => {}
    }
}

/// Says what is wrong with a path, where nobody looked at its files.
fn explain_path<R: AllocGlobal + Files<File = File>, E: Write>(
    rt: &R,
    path: &str,
    kind: FaultKind,
    errors: &mut E,
) {
    // Where it can't be said, the status has to do.
    let _ = match kind {
        FaultKind::Stream if fs::metadata(rt, path).is_err() => {
            writeln!(errors, "als: {path}: it is missing, or may not be read")
        }
        FaultKind::NotPrimary => writeln!(
            errors,
            "als: {path}: it is the folder of a standby, or a primary decides there: see als status; als takeover makes a standby a primary, once its own is gone"
        ),
        _ => Ok(()),
    };
}

/// Says what stands at a path in place of a log text, where that can be seen without reading it: a pipe or a
/// device, or a file of a node's folder, whose log has zeros behind it.
fn explain_file<R: AllocGlobal + Files<File = File>, E: Write>(rt: &R, path: &str, errors: &mut E) {
    let Ok(found) = fs::metadata(rt, path) else {
        return;
    };
    if found.is_dir() {
        return;
    }
    // Where it can't be said, the status has to do.
    let _ = if !found.is_file() {
        writeln!(
            errors,
            "als: {path}: it is no file, but a pipe or a device: write what comes out of it to a file, and name that"
        )
    } else if is_of_folder(path) {
        writeln!(
            errors,
            "als: {path}: a file of a node's folder is no log text, and log.blk has zeros behind its log: name the folder"
        )
    } else {
        Ok(())
    };
}

/// Whether a path ends with the name of a file of a node's folder.
fn is_of_folder(path: &str) -> bool {
    let name = match path.rsplit_once('/') {
        Some((_, name)) => name,
        None => path,
    };
    name == Part::Log.file_name()
        || name == Part::Control.file_name()
        || name == Part::Pages.file_name()
}

/// Says which addresses of a command may have failed.
fn explain_addresses<E: Write>(command: Command, errors: &mut E) {
    let (serve, listen) = match command {
        Command::Primary { serve, listen, .. } => (Some(serve), listen),
        Command::Standby { serve, listen, .. } => (serve, listen),
        Command::ShipNode { listen, .. } => (None, Some(listen)),
        _ => (None, None),
    };
    // Where it can't be said, the status has to do.
    let _ = match (serve, listen) {
        (Some(serve), Some(listen)) => writeln!(
            errors,
            "als: 44 may be of --serve {serve} or --listen {listen}: an address in use, or none of this machine's"
        ),
        (Some(serve), None) => writeln!(
            errors,
            "als: 44 may be of --serve {serve}: an address in use, or none of this machine's"
        ),
        (None, Some(listen)) => writeln!(
            errors,
            "als: 44 may be of --listen {listen}: an address in use, or none of this machine's"
        ),
        (None, None) => Ok(()),
    };
}

/// Does what is asked for. A person who sees standard error reads there how long work goes on.
fn attempt<
    R: AllocGlobal
        + Files<File = File>
        + Net<Listener = TcpListener, Stream = TcpStream>
        + Threads
        + Wait
        + Sync
        + Clock
        + RandomSource
        + Clone
        + Send
        + Drop
        + 'static,
    O: Write,
    E: Write,
>(
    rt: &R,
    terminals: Terminals,
    command: Command,
    output: &mut O,
    errors: &mut E,
) -> Result<(), Refusal> {
    let seen = terminals.errors;
    // What prints many lines or a text leaves a person's terminal to them.
    let beside = seen && !terminals.output;
    match command {
        // These are done elsewhere: they read standard input, or have faults of their own.
        Command::Make { .. }
        | Command::Sim { .. }
        | Command::Commit { .. }
        | Command::Primary { .. } => Ok(()),
        Command::Ship { .. } | Command::ShipNode { .. } => {
            serve_log(rt, seen, command, output, errors)
        }
        Command::New {
            dir,
            pages,
            log_blocks,
            explain: _,
        } => {
            let log_blocks = log_blocks.unwrap_or(LOG_BLOCKS);
            let new = NewDatabase {
                dir,
                pages,
                log_blocks,
            };
            lay_out_new(rt, new, output)
        }
        Command::Standby { .. } => follow(rt, seen, command, output, errors),
        Command::Takeover { .. } | Command::RebuildPages { .. } | Command::Resolve { .. } => {
            lead(rt, seen, command, output, errors)
        }
        Command::Begin { .. } | Command::Rewind { .. } => {
            renew(rt, seen, command, output, errors)
        }
        Command::Backup { .. } => keep(rt, beside, command, output, errors),
        Command::Restore { .. } => keep(rt, seen, command, output, errors),
        Command::Dump { .. } => inspect(rt, beside, command, output, errors),
        Command::Verify { .. } | Command::Status { at: None, .. } | Command::Get { at: None, .. } =>
            inspect(rt, seen, command, output, errors),
        Command::Commits { .. } | Command::CutAt { .. } | Command::CutBefore { .. } => {
            look(rt, beside, command, output, errors)
        }
        Command::Show { .. }
        | Command::Status { .. }
        | Command::Get { .. }
        | Command::Grow { .. } => look(rt, seen, command, output, errors),
    }
}

/// `als ship`, of a log file or of a node's log.
fn serve_log<
    R: AllocGlobal
        + Files<File = File>
        + Net<Listener = TcpListener, Stream = TcpStream>
        + Threads
        + Wait
        + Sync
        + Clock
        + Clone
        + Send
        + Drop
        + 'static,
    O: Write,
    E: Write,
>(rt: &R, seen: bool, command: Command, output: &mut O, errors: &mut E) -> Result<(), Refusal> {
    match command {
        Command::Ship {
            log,
            listen,
            timeout,
            keep,
            follow,
            window,
            explain,
        } => {
            let shipping = Shipping {
                log,
                listen,
                timeout,
            };
            let lasting = Lasting {
                keep,
                grows: follow,
                window: window.unwrap_or(WINDOW),
            };
            let mut lines = MeetingLines::new(errors, seen || explain);
            if keep || follow {
                ship_on(rt, shipping, lasting, &mut lines, output)?
            } else {
                ship(rt, shipping, &mut lines, output)?
            }
        }
        Command::ShipNode {
            dir,
            listen,
            timeout,
            keep,
            window,
            explain,
        } => {
            let shipping = NodeShipping {
                dir,
                listen,
                timeout,
            };
            let mut lines = MeetingLines::new(errors, seen || explain);
            if keep {
                ship_node_on(rt, shipping, window.unwrap_or(WINDOW), &mut lines, output)?
            } else {
                ship_node(rt, shipping, &mut lines, output)?
            }
        }
        _ => {}
    }
    Ok(())
}

/// `als standby`.
fn follow<
    R: AllocGlobal
        + Files<File = File>
        + Net<Listener = TcpListener, Stream = TcpStream>
        + Threads
        + Wait
        + Sync
        + Clock
        + RandomSource
        + Clone
        + Send
        + Drop
        + 'static,
    O: Write,
    E: Write,
>(rt: &R, seen: bool, command: Command, output: &mut O, errors: &mut E) -> Result<(), Refusal> {
    let Command::Standby {
        dir,
        from,
        pages,
        log_blocks,
        checkpoint_mb,
        workers,
        timeout,
        keep,
        serve,
        readers,
        forget_unreached,
        uncompared,
        listen,
        window,
        followers,
        explain,
    } = command
    else {
        return Ok(());
    };
    contradict(rt, dir, log_blocks, errors);
    if keep {
        check_port(from, errors)?;
    }
    let following = Following {
        dir,
        from,
        pages,
        log_blocks: log_blocks.unwrap_or(LOG_BLOCKS),
        checkpoint_mb,
        timeout,
    };
    let mut lines = RedoLines::new(errors, rt, seen, explain);
    if keep || serve.is_some() || listen.is_some() {
        let followers = named_in(rt.alloc(), followers)?;
        let service = Service {
            workers: workers_of(workers)?.max(1),
            serve,
            readers: readers.unwrap_or(READERS),
            keep,
            uncompared,
            listen,
            window: window.unwrap_or(WINDOW),
            followers: followers.as_slice(),
        };
        return stand_at_last(rt, following, service, forget_unreached, &mut lines, output);
    }
    if forget_unreached {
        forget(rt, dir, &mut lines)?;
    }
    check_followable(rt, dir, &mut lines)?;
    stand_by(rt, following, workers, uncompared, &mut lines, output)
}

/// Says where the log of a folder's database has another number of blocks than is asked for.
fn contradict<R: AllocGlobal + Files<File = File>, E: Write>(
    rt: &R,
    dir: &str,
    log_blocks: Option<u64>,
    errors: &mut E,
) {
    if let Some(asked) = log_blocks {
        log_sizes::tell(rt, dir, asked, errors);
    }
}

/// Refuses an address of a primary that names no port, which would be asked for ever: no later try reaches
/// it either.
fn check_port<E: Write>(from: &str, errors: &mut E) -> Result<(), Refusal> {
    if names_port(from) {
        return Ok(());
    }
    // Where it can't be said, the status has to do.
    let _ = writeln!(errors, "als: --from {from} names no port: it is HOST:PORT");
    Err(Refusal {
        kind: FaultKind::Stream,
        trouble: None,
    })
}

/// Whether an address is a host, a colon and the number of a port.
fn names_port(addr: &str) -> bool {
    match addr.rsplit_once(':') {
        Some((host, port)) => !host.is_empty() && port.parse::<u16>().is_ok(),
        None => false,
    }
}

/// The addresses of a list, which have commas between them.
pub fn named_in(alloc: Global, list: Option<&str>) -> Result<Vec<&str>, AllocError> {
    let mut named = Vec::new(alloc);
    if let Some(list) = list {
        for name in list.split(',') {
            named.push(name)?;
        }
    }
    Ok(named)
}

/// `als takeover`, `als rebuild-pages` and `als resolve`.
fn lead<
    R: AllocGlobal
        + Files<File = File>
        + Net<Listener = TcpListener, Stream = TcpStream>
        + Wait
        + Clock,
    O: Write,
    E: Write,
>(rt: &R, seen: bool, command: Command, output: &mut O, errors: &mut E) -> Result<(), Refusal> {
    let mut lines = RedoLines::new(&mut *errors, rt, seen, false);
    match command {
        Command::Takeover { dir, peers, .. } => {
            let named = peers.list(rt.alloc())?;
            let alone = weigh(rt, dir, named.as_slice(), &mut lines)?;
            check_sound(rt, dir, &mut lines)?;
            let TakenOver { doubts, is_empty } = takeover(rt, dir, &mut lines, output)?;
            drop(lines);
            if is_empty {
                tell_emptiness(dir, output, errors)?;
            }
            if let Some(own) = alone {
                tell_alone(dir, own, output, errors)?;
            }
            tell_doubts(dir, doubts.as_slice(), output, errors)
        }
        Command::RebuildPages { dir, .. } => {
            rebuild_pages(rt, dir, &mut lines, output)?;
            Ok(())
        }
        Command::Resolve {
            dir,
            trans,
            is_commit,
            ..
        } => {
            check_sound(rt, dir, &mut lines)?;
            resolve(rt, verdict(dir, trans, is_commit), &mut lines, output)?;
            Ok(())
        }
        _ => Ok(()),
    }
}

/// `als begin` and `als rewind`.
fn renew<R: AllocGlobal + Files<File = File> + Wait + Clock, O: Write, E: Write>(
    rt: &R,
    seen: bool,
    command: Command,
    output: &mut O,
    errors: &mut E,
) -> Result<(), Refusal> {
    let mut lines = RedoLines::new(&mut *errors, rt, seen, false);
    match command {
        Command::Begin { path, .. } => {
            let outcome = begin(rt, path, &mut lines, output);
            drop(lines);
            if let Err(fault) = outcome {
                tell_doubt(path, fault, errors);
                return Err(Refusal::from(fault));
            }
        }
        Command::Rewind {
            dir,
            lsn,
            lose_commits,
            ..
        } => {
            let mut printed: Vec<u8> = Vec::new(rt.alloc());
            let outcome = rewind(rt, dir, Lsn(lsn), lose_commits, &mut lines, &mut printed);
            drop(lines);
            if let Err(fault) = outcome {
                tell_boundary(lsn, fault, errors);
                return Err(Refusal::from(fault));
            }
            tell_rewound(dir, printed.as_slice(), output, errors)?;
        }
        _ => {}
    }
    Ok(())
}

/// Says which transaction is in doubt, where a log can't be begun because of it.
fn tell_doubt<E: Write>(path: &str, fault: RenewFault, errors: &mut E) {
    if let RenewFault::InDoubt { trans } = fault {
        // Where it can't be said, `als status` can.
        let _ = writeln!(
            errors,
            "als: transaction {} of {path} is in doubt and can't be carried on: its number is not above the page count, or 256 are in doubt; decide it, then begin again",
            trans.0
        );
    }
}

/// Prints what a node that was taken back prints. Where that fails, the node was taken back all the same.
fn tell_rewound<O: Write, E: Write>(
    dir: &str,
    printed: &[u8],
    output: &mut O,
    errors: &mut E,
) -> Result<(), Refusal> {
    if output.write_all(printed).is_ok() && output.flush().is_ok() {
        return Ok(());
    }
    // Where it can't be said, `als status` can.
    let _ = writeln!(errors, "als: {dir} was taken back; standard output failed");
    Err(Refusal {
        kind: FaultKind::Stream,
        trouble: None,
    })
}

/// Says where a record ends, where none ends at the LSN that was asked for, and what else refuses a node that
/// is to be taken back.
fn tell_boundary<E: Write>(lsn: u64, fault: RewindFault, errors: &mut E) {
    if let RewindFault::Look(fault) = fault {
        tell_look(fault, errors);
    }
    // Where it can't be said, `als dump` has the LSNs.
    let _ = match fault {
        RewindFault::Look(LookFault::Stream) => writeln!(
            errors,
            "als: log.blk can't be read, or the file beside the folder that is to keep what lies behind {lsn} can't be written: the node is as it was"
        ),
        RewindFault::NoBoundary { below } => writeln!(
            errors,
            "als: no record ends at {lsn}; the last one below it ends at {}. Where another node named {lsn} as its seal, its log is another one than this node's, as after als begin: rewind nothing, and follow that node with an empty folder",
            below.0
        ),
        RewindFault::Loses { commits } => writeln!(
            errors,
            "als: nothing was written: als rewind loses what was committed there only with --lose-commits {commits}"
        ),
        RewindFault::Kept => writeln!(
            errors,
            "als: the file beside the folder that is to keep what lies behind {lsn} is there, and has something else: move it away"
        ),
        _ => Ok(()),
    };
}

/// The commands that read a log or a folder and change nothing.
fn inspect<R: AllocGlobal + Files<File = File> + Wait + Clock, O: Write, E: Write>(
    rt: &R,
    seen: bool,
    command: Command,
    output: &mut O,
    errors: &mut E,
) -> Result<(), Refusal> {
    let mut lines = RedoLines::new(errors, rt, seen, false);
    match command {
        Command::Dump {
            path,
            from,
            trans,
            page,
            ..
        } => dump(rt, path, wanted(from, trans, page), &mut lines, output)?,
        Command::Verify { path, .. } => verify_telling(rt, path, &mut lines, output)?,
        Command::Status { dir, .. } => status(rt, dir, &mut lines, output)?,
        Command::Get {
            dir,
            page,
            slot,
            ..
        } => get(rt, dir, Key { page, slot }, &mut lines, output)?,
        _ => {}
    }
    Ok(())
}

/// The commands that look back in a log, and that which makes its device longer. Where one is refused it
/// is said why, as far as the number does not.
fn look<R: AllocGlobal + Files<File = File> + Clock, O: Write, E: Write>(
    rt: &R,
    seen: bool,
    command: Command,
    output: &mut O,
    errors: &mut E,
) -> Result<(), Refusal> {
    let mut lines = RedoLines::new(&mut *errors, rt, seen, false);
    let outcome = look_in(rt, command, &mut lines, output);
    drop(lines);
    match outcome {
        Ok(()) => Ok(()),
        Err(fault) => {
            tell_look(fault, errors);
            Err(Refusal::from(fault))
        }
    }
}

/// The same, with nothing said of a refusal.
fn look_in<R: AllocGlobal + Files<File = File>, A: Advance, O: Write>(
    rt: &R,
    command: Command,
    advance: &mut A,
    output: &mut O,
) -> Result<(), LookFault> {
    match command {
        Command::Commits { path, .. } => commits(rt, path, advance, &mut *output)?,
        Command::CutAt { path, lsn, .. } => {
            let _ = cut(rt, path, Until::At(Lsn(lsn)), advance, output)?;
        }
        Command::CutBefore { path, trans, .. } => {
            let lsn = commit_of(rt, path, TransId(trans), advance)?;
            let _ = cut(rt, path, Until::At(lsn), advance, output)?;
        }
        Command::Show { path, at, .. } => show(rt, path, until(at), advance, output)?,
        Command::Status { dir, at, .. } => status_at(rt, dir, until(at), advance, output)?,
        Command::Get {
            dir,
            page,
            slot,
            at,
            ..
        } => get_at(rt, dir, Key { page, slot }, until(at), advance, output)?,
        Command::Grow {
            dir,
            log_blocks,
            ..
        } => {
            check_uncut(rt, dir)?;
            let _ = grow(rt, dir, log_blocks, advance)?;
        }
        _ => {}
    }
    Ok(())
}

/// Refuses a log that ends in front of what is acknowledged: zeros in place of what it lost would look like
/// damaged records. Of a folder that can't be read otherwise nothing is said here.
fn check_uncut<R: AllocGlobal + Files<File = File>>(rt: &R, dir: &str) -> Result<(), LookFault> {
    match open_log(rt, dir) {
        Err(fault) if is_cut(fault) => Err(fault),
        Ok(_) | Err(_) => Ok(()),
    }
}

/// Whether a log ends in front of what is acknowledged.
fn is_cut(fault: LookFault) -> bool {
    matches!(
        fault.trouble(),
        Some(Trouble {
            part: Part::Log,
            wrong: Wrong::Short
        })
    )
}

/// Says why a look back is refused, where its number has several causes.
pub(crate) fn tell_look<E: Write>(fault: LookFault, errors: &mut E) {
    // Where it can't be said, the page of help has the causes.
    let _ = match fault {
        LookFault::InHeader => writeln!(errors, "als: an LSN below 16 is within the log's header"),
        LookFault::PastEnd { end } if end.0 < HEADER => writeln!(
            errors,
            "als: it has {} bytes, and the header of a log alone has {HEADER}: this is no log",
            end.0
        ),
        LookFault::PastEnd { end } => writeln!(errors, "als: the log ends at {}", end.0),
        LookFault::NoCommit => writeln!(errors, "als: the log has no commit of this transaction"),
        LookFault::NotLonger { blocks } => writeln!(errors, "als: the log has {blocks} blocks"),
        LookFault::TooLong => writeln!(errors, "als: a log has 4194304 blocks at most"),
        _ => Ok(()),
    };
}

/// Up to where a log is looked at: to its end, where no LSN is given.
fn until(at: Option<u64>) -> Until {
    match at {
        Some(lsn) => Until::At(Lsn(lsn)),
        None => Until::End,
    }
}

/// Follows a session with this many threads that redo, once the primary was asked whether its log is the
/// held one; with none in the calling thread alone. BadConfig: more than `WORKER_LIMIT`.
fn stand_by<
    R: AllocGlobal
        + Files<File = File>
        + Net<Listener = TcpListener, Stream = TcpStream>
        + Threads
        + Wait
        + Sync
        + Clock
        + RandomSource
        + Clone
        + Send
        + Drop
        + 'static,
    P: Progress + Outages,
    O: Write,
>(
    rt: &R,
    following: Following<'_>,
    workers: u64,
    uncompared: bool,
    progress: &mut P,
    output: &mut O,
) -> Result<(), Refusal> {
    let service = Service {
        workers: workers_of(workers)?,
        serve: None,
        readers: 1,
        keep: false,
        uncompared,
        listen: None,
        window: 1,
        followers: &[],
    };
    serve_standby(rt, following, service, progress, output)?;
    Ok(())
}

/// How many threads redo. BadConfig: more than `WORKER_LIMIT`.
fn workers_of(workers: u64) -> Result<usize, Refusal> {
    if workers > WORKER_LIMIT {
        return Err(Refusal {
            kind: FaultKind::BadConfig,
            trouble: None,
        });
    }
    Ok(workers as usize)
}

/// Says that a takeover was one of nothing, behind what was printed.
fn tell_emptiness<O: Write, E: Write>(
    dir: &str,
    output: &mut O,
    errors: &mut E,
) -> Result<(), Refusal> {
    if output.flush().is_err() {
        return Err(Refusal {
            kind: FaultKind::Stream,
            trouble: None,
        });
    }
    // Where it can't be said, what was printed says it too.
    let _ = writeln!(
        errors,
        "als: {dir} holds no record: nothing was ever followed there"
    );
    Ok(())
}

/// A line for each transaction that is in doubt, behind what was printed.
fn tell_doubts<O: Write, E: Write>(
    dir: &str,
    doubts: &[TransId],
    output: &mut O,
    errors: &mut E,
) -> Result<(), Refusal> {
    if doubts.is_empty() {
        return Ok(());
    }
    if output.flush().is_err() {
        return Err(Refusal {
            kind: FaultKind::Stream,
            trouble: None,
        });
    }
    for trans in doubts.iter() {
        // Where it can't be said, `als resolve` and `als status` can.
        let _ = writeln!(
            errors,
            "als: transaction {} is in doubt: it was prepared and not decided; ask its coordinator, then run als resolve --dir {dir} --trans {} with --commit or --rollback",
            trans.0, trans.0
        );
    }
    Ok(())
}

/// What becomes of a transaction in doubt.
fn verdict(dir: &str, trans: u32, is_commit: bool) -> Verdict<'_> {
    let decision = if is_commit {
        Decision::Commit
    } else {
        Decision::Rollback
    };
    Verdict {
        dir,
        trans: TransId(trans),
        decision,
    }
}

/// Which records are printed.
fn wanted(from: u64, trans: Option<u32>, page: Option<u32>) -> Wanted {
    Wanted {
        from: Lsn(from),
        trans: trans.map(TransId),
        page,
    }
}

/// The path on which a refusal of the command says more, if there is one.
fn told_of(command: Command<'_>, seen: bool) -> Option<&str> {
    let (path, explain) = match command {
        Command::Make { .. } | Command::Sim { .. } | Command::Ship { .. } => return None,
        Command::ShipNode { dir, explain, .. } => (dir, explain),
        Command::Standby { dir, explain, .. } => (dir, explain),
        Command::Takeover { dir, explain, .. } => (dir, explain),
        Command::New { dir, explain, .. } => (dir, explain),
        Command::Commit { dir, explain, .. } => (dir, explain),
        Command::Primary { dir, explain, .. } => (dir, explain),
        Command::RebuildPages { dir, explain } => (dir, explain),
        Command::Resolve { dir, explain, .. } => (dir, explain),
        Command::Dump { path, explain, .. } => (path, explain),
        Command::Verify { path, explain } => (path, explain),
        Command::Status { dir, explain, .. } => (dir, explain),
        Command::Begin { path, explain } => (path, explain),
        Command::Backup {
            dir: Some(dir),
            explain,
            ..
        } => (dir, explain),
        Command::Backup { .. } => return None,
        Command::Restore { path, explain, .. } => (path, explain),
        Command::Rewind { dir, explain, .. } => (dir, explain),
        Command::Commits { path, explain } => (path, explain),
        Command::CutAt { path, explain, .. } => (path, explain),
        Command::CutBefore { path, explain, .. } => (path, explain),
        Command::Show { path, explain, .. } => (path, explain),
        Command::Grow { dir, explain, .. } => (dir, explain),
        Command::Get { dir, explain, .. } => (dir, explain),
    };
    if explain || seen { Some(path) } else { None }
}

/// Says which file at the path is wrong.
fn explain<R: AllocGlobal + Files<File = File>, E: Write>(
    rt: &R,
    path: &str,
    trouble: Trouble,
    errors: &mut E,
) {
    let is_file = match fs::metadata(rt, path) {
        Ok(found) => !found.is_dir(),
        Err(_) => false,
    };
    // Where it can't be said, the status has to do.
    let _ = troubles::tell(errors, path, is_file, trouble);
}
