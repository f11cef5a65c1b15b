use crate::redo_lines::RedoLines;
use crate::refusal::Refusal;
use crate::sound_pages::check_followable;
use als_folder::Folder;
use als_operate::{Fault as OperateFault, Following, forget};
use als_service::{Service, standby};
use std::fs::File;
use std::io::Write;
use std::net::{Net, TcpListener, TcpStream};
use std::random::RandomSource;
use std::rt::Files;
use std::sync::Wait;
use std::thread::{self, Threads};
use std::time::{Clock, Duration};

/// How often a folder is asked for again that another program has.
const TRIES: u32 = 60;

/// Before each of these a pause of so many milliseconds.
const PAUSE: u64 = 1_000;

/// Checks the pages of a folder, and is its standby; one that `forgets` drops first the takeovers that the
/// folder never reached. One that is kept waits for a folder that another program has, for a minute each time:
/// `als status` and `als verify` have it while they read, and a unit does not start again after a refusal.
pub fn stand_at_last<
    R: AllocGlobal
        + Files<File = File>
        + Net<Listener = TcpListener, Stream = TcpStream>
        + Threads
        + Wait
        + Sync
        + Clock
        + RandomSource
        + Clone
        + Send
        + Drop
        + 'static,
    O: Write,
    E: Write,
>(
    rt: &R,
    following: Following<'_>,
    service: Service<'_>,
    forgets: bool,
    lines: &mut RedoLines<'_, E, R>,
    output: &mut O,
) -> Result<(), Refusal> {
    if !service.keep {
        return stand(rt, following, service, forgets, lines, output);
    }
    for _ in rt.forever() {
        wait_for(rt, following.dir, lines)?;
        match stand(rt, following, service, forgets, lines, output) {
            // It was taken between two of these steps.
            Err(refusal) if refusal.is_of_folder_lock() => pause(rt),
            outcome => return outcome,
        }
    }
    unreachable!()
}

/// The same, where no other program has the folder.
fn stand<
    R: AllocGlobal
        + Files<File = File>
        + Net<Listener = TcpListener, Stream = TcpStream>
        + Threads
        + Wait
        + Sync
        + Clock
        + RandomSource
        + Clone
        + Send
        + Drop
        + 'static,
    O: Write,
    E: Write,
>(
    rt: &R,
    following: Following<'_>,
    service: Service<'_>,
    forgets: bool,
    lines: &mut RedoLines<'_, E, R>,
    output: &mut O,
) -> Result<(), Refusal> {
    if forgets {
        forget(rt, following.dir, lines)?;
    }
    check_followable(rt, following.dir, lines)?;
    standby(rt, following, service, lines, output)?;
    Ok(())
}

/// Waits until no other program has the folder, for a minute at most: then it is refused. What else is wrong
/// with it is left to who takes it.
fn wait_for<R: AllocGlobal + Files<File = File> + Clock, E: Write>(
    rt: &R,
    dir: &str,
    lines: &mut RedoLines<'_, E, R>,
) -> Result<(), Refusal> {
    for tried in 0..TRIES {
        if check_free(rt, dir).is_ok() {
            return Ok(());
        }
        if tried == 0 {
            lines.waits_for(dir);
        }
        pause(rt);
    }
    check_free(rt, dir)
}

/// Refuses a folder that another program has. Nothing of it is read.
fn check_free<R: AllocGlobal + Files<File = File>>(rt: &R, dir: &str) -> Result<(), Refusal> {
    match Folder::hold(rt, dir) {
        Ok(folder) => drop(folder),
        Err(fault) => {
            let refusal = Refusal::from(OperateFault::from(fault));
            if refusal.is_of_folder_lock() {
                return Err(refusal);
            }
        }
    }
    Ok(())
}

/// A second.
fn pause<C: Clock>(clock: &C) {
    thread::sleep(clock, Duration::from_millis(PAUSE));
}
