ghost use Rattle.std.specs.Prelude.{IfOk};
ghost use Rattle.als_program.specs.Status.{IsStatus};

use crate::failure::Failure;
use crate::files::refused;
use crate::options::tell_few;
use crate::redo_lines::RedoLines;
use crate::refusal::Refusal;
use crate::serving_lines::{ServingLines, text_of};
use crate::sound_pages::check_sound;
use crate::terminals::Terminals;
use als_command::Command;
use als_operate::Fault;
use als_primary::{Refusal as Unserved, Serving, check_followers, check_numbers, primary};
use std::alloc::{AllocError, Global};
use std::fs::File;
use std::io::Write;
use std::net::{Net, TcpListener, TcpStream};
use std::random::RandomSource;
use std::rt::Files;
use std::sync::Wait;
use std::thread::Threads;
use std::time::Clock;

/// `als primary`: commits and answers reads over HTTP. Its status is 2 where nobody could be kept from
/// committing, or the file of the token is refused.
pub fn serve_primary<
    R: AllocGlobal
        + Files<File = File>
        + Net<Listener = TcpListener, Stream = TcpStream>
        + Threads
        + Wait
        + Sync
        + Clock
        + RandomSource
        + Clone
        + Send
        + Drop
        + 'static,
    O: Write,
    E: Write,
>(
    rt: &R,
    terminals: Terminals,
    command: Command<'_>,
    serving: Serving<'_>,
    output: &mut O,
    errors: &mut E,
) -> Result<u8, Failure>
    ensures status { IfOk result IsStatus }
{
    if let Err(refusal) = check_pages(rt, terminals, serving, errors) {
        return refused(rt, terminals, command, refusal, output, errors);
    }
    let mut lines = ServingLines::new(&mut *errors, rt, terminals.errors);
    let ended = primary(rt, serving, &mut lines);
    drop(lines);
    match ended {
        Ok(()) => Ok(0),
        Err(Unserved::Ended(fault)) => {
            refused(rt, terminals, command, Refusal::from(fault), output, errors)
        }
        Err(why) => Err(Failure::Usage(text_of(rt.alloc(), why, serving)?)),
    }
}

/// Refuses a page that is not what its log makes of it. A number that is out of its range, and a follower that
/// is no address, is left to the command: no folder is looked at for it.
fn check_pages<R: AllocGlobal + Files<File = File> + Wait + Clock, E: Write>(
    rt: &R,
    terminals: Terminals,
    serving: Serving<'_>,
    errors: &mut E,
) -> Result<(), Refusal> {
    if check_numbers(serving).is_err() || check_followers(rt.alloc(), serving.followers).is_err() {
        return Ok(());
    }
    tell_few(errors, serving.sync, serving.followers);
    let mut lines = RedoLines::new(errors, rt, terminals.errors, false);
    check_sound(rt, serving.dir, &mut lines)
}
