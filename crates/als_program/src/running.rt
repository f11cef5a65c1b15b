ghost use Rattle.std.specs.Prelude.{IfOk};
ghost use Rattle.als_program.specs.Status.{IsStatus};

use crate::committing::commit_lines;
use crate::failure::Failure;
use crate::files::{READ_FOR, WINDOW, named_in, operate, refused};
use crate::lines::{Telling, make_lines, run_script};
use crate::options::misplaced;
use crate::refusal::Refusal;
use crate::remarks::Language;
use crate::serving::serve_primary;
use crate::terminals::Terminals;
use als_command::{Command, NoCommand, args};
use als_commit::Committing;
use als_primary::Serving;
use std::convert::AsStr;
use std::fs::File;
use std::io::{BufWriter, Read, Write};
use std::net::{Net, TcpListener, TcpStream};
use std::random::RandomSource;
use std::rt::Files;
use std::sync::Wait;
use std::thread::Threads;
use std::time::Clock;

/// All of the program, where no stream is a terminal.
pub fn program<
    R: AllocGlobal
        + Files<File = File>
        + Net<Listener = TcpListener, Stream = TcpStream>
        + Threads
        + Wait
        + Sync
        + Clock
        + RandomSource
        + Clone
        + Send
        + Drop
        + 'static,
    S: AsStr,
    I: Read + Drop,
    O: Write + Drop,
    E: Write + Drop,
>(rt: &R, words: &[S], input: I, output: O, errors: E) -> u8
    ensures status { IsStatus result }
{
    let none = Terminals {
        input: false,
        output: false,
        errors: false,
    };
    program_on(rt, none, words, input, output, errors)
}

/// All of the program: does what the words ask for, of which the first is the program's name, and
/// answers the exit status: 0, 2 for a fault of what the caller wrote, 3 for a refusal. What it has
/// to say of itself goes to `errors`.
pub fn program_on<
    R: AllocGlobal
        + Files<File = File>
        + Net<Listener = TcpListener, Stream = TcpStream>
        + Threads
        + Wait
        + Sync
        + Clock
        + RandomSource
        + Clone
        + Send
        + Drop
        + 'static,
    S: AsStr,
    I: Read + Drop,
    O: Write + Drop,
    E: Write + Drop,
>(rt: &R, terminals: Terminals, words: &[S], input: I, output: O, errors: E) -> u8
    ensures status { IsStatus result }
{
    let mut errors = errors;
    match execute(rt, terminals, words, input, output, &mut errors) {
        Ok(status) => status,
        Err(failure) => failure.report(&mut errors),
    }
}

/// Runs the command over a buffer, which is written out also where the command fails.
fn execute<
    R: AllocGlobal
        + Files<File = File>
        + Net<Listener = TcpListener, Stream = TcpStream>
        + Threads
        + Wait
        + Sync
        + Clock
        + RandomSource
        + Clone
        + Send
        + Drop
        + 'static,
    S: AsStr,
    I: Read + Drop,
    O: Write + Drop,
    E: Write,
>(
    rt: &R,
    terminals: Terminals,
    words: &[S],
    input: I,
    output: O,
    errors: &mut E,
) -> Result<u8, Failure>
    ensures status { IfOk result IsStatus }
{
    let mut output = BufWriter::new(rt.alloc(), output)?;
    let outcome = obey(rt, terminals, words, input, &mut output, errors);
    output.flush()?;
    outcome
}

fn obey<
    R: AllocGlobal
        + Files<File = File>
        + Net<Listener = TcpListener, Stream = TcpStream>
        + Threads
        + Wait
        + Sync
        + Clock
        + RandomSource
        + Clone
        + Send
        + Drop
        + 'static,
    S: AsStr,
    I: Read + Drop,
    O: Write,
    E: Write,
>(
    rt: &R,
    terminals: Terminals,
    words: &[S],
    input: I,
    output: &mut O,
    errors: &mut E,
) -> Result<u8, Failure>
    ensures status { IfOk result IsStatus }
{
    let alloc = rt.alloc();
    let command = match args(alloc, words) {
        Ok(command) => command,
        Err(NoCommand::Help(text)) => {
            write!(output, "{text}")?;
            return Ok(0);
        }
        Err(NoCommand::Mistake(text)) => return Err(Failure::Usage(text)),
        Err(NoCommand::Memory) => return Err(Failure::Memory),
    };
    if misplaced(command).is_some() {
        return refused(rt, terminals, command, Refusal::BAD_CONFIG, output, errors);
    }
    match command {
        Command::Make { hex, explain } => {
            if terminals.output && !hex {
                return Err(Failure::BytesOnTerminal);
            }
            let telling = Telling::new(Language::Records, terminals, explain);
            make_lines(alloc, telling, hex, input, output, errors)
        }
        Command::Sim { explain } => {
            let telling = Telling::new(Language::Script, terminals, explain);
            run_script(rt, telling, input, output, errors)
        }
        Command::Commit {
            dir,
            pages,
            log_blocks,
            batch,
            skip_bad,
            explain: _,
        } => {
            let committing = Committing {
                dir,
                pages,
                log_blocks,
                batch,
                skip_bad,
            };
            commit_lines(rt, terminals, command, committing, input, output, errors)
        }
        Command::Primary {
            dir,
            serve,
            pages,
            log_blocks,
            token_file,
            connections,
            commit_timeout,
            listen,
            sync,
            read_for,
            window,
            followers,
            timeout,
            explain: _,
        } => {
            let followers = named_in(rt.alloc(), followers)?;
            let serving = Serving {
                dir,
                serve,
                pages,
                log_blocks,
                token_file,
                connections,
                commit_timeout,
                listen,
                sync,
                read_for: read_for.unwrap_or(READ_FOR),
                window: window.unwrap_or(WINDOW),
                timeout,
                followers: followers.as_slice(),
            };
            serve_primary(rt, terminals, command, serving, output, errors)
        }
        Command::Begin { .. }
        | Command::Backup { resume: None, .. }
        | Command::CutAt { .. }
        | Command::CutBefore { .. }
            if terminals.output => { Err(Failure::TextOnTerminal) }
        command => operate(rt, terminals, command, output, errors),
    }
}
