ghost use Rattle.std.specs.Prelude.{IfOk};
ghost use Rattle.als_program.specs.Status.{IsStatus};

use crate::failure::Failure;
use crate::files::refused;
use crate::redo_lines::RedoLines;
use crate::refusal::Refusal;
use crate::sound_pages::check_sound;
use crate::terminals::Terminals;
use als_command::Command;
use als_commit::{Committing, Ending, commit};
use std::fs::File;
use std::io::{Read, Write};
use std::rt::Files;
use std::sync::Wait;
use std::time::Clock;

/// `als commit`: writes a transaction for each line of the input. Its status is 2 where a line was
/// none.
pub fn commit_lines<
    R: AllocGlobal + Files<File = File> + Wait + Clock,
    I: Read + Drop,
    O: Write,
    E: Write,
>(
    rt: &R,
    terminals: Terminals,
    command: Command<'_>,
    committing: Committing<'_>,
    input: I,
    output: &mut O,
    errors: &mut E,
) -> Result<u8, Failure>
    ensures status { IfOk result IsStatus }
{
    let mut lines = RedoLines::new(&mut *errors, rt, terminals.errors, false);
    let ended = attempt(rt, committing, input, &mut lines, output);
    drop(lines);
    match ended {
        Ok(Ending::Done) => Ok(0),
        Ok(Ending::BadLine) => Ok(2),
        Err(refusal) => refused(rt, terminals, command, refusal, output, errors),
    }
}

/// The same, with nothing said of a refusal.
fn attempt<R: AllocGlobal + Files<File = File> + Wait + Clock, I: Read + Drop, O: Write, W: Write>(
    rt: &R,
    committing: Committing<'_>,
    input: I,
    lines: &mut RedoLines<'_, W, R>,
    output: &mut O,
) -> Result<Ending, Refusal> {
    check_sound(rt, committing.dir, lines)?;
    Ok(commit(rt, committing, input, lines, output)?)
}
