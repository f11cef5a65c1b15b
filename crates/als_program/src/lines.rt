ghost use Rattle.std.specs.Prelude.{IfOk};
ghost use Rattle.als_program.specs.Status.{IsStatus};

use crate::failure::Failure;
use crate::input::read_input;
use crate::make::make;
use crate::remarks;
use crate::remarks::Language;
use crate::terminals::Terminals;
use als_sim::sim;
use std::alloc::Global;
use std::io::{Read, Write};
use std::sync::Wait;

/// What is said beside what a command answers.
#[derive(Clone, Copy)]
pub struct Telling {
    /// What its input is written in.
    language: Language,
    /// Whether a person types the input and sees standard error.
    typed: bool,
    /// Whether more is said of a fault.
    explain: bool,
}

impl Telling {
    /// More is said of a fault where that was asked for, or a person sees it.
    pub fn new(language: Language, terminals: Terminals, explain: bool) -> Telling {
        Telling {
            language,
            typed: terminals.input && terminals.errors,
            explain: explain || terminals.errors,
        }
    }
}

/// `als make`: makes the log text of the record lines of the input.
pub fn make_lines<I: Read + Drop, O: Write, E: Write>(
    alloc: Global,
    telling: Telling,
    hex: bool,
    input: I,
    output: &mut O,
    errors: &mut E,
) -> Result<u8, Failure>
    ensures status { IfOk result IsStatus }
{
    let lines = match take_input(alloc, telling, input, errors) {
        Ok(lines) => lines,
        Err(failure) => return explained(failure, telling, b"", errors),
    };
    match make(alloc, lines.as_slice(), hex, output) {
        Ok(()) => Ok(0),
        Err(failure) => explained(failure, telling, lines.as_slice(), errors),
    }
}

/// `als sim`: runs the script of the input.
pub fn run_script<R: AllocGlobal + Wait, I: Read + Drop, O: Write, E: Write>(
    rt: &R,
    telling: Telling,
    input: I,
    output: &mut O,
    errors: &mut E,
) -> Result<u8, Failure>
    ensures status { IfOk result IsStatus }
{
    let alloc = rt.alloc();
    let script = match take_input(alloc, telling, input, errors) {
        Ok(script) => script,
        Err(failure) => return explained(failure, telling, b"", errors),
    };
    match sim(alloc, rt, script.as_slice(), output) {
        Ok(ending) => {
            if telling.explain {
                // Where it can't be said, the status has to do.
                let _ = remarks::ending(errors, &ending, script.as_slice());
            }
            Ok(ending.status())
        }
        Err(failure) => explained(Failure::from(failure), telling, script.as_slice(), errors),
    }
}

/// Standard input, whole. A person who types it is shown what it is.
fn take_input<I: Read + Drop, E: Write>(
    alloc: Global,
    telling: Telling,
    input: I,
    errors: &mut E,
) -> Result<Vec<u8>, Failure> {
    if telling.typed {
        let _ = remarks::reads_terminal(errors, telling.language);
    }
    Ok(read_input(alloc, input)?)
}

/// A failure, or its status where more has been said of it.
fn explained<E: Write>(
    failure: Failure,
    telling: Telling,
    input: &[u8],
    errors: &mut E,
) -> Result<u8, Failure>
    ensures status { IfOk result IsStatus }
{
    if !telling.explain {
        return Err(failure);
    }
    let status = failure.report(errors);
    // Where it can't be said, the status has to do.
    let _ = remarks::failure(errors, &failure, telling.language, input);
    Ok(status)
}
