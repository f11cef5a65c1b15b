use crate::ending::Ending;
use crate::failure::Failure;
use crate::printing;
use crate::simulation::Simulation;
use als_script::{is_command, line_number, number_past};
use std::alloc::Global;
use std::io::Write;
use std::str;
use std::sync::Wait;

/// Runs a script, writes what its lines answer, and says how it ended. A bad line ends it; what
/// came before has been written. BadLine: a line is none of the language, or there is no first
/// line. Memory: an allocation failed. Stream: the output fails.
pub fn sim<R: Wait, W: Write>(
    alloc: Global,
    rt: &R,
    script: &[u8],
    output: &mut W,
) -> Result<Ending, Failure> {
    let mut simulation: Option<Simulation> = None;
    for (index, line) in script.split(|b| *b == b'\n').enumerate() {
        if is_command(line) {
            let number = line_number(index);
            let line = str::from_utf8(line).map_err(|_| Failure::BadLine(number))?;
            let next = match simulation {
                Some(simulation) => simulation.take(rt, number, line, output)?,
                None => match Simulation::begin(alloc, rt, number, line)? {
                    Ok(simulation) => simulation,
                    Err(fault) => {
                        printing::refused(output, fault)?;
                        return Ok(Ending::WorldRefused);
                    }
                },
            };
            simulation = Some(next);
        }
    }
    match simulation {
        Some(simulation) => Ok(Ending::Ran(simulation.end(rt))),
        None => Err(Failure::BadLine(number_past(script))),
    }
}
