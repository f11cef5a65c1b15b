//! The program `als`: it makes log texts, runs scripts on a standby, and ships, follows and reads
//! logs.
#![tactic(auto)]

use als_program::{Failure, Terminals, program_on};
use std::env;
use std::io::IsTerminal;
use std::process::ExitCode;

fn main(rt: HostRuntime) -> ExitCode {
    let status = match words(&rt) {
        Ok(words) => {
            let terminals = Terminals {
                input: rt.stdin().is_terminal(),
                output: rt.stdout().is_terminal(),
                errors: rt.stderr().is_terminal(),
            };
            let words = words.as_slice();
            program_on(&rt, terminals, words, rt.stdin(), rt.stdout(), rt.stderr())
        }
        Err(failure) => failure.report(&mut rt.stderr()),
    };
    ExitCode::from(status)
}

/// The words of the command line, of which the first is the program's name.
fn words<R: env::Env + AllocGlobal>(rt: &R) -> Result<Vec<String>, Failure> {
    Ok(env::args(rt)?.collect(rt.alloc())?)
}
