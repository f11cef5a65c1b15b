use als_program::program;
use std::fs::File;
use std::net::{Net, TcpListener, TcpStream};
use std::process::Abort;
use std::random::RandomSource;
use std::rt::Files;
use std::sync::Wait;
use std::thread::Threads;
use std::time::Clock;

/// A world as most scripts have it.
pub const WORLD: &str = "world pages=4 log=8 frames=4 workers=2 pending=1000\n";

/// A run of the program: its words and its standard input, and then what it writes and answers.
#[derive(Clone, Copy)]
pub struct Row<'a> {
    words: &'a [&'a str],
    script: &'a str,
    output: &'a str,
    errors: &'a str,
    status: u8,
}

impl<'a> Row<'a> {
    /// A script that ends well.
    pub fn sim(script: &'a str, output: &'a str) -> Row<'a> {
        Row {
            words: &["als", "sim"],
            script,
            output,
            errors: "",
            status: 0,
        }
    }

    /// A script of which more is said on standard error.
    pub fn explained(script: &'a str, output: &'a str) -> Row<'a> {
        Row {
            words: &["als", "sim", "--explain"],
            ..Row::sim(script, output)
        }
    }

    /// Record lines whose log text is written as hexadecimal lines.
    pub fn make_hex(script: &'a str, output: &'a str) -> Row<'a> {
        Row {
            words: &["als", "make", "--hex"],
            ..Row::sim(script, output)
        }
    }

    /// A run of these words over this input, that ends well.
    pub fn of(words: &'a [&'a str], input: &'a str, output: &'a str) -> Row<'a> {
        Row {
            words,
            ..Row::sim(input, output)
        }
    }

    /// A run that ends with this on standard error, and this status.
    pub fn failing(self, errors: &'a str, status: u8) -> Row<'a> {
        Row {
            errors,
            status,
            ..self
        }
    }
}

/// Whether the program writes and answers what the row says.
fn is_so<
    R: AllocGlobal
        + Files<File = File>
        + Net<Listener = TcpListener, Stream = TcpStream>
        + Threads
        + Wait
        + Sync
        + Clock
        + RandomSource
        + Clone
        + Send
        + Drop
        + 'static,
>(rt: &R, row: Row) -> bool {
    let mut output = Vec::new(rt.alloc());
    let mut errors = Vec::new(rt.alloc());
    let script = row.script.as_bytes();
    let status = program(rt, row.words, script, &mut output, &mut errors);
    output.as_slice() == row.output.as_bytes()
        && errors.as_slice() == row.errors.as_bytes()
        && status == row.status
}

/// Runs a row of a table, and again where its first run does not end so: an allocation fails once
/// at most, so the second run meets none, and tells what differs.
pub fn run_row<
    R: Abort
        + AllocGlobal
        + Files<File = File>
        + Net<Listener = TcpListener, Stream = TcpStream>
        + Threads
        + Wait
        + Sync
        + Clock
        + RandomSource
        + Clone
        + Send
        + Drop
        + 'static,
>(rt: &R, row: Row) {
    if is_so(rt, row) {
        return;
    }
    let mut output = Vec::new(rt.alloc());
    let mut errors = Vec::new(rt.alloc());
    let script = row.script;
    let status = program(rt, row.words, script.as_bytes(), &mut output, &mut errors);
    let output = std::str::from_utf8(output.as_slice()).unwrap_or("no text");
    let errors = std::str::from_utf8(errors.as_slice()).unwrap_or("no text");
    assert!(rt; output == row.output, "{script} wrote {output}");
    assert!(rt;
        errors == row.errors,
        "{script} wrote to standard error {errors}"
    );
    assert!(rt; status == row.status, "{script} ended with {status}");
}
