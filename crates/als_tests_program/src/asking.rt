use als_program::program;
use std::fs::File;
use std::net::{Net, TcpListener, TcpStream};
use std::process::Abort;
use std::random::RandomSource;
use std::rt::Files;
use std::sync::Wait;
use std::thread::Threads;
use std::time::Clock;

/// A request for help goes to standard output and ends with 0; it needs no input.
#[test]
fn help_is_written(rt: HostRuntime) {
    asks(&rt, &["als", "--help"], "Usage: als <COMMAND>");
    asks(&rt, &["als", "help"], "Exit statuses:");
    asks(&rt, &["als", "help", "make"], "u T P S BEFORE AFTER");
    asks(&rt, &["als", "make", "-h"], "--hex");
    asks(
        &rt,
        &["als", "sim", "--help"],
        "als sim < examples/first-path.als",
    );
    asks(&rt, &["als", "ship", "--help"], "--listen <ADDR>");
    asks(&rt, &["als", "help", "ship"], "als ship --log primary.log");
    asks(
        &rt,
        &["als", "standby", "--help"],
        "0 follows in one thread [default: 4]",
    );
    asks(&rt, &["als", "ship", "--help"], "      --keep");
    asks(&rt, &["als", "help", "ship"], "      --follow");
    asks(&rt, &["als", "standby", "--help"], "      --keep");
    asks(&rt, &["als", "help", "standby"], "      --serve <ADDR>");
    asks(&rt, &["als", "standby", "-h"], "--readers <R>");
    asks(&rt, &["als", "help", "takeover"], "--peer <PEER>");
    for command in [
        "make",
        "sim",
        "standby",
        "takeover",
        "resolve",
        "new",
        "commit",
        "rebuild-pages",
        "dump",
        "verify",
        "status",
        "get",
        "primary",
        "cut",
        "show",
        "grow",
    ] {
        asks(&rt, &["als", command, "--help"], "      --explain");
    }
    asks(&rt, &["als", "--version"], "als 0.2.0");
}

/// A fault of the command line is printed on standard error and ends with 2.
#[test]
fn faults_are_told(rt: HostRuntime) {
    errs(&rt, &[], "requires a subcommand");
    errs(&rt, &["als"], "requires a subcommand");
    errs(
        &rt,
        &["als", "simulate"],
        "unrecognized subcommand 'simulate'",
    );
    errs(
        &rt,
        &["als", "make", "--hexx"],
        "unexpected argument '--hexx'",
    );
    errs(
        &rt,
        &["als", "make", "--hex", "--hex"],
        "cannot be used multiple times",
    );
    errs(
        &rt,
        &["als", "sim", "first-path.als"],
        "unexpected argument 'first-path.als'",
    );
    errs(
        &rt,
        &["als", "ship", "--log", "primary.log"],
        "--listen <ADDR>",
    );
    let resolve = ["als", "resolve", "--dir", "db", "--trans", "1"];
    errs(&rt, &resolve, "<--commit|--rollback>");
    let both = [
        "als",
        "resolve",
        "--dir",
        "db",
        "--trans",
        "1",
        "--commit",
        "--rollback",
    ];
    errs(&rt, &both, "cannot be used with");
    errs(
        &rt,
        &["als", "resolve", "--dir", "db", "--commit"],
        "--trans <T>",
    );
    for workers in ["four", "18446744073709551616"] {
        errs(
            &rt,
            &["als", "standby", "--workers", workers],
            "--workers <W>",
        );
        errs(
            &rt,
            &["als", "standby", "--readers", workers],
            "--readers <R>",
        );
    }
    errs(&rt, &["als", "standby", "--serve"], "--serve <ADDR>");
    errs(&rt, &["als", "primary", "--sync", "two"], "--sync <K>");
    errs(
        &rt,
        &["als", "cut", "db"],
        "<--at <LSN>|--before-commit <T>>",
    );
    errs(
        &rt,
        &["als", "ship", "--keep", "--keep"],
        "cannot be used multiple times",
    );
    let parted = [
        "als", "ship", "--dir", "db", "--listen", "0", "--follow", "--keep",
    ];
    errs(&rt, &parted, "'--follow' cannot be used with '--dir <DIR>'");
    errs(&rt, &["als", "takeover"], "<DIR|--dir <DIR>>");
    let nine = [
        "als", "takeover", "db", "--peer=a", "--peer=b", "--peer=c", "--peer=d", "--peer=e",
        "--peer=f", "--peer=g", "--peer=h", "--peer=i",
    ];
    errs(&rt, &nine, "cannot be used more than eight times");
}

fn asks<
    R: Abort
        + AllocGlobal
        + Files<File = File>
        + Net<Listener = TcpListener, Stream = TcpStream>
        + Threads
        + Wait
        + Sync
        + Clock
        + RandomSource
        + Clone
        + Send
        + Drop
        + 'static,
>(rt: &R, words: &[&str], part: &str) {
    assert!(rt;
        answers(rt, words, 0, part) || answers(rt, words, 0, part),
        "{part}"
    );
}

fn errs<
    R: Abort
        + AllocGlobal
        + Files<File = File>
        + Net<Listener = TcpListener, Stream = TcpStream>
        + Threads
        + Wait
        + Sync
        + Clock
        + RandomSource
        + Clone
        + Send
        + Drop
        + 'static,
>(rt: &R, words: &[&str], part: &str) {
    assert!(rt;
        answers(rt, words, 2, part) || answers(rt, words, 2, part),
        "{part}"
    );
}

/// Whether a run without input ends with this status and writes one text, with this part in it: to
/// standard output where it ends well, else to standard error.
fn answers<
    R: AllocGlobal
        + Files<File = File>
        + Net<Listener = TcpListener, Stream = TcpStream>
        + Threads
        + Wait
        + Sync
        + Clock
        + RandomSource
        + Clone
        + Send
        + Drop
        + 'static,
>(rt: &R, words: &[&str], wanted: u8, part: &str) -> bool {
    let mut output = Vec::new(rt.alloc());
    let mut errors = Vec::new(rt.alloc());
    let status = program(rt, words, std::io::empty(), &mut output, &mut errors);
    let (text, other) = match wanted {
        0 => (output.as_slice(), errors.as_slice()),
        _ => (errors.as_slice(), output.as_slice()),
    };
    let text = std::str::from_utf8(text).unwrap_or("");
    status == wanted && other.is_empty() && text.contains(part)
}
