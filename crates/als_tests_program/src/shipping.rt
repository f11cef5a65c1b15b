use als_program::program;
use std::fs::File;
use std::io;
use std::net::{Net, TcpListener, TcpStream};
use std::random::RandomSource;
use std::rt::Files;
use std::sync::Wait;
use std::thread::Threads;
use std::time::Clock;

/// Whether this command line is refused so, with nothing on standard output. Standard input is not
/// read.
fn refuses<
    R: AllocGlobal
        + Files<File = File>
        + Net<Listener = TcpListener, Stream = TcpStream>
        + Threads
        + Wait
        + Sync
        + Clock
        + RandomSource
        + Clone
        + Send
        + Drop
        + 'static,
>(rt: &R, words: &[&str], wanted: &str) -> bool {
    let mut output = Vec::new(rt.alloc());
    let mut errors = Vec::new(rt.alloc());
    let status = program(rt, words, io::empty(), &mut output, &mut errors);
    status == 3 && output.is_empty() && errors.as_slice() == wanted.as_bytes()
}

/// A file that is missing is a stream that fails; one that begins with no header is told. So it is of
/// a shipper that goes on.
#[test]
fn ship_is_refused(rt: HostRuntime) {
    let missing = "als: refused 44 Stream\n";
    let bad = "als: refused 1 BadHeader\n";
    assert!(rt; std::fs::write(&rt, "no header", "no header").is_ok());
    for goes_on in ["--explain", "--keep", "--follow"] {
        for (log, wanted) in [("no file", missing), ("no header", bad)] {
            let words = [
                "als",
                "ship",
                "--log",
                log,
                "--listen",
                "127.0.0.1:0",
                goes_on,
            ];
            assert!(rt; refuses(&rt, &words, wanted) || refuses(&rt, &words, wanted));
        }
    }
    assert!(rt; std::fs::remove_file(&rt, "no header").is_ok());
}

/// A window out of its range is refused before the file or the folder is looked at.
#[test]
fn a_window_has_its_range(rt: HostRuntime) {
    let none = "als: refused 37 BadConfig\nals: --window is 0: wanted is a number from 1 to 64\n";
    let many = "als: refused 37 BadConfig\nals: --window is 65: wanted is a number from 1 to 64\n";
    for source in ["--log", "--dir"] {
        for (window, wanted) in [("0", none), ("65", many)] {
            let words = [
                "als",
                "ship",
                source,
                "nowhere",
                "--listen",
                "127.0.0.1:0",
                "--keep",
                "--window",
                window,
            ];
            assert!(rt; refuses(&rt, &words, wanted) || refuses(&rt, &words, wanted));
        }
    }
}

/// A window has no effect on a session that sends nothing ahead.
#[test]
fn a_window_wants_sessions_that_send_ahead(rt: HostRuntime) {
    let of_file =
        "als: refused 37 BadConfig\nals: --window has no effect without --keep or --follow\n";
    let of_node = "als: refused 37 BadConfig\nals: --window has no effect without --keep\n";
    for (source, wanted) in [("--log", of_file), ("--dir", of_node)] {
        let words = [
            "als",
            "ship",
            source,
            "nowhere",
            "--listen",
            "127.0.0.1:0",
            "--window",
            "16",
        ];
        assert!(rt; refuses(&rt, &words, wanted) || refuses(&rt, &words, wanted));
    }
}
