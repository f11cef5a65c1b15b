use als_program::program;
use std::fs::{File, OpenOptions, Permissions};
use std::io::Write;
use std::net::{Net, TcpListener, TcpStream};
use std::os::unix::fs::PermissionsExt;
use std::process::Abort;
use std::random::RandomSource;
use std::rt::Files;
use std::sync::Wait;
use std::thread::Threads;
use std::time::Clock;
use std::{fs, io};

/// The file of the token.
const TOKEN: &str = "guarded/token";

/// A primary that asks for the token, at an address that all reach.
const GUARDED: [&str; 8] = [
    "als",
    "primary",
    "--dir",
    "guarded/db",
    "--serve",
    "0.0.0.0:0",
    "--token-file",
    TOKEN,
];

/// Whether the program is refused for a fault of its command line, and says this.
fn is_fault<
    R: Abort
        + AllocGlobal
        + Files<File = File>
        + Net<Listener = TcpListener, Stream = TcpStream>
        + Threads
        + Wait
        + Sync
        + Clock
        + RandomSource
        + Clone
        + Send
        + Drop
        + 'static,
>(rt: &R, words: &[&str], told: &str) -> bool {
    let mut output = Vec::new(rt.alloc());
    let mut errors = Vec::new(rt.alloc());
    let status = program(rt, words, io::empty(), &mut output, &mut errors);
    status == 2 && output.is_empty() && errors.as_slice() == told.as_bytes()
}

/// The same, twice at most.
fn is_told<
    R: Abort
        + AllocGlobal
        + Files<File = File>
        + Net<Listener = TcpListener, Stream = TcpStream>
        + Threads
        + Wait
        + Sync
        + Clock
        + RandomSource
        + Clone
        + Send
        + Drop
        + 'static,
>(rt: &R, words: &[&str], told: &str) {
    assert!(rt;
        is_fault(rt, words, told) || is_fault(rt, words, told),
        "{told}"
    );
}

/// Makes a new file of the token, with this mode.
fn keeps<R: Files<File = File>>(rt: &R, token: &[u8], mode: u32) -> io::Result<()> {
    let mut file = OpenOptions::new()
        .write(true)
        .create_new(true)
        .open(rt, TOKEN)?;
    file.write_all(token)?;
    // Beside a file's creation the mask of the process would take bits of it away.
    fs::set_permissions(rt, TOKEN, Permissions::from_mode(mode))
}

/// A primary refuses this token, and says why.
fn is_unfit<
    R: Abort
        + AllocGlobal
        + Files<File = File>
        + Net<Listener = TcpListener, Stream = TcpStream>
        + Threads
        + Wait
        + Sync
        + Clock
        + RandomSource
        + Clone
        + Send
        + Drop
        + 'static,
>(rt: &R, token: &[u8], mode: u32, told: &str) {
    assert!(rt; keeps(rt, token, mode).is_ok());
    is_told(rt, &GUARDED, told);
    assert!(rt; fs::remove_file(rt, TOKEN).is_ok());
}

/// Whoever reaches an address may commit there only with a token, which only the owner of its file has. The
/// folder is not looked at before that is known.
#[test]
fn an_address_of_all_wants_a_token(rt: HostRuntime) {
    assert!(rt; fs::create_dir(&rt, "guarded").is_ok());
    assert!(rt; fs::create_dir(&rt, "guarded/db").is_ok());
    is_told(
        &rt,
        &GUARDED[..6],
        "als: 0.0.0.0:0 is not an address of the loopback, so that anybody could commit: give --token-file\n",
    );
    is_told(
        &rt,
        &GUARDED,
        "als: guarded/token: the file of the token can't be read\n",
    );
    let shared =
        "als: guarded/token: others may read or write the file of the token: chmod 600 it\n";
    is_unfit(&rt, b"0123456789abcdef", 0o640, shared);
    is_unfit(&rt, b"0123456789abcdef", 0o604, shared);
    let short = "als: guarded/token: the token has fewer than 16 bytes\n";
    is_unfit(&rt, b"0123456789abcde\r\n", 0o600, short);
    let blank =
        "als: guarded/token: the token has a blank, a line end or another byte that no request can bring\n";
    is_unfit(&rt, b"0123456789 abcdef\n", 0o600, blank);
    is_unfit(&rt, b"0123456789abcdef\n\n", 0o600, blank);
    let long = "als: guarded/token: the token has more than 4096 bytes\n";
    is_unfit(&rt, &[b'a'; 4_097], 0o600, long);
    assert!(rt; fs::remove_dir(&rt, "guarded/db").is_ok());
    assert!(rt; fs::remove_dir(&rt, "guarded").is_ok());
}
