use als_program::program;
use std::fs::File;
use std::io;
use std::io::{Read, Write};
use std::net::{Net, TcpListener, TcpStream};
use std::process::Abort;
use std::random::RandomSource;
use std::rt::Files;
use std::sync::Wait;
use std::thread::Threads;
use std::time::Clock;

/// A world for a script.
const WORLD: &str = "world pages=4 log=8 frames=4 workers=2 pending=1000\n";

/// What a failing stream ends with.
const REFUSED: &[u8] = b"als: refused 44 Stream\n";

/// Takes so many bytes, and then fails.
#[derive(Drop)]
struct Full {
    room: usize,
}

impl Write for Full {
    fn write(&mut self, bytes: &[u8]) -> io::Result<usize> {
        if bytes.len() > self.room {
            return Err(io::Error::from(io::ErrorKind::StorageFull));
        }
        self.room -= bytes.len();
        Ok(bytes.len())
    }

    fn flush(&mut self) -> io::Result<()> {
        Ok(())
    }
}

/// Takes everything, and can't write it out.
#[derive(Drop)]
struct Unflushed;

impl Write for Unflushed {
    fn write(&mut self, bytes: &[u8]) -> io::Result<usize> {
        Ok(bytes.len())
    }

    fn flush(&mut self) -> io::Result<()> {
        Err(io::Error::from(io::ErrorKind::BrokenPipe))
    }
}

/// Fails at each read.
#[derive(Drop)]
struct Broken;

impl Read for Broken {
    fn read(&mut self, _bytes: &mut [u8]) -> io::Result<usize> {
        Err(io::Error::from(io::ErrorKind::ConnectionReset))
    }
}

/// The most that standard input may have is read, one byte more is refused, and nothing is run.
fn limits_input<
    R: Abort
        + AllocGlobal
        + Files<File = File>
        + Net<Listener = TcpListener, Stream = TcpStream>
        + Threads
        + Wait
        + Sync
        + Clock
        + RandomSource
        + Clone
        + Send
        + Drop
        + 'static,
>(rt: &R) -> Option<()> {
    let world = WORLD.as_bytes();
    let fed = "feed 16 16\n".as_bytes();
    let rest = 16_777_216 - 64;
    assert!(rt; world.len() + fed.len() == 63);
    let comment = io::repeat(b'#').take(rest);
    let longest = world.chain(fed).chain(b"\n".as_slice()).chain(comment);
    let output = ran(rt, &["als", "sim"], longest, 0, b"")?;
    assert!(rt; output.as_slice() == b"ok taken=0 records=0 end=16\n".as_slice());
    let comment = io::repeat(b'#').take(rest + 1);
    let longer = world.chain(fed).chain(b"\n".as_slice()).chain(comment);
    assert!(rt; ran(rt, &["als", "sim"], longer, 3, REFUSED)?.is_empty());
    let longer = io::repeat(b'\n').take(16_777_217);
    assert!(rt; ran(rt, &["als", "make"], longer, 3, REFUSED)?.is_empty());
    Some(())
}

#[test]
fn input_has_a_limit(rt: HostRuntime) {
    assert!(rt; limits_input(&rt).is_some() || limits_input(&rt).is_some());
}

/// A reader that fails, at once or behind a whole script, ends the program before anything is run.
fn readers_fail<
    R: Abort
        + AllocGlobal
        + Files<File = File>
        + Net<Listener = TcpListener, Stream = TcpStream>
        + Threads
        + Wait
        + Sync
        + Clock
        + RandomSource
        + Clone
        + Send
        + Drop
        + 'static,
>(rt: &R) -> Option<()> {
    assert!(rt; ran(rt, &["als", "make"], Broken, 3, REFUSED)?.is_empty());
    let script = "pages 4\n".as_bytes().chain(Broken);
    assert!(rt; ran(rt, &["als", "make"], script, 3, REFUSED)?.is_empty());
    let script = WORLD
        .as_bytes()
        .chain("show status\n".as_bytes())
        .chain(Broken);
    assert!(rt; ran(rt, &["als", "sim"], script, 3, REFUSED)?.is_empty());
    Some(())
}

#[test]
fn readers_may_fail(rt: HostRuntime) {
    assert!(rt; readers_fail(&rt).is_some() || readers_fail(&rt).is_some());
}

/// What is wrong with standard input is said where that is asked for.
fn tells_of_input<
    R: Abort
        + AllocGlobal
        + Files<File = File>
        + Net<Listener = TcpListener, Stream = TcpStream>
        + Threads
        + Wait
        + Sync
        + Clock
        + RandomSource
        + Clone
        + Send
        + Drop
        + 'static,
>(rt: &R) -> Option<()> {
    let longer = io::repeat(b'\n').take(16_777_217);
    let told = b"als: refused 44 Stream
als: standard input has more than 16,777,216 bytes; nothing of it was run
"
        .as_slice();
    assert!(rt; ran(rt, &["als", "sim", "--explain"], longer, 3, told)?.is_empty());
    let told = b"als: refused 44 Stream
als: standard input could not be read to its end; nothing of it was run
"
        .as_slice();
    assert!(rt; ran(rt, &["als", "make", "--explain"], Broken, 3, told)?.is_empty());
    Some(())
}

#[test]
fn input_that_is_not_taken_is_told(rt: HostRuntime) {
    assert!(rt; tells_of_input(&rt).is_some() || tells_of_input(&rt).is_some());
}

/// The answer of a program whose stream fails.
fn refuses(status: u8, errors: &[u8]) -> Option<()> {
    if status != 3 || errors != REFUSED {
        return None;
    }
    Some(())
}

/// A writer that fails is told, also where the buffer is written out behind a bad line.
fn writers_fail<
    R: Abort
        + AllocGlobal
        + Files<File = File>
        + Net<Listener = TcpListener, Stream = TcpStream>
        + Threads
        + Wait
        + Sync
        + Clock
        + RandomSource
        + Clone
        + Send
        + Drop
        + 'static,
>(rt: &R) -> Option<()> {
    let words = ["als", "make"];
    for room in [0, 1, 15] {
        let mut errors = Vec::new(rt.alloc());
        let script = "pages 4\n".as_bytes();
        let status = program(rt, &words, script, Full { room }, &mut errors);
        refuses(status, errors.as_slice())?;
    }
    let mut errors = Vec::new(rt.alloc());
    let status = program(rt, &words, "pages 4\n".as_bytes(), Unflushed, &mut errors);
    refuses(status, errors.as_slice())?;
    let mut errors = Vec::new(rt.alloc());
    let script = WORLD.as_bytes().chain("show status
bad
"
        .as_bytes());
    let status = program(rt, &["als", "sim"], script, Full { room: 10 }, &mut errors);
    refuses(status, errors.as_slice())?;
    // Help, and a standard error that fails too.
    let status = program(
        rt,
        &["als", "--help"],
        io::empty(),
        Full { room: 10 },
        Full { room: 0 },
    );
    refuses(status, REFUSED)
}

#[test]
fn writers_may_fail(rt: HostRuntime) {
    assert!(rt; writers_fail(&rt).is_some() || writers_fail(&rt).is_some());
}

/// What a run writes, where it ends with this status and this on standard error.
fn ran<
    R: AllocGlobal
        + Files<File = File>
        + Net<Listener = TcpListener, Stream = TcpStream>
        + Threads
        + Wait
        + Sync
        + Clock
        + RandomSource
        + Clone
        + Send
        + Drop
        + 'static,
    I: Read + Drop,
>(rt: &R, words: &[&str], input: I, status: u8, errors: &[u8]) -> Option<Vec<u8>> {
    let mut output = Vec::new(rt.alloc());
    let mut told = Vec::new(rt.alloc());
    let ended = program(rt, words, input, &mut output, &mut told);
    if ended != status || told.as_slice() != errors {
        return None;
    }
    Some(output)
}
