use crate::folder::Folder;
use crate::following::{TEXT, refuses};
use std::fs::File;
use std::io::{Read, Write};
use std::net::{Ipv4Addr, Net, SocketAddr, TcpListener, TcpStream};
use std::random::RandomSource;
use std::rt::Files;
use std::sync::Wait;
use std::thread::Threads;
use std::time::Clock;
use std::{fs, thread};

/// The files of a standby's folder.
const FILES: [&str; 3] = ["other/log.blk", "other/control.blk", "other/pages.blk"];

/// The bytes of the question which log a primary has, and of the one for its rank.
const QUESTION: usize = 45;

const RANK_QUESTION: usize = 1;

/// The rank of a primary without a takeover, whose log ends at 50.
const RANK: [u8; 17] = *b"R\0\0\0\0\0\0\0\0\0\0\0\0\0\0\0\x32";

/// The bytes of a request for the log, of a node without a takeover.
const REQUEST: usize = 29;

/// The history of one takeover, which was sealed where the log ends.
const HISTORY: [u8; 13] = [b'E', 0, 0, 0, 1, 0, 0, 0, 0, 0, 0, 0, 108];

/// The role of a primary.
const ROLE: &str = "other/role";

/// The answer that it is another one.
const OTHER: [u8; 2] = [b'V', 1];

/// The answer that it has less of one.
const SHORTER: [u8; 2] = [b'V', 2];

/// The answer that its history parts from the own one.
const PARTED: [u8; 2] = [b'V', 3];

/// What is printed of a shorter one.
const GAP: &str = "als: refused 40 Gap\n";

/// What is printed of another one without a hint.
const REFUSED: &str = "als: refused 50 OtherLog\n";

/// What is printed of another one.
const TOLD: &str = "als: refused 50 OtherLog
als: other: the node that serves has another log: both have bytes at one offset, and they differ. One of the two lost what it had not forced, or was restored from a copy. Nothing of this folder's log has changed: keep it. Find the log that is right, by sha256= of als verify of both; then follow that one with an empty folder, or with this one once als rewind took it back to where both are the same; or take over from this one
";

/// Tells its history to one who asks for the log. Returns whether the request came.
fn greets(listener: &TcpListener) -> bool {
    let Ok((mut stream, _)) = listener.accept() else {
        return false;
    };
    let mut request = [0; REQUEST];
    stream.read_exact(&mut request).is_ok()
        && request[0] == b'Q'
        && stream.write_all(&HISTORY).is_ok()
}

/// Answers one who asks a question of so many bytes, of which the answer has the first. Returns whether it came.
fn answers_one(listener: &TcpListener, len: usize, answer: &[u8]) -> bool {
    let Ok((mut stream, _)) = listener.accept() else {
        return false;
    };
    let mut question = [0; QUESTION];
    let Some(asked) = question.get_mut(..len) else {
        return false;
    };
    stream.read_exact(asked).is_ok()
        && answer.first().copied() == Some(question[0])
        && stream.write_all(answer).is_ok()
}

/// Answers one who asks which log it has, and then, where it is to be asked about the beginning, that too. Returns
/// whether the questions came.
fn answers(listener: TcpListener, answer: [u8; 2], begun: Option<[u8; 2]>) -> bool {
    if !answers_one(&listener, QUESTION, &answer) {
        return false;
    }
    match begun {
        Some(begun) => {
            answers_one(&listener, RANK_QUESTION, &RANK) && answers_one(&listener, QUESTION, &begun)
        }
        None => true,
    }
}

/// Whether a standby with these words that comes there is refused, and prints this.
fn is_refused<
    R: AllocGlobal
        + Files<File = File>
        + Net<Listener = TcpListener, Stream = TcpStream>
        + Threads
        + Wait
        + Sync
        + Clock
        + RandomSource
        + Clone
        + Send
        + Drop
        + 'static,
>(rt: &R, addr: &str, more: [&str; 2], printed: &str) -> bool {
    let [first, second] = more;
    let words = [
        "als", "standby", "--dir", "other", "--from", addr, "--pages", "4", first, second,
    ];
    refuses(rt, &words, "", printed)
}

/// A folder that holds that log to its end. Whether it could be written.
fn lays_out<R: AllocGlobal + Files<File = File>>(rt: &R) -> bool {
    match Folder::of(rt.alloc(), &TEXT) {
        Some(folder) => fs::create_dir(rt, "other").is_ok() && folder.write(rt, FILES).is_some(),
        None => false,
    }
}

/// Whether its log is as it was.
fn holds<R: AllocGlobal + Files<File = File>>(rt: &R) -> bool {
    match (Folder::of(rt.alloc(), &TEXT), fs::read(rt, FILES[0])) {
        (Some(folder), Ok(log)) => log.as_slice() == folder.log.as_slice(),
        _ => false,
    }
}

/// A primary that has another log ends a standby that is kept, and it is said what to do. One that has less
/// of one gets no session. That the log begins otherwise is said before either, and before that it parted. One session
/// without a worker asks too. One that was a primary's asks before its folder is opened, and keeps its role. The log
/// stays as it was.
#[test]
fn another_log_is_told(rt: HostRuntime) {
    let rt = &rt;
    assert!(rt; lays_out(rt));
    let rounds = [
        (false, OTHER, None, ["--keep", "--explain"], TOLD),
        (false, SHORTER, None, ["--serve", "127.0.0.1:0"], GAP),
        (
            false,
            SHORTER,
            Some(OTHER),
            ["--serve", "127.0.0.1:0"],
            REFUSED,
        ),
        (false, PARTED, Some(OTHER), ["--keep", "--explain"], TOLD),
        (false, OTHER, None, ["--workers", "0"], REFUSED),
        (true, OTHER, None, ["--workers", "0"], REFUSED),
        (true, OTHER, None, ["--keep", "--explain"], TOLD),
    ];
    for (is_primary, answer, begun, more, printed) in rounds {
        if is_primary {
            assert!(rt; fs::write(rt, ROLE, "primary epoch=0\n").is_ok());
        }
        let is_greeted = is_primary && more[0] == "--keep";
        let listener = TcpListener::bind(rt, SocketAddr::from((Ipv4Addr::LOCALHOST, 0)));
        let listener = listener.expect(rt, "a port");
        let addr = listener.local_addr().expect(rt, "an address");
        let addr = format!(in rt.alloc(); "{addr}").expect(rt, "its text");
        let addr = addr.as_str();
        let (asked, told) = thread::join(
            rt,
            move || (!is_greeted || greets(&listener)) && answers(listener, answer, begun),
            move || is_refused(rt, addr, more, printed),
        );
        assert!(rt; asked && told);
        assert!(rt; holds(rt));
        assert!(rt; fs::metadata(rt, ROLE).is_ok() == is_primary);
    }
    assert!(rt; fs::remove_dir_all(rt, "other").is_ok());
}
