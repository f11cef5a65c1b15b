ghost use Rattle.std.specs.Prelude.{[]};
ghost use Rattle.als_sending.specs.Accounts.{reads_of};

use crate::made::{SENT, TEXT, TOLD, listen};
use als_compare::{Summing, write_id, write_question};
use als_epochs::History;
use als_operate::Fault;
use als_record::LogHeader;
use als_sending::{Account, Growing, Grown};
use als_ship::Fault as SessionFault;
use als_shipper::{Callers, LogQuestions, Untold, serve_growing};
use std::alloc::Global;
use std::io::{Read, Write};
use std::net::{Net, Shutdown, SocketAddr, TcpListener, TcpStream};
use std::test::Fail;
use std::time::{Clock, Duration};
use std::{io, thread};

/// The text of the log of four pages, of which so many bytes may be read at first. It ends at its end.
struct Text {
    until: u64,
    shown: u64,
    account: Account,
}

impl Drop for Text {
    fn drop(self) {
        let Text {
            until: _,
            shown: _,
            account,
        } = self;
        drop(account);
    }
}

impl Growing for Text {
    ghost reads = { λ text. reads_of text.account };

    ghost seals = { λ _. [] };

    ghost pages = { λ _. 4 };

    ghost shown = { λ text. text.shown };

    fn header(&self) -> LogHeader {
        LogHeader { pages: 4 }
    }

    fn history(&self) -> History {
        History::empty()
    }

    fn end(&mut self) -> Result<u64, SessionFault> {
        self.shown = self.shown.max(self.until);
        Ok(self.shown)
    }

    fn wait_past(&mut self, at: u64) -> Result<Grown, SessionFault> {
        self.until = TEXT.len() as u64;
        Ok(if self.until > at {
            Grown::Past
        } else {
            Grown::Ends
        })
    }

    fn read_at(&mut self, at: u64, buf: &mut [u8]) -> Result<(), SessionFault> {
        let from = at as usize;
        let Some(bytes) = TEXT.get(from..from.saturating_add(buf.len())) else {
            return Err(SessionFault::Stream);
        };
        if bytes.len() != buf.len() {
            return Err(SessionFault::Stream);
        }
        buf.copy_from_slice(bytes);
        self.account.read(at, buf);
        Ok(())
    }
}

/// What is told over a connection, and what is answered until it ends, in order or not.
fn asks<R: Net<Stream = TcpStream>>(
    rt: &R,
    alloc: Global,
    addr: SocketAddr,
    told: &[u8],
) -> io::Result<Vec<u8>> {
    let mut stream = TcpStream::connect(rt, addr)?;
    stream.write_all(told)?;
    // A source that hangs up over what it did not read has ended the connection by then: nothing is left to shut down.
    let _ = stream.shutdown(Shutdown::Write);
    let mut sent = Vec::new(alloc);
    // What was not read of a question makes the end of its connection an error.
    let _ = stream.take(1_000).read_to_end(&mut sent);
    Ok(sent)
}

/// One who asks for nothing, one who asks for a log of other pages, and a follower: how many bytes the first
/// two got, and whether those of the follower are right.
fn ask_all<R: Net<Stream = TcpStream>>(
    rt: &R,
    alloc: Global,
    addr: SocketAddr,
) -> (usize, usize, bool) {
    let nothing = asks(
        rt,
        alloc,
        addr,
        b"GET / HTTP/1.1\r\nHost: localhost\r\n\r\n",
    );
    let mut other = TOLD;
    other[20] = 5;
    let refused = asks(rt, alloc, addr, &other[..29]);
    let all = asks(rt, alloc, addr, &TOLD);
    (length_of(&nothing), length_of(&refused), is_sent(&all))
}

/// How many bytes were answered. Where nobody was there, as many as there are never.
fn length_of(answer: &io::Result<Vec<u8>>) -> usize {
    match answer {
        Ok(bytes) => bytes.len(),
        Err(_) => usize::MAX,
    }
}

/// Whether all that a follower of the log is sent was answered.
fn is_sent(answer: &io::Result<Vec<u8>>) -> bool {
    match answer {
        Ok(bytes) => bytes.as_slice() == SENT.as_slice(),
        Err(_) => false,
    }
}

/// What a shipper answers of one who came.
type Served = Result<bool, Fault>;

/// What a shipper answers of three who come, one after another, and what is printed.
fn serve_three<R: Net<Listener = TcpListener, Stream = TcpStream> + Clock>(
    rt: &R,
    alloc: Global,
    listener: &TcpListener,
    printed: &mut Vec<u8>,
) -> (Served, Served, Served) {
    let mut text = Text {
        until: TEXT.len() as u64,
        shown: 0,
        account: Account::Nothing,
    };
    let mut callers = Callers::new(alloc, listener, rt, Some(Duration::from_secs(20)));
    let first = serve_growing(alloc, &mut text, 16, &mut callers, &mut Untold, printed);
    let second = serve_growing(alloc, &mut text, 16, &mut callers, &mut Untold, printed);
    let third = serve_growing(alloc, &mut text, 16, &mut callers, &mut Untold, printed);
    (first, second, third)
}

#[test]
fn a_log_that_grows_is_served(rt: HostRuntime) -> Result<(), Fail> {
    let alloc = rt.alloc();
    let mut printed = Vec::new(alloc);
    let (listener, addr) = listen(&rt)?;
    let (rt, listener, output) = (&rt, &listener, &mut printed);
    let (served, followed) = thread::join(
        rt,
        move || serve_three(rt, alloc, listener, output),
        move || ask_all(rt, alloc, addr),
    );
    let other = Fault::Session(SessionFault::BadHeader);
    assert!(rt; served == (Ok(false), Err(other), Ok(true)));
    assert!(rt; followed == (0, 0, true));
    assert!(rt; printed.as_slice() == b"sent=92\n".as_slice());
    Ok(())
}

/// The text of the log, as it is.
fn whole_text() -> Text {
    Text {
        until: TEXT.len() as u64,
        shown: 0,
        account: Account::Nothing,
    }
}

/// What one asks who holds the log up to there, one of whose last byte is another one, and one who asks for the
/// rank; and a follower that says the id of its folder first: whether each gets its answer.
fn ask_questions<R: Net<Stream = TcpStream>>(
    rt: &R,
    alloc: Global,
    addr: SocketAddr,
) -> io::Result<[bool; 4]> {
    let mut summing = Summing::new();
    summing.add(&TEXT);
    let same = summing.summary(0);
    let mut other = same;
    other.digest[31] ^= 1;
    let mut question = Vec::new(alloc);
    let mut another = Vec::new(alloc);
    if write_question(&mut question, &same).is_err()
        || write_question(&mut another, &other).is_err()
    {
        return Err(io::ErrorKind::OutOfMemory.into());
    }
    let first = asks(rt, alloc, addr, question.as_slice())?;
    let second = asks(rt, alloc, addr, another.as_slice())?;
    let third = asks(rt, alloc, addr, b"R")?;
    let mut named = Vec::new(alloc);
    if write_id(&mut named, &[7; 16]).is_err() {
        return Err(io::ErrorKind::OutOfMemory.into());
    }
    named.extend_from_slice(&TOLD)?;
    let mut rank = [0; 17];
    rank[0] = b'R';
    rank[16] = TEXT.len() as u8;
    Ok([
        first.as_slice() == b"V\0".as_slice(),
        second.as_slice() == b"V\x01".as_slice(),
        third.as_slice() == rank.as_slice(),
        is_sent(&asks(rt, alloc, addr, named.as_slice())),
    ])
}

/// What a shipper answers that is asked questions before its one session.
fn serve_after_questions<R: Net<Listener = TcpListener, Stream = TcpStream> + Clock>(
    rt: &R,
    alloc: Global,
    listener: &TcpListener,
    printed: &mut Vec<u8>,
) -> Served {
    let limit = Some(Duration::from_secs(20));
    let questions = LogQuestions::new(alloc, whole_text());
    let mut callers = Callers::answering(alloc, listener, rt, limit, questions);
    serve_growing(
        alloc,
        &mut whole_text(),
        16,
        &mut callers,
        &mut Untold,
        printed,
    )
}

#[test]
fn questions_are_answered_before_a_session(rt: HostRuntime) -> Result<(), Fail> {
    let alloc = rt.alloc();
    let mut printed = Vec::new(alloc);
    let (listener, addr) = listen(&rt)?;
    let (rt, listener, output) = (&rt, &listener, &mut printed);
    let (served, asked) = thread::join(
        rt,
        move || serve_after_questions(rt, alloc, listener, output),
        move || ask_questions(rt, alloc, addr),
    );
    assert!(rt; served == Ok(true));
    assert!(rt; asked.ok() == Some([true; 4]));
    assert!(rt; printed.as_slice() == b"sent=92\n".as_slice());
    Ok(())
}
