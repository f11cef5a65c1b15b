ghost use Rattle.std.specs.Prelude.{◌≤◌};

use crate::common::Common;
use crate::notice::{Notice, What};
use crate::seated::Seated;
use crate::serves::Serves;
use als_callers::{Came, Guest, Pace};
use als_compare::{ID_TAG, read_byte, read_id};
use als_quorum::FolderId;
use als_ship::Fault;
use std::alloc::Global;
use std::io::{Read, Write};
use std::net::OpenStream;
use std::sync::Wait;
use std::time::{Clock, Duration};
use std::{io, thread};

/// Milliseconds after which a read or a write of a silent peer looks whether its time is over.
const TICK: u64 = 200;

/// How often it is looked whether the session before has ended, whose follower has the id of another one.
const LOOKS: u32 = 20;

/// Milliseconds between two of these looks.
const PAUSE: u64 = 50;

/// How sessions go on.
#[derive(Clone, Copy, Debug)]
pub struct Terms {
    /// Frames that may be without an answer: 1 to 64.
    window: u32,
    /// How long a frame may take. None: as long as it likes.
    limit: Option<Duration>,
    ghost some: { 1 ≤ window },
    ghost few: { window ≤ 64 },
}

impl Terms {
    /// A window of this number of frames, each of which may take so long. A window out of its range is the
    /// next one in it.
    pub fn new(window: u32, limit: Option<Duration>) -> Terms {
        Terms {
            window: window.clamp(1, 64),
            limit,
        }
    }
}

/// What became of a session that did not fail.
#[derive(Clone, Copy)]
enum Sent {
    /// It was served as far as it asked.
    Served,
    /// The follower of another session has the id of its folder.
    Twin,
}

/// Serves one who came: the log from where it goes on, until it ends or the session does.
pub(crate) fn serve<R: Wait + Clock, O: Serves, S: Read + Write + OpenStream + Drop>(
    rt: &R,
    alloc: Global,
    common: &Common<O>,
    came: Came<S>,
) {
    let Came { stream, peer, at } = came;
    let (tail, quorum) = (&common.tail, &common.quorum);
    let Ok(mut seated) = Seated::new(rt, alloc, tail, quorum, &common.notices, peer) else {
        return;
    };
    let pace = Pace::new(&common.closing, common.terms.limit, at);
    let served = send(rt, alloc, common, &mut seated, stream, &pace);
    let has_begun = seated.has_begun();
    seated.leave();
    let what = match served {
        Ok(Sent::Twin) => What::Twin,
        Ok(Sent::Served) if has_begun => What::Ended,
        Err(fault) if has_begun => What::Went(fault),
        Err(fault) if is_refusal(fault) => What::Refused(fault),
        // Whoever did not ask for the log is no follower, as one who only asked what log it is.
        Ok(Sent::Served) | Err(_) => return,
    };
    common.notices.put(rt, Notice { peer, what });
}

/// Whether a session ended by what it was asked, and not because its peer or its stream went.
fn is_refusal(fault: Fault) -> bool {
    !matches!(fault, Fault::Cut | Fault::Stream | Fault::Memory)
}

/// Sends the log over a stream. A follower may say the id of its folder first: then it takes its seat under
/// that, and where the follower of another session has the id nothing is sent.
fn send<'a, R: Wait + Clock, O: Serves, S: Read + Write + OpenStream + Drop>(
    rt: &'a R,
    alloc: Global,
    common: &Common<O>,
    seated: &mut Seated<'_, R>,
    stream: S,
    pace: &'a Pace<'a>,
) -> Result<Sent, Fault> {
    bound(&stream)?;
    let mut reader = Guest::new(stream.try_clone()?, rt, pace);
    let mut writer = Guest::new(stream, rt, pace);
    let first = [read_byte(&mut reader)?];
    let mut front = first.as_slice();
    if first[0] == ID_TAG {
        let bytes = read_id(&mut reader)?;
        if !claim_at_last(rt, common, seated, FolderId { bytes }) {
            return Ok(Sent::Twin);
        }
        front = &[];
    }
    let mut asked = front.chain(&mut reader);
    let window = common.terms.window;
    common
        .source
        .serve(alloc, seated, window, &mut asked, &mut writer)?;
    Ok(Sent::Served)
}

/// Takes a seat for the follower with the id of this folder. One that was begun again may come before the session ended
/// that it had, which sleeps while the log does not grow: each session gives a sign, and a moment is waited for that one to
/// end. Returns whether there is a seat.
fn claim_at_last<R: Wait + Clock, O: Serves>(
    rt: &R,
    common: &Common<O>,
    seated: &mut Seated<'_, R>,
    id: FolderId,
) -> bool {
    if seated.claim(id) {
        return true;
    }
    common.source.knock();
    for _ in 0..LOOKS {
        thread::sleep(rt, Duration::from_millis(PAUSE));
        if seated.claim(id) {
            return true;
        }
    }
    false
}

/// From now on a read or a write of the stream waits for a moment.
fn bound<S: OpenStream>(stream: &S) -> io::Result<()> {
    let tick = Some(Duration::from_millis(TICK));
    stream.set_nonblocking(false)?;
    stream.set_read_timeout(tick)?;
    stream.set_write_timeout(tick)?;
    stream.set_nodelay(true)
}
