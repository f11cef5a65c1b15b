ghost use Rattle.std.specs.Prelude.{◌≡◌, ◌≤◌, ◌<◌, ◌⊎◌, ℕ, OnOk, IfErr, Err, false};
ghost use Rattle.std.specs.Io.KnownBytes.{Appends};
ghost use Rattle.als_engine.specs.declared.fault.Fault.TheVariants.{BadConfig};
ghost use Rattle.als_operate.specs.declared.fault.Fault.TheVariants.{Refused};
ghost use Rattle.als_shipper.specs.Faults.{IsOfShipping};
ghost use Rattle.als_shipper.specs.Lines.{sent_line};

use crate::crowd::{Shared, serve_crowd};
use crate::growing_log::{GrowingLog, beat_for, open_log};
use crate::hold::Hold;
use crate::log_file::{LogFile, NamedFile};
use crate::naming::{ByPath, Naming};
use crate::node_folder::{FolderOpener, NodeFolder};
use crate::stop::Stop;
use crate::strayed::Strayed;
use als_engine::Fault as EngineFault;
use als_followers::Terms;
use als_operate::{Fault, silence};
use als_sending::WINDOW_LIMIT;
use als_ship::Fault as SessionFault;
use als_shipper::{Callers, LogQuestions, Meetings, NodeShipping, Shipping, serve_growing};
use std::alloc::{AllocError, Global};
use std::fs::{File, OpenFile};
use std::io::Write;
use std::net::{IpAddr, Net, TcpListener, TcpStream};
use std::rt::Files;
use std::sync::{Arc, Wait};
use std::thread::Threads;
use std::time::Clock;

/// How a shipper goes on.
#[derive(Clone, Copy, Debug)]
pub struct Lasting {
    /// It serves up to eight followers at once, for ever.
    pub keep: bool,
    /// A session waits at the end of the file for it to grow.
    pub grows: bool,
    /// How many frames of a session may be without an answer: 1 to 64.
    pub window: u32,
}

/// Receives the sessions of a shipper that goes on, one call at a time.
pub trait Sessions: Meetings {
    /// A session ended early. The shipper goes on.
    fn ended(&mut self, fault: SessionFault);

    /// The file of the log is no longer the one that it was.
    fn strayed(&mut self, why: Strayed);

    /// The folder of the node gave no log to a follower that asked. The shipper goes on.
    fn closed(&mut self, fault: Fault);

    /// A follower at this address was hung up on: eight are served.
    fn crowded(&mut self, peer: IpAddr);
}

/// Serves the log text of a file to those who come to the address and ask for it, in pieces as the file
/// has them then. After each session that came to the end it prints `sent=N`.
///
/// It serves the first who asks, and what ends that session ends the shipper. Or it is kept: then up to
/// eight are served at once, each in a thread of its own, and a session that ends early ends alone. What is
/// printed of sessions is printed a line at a time, in the order in which they ended. A file that strayed
/// ends the shipper all the same: what it holds then is no log that goes on.
///
/// Session: as `ship` says, and Stream where the file strayed. Stream: the file, the address, a thread or
/// the output failed. Memory: allocation failed. Refused BadConfig: the window is not 1 to 64; no file was
/// touched.
pub fn ship_on<
    R: AllocGlobal
        + Files<File = File>
        + Net<Listener = TcpListener, Stream = TcpStream>
        + Threads
        + Wait
        + Sync
        + Clock
        + Clone
        + Send
        + Drop
        + 'static,
    M: Sessions,
    O: Write,
>(
    rt: &R,
    shipping: Shipping<'_>,
    lasting: Lasting,
    meetings: &mut M,
    output: &mut O,
) -> Result<(), Fault>
    // A window out of its range is refused.
    ensures refused { (lasting.window ≡ 0) ⊎ (64 < lasting.window)
        → result ≡ Err (Refused BadConfig) }
    // Nothing else is refused so.
    ensures fails { IfErr result (λ f. f ≡ Refused BadConfig
        → (lasting.window ≡ 0) ⊎ (64 < lasting.window)) }
    // One line is printed of the one session of a shipper that is not kept.
    ensures told { OnOk result ((n : ℕ) × Appends (O.contents output.old) (O.contents output.new)
        (sent_line n)) }
    // One that is kept goes on until it fails.
    ensures kept { OnOk result (lasting.keep ≡ false) }
{
    if lasting.window == 0 || lasting.window > WINDOW_LIMIT {
        return Err(Fault::Refused(EngineFault::BadConfig));
    }
    if lasting.keep {
        keep_shipping(rt, shipping, lasting, meetings, output)
    } else {
        ship_once(rt, shipping, lasting, meetings, output)
    }
}

/// For how long a session waits at the end of its file before it gives a sign. None: it does not wait.
fn beat_of(shipping: Shipping<'_>, lasting: Lasting) -> Option<u64> {
    if lasting.grows {
        Some(beat_for(shipping.timeout))
    } else {
        None
    }
}

/// Serves the first who asks.
#[tactic(auto, using(crate::proofs::Lines::told_line))]
fn ship_once<R: AllocGlobal + Files<File = File> + Net + Clock, M: Sessions, O: Write>(
    rt: &R,
    shipping: Shipping<'_>,
    lasting: Lasting,
    meetings: &mut M,
    output: &mut O,
) -> Result<(), Fault>
    requires some { 1 ≤ lasting.window }
    requires few { lasting.window ≤ 64 }
    ensures told { OnOk result ((n : ℕ) × Appends (O.contents output.old) (O.contents output.new)
        (sent_line n)) }
    ensures fails { IfErr result IsOfShipping }
{
    let stop = Stop::new();
    let opened = open_log(rt, shipping.log)?;
    let beat = beat_of(shipping, lasting);
    let path = ByPath {
        rt,
        path: shipping.log,
    };
    let mut log = GrowingLog::new(rt, path, opened, beat, &stop);
    let path = ByPath {
        rt,
        path: shipping.log,
    };
    let beside = GrowingLog::new(rt, path, open_log(rt, shipping.log)?, None, &stop);
    let questions = LogQuestions::new(rt.alloc(), beside);
    let listener = TcpListener::bind(rt, shipping.listen)?;
    let limit = silence(shipping.timeout);
    let mut callers = Callers::answering(rt.alloc(), &listener, rt, limit, questions);
    for _ in 0..u64::MAX {
        let alloc = rt.alloc();
        let met = serve_growing(
            alloc,
            &mut log,
            lasting.window,
            &mut callers,
            meetings,
            output,
        );
        check_file(&mut log, meetings)?;
        if met? {
            return Ok(());
        }
    }
    Err(Fault::Stream)
}

/// Tells whether the file strayed. Session Stream: it holds no log any more that goes on.
fn check_file<C, N: Naming, M: Sessions>(
    log: &mut GrowingLog<'_, C, N>,
    meetings: &mut M,
) -> Result<(), Fault>
    ensures { IfErr result IsOfShipping }
{
    if let Some(why) = log.told_once() {
        meetings.strayed(why);
        if !why.is_served() {
            return Err(Fault::Session(SessionFault::Stream));
        }
    }
    Ok(())
}

/// Serves up to eight at once, until the file strayed or the output failed.
fn keep_shipping<
    R: AllocGlobal
        + Files<File = File>
        + Net<Listener = TcpListener, Stream = TcpStream>
        + Threads
        + Wait
        + Sync
        + Clock
        + Clone
        + Send
        + Drop
        + 'static,
    M: Sessions,
    O: Write,
>(
    rt: &R,
    shipping: Shipping<'_>,
    lasting: Lasting,
    meetings: &mut M,
    output: &mut O,
) -> Result<(), Fault>
    ensures fails { IfErr result IsOfShipping }
    ensures never { OnOk result ⊥ }
{
    let alloc = rt.alloc();
    let shared = Shared::new(alloc)?;
    let stop = Arc::try_clone(&shared.stop)?;
    let outbox = Arc::try_clone(&shared.outbox)?;
    let beat = beat_of(shipping, lasting);
    let opened = open_log(rt, shipping.log)?;
    let mut named = NamedFile {
        file: opened.file.try_clone()?,
        path: ByPath {
            rt,
            path: shipping.log,
        },
    };
    let log = LogFile::new(rt.clone()?, opened, beat, stop, outbox);
    let listener = TcpListener::bind(rt, shipping.listen)?;
    let terms = Terms::new(lasting.window, silence(shipping.timeout));
    Err(serve_crowd(
        rt, listener, log, &mut named, shared, terms, meetings, output,
    ))
}

/// Serves the log of a folder's node to those who come to the address and ask for it, up to eight at once,
/// each in a thread of its own. The folder is held from the question of the first of them until none goes on,
/// and is free between. So its log ends where it was acknowledged then. After each session that came to the
/// end it prints `sent=N`, as `ship_on` does. What ends a session ends that one alone, and so does a folder
/// that another program has. So many frames of a session may be without an answer: 1 to 64.
///
/// Stream: the address, a thread or the output failed. Memory: allocation failed. Refused BadConfig: the
/// window is not 1 to 64; no file was touched.
pub fn ship_node_on<
    R: AllocGlobal
        + Files<File = File>
        + Net<Listener = TcpListener, Stream = TcpStream>
        + Threads
        + Wait
        + Sync
        + Clock
        + Clone
        + Send
        + Drop
        + 'static,
    M: Sessions,
    O: Write,
>(
    rt: &R,
    shipping: NodeShipping<'_>,
    window: u32,
    meetings: &mut M,
    output: &mut O,
) -> Result<(), Fault>
    // A window out of its range is refused.
    ensures refused { (window ≡ 0) ⊎ (64 < window) → result ≡ Err (Refused BadConfig) }
    // Nothing else is refused: else a session, a stream or an allocation failed.
    ensures fails { IfErr result (λ f. IsOfShipping f
        ⊎ ((f ≡ Refused BadConfig) × ((window ≡ 0) ⊎ (64 < window)))) }
    // It goes on until it fails.
    ensures never { OnOk result ⊥ }
{
    if window == 0 || window > WINDOW_LIMIT {
        return Err(Fault::Refused(EngineFault::BadConfig));
    }
    keep_shipping_node(rt, shipping, window, meetings, output)
}

/// Serves up to eight at once, until the output failed.
fn keep_shipping_node<
    R: AllocGlobal
        + Files<File = File>
        + Net<Listener = TcpListener, Stream = TcpStream>
        + Threads
        + Wait
        + Sync
        + Clock
        + Clone
        + Send
        + Drop
        + 'static,
    M: Sessions,
    O: Write,
>(
    rt: &R,
    shipping: NodeShipping<'_>,
    window: u32,
    meetings: &mut M,
    output: &mut O,
) -> Result<(), Fault>
    ensures fails { IfErr result IsOfShipping }
    ensures never { OnOk result ⊥ }
{
    let alloc = rt.alloc();
    let shared = Shared::new(alloc)?;
    let outbox = Arc::try_clone(&shared.outbox)?;
    let hold = new_hold(alloc)?;
    let mut opener = FolderOpener {
        rt,
        dir: shipping.dir,
        timeout: shipping.timeout,
        hold: Arc::try_clone(&hold)?,
    };
    let node = NodeFolder::new(rt.clone()?, hold, outbox);
    let listener = TcpListener::bind(rt, shipping.listen)?;
    let terms = Terms::new(window, silence(shipping.timeout));
    Err(serve_crowd(
        rt,
        listener,
        node,
        &mut opener,
        shared,
        terms,
        meetings,
        output,
    ))
}

/// A folder that nobody holds.
fn new_hold<R: Drop>(alloc: Global) -> Result<Arc<Hold<R>, Global>, AllocError> {
    Ok(Arc::new(alloc, Hold::new())?)
}
