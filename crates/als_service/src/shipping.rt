use crate::cascade::Cascade;
use crate::onlookers::Onlookers;
use crate::sent_to::SentTo;
use crate::service::Service;
use als_cascade::StandbySource;
use als_engine::Fault as EngineFault;
use als_folder::{Fault as FolderFault, Part};
use als_followers::{Allowed, Block, Followers, Quorum, Terms};
use als_http::listen;
use als_operate::{Fault, silence};
use als_quorum::SEATS;
use als_report::{Board, Watch};
use als_sending::WINDOW_LIMIT;
use std::alloc::{AllocError, Global};
use std::fs::File;
use std::io::ErrorKind;
use std::net::{Net, TcpListener, TcpStream};
use std::path::PathBuf;
use std::rt::Files;
use std::sync::{Arc, Wait};
use std::thread::{JoinHandle, Threads};
use std::time::Clock;
use std::{io, thread};

/// Where followers connect, and who may.
#[derive(Drop)]
pub(crate) struct Shipping {
    listener: TcpListener,
    allowed: Allowed,
}

/// Where followers connect, and who may. None: nobody may follow.
///
/// BadConfig: the window is out of its range, one who may follow is no address and no block, or somebody may
/// and there is no address to connect to. Stream: that can't be listened at.
pub(crate) fn shipping_of<R: AllocGlobal + Net<Listener = TcpListener, Stream = TcpStream>>(
    rt: &R,
    service: Service<'_>,
) -> Result<Option<Shipping>, Fault> {
    let alloc = rt.alloc();
    let allowed = allowed_of(alloc, service.followers)?;
    let is_alone = service.listen.is_none() && !service.followers.is_empty();
    if is_alone || !(1..=WINDOW_LIMIT).contains(&service.window) {
        return Err(Fault::Refused(EngineFault::BadConfig));
    }
    let Some(addr) = service.listen else {
        return Ok(None);
    };
    let listener = listen(rt, alloc, addr)?;
    Ok(Some(Shipping { listener, allowed }))
}

/// Who may follow. BadConfig: one of them is no address and no block.
fn allowed_of(alloc: Global, texts: &[&str]) -> Result<Allowed, Fault> {
    let mut allowed = Allowed::new(alloc);
    for text in texts {
        let Some(block) = Block::parse(text) else {
            return Err(Fault::Refused(EngineFault::BadConfig));
        };
        allowed.add(block)?;
    }
    Ok(allowed)
}

/// The log of a folder, to be read.
///
/// Folder: it is not there any more. Stream: it can't be opened. Memory: there was none for its name.
pub(crate) fn log_file<R: AllocGlobal + Files<File = File>>(
    rt: &R,
    dir: &str,
) -> Result<File, Fault> {
    let alloc = rt.alloc();
    let folder = PathBuf::from_str(alloc, dir)?;
    let path = folder.join(alloc, "log.blk")?;
    match File::open(rt, path.as_path()) {
        Ok(file) => Ok(file),
        Err(e) if e.kind() == ErrorKind::NotFound => {
            Err(Fault::Folder(FolderFault::of(Part::Log, e)))
        }
        Err(e) => Err(e.into()),
    }
}

/// A seat for each follower that may come.
fn new_quorum(alloc: Global, allowed: Allowed) -> Result<Arc<Quorum, Global>, AllocError> {
    Ok(Arc::new(alloc, Quorum::new(alloc, SEATS, allowed)?)?)
}

/// By which the sessions of a standby's own followers beat.
fn pulse_of<R: Clock + Clone + Drop>(
    rt: &R,
    alloc: Global,
    board: &Arc<Board, Global>,
) -> Result<Arc<SentTo<R>, Global>, AllocError> {
    let watch = Watch::new(Arc::try_clone(board)?, rt.clone()?);
    Ok(Arc::new(alloc, SentTo::new(watch))?)
}

/// The sessions of a standby's own followers, and the thread that writes on its board who follows.
pub(crate) struct Cascading<R: Clock> {
    followers: Followers<StandbySource<R, SentTo<R>>>,
    onlookers: JoinHandle<()>,
}

/// Starts the sessions of a standby's own followers.
pub(crate) fn ship<R: AllocGlobal + Threads + Wait + Clock + Clone + Send + Sync + Drop + 'static>(
    rt: &R,
    shipping: Shipping,
    file: File,
    cascade: &Cascade,
    board: &Arc<Board, Global>,
    timeout: u64,
    window: u32,
) -> Result<Cascading<R>, Fault> {
    let Shipping { listener, allowed } = shipping;
    let alloc = rt.alloc();
    let pulse = pulse_of(rt, alloc, board)?;
    let (tail, era) = (cascade.tail()?, cascade.era()?);
    let source = StandbySource::new(rt.clone()?, file, tail, era, pulse, timeout);
    let terms = Terms::new(window, silence(timeout));
    let quorum = new_quorum(alloc, allowed)?;
    let onlookers = Onlookers {
        rt: rt.clone()?,
        board: Arc::try_clone(board)?,
        tail: cascade.tail()?,
        quorum: Arc::try_clone(&quorum)?,
    };
    let tail = cascade.tail()?;
    let followers = Followers::start(rt, alloc, listener, source, tail, quorum, terms)?;
    match watch(rt, onlookers) {
        Ok(onlookers) => Ok(Cascading {
            followers,
            onlookers,
        }),
        Err(e) => {
            followers.close(rt);
            Err(Fault::from(e))
        }
    }
}

/// Starts the thread that writes who follows.
fn watch<R: Threads + Wait + Clock + Send + Drop + 'static>(
    rt: &R,
    onlookers: Onlookers<R>,
) -> io::Result<JoinHandle<()>> {
    let mut onlookers = onlookers;
    match thread::spawn(rt, move || onlookers.run()) {
        Ok(handle) => Ok(handle),
        Err(_) => Err(io::ErrorKind::Other.into()),
    }
}

/// Ends the sessions, if there are any.
pub(crate) fn end_sessions<R: Threads + Wait + Clock + Drop>(
    rt: &R,
    cascading: Option<Cascading<R>>,
) {
    if let Some(
        Cascading {
            followers,
            onlookers,
        },
    ) = cascading
    {
        // Their tail closes: nobody looks on any more.
        followers.close(rt);
        onlookers.join(rt);
    }
}
