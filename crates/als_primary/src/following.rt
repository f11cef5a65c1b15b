use crate::announcing::Announces;
use crate::others::Others;
use crate::serving::Serving;
use als_engine::{Events, Fault as EngineFault};
use als_folder::Folder;
use als_followers::{Allowed, Block, Followers, NodeSource, Terms};
use als_operate::{Fault, silence};
use std::alloc::Global;
use std::fs::{File, OpenFile};
use std::net::{OpenListener, TcpListener};
use std::rt::Files;
use std::sync::Wait;
use std::thread::Threads;
use std::time::Clock;

/// Where followers connect, and who may and counts.
#[derive(Drop)]
pub(crate) struct Shipping {
    /// None: nobody may connect.
    pub listener: Option<TcpListener>,
    pub allowed: Allowed,
}

/// Refuses texts of which one is neither an address nor a block: BadConfig.
pub fn check_followers(alloc: Global, texts: &[&str]) -> Result<(), Fault> {
    let allowed = allowed_of(alloc, texts)?;
    drop(allowed);
    Ok(())
}

/// Who may follow. BadConfig: a text is neither an address nor a block.
pub(crate) fn allowed_of(alloc: Global, texts: &[&str]) -> Result<Allowed, Fault> {
    let mut allowed = Allowed::new(alloc);
    for text in texts {
        let Some(block) = Block::parse(text) else {
            return Err(Fault::Refused(EngineFault::BadConfig));
        };
        allowed.add(block)?;
    }
    Ok(allowed)
}

/// Starts the threads that serve followers of a folder's log. None: nobody may follow.
pub(crate) fn follow<
    R: AllocGlobal
        + Files<File = File>
        + Threads
        + Wait
        + Clock
        + Clone
        + Send
        + Sync
        + Drop
        + 'static,
    E: Events,
    P: Announces,
>(
    rt: &R,
    folder: &Folder,
    engine: &E,
    others: &Others<'_, R>,
    listener: Option<TcpListener>,
    serving: Serving<'_>,
    lines: &mut P,
) -> Result<Option<Followers<NodeSource<R, File>>>, Fault> {
    let Some(listener) = listener else {
        return Ok(None);
    };
    let alloc = rt.alloc();
    let addr = listener.local_addr()?;
    let file = folder.open_to_read(rt)?.log.try_clone()?;
    let source = NodeSource::new(
        rt.clone()?,
        alloc,
        file,
        others.tail()?,
        engine.history(),
        serving.timeout,
    )?;
    let terms = Terms::new(serving.window, silence(serving.timeout));
    let tail = others.tail()?;
    let quorum = others.quorum()?;
    let followers = Followers::start(rt, alloc, listener, source, tail, quorum, terms)?;
    lines.listens(addr, serving.sync);
    Ok(Some(followers))
}
