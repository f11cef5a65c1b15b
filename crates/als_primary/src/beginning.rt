ghost use Rattle.std.specs.Prelude.{◌≡◌, ◌≤◌, ◌<◌};
ghost use Rattle.als_report.specs.declared.state.State.TheVariants.{Committing, Unconfirmed};

use crate::doubts::Doubts;
use crate::services::Common;
use crate::serving::Serving;
use als_asking::{Guard, Shown};
use als_engine::{Events, Reader};
use als_folder::Folder;
use als_http::{Hosts, Servers, config_with};
use als_lead::Answer;
use als_operate::Fault;
use als_report::{Board, State};
use als_tickets::{Leader, Naming, Oath, Opened, seats};
use als_writer::Work;
use std::alloc::{AllocError, Global};
use std::fs::File;
use std::net::{SocketAddr, TcpListener};
use std::random::RandomSource;
use std::rt::Files;
use std::sync::{Arc, Wait};
use std::thread::Threads;
use std::time::{Clock, Duration};

/// The most connections that are served at a time.
pub(crate) const CONNECTIONS: u64 = 64;

/// The most bytes of a request's body.
const BODY: usize = 262_144;

/// The bytes of a block.
const BLOCK: u64 = 512;

/// The threads that serve requests, and what they share with the leader.
pub(crate) struct Begun<O: Oath<Work, Answer>, J: Naming> {
    pub board: Arc<Board, Global>,
    pub doubts: Arc<Doubts, Global>,
    pub shown: Arc<Shown, Global>,
    pub leader: Leader<Work, Answer, O, J>,
    pub servers: Servers,
}

/// By what requests come in and at which address, who may commit, and what answers reads.
#[derive(Drop)]
pub(crate) struct Entrance<'a> {
    pub listener: &'a TcpListener,
    pub addr: SocketAddr,
    pub guard: Guard,
    pub readers: Vec<Reader>,
}

/// Starts the threads that serve requests, each with a seat of its own, by the name of a book with no
/// question.
pub(crate) fn begin<
    O: Oath<Work, Answer> + Send + Sync + 'static,
    J: Naming + Send + Sync + 'static,
    R: AllocGlobal + Threads + Wait + Clock + RandomSource + Clone + Send + Drop + 'static,
    E: Events,
>(
    rt: &R,
    opened: Opened<Work>,
    engine: &E,
    capacity: Option<u64>,
    entrance: Entrance<'_>,
    serving: Serving<'_>,
) -> Result<Begun<O, J>, Fault>
    requires book { opened.seen.book ≡ J.book }
{
    let alloc = rt.alloc();
    let Entrance {
        listener,
        addr: _,
        guard,
        readers,
    } = entrance;
    let board = board_of(alloc, engine, capacity, serving.sync)?;
    let (doubts, shown) = shared(alloc, serving.sync, serving.read_for)?;
    let (leader, askers) = seats::<Work, Answer, O, J>(
        alloc,
        seats_of(serving.connections),
        opened,
    )?;
    let common = Common {
        rt,
        alloc,
        board: &board,
        doubts: &doubts,
        shown: &shown,
        guard: &guard,
        hosts: Hosts::at(listener),
        patience: Duration::from_secs(serving.commit_timeout),
    };
    let services = common.services(askers, readers)?;
    drop(common);
    let servers = Servers::start_any(rt, alloc, listener, services, config_with(BODY))?;
    Ok(Begun {
        board,
        doubts,
        shown,
        leader,
        servers,
    })
}

/// The seats for this many connections of one peer: one more for other peers, one for the thread that answers
/// guests who commit, and one for the thread that waits for nobody.
fn seats_of(connections: u64) -> u32
    ensures { result ≤ 67 }
{
    connections.min(CONNECTIONS) as u32 + 3
}

/// What the threads share: nothing is looked up yet, and nothing is confirmed if that takes followers, which have to answer
/// each so many seconds for commits to be read.
fn shared(
    alloc: Global,
    sync: u32,
    read_for: u64,
) -> Result<(Arc<Doubts, Global>, Arc<Shown, Global>), AllocError> {
    let doubts = Arc::new(alloc, Doubts::new(alloc))?;
    if sync > 0 {
        let shown = Shown::new(Some(Duration::from_secs(read_for)));
        return Ok((doubts, Arc::new(alloc, shown)?));
    }
    let shown = Shown::new(None);
    shown.confirm();
    Ok((doubts, Arc::new(alloc, shown)?))
}

/// The state in which a primary begins: where a commit waits for followers, none is confirmed before they were
/// asked.
fn first_state(sync: u32) -> State
    ensures alone { sync ≡ 0 → result ≡ Committing }
    ensures waits { 0 < sync → result ≡ Unconfirmed }
{
    match sync {
        0 => State::Committing,
        _ => State::Unconfirmed,
    }
}

/// The board of a primary with this engine, of whose commits so many followers have to acknowledge each.
fn board_of<E: Events>(
    alloc: Global,
    engine: &E,
    capacity: Option<u64>,
    sync: u32,
) -> Result<Arc<Board, Global>, AllocError> {
    let board = Arc::new(alloc, Board::new())?;
    let status = engine.status();
    board.set_log(status.end, status.acknowledged);
    board.set_epoch(u64::from(engine.history().epoch()));
    if let Some(bytes) = capacity {
        board.set_capacity(bytes);
    }
    board.set_state(first_state(sync));
    Ok(board)
}

/// The bytes of a folder's log device. None: its files cannot be read.
pub(crate) fn capacity_of<R: AllocGlobal + Files<File = File>>(
    rt: &R,
    folder: &Folder,
) -> Option<u64> {
    let files = folder.open_to_read(rt).ok()?;
    let sizes = files.sizes().ok()?;
    Some(sizes.log.saturating_mul(BLOCK))
}
