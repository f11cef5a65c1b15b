use als_engine::Reader;
use als_http::{Answering, Servers};
use als_operate::Fault;
use als_report::{Board, Watch};
use std::alloc::{AllocError, Global};
use std::net::TcpListener;
use std::random::RandomSource;
use std::sync::{Arc, Wait};
use std::thread::Threads;
use std::time::Clock;

/// Starts a thread for each reader, which answers by it.
pub(crate) fn serve_reads<R: Threads + Wait + Clock + RandomSource + Clone + Send + Drop + 'static>(
    rt: &R,
    alloc: Global,
    listener: &TcpListener,
    board: &Arc<Board, Global>,
    readers: Vec<Reader>,
) -> Result<Servers, Fault> {
    let seats = seats_of(rt, alloc, board, readers)?;
    let servers = Servers::start(rt, alloc, listener, seats)?;
    Ok(servers)
}

/// What a thread answers by, and its clock.
type Seat<R> = (Answering<Watch<R>>, R);

/// A seat for each reader.
fn seats_of<R: Clock + Clone + Drop>(
    rt: &R,
    alloc: Global,
    board: &Arc<Board, Global>,
    readers: Vec<Reader>,
) -> Result<Vec<Seat<R>>, AllocError> {
    let mut seats = Vec::with_capacity(alloc, readers.len())?;
    for reader in readers {
        let watch = Watch::new(Arc::try_clone(board)?, rt.clone()?);
        seats.push((Answering::new(alloc, reader, watch), rt.clone()?))?;
    }
    Ok(seats)
}

/// A board of which nothing is known yet.
pub(crate) fn new_board(alloc: Global) -> Result<Arc<Board, Global>, AllocError> {
    Ok(Arc::new(alloc, Board::new())?)
}
