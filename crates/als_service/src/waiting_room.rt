use crate::seats::serve_reads;
use als_http::Servers;
use als_operate::Fault;
use als_report::Board;
use als_view::{Publisher, new};
use std::alloc::Global;
use std::net::TcpListener;
use std::random::RandomSource;
use std::sync::{Arc, Wait};
use std::thread::Threads;
use std::time::Clock;

/// What answers over HTTP before a folder is opened: each read by 503, since no commit is published, and what the board has.
pub(crate) struct WaitingRoom {
    servers: Servers,
    publisher: Publisher,
}

impl Drop for WaitingRoom {
    fn drop(self) {
        let WaitingRoom { servers, publisher } = self;
        drop(servers);
        drop(publisher);
    }
}

impl WaitingRoom {
    /// Starts so many threads, 1 to 8, that answer at this listener.
    pub fn open<R: Threads + Wait + Clock + RandomSource + Clone + Send + Drop + 'static>(
        rt: &R,
        alloc: Global,
        listener: &TcpListener,
        board: &Arc<Board, Global>,
        threads: u64,
    ) -> Result<WaitingRoom, Fault> {
        let count = threads.clamp(1, 8) as usize;
        // Of one page, and with no list: whichever key is asked for, nothing is published.
        let (publisher, readers) = new(alloc, rt, 1, count, false)?;
        match serve_reads(rt, alloc, listener, board, readers) {
            Ok(servers) => Ok(WaitingRoom { servers, publisher }),
            Err(fault) => {
                publisher.close(rt);
                Err(fault)
            }
        }
    }

    /// Ends the threads. The listener stays.
    pub fn close<R: Threads + Wait>(self, rt: &R) {
        let WaitingRoom { servers, publisher } = self;
        servers.close(rt);
        publisher.close(rt);
    }
}
