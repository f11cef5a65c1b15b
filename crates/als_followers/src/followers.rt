use crate::common::Common;
use crate::notice::Notice;
use crate::notices::Notices;
use crate::serves::Serves;
use crate::session::Terms;
use crate::work::{Porter, Server, Work};
use als_callers::{Closing, Desk};
use als_quorum::{Quorum, SEATS, Tail};
use std::alloc::Global;
use std::net::{OpenListener, TcpListener};
use std::sync::{Arc, Wait};
use std::thread::{JoinHandle, Threads};
use std::time::Clock;
use std::{io, thread};

/// The threads that serve the followers of a log.
pub struct Followers<O> {
    common: Arc<Common<O>, Global>,
    handles: Vec<JoinHandle<()>>,
}

impl<O: Drop> Drop for Followers<O> {
    fn drop(self) {
        let Followers { common, handles } = self;
        common.closing.close();
        drop(handles);
        drop(common);
    }
}

impl<O: Serves + Send + Sync + Drop + 'static> Followers<O> {
    /// Starts eight threads for followers, and one that takes in those who connect to the listener. Those may
    /// come whose word counts in the quorum.
    ///
    /// An error: allocation failed, or the system refused a thread or the listener. Then none goes on.
    pub fn start<R: Threads + Wait + Clock + Clone + Send + Drop + 'static>(
        rt: &R,
        alloc: Global,
        listener: TcpListener,
        source: O,
        tail: Arc<Tail, Global>,
        quorum: Arc<Quorum, Global>,
        terms: Terms,
    ) -> io::Result<Followers<O>> {
        listener.set_nonblocking(true)?;
        let common = Common {
            source,
            tail,
            quorum,
            terms,
            closing: Closing::new(),
            desk: Desk::new(alloc, SEATS as usize)?,
            notices: Notices::new(alloc)?,
        };
        let mut followers = Followers {
            common: Arc::new(alloc, common)?,
            handles: Vec::with_capacity(alloc, SEATS as usize + 1)?,
        };
        match followers.add_all(rt, alloc, listener) {
            Ok(()) => Ok(followers),
            Err(e) => {
                followers.close(rt);
                Err(e)
            }
        }
    }

    /// Starts all threads.
    fn add_all<R: Threads + Wait + Clock + Clone + Send + Drop + 'static>(
        &mut self,
        rt: &R,
        alloc: Global,
        listener: TcpListener,
    ) -> io::Result<()> {
        for _ in 0..SEATS {
            let server = Server {
                rt: rt.clone()?,
                alloc,
                common: Arc::try_clone(&self.common)?,
            };
            self.add(rt, server)?;
        }
        let porter = Porter {
            rt: rt.clone()?,
            alloc,
            listener,
            common: Arc::try_clone(&self.common)?,
        };
        self.add(rt, porter)
    }
}

impl<O: Drop> Followers<O> {
    /// Starts a thread that does this work.
    fn add<R: Threads, V: Work + Send + Drop + 'static>(
        &mut self,
        rt: &R,
        work: V,
    ) -> io::Result<()> {
        let mut work = work;
        match thread::spawn(rt, move || work.run()) {
            Ok(handle) => Ok(self.handles.push(handle)?),
            Err(_) => Err(io::ErrorKind::Other.into()),
        }
    }

    /// Takes the first notice that nobody has taken.
    pub fn notice<R: Wait>(&self, rt: &R) -> Option<Notice> {
        self.common.notices.take(rt)
    }

    /// Closes the tail, lets nobody come any more, and waits for all threads. A session that has sent all ends in order;
    /// any other one is cut off after two seconds.
    pub fn close<R: Threads + Wait>(self, rt: &R) {
        let Followers { common, handles } = self;
        common.closing.close();
        common.tail.close(rt);
        common.quorum.close(rt);
        common.desk.close(rt);
        for handle in handles {
            handle.join(rt);
        }
        drop(common);
    }
}
