use crate::answering::Answering;
use crate::clerk::answer_line;
use crate::connections::Connections;
use crate::duty::{Duty, duty_of, waiting_of};
use crate::hosts::Hosts;
use crate::limits::{LINE, MOST_THREADS, THREADS, config};
use crate::line::Line;
use crate::serving::serve_until_closed;
use crate::spare::answer_guests;
use crate::terms::Terms;
use als_report::Reports;
use http_server::{Config, Service};
use std::alloc::{AllocError, Global};
use std::hash::RandomState;
use std::net::{TcpListener, TcpStream};
use std::random::RandomSource;
use std::sync::{Arc, Wait};
use std::thread::{JoinHandle, Threads};
use std::time::Clock;
use std::{io, thread};

/// The threads that serve a listener.
pub struct Servers {
    connections: Arc<Connections, Global>,
    handles: Vec<JoinHandle<()>>,
}

impl Drop for Servers {
    fn drop(self) {
        let Servers {
            connections,
            handles,
        } = self;
        connections.close();
        drop(handles);
        drop(connections);
    }
}

/// The guests that may stand in the line: none, where no thread is left to answer them.
fn room_of(count: usize, may_wait: bool) -> usize {
    if may_wait && count > 2 { LINE } else { 0 }
}

impl Servers {
    /// Starts a thread for each of these, up to eight, which answer reads until `close`. Each has a clock
    /// of its own. On the loopback only requests that name one of its hosts are answered.
    ///
    /// An error: as for `start_any`.
    pub fn start<
        R: Threads + RandomSource,
        S: Reports + Send + Drop + 'static,
        C: Clock + Wait + Send + Drop + 'static,
    >(
        rt: &R,
        alloc: Global,
        listener: &TcpListener,
        seats: Vec<(Answering<S>, C)>,
    ) -> io::Result<Servers> {
        let hosts = Hosts::at(listener);
        let mut own = Vec::with_capacity(alloc, THREADS)?;
        for seat in seats {
            let (mut answering, clock) = seat;
            answering.answer_for(hosts);
            if own.len() < THREADS {
                own.push((answering, clock))?;
            }
        }
        Servers::start_each(rt, alloc, listener, own, config(), false)
    }

    /// Starts a thread for each of these services, up to 258, which serve the listener until `close`, with
    /// these limits of a connection. Each has a clock of its own. A service may wait in a request by another
    /// method than GET and HEAD. If there are two or more, the last one is spare: it waits for nobody, and
    /// serves while each other one has a connection. If there are three or more, the one before it answers
    /// the guests whose requests may wait; else these are refused.
    ///
    /// An error: allocation failed, or the system refused a thread. Then no thread goes on.
    pub fn start_any<
        R: Threads + RandomSource,
        V: Service + Send + Drop + 'static,
        C: Clock + Wait + Send + Drop + 'static,
    >(
        rt: &R,
        alloc: Global,
        listener: &TcpListener,
        seats: Vec<(V, C)>,
        config: Config,
    ) -> io::Result<Servers> {
        Servers::start_each(rt, alloc, listener, seats, config, true)
    }

    /// Starts a thread for each of these services, which may wait in a request that does not read, or never.
    fn start_each<
        R: Threads + RandomSource,
        V: Service + Send + Drop + 'static,
        C: Clock + Wait + Send + Drop + 'static,
    >(
        rt: &R,
        alloc: Global,
        listener: &TcpListener,
        seats: Vec<(V, C)>,
        config: Config,
        may_wait: bool,
    ) -> io::Result<Servers> {
        listener.set_nonblocking(true)?;
        let terms = Terms {
            keys: RandomState::new(rt)?,
            config,
            may_wait,
        };
        let count = seats.len().min(MOST_THREADS);
        let waiting = waiting_of(count, may_wait);
        let line = Arc::new(alloc, Line::new(alloc, room_of(count, may_wait))?)?;
        let connections = Arc::new(alloc, Connections::new(alloc, waiting)?)?;
        let mut servers = Servers {
            connections,
            handles: Vec::with_capacity(alloc, count)?,
        };
        for seat in seats {
            if servers.handles.len() < count {
                let duty = duty_of(servers.handles.len(), count, may_wait);
                let own = Arc::try_clone(&line)?;
                servers.add(rt, alloc, listener.try_clone()?, terms, seat, own, duty)?;
            }
        }
        Ok(servers)
    }

    /// Starts one more thread.
    fn add<R: Threads, V: Service + Send + Drop + 'static, C: Clock + Wait + Send + Drop + 'static>(
        &mut self,
        rt: &R,
        alloc: Global,
        listener: TcpListener,
        terms: Terms,
        seat: (V, C),
        line: Arc<Line<TcpStream>, Global>,
        duty: Duty,
    ) -> io::Result<()> {
        let (mut service, clock) = seat;
        let connections = Arc::try_clone(&self.connections)?;
        let handle = thread::spawn(rt, move || match duty {
            Duty::Peers => serve_until_closed(
                alloc,
                &listener,
                &mut service,
                terms,
                &clock,
                &connections,
                &line,
            ),
            Duty::Line => answer_line(alloc, &mut service, terms, &clock, &connections, &line),
            Duty::Guests => answer_guests(
                alloc,
                &listener,
                &mut service,
                terms,
                &clock,
                &connections,
                &line,
            ),
        });
        match handle {
            Ok(handle) => Ok(self.handles.push(handle)?),
            Err(_) => Err(io::ErrorKind::Other.into()),
        }
    }

    /// Ends the threads and waits for them. A connection whose peer is silent ends at once, and one that is
    /// being answered after the answer.
    pub fn close<R: Threads>(self, rt: &R) {
        let Servers {
            connections,
            handles,
        } = self;
        connections.close();
        for handle in handles {
            handle.join(rt);
        }
        drop(connections);
    }
}
