use crate::connections::{Connections, peer_of};
use crate::leaving::Leaving;
use crate::limits::{LEFTOVERS, RESPONSE, TICK};
use crate::line::Line;
use crate::patient::Patient;
use crate::peer::{Peer, is_late};
use crate::spare::{attend, welcome};
use crate::terms::Terms;
use crate::turn::Turn;
use http_server::{Connection, Service, serve};
use std::alloc::Global;
use std::io::{Read, Write};
use std::net::{OpenListener, OpenStream, Shutdown, SocketAddr};
use std::sync::Wait;
use std::time::{Clock, Duration};
use std::{io, thread};

/// The response to a request that is not whole in time. Nothing of it was done, and its peer may ask again.
const LATE: &[u8] =
    b"HTTP/1.1 408 Request Timeout\r\nconnection: close\r\ncontent-length: 0\r\n\r\n";

/// Serves one connection after another, until the threads are to end. The listener does not block. A peer
/// that already has a connection of every other thread becomes a guest: what it has sent is read, and it
/// is never waited for. While there is a guest, so is everybody who connects.
pub(crate) fn serve_until_closed<
    L: OpenListener<Stream = T>,
    T: Read + Write + OpenStream + Drop,
    V: Service,
    C: Clock + Wait,
>(
    alloc: Global,
    listener: &L,
    service: &mut V,
    terms: Terms,
    clock: &C,
    connections: &Connections,
    line: &Line<T>,
) {
    let mut guests = Vec::new(alloc);
    for _ in 0..u64::MAX {
        if connections.is_closed() {
            break;
        }
        let Ok(now) = clock.monotonic() else {
            break;
        };
        match listener.accept() {
            Ok((stream, addr)) => match seat_of(connections, &addr, guests.is_empty()) {
                Some(place) => {
                    // An error ends this connection only.
                    let _ = serve_one(alloc, stream, service, terms, clock, connections);
                    connections.leave(place);
                }
                None => welcome(alloc, stream, &mut guests, terms, now),
            },
            // Nobody wants to connect, or the system refuses for now.
            Err(_) => thread::sleep(clock, connections.nap()),
        }
        guests = attend(alloc, guests, service, terms, clock, line, now);
    }
}

/// The place of a connection that this thread may wait for. None: it is a guest.
fn seat_of(connections: &Connections, addr: &SocketAddr, is_free: bool) -> Option<usize> {
    if !is_free {
        return None;
    }
    connections.enter(peer_of(addr))
}

/// Serves the requests of a connection.
fn serve_one<T: Read + Write + OpenStream + Drop, V: Service, C: Clock>(
    alloc: Global,
    stream: T,
    service: &mut V,
    terms: Terms,
    clock: &C,
    connections: &Connections,
) -> io::Result<()> {
    stream.set_read_timeout(Some(Duration::from_millis(TICK)))?;
    stream.set_write_timeout(Some(Duration::from_millis(RESPONSE)))?;
    stream.set_nodelay(true)?;
    let begun = clock.monotonic()?;
    let mut rest = stream.try_clone()?;
    let turn = Turn::new();
    let mut writer = Peer::new(stream.try_clone()?, clock, connections, &turn, begun);
    let mut reader = Peer::new(stream, clock, connections, &turn, begun);
    let mut connection = Connection::new(alloc, terms.keys, terms.config);
    let mut patient = Patient::new(service, clock, connections);
    let mut leaving = Leaving::new(&mut patient, &turn);
    match serve(&mut connection, &mut leaving, &mut reader, &mut writer) {
        Err(e) if turn.is_asking() && is_late(&e) => rest.write_all(LATE)?,
        ended => ended?,
    }
    linger(&mut rest)
}

/// Shuts down writing, and reads what the peer still sends. If a connection is closed with unread bytes,
/// the system may take back the last response.
fn linger<T: Read + OpenStream>(stream: &mut T) -> io::Result<()> {
    stream.shutdown(Shutdown::Write)?;
    let mut bytes = [0; 1024];
    for _ in 0..LEFTOVERS {
        if stream.read(&mut bytes)? == 0 {
            break;
        }
    }
    Ok(())
}
