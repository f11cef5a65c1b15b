use crate::connections::Connections;
use crate::guest::{Guest, Heard};
use crate::limits::{ANSWER, GUESTS, NAP, REQUEST, request_len};
use crate::line::Line;
use crate::terms::Terms;
use http_server::{Connection, Service, serve};
use std::alloc::Global;
use std::io::{Read, Write};
use std::net::{OpenListener, OpenStream};
use std::sync::Wait;
use std::time::{Clock, Duration};
use std::{io, thread};

/// The response to a guest's request that may wait, where the line is full or the guest stood in it for too
/// long. Nothing of it was done, and the guest may ask again.
const NOT_BEGUN: &[u8] = b"HTTP/1.1 503 Service Unavailable\r\ncontent-type: application/json\r\n\
    cache-control: no-store\r\nretry-after: 1\r\nconnection: close\r\ncontent-length: 55\r\n\r\n\
    {\"name\":\"NotBegun\",\"error\":\"all connections are taken\"}";

/// Answers whoever connects while each other thread has a connection, until the threads are to end. It
/// waits for none of them: a peer without a whole request in time is dropped. Each connection is closed
/// after its response.
pub(crate) fn answer_guests<
    L: OpenListener<Stream = T>,
    T: Read + Write + OpenStream + Drop,
    V: Service,
    C: Clock + Wait,
>(
    alloc: Global,
    listener: &L,
    service: &mut V,
    terms: Terms,
    clock: &C,
    connections: &Connections,
    line: &Line<T>,
) {
    let mut guests = Vec::new(alloc);
    for _ in 0..u64::MAX {
        if connections.is_closed() {
            break;
        }
        let Ok(now) = clock.monotonic() else {
            break;
        };
        let has_come = connections.is_crowded() && admit(alloc, listener, &mut guests, terms, now);
        guests = attend(alloc, guests, service, terms, clock, line, now);
        if !has_come {
            thread::sleep(clock, Duration::from_millis(NAP));
        }
    }
}

/// Accepts the next connection. Returns whether there was one.
fn admit<L: OpenListener<Stream = T>, T: OpenStream + Drop>(
    alloc: Global,
    listener: &L,
    guests: &mut Vec<Guest<T>>,
    terms: Terms,
    now: Duration,
) -> bool {
    let Ok((stream, _)) = listener.accept() else {
        return false;
    };
    welcome(alloc, stream, guests, terms, now);
    true
}

/// Adds a guest. If there are too many, the first one is dropped.
pub(crate) fn welcome<T: OpenStream + Drop>(
    alloc: Global,
    stream: T,
    guests: &mut Vec<Guest<T>>,
    terms: Terms,
    now: Duration,
) {
    if stream.set_nonblocking(true).is_err() {
        return;
    }
    if guests.len() >= GUESTS {
        drop(guests.remove(0));
    }
    // Without memory for it, it is dropped.
    let limit = request_len(terms.config);
    let _ = guests.push(Guest::new(alloc, stream, limit, now));
}

/// Serves each guest once. Those with a part of a request stay, and those that have yet to read their
/// response.
pub(crate) fn attend<T: Read + Write + OpenStream + Drop, V: Service, C: Wait>(
    alloc: Global,
    guests: Vec<Guest<T>>,
    service: &mut V,
    terms: Terms,
    rt: &C,
    line: &Line<T>,
    now: Duration,
) -> Vec<Guest<T>> {
    let mut left = Vec::new(alloc);
    for guest in guests {
        let mut guest = guest;
        guest.look(now);
        let heard = guest.hear();
        let stays = match heard {
            Heard::All if terms.may_wait && !guest.reads() => match line.join(rt, guest) {
                Some(guest) => refuse(guest),
                None => None,
            },
            Heard::All => answer(alloc, guest, service, terms),
            Heard::Part if guest.age(now) < Duration::from_millis(REQUEST) => Some(guest),
            Heard::Part | Heard::Gone => None,
        };
        if let Some(guest) = stays {
            // Without memory for it, it is dropped.
            let _ = left.push(guest);
        }
    }
    left
}

/// Answers the request of a guest, and returns the guest, unless it hung up. The response is short enough for
/// the socket's buffer: a read of more is refused.
pub(crate) fn answer<T: Read + Write + OpenStream + Drop, V: Service>(
    alloc: Global,
    guest: Guest<T>,
    service: &mut V,
    terms: Terms,
) -> Option<Guest<T>> {
    let mut guest = guest;
    let mut connection = Connection::new(alloc, terms.keys, terms.config);
    let mut response = Vec::new(alloc);
    let mut request = guest.request();
    serve(&mut connection, service, &mut request, &mut response).ok()?;
    if response.len() > ANSWER && guest.reads() {
        return refuse(guest);
    }
    guest.tell(response.as_slice()).ok()?;
    Some(guest)
}

/// Refuses the request of a guest, and returns the guest, unless it hung up.
pub(crate) fn refuse<T: Write + OpenStream + Drop>(guest: Guest<T>) -> Option<Guest<T>> {
    let mut guest = guest;
    guest.tell(NOT_BEGUN).ok()?;
    Some(guest)
}
