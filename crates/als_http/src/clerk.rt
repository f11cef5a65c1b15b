use crate::connections::Connections;
use crate::limits::{GUESTS, LINE, NAP, REQUEST};
use crate::line::Line;
use crate::spare::{answer, attend, refuse};
use crate::terms::Terms;
use http_server::Service;
use std::alloc::Global;
use std::io::{Read, Write};
use std::net::OpenStream;
use std::sync::Wait;
use std::thread;
use std::time::{Clock, Duration};

/// Answers the guests in the line, one after another, until the threads are to end. While one waits for its
/// answer, so do those behind it. Who stood there for too long is refused, and so is who still stands there at
/// the end.
pub(crate) fn answer_line<T: Read + Write + OpenStream + Drop, V: Service, C: Clock + Wait>(
    alloc: Global,
    service: &mut V,
    terms: Terms,
    clock: &C,
    connections: &Connections,
    line: &Line<T>,
) {
    let mut told = Vec::new(alloc);
    for _ in 0..u64::MAX {
        if connections.is_closed() {
            break;
        }
        let Ok(now) = clock.monotonic() else {
            break;
        };
        // They have their responses, and are read until they hang up.
        told = attend(alloc, told, service, terms, clock, line, now);
        let Some(guest) = line.next(clock) else {
            thread::sleep(clock, Duration::from_millis(NAP));
            continue;
        };
        let left = if guest.age(now) < Duration::from_millis(REQUEST) {
            answer(alloc, guest, service, terms)
        } else {
            refuse(guest)
        };
        if let Some(guest) = left {
            if told.len() >= GUESTS {
                drop(told.remove(0));
            }
            // Without memory for it, it is dropped.
            let _ = told.push(guest);
        }
    }
    refuse_rest(clock, line);
}

/// Refuses those who still stand in the line: none of their requests was begun.
fn refuse_rest<T: Read + Write + OpenStream + Drop, C: Wait>(clock: &C, line: &Line<T>) {
    for _ in 0..LINE {
        let Some(guest) = line.next(clock) else {
            break;
        };
        let _ = refuse(guest);
    }
}
