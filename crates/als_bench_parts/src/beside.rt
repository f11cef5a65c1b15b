use crate::drawn::drawn_key;
use als_view::{Answer, Reader};
use std::alloc::Global;
use std::sync::atomic::{AtomicU64, Ordering};
use std::sync::{Arc, Wait};
use std::thread::{JoinHandle, Threads};
use std::{io, thread};

/// Reads between two looks at whether to stop.
const READS: u32 = 256;

/// Readers that read random keys, each in a thread of its own, until they are stopped.
#[derive(Drop)]
pub struct Beside {
    stop: Arc<AtomicU64>,
    handles: Vec<JoinHandle<u64>>,
}

impl Beside {
    /// Starts a thread for each reader.
    pub fn start<R: Threads>(rt: &R, alloc: Global, readers: Vec<Reader>) -> io::Result<Beside> {
        let stop = Arc::new(alloc, AtomicU64::new(0))?;
        let mut handles = Vec::with_capacity(alloc, readers.len())?;
        for (number, reader) in readers.into_iter().enumerate() {
            let theirs = Arc::try_clone(&stop)?;
            let first = (number as u64) << 40;
            handles.push(thread::spawn(rt, move || read_until(reader, &theirs, first))?)?;
        }
        Ok(Beside { stop, handles })
    }

    /// Stops the readers, and answers how many reads they made.
    pub fn stop<R: Threads + Wait>(self, rt: &R) -> u64 {
        let Beside { stop, handles } = self;
        stop.store(1, Ordering::SeqCst);
        let mut reads = 0u64;
        for handle in handles {
            reads = reads.saturating_add(handle.join(rt));
        }
        drop(stop);
        reads
    }
}

/// Reads random keys until it is stopped, and answers how many had a value.
fn read_until(mut reader: Reader, stop: &AtomicU64, first: u64) -> u64 {
    let mut reads = 0u64;
    for round in 0..u64::MAX {
        if stop.load(Ordering::SeqCst) != 0 {
            break;
        }
        let from = first.wrapping_add(round.wrapping_mul(u64::from(READS)));
        reads = reads.saturating_add(read_keys(&mut reader, from, READS));
    }
    reads
}

/// Reads random keys, and answers how many had a value.
pub fn read_keys(reader: &mut Reader, first: u64, count: u32) -> u64 {
    let mut reads = 0u64;
    for number in 0..count {
        match reader.get(drawn_key(first.wrapping_add(u64::from(number)))) {
            Ok(answer) if last_byte(&answer) < 256 => reads = reads.saturating_add(1),
            _ => {}
        }
    }
    reads
}

/// The last byte of the answer's value, 256 for none. It is asked for, since an answer that nobody
/// looks at is not even made.
#[inline(never)]
fn last_byte(answer: &Answer) -> usize {
    match &answer.value {
        Some(value) => value.as_slice().last().map_or(256, |byte| *byte as usize),
        None => 256,
    }
}
