use crate::beside::beside_all;
use crate::checkpointed::checkpoint_all;
use crate::devices::Size;
use crate::fed::feed_all;
use crate::followed::follow_all;
use crate::leased::lease_all;
use crate::redone::redo_all;
use crate::restarted::restart_all;
use crate::shipped::ship_all;
use crate::taken_over::take_over_all;
use crate::worked::work_all;
use als_sample_logs::{PAGES, Primary};
use std::fs::File;
use std::io;
use std::net::{Net, TcpListener, TcpStream};
use std::rt::{Clock, Files};
use std::sync::Wait;
use std::thread::Threads;

/// Measures each job over a log of so many MB with 16 open transactions, and with 1 and with 256.
/// In the folder, if one is given, it makes the device files of a standby.
pub fn measure_all<R>(rt: &R, megabytes: usize, folder: Option<&str>) -> io::Result<()>
where
    R: Print + Clock + AllocGlobal + Files<File = File>,
    R: Net<Listener = TcpListener, Stream = TcpStream> + Threads + Wait + Sync,
{
    let bytes = megabytes.saturating_mul(1 << 20);
    for open in [16, 1, 256] {
        let text = match Primary::new(rt.alloc(), open, bytes, PAGES).and_then(
            |primary| primary.write(bytes),
        ) {
            Ok(text) => text,
            Err(fault) => return println!(rt; "{fault}"),
        };
        println!(rt; "{megabytes} MB, {open} open transactions")?;
        feed_log(rt, text.as_slice())?;
        if open == 16 {
            follow_log(rt, text.as_slice(), folder)?;
            restart_all(rt, text.as_slice())?;
        }
        if open == 256 {
            checkpoint_all(rt, text.as_slice())?;
        }
    }
    take_over_all(rt)?;
    lease_all(rt, bytes)?;
    work_all(rt, bytes)?;
    redo_sizes(rt, bytes, folder)
}

/// Measures following, with workers too, and over the network where a folder is given.
fn follow_log<R>(rt: &R, text: &[u8], folder: Option<&str>) -> io::Result<()>
where
    R: Print + Clock + AllocGlobal + Files<File = File>,
    R: Net<Listener = TcpListener, Stream = TcpStream> + Threads + Wait + Sync,
{
    follow_all(rt, text, folder)?;
    beside_all(rt, text, folder)?;
    match folder {
        Some(folder) => ship_all(rt, text, folder),
        None => Ok(()),
    }
}

/// Measures redo for few pages and for many, and with fewer frames than pages.
fn redo_sizes<R: Print + Clock + AllocGlobal + Files<File = File> + Wait>(
    rt: &R,
    bytes: usize,
    folder: Option<&str>,
) -> io::Result<()> {
    for (pages, frames, name) in [
        (64, 64, "few"),
        (PAGES, PAGES, "many"),
        (PAGES, 512, "tight"),
    ] {
        let written = Primary::new(rt.alloc(), 16, bytes, pages);
        let text = match written.and_then(|primary| primary.write(bytes)) {
            Ok(text) => text,
            Err(fault) => return println!(rt; "{fault}"),
        };
        let size = Size {
            pages,
            frames,
            name,
        };
        redo_all(rt, text.as_slice(), size, folder)?;
    }
    Ok(())
}

/// Measures whole feeds of a log.
fn feed_log<R: Print + Clock + AllocGlobal + Wait>(rt: &R, text: &[u8]) -> io::Result<()> {
    for piece in [65_536, 100] {
        feed_all(rt, text, piece)?;
    }
    Ok(())
}
