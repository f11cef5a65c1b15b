use als_compare::{Rank, ask_rank};
use als_fault::FaultKind;
use als_inspect::rank_of;
use als_operate::{Following, dial};
use std::alloc::Global;
use std::fs;
use std::fs::File;
use std::net::{Net, OpenStream};
use std::rt::Files;

/// How long a peer may be silent, in seconds.
const PATIENCE: u64 = 10;

/// The rank of a peer: of a folder's node that does not run, or else of the node that serves its log at an
/// address, `HOST:PORT`. An error is why it is not known.
pub fn ask<R: AllocGlobal + Files<File = File> + Net>(
    rt: &R,
    peer: &str,
) -> Result<Rank, FaultKind> {
    if is_folder(rt, peer) {
        return match rank_of(rt, peer) {
            Ok(rank) => Ok(rank),
            Err(fault) => Err(fault.kind()),
        };
    }
    ask_at(rt, peer)
}

/// Whether a folder is there.
fn is_folder<R: AllocGlobal + Files<File = File>>(rt: &R, path: &str) -> bool {
    match fs::metadata(rt, path) {
        Ok(found) => found.is_dir(),
        Err(_) => false,
    }
}

/// The rank that a node answers over a connection of its own.
fn ask_at<R: Net>(rt: &R, addr: &str) -> Result<Rank, FaultKind> {
    let Ok(mut writer) = dial(rt, asking(addr)) else {
        return Err(FaultKind::Stream);
    };
    let Ok(mut reader) = writer.try_clone() else {
        return Err(FaultKind::Stream);
    };
    match ask_rank(&mut reader, &mut writer) {
        Ok(rank) => Ok(rank),
        Err(fault) => Err(fault.kind()),
    }
}

/// Whom to ask, and how long to wait. No folder is meant.
fn asking(addr: &str) -> Following<'_> {
    Following {
        dir: "",
        from: addr,
        pages: 1,
        log_blocks: 1,
        checkpoint_mb: 0,
        timeout: PATIENCE,
    }
}
