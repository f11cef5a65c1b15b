use crate::log::LOG;
use als_drive::Progress;
use als_progress::{Advance, Work};
use als_record::Lsn;
use als_rewind::{Fault, Loses, LostCommits, rewind};
use std::alloc::Global;
use std::fs;
use std::fs::File;
use std::rt::Files;
use std::sync::Wait;

/// The bytes of its log's device.
const LOG_BYTES: usize = 4_096;

/// The bytes of its control device.
const CONTROL_BYTES: usize = 321 * 512;

/// Nobody is told how far it has come.
#[derive(Clone, Copy)]
struct Quiet;

impl Progress for Quiet {
    fn waits(&mut self, _changes: u64) {}
}

impl Advance for Quiet {
    fn advances(&mut self, _work: Work, _done: u64, _whole: u64) {}
}

impl Loses for Quiet {
    fn loses(&mut self, _losses: &LostCommits) {}
}

/// A name in a folder.
pub fn within(alloc: Global, dir: &str, name: &str) -> Option<String> {
    format!(in alloc; "{dir}/{name}").ok()
}

/// A control block of four pages: Following, acknowledged up to the log's end, with no checkpoint.
fn control(alloc: Global) -> Option<Vec<u8>> {
    let mut bytes = Vec::from_slice(alloc, b"ALSCTL01\0\x01\x01\0\0\0\0\x04").ok()?;
    bytes
        .extend_from_slice(&(LOG.len() as u64).to_be_bytes())
        .ok()?;
    bytes.resize(CONTROL_BYTES, 0).ok()?;
    Some(bytes)
}

/// A folder with the node of four pages that holds the log. None: it can't be written.
pub fn lay_out<R: AllocGlobal + Files<File = File>>(rt: &R, dir: &str) -> Option<()> {
    let alloc = rt.alloc();
    fs::create_dir(rt, dir).ok()?;
    let mut log = Vec::from_slice(alloc, &LOG).ok()?;
    log.resize(LOG_BYTES, 0).ok()?;
    let mut pages = Vec::new(alloc);
    pages.resize(4 * 512, 0).ok()?;
    fs::write(rt, within(alloc, dir, "log.blk")?.as_str(), log.as_slice()).ok()?;
    fs::write(
        rt,
        within(alloc, dir, "control.blk")?.as_str(),
        control(alloc)?.as_slice(),
    )
    .ok()?;
    fs::write(
        rt,
        within(alloc, dir, "pages.blk")?.as_str(),
        pages.as_slice(),
    )
    .ok()
}

/// Whether it is taken back so far, and this is printed.
pub fn is_taken_back<R: AllocGlobal + Files<File = File> + Wait>(
    rt: &R,
    dir: &str,
    to: u64,
    agreed: Option<u64>,
    printed: &str,
) -> Result<bool, Fault> {
    let mut output = Vec::new(rt.alloc());
    rewind(rt, dir, Lsn(to), agreed, &mut Quiet, &mut output)?;
    Ok(output.as_slice() == printed.as_bytes())
}

/// Whether a file has these bytes.
pub fn has<R: AllocGlobal + Files<File = File>>(rt: &R, path: &str, bytes: &[u8]) -> bool {
    match fs::read(rt, path) {
        Ok(found) => found.as_slice() == bytes,
        Err(_) => false,
    }
}
