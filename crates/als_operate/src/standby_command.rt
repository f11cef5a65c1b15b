use crate::fault::Fault;
use crate::opening::named;
use als_disk::FileDisk;
use als_engine::Engine;
use als_folder::Folder;
use std::io::Write;

/// Feeds are refused at this many pending changes.
pub const PENDING: u64 = 1_000_000;

/// What a standby is asked to follow, and with which sizes a new database is laid out.
#[derive(Clone, Copy, Debug)]
pub struct Following<'a> {
    /// The folder of its database.
    pub dir: &'a str,
    /// Where its primary's log is served.
    pub from: &'a str,
    /// Pages of the database, 1 to 4,096.
    pub pages: u64,
    /// Blocks of the log device of a new database, 1 to 4,194,304.
    pub log_blocks: u64,
    /// A checkpoint is taken each so many megabytes of log. 0: only once the session has ended.
    pub checkpoint_mb: u64,
    /// So many seconds the primary may be silent. 0: as long as it likes.
    pub timeout: u64,
}

/// Prints `end=E ack=A` after a session that ended well. The refusal of one that did not is
/// answered, with the file that it is about.
pub fn conclude<O: Write>(
    folder: &Folder,
    engine: &Engine<FileDisk>,
    ended: Result<(), Fault>,
    output: &mut O,
) -> Result<(), Fault> {
    match ended {
        Ok(()) => {
            let status = engine.status();
            writeln!(output, "end={} ack={}", status.end.0, status.acknowledged.0)?;
            Ok(())
        }
        Err(fault) => Err(named(folder, fault)),
    }
}
