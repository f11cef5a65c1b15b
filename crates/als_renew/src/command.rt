use crate::beginning::begin_log;
use crate::fault::Fault;
use als_lookback::{Until, open};
use als_progress::{Advance, Watched, Work};
use als_record::Lsn;
use std::fs::File;
use std::io::Write;
use std::rt::Files;

/// Writes a new generation of the log of a file or a folder, and answers where it ends.
///
/// `advance` receives how far the old log was read. As `begin_log`. Look: the folder or a file of it failed too, another program has it, or nothing
/// says how far its log is acknowledged.
pub fn begin<R: AllocGlobal + Files<File = File>, A: Advance, O: Write>(
    rt: &R,
    path: &str,
    advance: &mut A,
    output: &mut O,
) -> Result<Lsn, Fault> {
    let source = open(rt, path)?;
    let whole = source.reach(Until::End);
    let (reader, folder) = source.into_parts();
    let reader = Watched::new(reader, Work::Judge, whole, advance);
    let end = begin_log(rt.alloc(), reader, output)?;
    drop(folder);
    Ok(end)
}
