ghost use Rattle.std.specs.Prelude.{ℕ, OnOk};
ghost use Rattle.std.specs.Io.KnownBytes.{Appends};
ghost use Rattle.als_shipper.specs.Lines.{sent_line};

use crate::callers::Callers;
use crate::file_text::FileText;
use crate::log_questions::LogQuestions;
use crate::meeting::Meetings;
use crate::shipping::serve_next;
use als_folder::Folder;
use als_operate::{Fault, PENDING, named, reopen, silence};
use als_ship::{Fault as SessionFault, LogBytes, acknowledged_log};
use std::fs::{File, OpenFile};
use std::io::Write;
use std::net::{Net, TcpListener};
use std::rt::Files;
use std::sync::Wait;
use std::time::Clock;

/// A node whose log is shipped, and where.
#[derive(Clone, Copy, Debug)]
pub struct NodeShipping<'a> {
    /// The folder of the node.
    pub dir: &'a str,
    /// Where a follower comes to.
    pub listen: &'a str,
    /// So many seconds a follower may be silent; 0: as long as it likes.
    pub timeout: u64,
}

/// Serves the log of a folder's node, as far as it is acknowledged, with the node's history, to the
/// first follower that asks for it, as `ship` serves a file. The folder is held until then.
///
/// Device: the folder or one of its files failed, it has no database, or another program has it.
/// Memory: there was none for the log. Session, Stream: as `ship` says. Else as `Engine::open` says.
pub fn ship_node<R: AllocGlobal + Files<File = File> + Net + Wait + Clock, M: Meetings, O: Write>(
    rt: &R,
    shipping: NodeShipping<'_>,
    meetings: &mut M,
    output: &mut O,
) -> Result<(), Fault>
    ensures told { OnOk result ((n : ℕ) × Appends (O.contents output.old) (O.contents output.new)
        (sent_line n)) }
{
    let folder = Folder::hold(rt, shipping.dir)?;
    match serve_node(rt, &folder, shipping, meetings, output) {
        Ok(()) => Ok(()),
        Err(fault) => Err(named(&folder, fault)),
    }
}

/// The same of a folder that is held.
fn serve_node<R: AllocGlobal + Files<File = File> + Net + Wait + Clock, M: Meetings, O: Write>(
    rt: &R,
    folder: &Folder,
    shipping: NodeShipping<'_>,
    meetings: &mut M,
    output: &mut O,
) -> Result<(), Fault>
    ensures told { OnOk result ((n : ℕ) × Appends (O.contents output.old) (O.contents output.new)
        (sent_line n)) }
{
    let mut source = source_of(rt, folder)?;
    let listener = TcpListener::bind(rt, shipping.listen)?;
    let beside = folder.open_to_read(rt)?.log.try_clone()?;
    let questions = LogQuestions::new(rt.alloc(), FileText::of(beside, &source));
    let limit = silence(shipping.timeout);
    let mut callers = Callers::answering(rt.alloc(), &listener, rt, limit, questions);
    serve_next(rt.alloc(), &mut source, &mut callers, meetings, output)
}

/// What the folder's node has acknowledged of its log, with its history.
pub(crate) fn source_of<R: AllocGlobal + Files<File = File> + Wait>(
    rt: &R,
    folder: &Folder,
) -> Result<LogBytes, Fault> {
    let mut engine = reopen(rt, folder, PENDING)?;
    match acknowledged_log(rt.alloc(), &mut engine) {
        Ok(log) => Ok(log),
        Err(SessionFault::Refused(fault)) => Err(Fault::Refused(fault)),
        Err(fault) => Err(Fault::Session(fault)),
    }
}
