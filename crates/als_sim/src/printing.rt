use crate::refusal_line::RefusalLine;
use als_engine::{Fault, Fed, FeedFault, Reply};
use als_record::Lsn;
use als_text::ShownImage;
use als_world::WorldReply;
use std::io;
use std::io::Write;

/// The line of a step's reply; `end` is where the log then ends.
pub fn reply<W: Write>(output: &mut W, reply: &Reply, end: Lsn) -> io::Result<()> {
    let end = end.0;
    match reply {
        Reply::Done => writeln!(output, "ok"),
        Reply::Undone(lsn) | Reply::Resolved(lsn) => writeln!(output, "ok lsn={}", lsn.0),
        Reply::Acknowledged(lsn) => writeln!(output, "ok ack={}", lsn.0),
        Reply::Fed(Fed { taken, records }) => {
            writeln!(output, "ok taken={taken} records={records} end={end}")
        }
        Reply::FeedRefused(
            FeedFault {
                taken,
                records,
                fault,
            },
        ) => {
            let line = RefusalLine(*fault);
            writeln!(output, "{line} taken={taken} records={records} end={end}")
        }
        Reply::Refused(fault) => refused(output, *fault),
    }
}

/// The line of a takeover; `end` is where the log then ends.
pub fn taken_over<W: Write>(output: &mut W, reply: &Reply, end: Lsn) -> io::Result<()> {
    match reply {
        Reply::Refused(fault) => refused(output, *fault),
        _ => writeln!(output, "ok end={}", end.0),
    }
}

/// The line of a crash, of a read or of a step over a worker slot.
pub fn world_reply<W: Write>(output: &mut W, reply: &WorldReply) -> io::Result<()> {
    match reply {
        WorldReply::Restarted(end) => writeln!(output, "ok end={}", end.0),
        WorldReply::Lent { number, batch } => writeln!(output, "ok lease={number} batch={batch}"),
        WorldReply::Redone(lsn) => writeln!(output, "ok lsn={}", lsn.0),
        WorldReply::Done => writeln!(output, "ok"),
        WorldReply::Answered(answer) => {
            let (value, lsn) = (ShownImage(&answer.value), answer.lsn.0);
            writeln!(output, "ok {value} commits={} lsn={lsn}", answer.commits)
        }
        WorldReply::Refused(fault) => refused(output, *fault),
        WorldReply::Event(_) => Ok(()), // Of these steps none is answered so.
    }
}

/// The line of a refusal.
pub fn refused<W: Write>(output: &mut W, fault: Fault) -> io::Result<()> {
    let line = RefusalLine(fault);
    writeln!(output, "{line}")
}
