use crate::trouble::Trouble;
use als_disk::MemDisk;
use als_engine::{Engine, Fault, Fed, FeedFault, PageLease, State};
use std::alloc::Global;

/// What an event answers.
pub fn of(alloc: Global, answer: Result<(), Fault>) -> Result<String, Trouble> {
    match answer {
        Ok(()) => Ok(String::from_str(alloc, "ok")?),
        Err(fault) => refused(alloc, fault),
    }
}

/// A refusal.
pub fn refused(alloc: Global, fault: Fault) -> Result<String, Trouble> {
    Ok(format!(in alloc; "refused {fault}")?)
}

/// A lease.
pub fn lent(alloc: Global, lease: Result<PageLease, Fault>) -> Result<String, Trouble> {
    match lease {
        Ok(lease) => {
            let (number, batch) = (lease.number(), lease.batch().len());
            Ok(format!(in alloc; "ok lease={number} batch={batch}")?)
        }
        Err(fault) => refused(alloc, fault),
    }
}

/// Feeds a piece. The log's end and the bytes of a partial record are told too.
pub fn feed(alloc: Global, engine: &mut Engine<MemDisk>, piece: &[u8]) -> Result<String, Trouble> {
    let (mut line, taken, records) = match engine.feed(piece) {
        Ok(Fed { taken, records }) => (String::from_str(alloc, "ok")?, taken, records),
        Err(
            FeedFault {
                taken,
                records,
                fault,
            },
        ) => (refused(alloc, fault)?, taken, records),
    };
    let status = engine.status();
    let (end, partial) = (status.end.0, status.partial);
    let ending = format!(in alloc; " taken={taken} records={records} end={end} partial={partial}")?;
    line.push_str(ending.as_str())?;
    Ok(line)
}

/// The status.
pub fn status(alloc: Global, engine: &Engine<MemDisk>) -> Result<String, Trouble> {
    let status = engine.status();
    let state = match status.state {
        State::Recovering => "Recovering",
        State::Following => "Following",
        State::Refusing { .. } => "Refusing",
        State::Sealed => "Sealed",
        State::Primary => "Primary",
        State::Stopped => "Stopped",
    };
    let (end, acknowledged) = (status.end.0, status.acknowledged.0);
    let (pending, leases) = (status.pending, status.leases);
    Ok(format!(in alloc;
        "state={state} end={end} ack={acknowledged} pending={pending} leases={leases}"
    )?)
}
