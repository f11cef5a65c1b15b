use als_fault::FaultKind;
use std::io;
use std::io::Write;

/// Says in words why a standby goes no further, and what an operator does then: its log or history is not
/// that of the node which it was to follow, or its log has no room.
pub fn tell<W: Write>(errors: &mut W, path: &str, kind: FaultKind) -> io::Result<()> {
    match kind {
        FaultKind::Diverged { seal } => writeln!(
            errors,
            "als: {path}: the two logs parted at offset {seal}: the node that serves goes on from a takeover that was sealed there, and this log goes past it. What it holds past {seal} is not in that node's log. First see that both are one log up to there, by als cut PATH --at {seal} | sha256sum of both: where they differ, or that node's log was begun by als begin, it is another log, and only an empty folder follows it. Where they are the same, als rewind --dir {path} --to {seal} keeps what is past it in a file beside the folder, which follows on then; or keep the folder, and follow with an empty one"
        ),
        FaultKind::OtherEpoch { epoch } => writeln!(
            errors,
            "als: {path}: the node that serves has epoch {epoch}, and its takeovers do not go on from those that this one knows. Follow the node that took over last, or keep this folder and follow with an empty one. Where the node that took over last is gone for good, and this folder never reached its takeover, als standby --forget-unreached drops that takeover"
        ),
        FaultKind::OtherLog => writeln!(
            errors,
            "als: {path}: the node that serves has another log: both have bytes at one offset, and they differ. One of the two lost what it had not forced, or was restored from a copy. Nothing of this folder's log has changed: keep it. Find the log that is right, by sha256= of als verify of both; then follow that one with an empty folder, or with this one once als rewind took it back to where both are the same; or take over from this one"
        ),
        FaultKind::LogFull => writeln!(
            errors,
            "als: {path}: the log has no room for what comes next, which this node lacks. als grow makes it longer, and then als standby goes on. Take it over only where no other node has more (als takeover --peer): what it lacks may have been answered. At 4194304 blocks, 2 GiB, als begin makes a new log of what the database holds, for a new primary and its standbys"
        ),
        _ => Ok(()),
    }
}

/// Says in words why a node can't be taken over, and what an operator does then.
pub fn tell_leader<W: Write>(errors: &mut W, path: &str, kind: FaultKind) -> io::Result<()> {
    match kind {
        FaultKind::EpochsSpent => writeln!(
            errors,
            "als: {path}: the history has 32 takeovers, and no room for one more. Where als status shows seals at end= that this folder never reached, als standby --forget-unreached drops them. Else begin a history: als cut {path} --at END > FILE, END being end= of als status; als ship --log FILE --listen ADDR; als standby of an empty folder --from there, until its end= is END; and als takeover of that folder. It keeps each value, LSN and transaction in doubt; the other standbys follow it with empty folders. als begin does so too, with new LSNs"
        ),
        _ => Ok(()),
    }
}
