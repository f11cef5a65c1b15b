use crate::redo_lines::RedoLines;
use als_command::Command;
use als_fault::FaultKind;
use als_progress::Unwatched;
use als_record::Lsn;
use als_rewind::{Loses, LostCommits, lost_commits};
use std::alloc::Global;
use std::fs::File;
use std::io;
use std::io::Write;
use std::rt::Files;
use std::time::Clock;

impl<W: Write, C: Clock> Loses for RedoLines<'_, W, C> {
    fn loses(&mut self, losses: &LostCommits) {
        // Where it can't be said, the number that has to be given guards them.
        let _ = say(self.errors(), losses);
    }
}

/// Says which commits a standby holds behind the seal at which its log parted from that of the node which
/// serves. Of a log that can't be read nothing is said.
pub fn tell<R: AllocGlobal + Files<File = File>, E: Write>(
    rt: &R,
    command: Command,
    kind: FaultKind,
    errors: &mut E,
) {
    let (Command::Standby { dir, .. }, FaultKind::Diverged { seal }) = (command, kind) else {
        return;
    };
    if let Ok(losses) = lost_commits(rt, dir, Lsn(seal), &mut Unwatched) {
        // Where it can't be said, `als rewind` says it.
        let _ = say(errors, &losses);
    }
}

/// Says how many commits are lost, which the first are, and whether clients may know of them.
fn say<W: Write>(errors: &mut W, losses: &LostCommits) -> io::Result<()> {
    let LostCommits {
        past,
        is_damaged,
        is_primary,
    } = losses;
    let (count, from) = (past.count, past.from.0);
    if *is_damaged {
        writeln!(
            errors,
            "als: a record behind {from} is damaged: the commits behind that are not counted"
        )?;
    }
    if count == 0 {
        return Ok(());
    }
    writeln!(errors, "als: commits behind {from}: {count}")?;
    for commit in past.named.iter() {
        writeln!(
            errors,
            "als:   transaction {} at {}",
            commit.trans.0, commit.lsn.0
        )?;
    }
    let more = count.saturating_sub(past.named.len() as u64);
    if more > 0 {
        writeln!(errors, "als:   and {more} more")?;
    }
    let (these, commits) = if count == 1 {
        ("this", "commit")
    } else {
        ("these", "commits")
    };
    if *is_primary {
        writeln!(
            errors,
            "als: this folder is a primary's: without --sync clients were answered for {these} {count} {commits}"
        )
    } else {
        writeln!(
            errors,
            "als: clients may have been answered for {these} {count} {commits}; perhaps the wrong node was taken over"
        )
    }
}
