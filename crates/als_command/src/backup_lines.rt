// The command lines of a backup and of a node out of it, their pages of help, and what they ask for.
use crate::command::Command;
use crate::line::{AT, EXPLAIN, Line, TIMEOUT};
use crate::word::Word;
use clap::ArgMatches;

/// What is said of words of which each cuts a log at another place.
pub(crate) const CUT_TWICE: &str =
    "the argument '--at <LSN>' cannot be used with '--before-commit <T>'";

/// `als backup`.
pub(crate) const BACKUP: Line = Line {
    name: "backup",
    about: "Writes the log of a node, up to the end that it has acknowledged",
    help: BACKUP_HELP,
    words: &[
        Word::Free {
            name: "from",
            value: "HOST:PORT",
            help: "A node that runs: the address of its --listen",
        },
        Word::Free {
            name: "dir",
            value: "DIR",
            help: "The folder of a node that does not run",
        },
        Word::Free {
            name: "resume",
            value: "FILE",
            help: "Append what is new to FILE, in place of standard output",
        },
        Word::Short {
            name: "pages",
            value: "N",
            help: "How many pages the database has; else the node is asked",
            is_wanted: false,
        },
        TIMEOUT,
        EXPLAIN,
    ],
    choice: &["from", "dir"],
};

const BACKUP_HELP: &str =
    "Asks the node at HOST:PORT (`als primary` or `als standby` with --listen, `als ship --keep`) up to
where its log is acknowledged, and follows it from the first record up to there, as a standby would.
The node runs on, and clients commit meanwhile. Each record is checked before it ends with 0. It
acknowledges nothing, so it counts for no commit of --sync; it takes one of the eight places of
those who follow, and where --follower names addresses it has to be one of them. With --dir it
reads the log of a node that does not run.
Writes the log text to standard output: header and records, as `als dump`, `als verify`, `als cut`
and `als restore` read it. Standard error: `end=E epoch=N seals=S,S new=B sha256=X`: where the text
ends, how many takeovers were before the node, and their seals (`none` without one), which a restored
node needs to follow on; B bytes were written now, and X is what `als verify` prints of the text.
With --resume it appends to FILE what the log has behind it, and syncs it. FILE may end anywhere, as
a kill leaves it. The node is asked first whether its log is the same up to there, and where it is
not FILE stays as it is. A FILE that is missing or empty becomes a backup from the first byte on.
Without --pages the node is asked for its page count by one question for each, powers of two first.

Example:
  als backup --from 10.0.0.3:7070 > als.log
  als backup --from 10.0.0.3:7070 --resume als.log

Exit statuses: 0 done, 2 a fault of the command line, 3 `als: refused N Name`: then standard output
is of no use, and FILE may go on with --resume:
  1   FILE has no header, or no page count is the node's
  2 to 16 a record of the node or of FILE is none, or may not follow
  30, 34 DIR is a folder that failed, has no database, or is in use; or it is damaged
  32  there was no memory
  40  the node's log is shorter than FILE
  41  HOST:PORT is no node that serves its log
  43  the node hung up: eight follow already, this address may not, or N is not its page count
  44  nobody serves at HOST:PORT, it was silent for longer than SECONDS, or a file failed
  48  the node's takeovers do not go on from FILE
  50  the node has another log than FILE";

/// `als restore`.
pub(crate) const RESTORE: Line = Line {
    name: "restore",
    about: "Makes a node of a backup in an empty folder",
    help: RESTORE_HELP,
    words: &[
        Word::Place {
            name: "path",
            value: "FILE",
            help: "A log file, as als backup writes it",
        },
        Word::Text {
            name: "dir",
            value: "NEW",
            help: "An empty folder for the new node",
        },
        AT,
        Word::Short {
            name: "before-commit",
            value: "T",
            help: "Up to the commit record of transaction T, without it",
            is_wanted: false,
        },
        Word::Long {
            name: "log-blocks",
            value: "B",
            help: "Blocks of the new node's log [default: twice what it needs, 2048 at least]",
            is_wanted: false,
        },
        Word::Free {
            name: "seals",
            value: "S,S",
            help: "The seals that als backup printed, to follow a node that was taken over",
        },
        EXPLAIN,
    ],
    choice: &[],
};

const RESTORE_HELP: &str =
    "Reads FILE whole, and checks each record, before anything is written. Then lays a node out in NEW,
a folder that is there and empty, and puts the log on its devices: up to the end of FILE, to the
last record that ends at or below LSN, or up to the commit record of T, without it. Pages and sizes
come from FILE. NEW has a database only once all of it is written: after a kill run it again, and
where NEW is not empty then (30), empty it first.
The node is a standby that follows nobody yet. `als takeover NEW` makes a primary of it: transactions
that had not ended are rolled back, as at each takeover. `als standby --dir NEW --from` the node that
was backed up goes on where FILE ends; where that node was taken over before, give --seals.
Writes standard output: `end=E pages=N log-blocks=B commits=C`.

Example:
  mkdir new
  als restore als.log --dir new
  als takeover new

Exit statuses: 0 done, 2 a fault of the command line, 3 `als: refused N Name`:
  1 to 16 FILE is no log: `als verify` tells where. Nothing was written
  29  B has no room for what a takeover in between would append: give more
  30  NEW is no folder, is not empty, or failed
  37  LSN is within the header or past the end of FILE, T has no commit, B is too few (standard error
      says how many it takes) or more than 4,194,304, or a seal is past the end. Nothing was written
  43  FILE ends within a record: `als backup --resume` goes on, or --at ends before it
  44  FILE can't be read, or standard output failed";

/// What `als backup` is asked for.
pub(crate) fn backup<'a>(matches: &ArgMatches<'a>, timeout: u64) -> Option<Command<'a>> {
    Some(Command::Backup {
        from: matches.get_str("from"),
        dir: matches.get_str("dir"),
        resume: matches.get_str("resume"),
        pages: matches.get_one("pages"),
        timeout: matches.get_one("timeout").unwrap_or(timeout),
        explain: matches.get_flag("explain"),
    })
}

/// What `als restore` is asked for.
pub(crate) fn restore<'a>(matches: &ArgMatches<'a>) -> Option<Command<'a>> {
    Some(Command::Restore {
        path: matches.get_str("path")?,
        dir: matches.get_str("dir")?,
        at: matches.get_one("at"),
        before_commit: matches.get_one("before-commit"),
        log_blocks: matches.get_one("log-blocks"),
        seals: matches.get_str("seals"),
        explain: matches.get_flag("explain"),
    })
}

/// Whether a log is to be cut at two places.
pub(crate) fn is_cut_twice(matches: &ArgMatches<'_>) -> bool {
    match matches.subcommand() {
        Some(("restore", restore)) => {
            let at: Option<u64> = restore.get_one("at");
            let trans: Option<u32> = restore.get_one("before-commit");
            at.is_some() && trans.is_some()
        }
        _ => false,
    }
}
