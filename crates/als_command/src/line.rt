use crate::backup_lines::{BACKUP, RESTORE};
use crate::texts;
use crate::word::Word;
use clap::{Arg, ArgGroup, Command};
use std::alloc::{AllocError, Global};

/// A command line: the word that it begins with, and those that may follow.
#[derive(Clone, Copy)]
pub(crate) struct Line {
    pub(crate) name: &'static str,
    pub(crate) about: &'static str,
    pub(crate) help: &'static str,
    pub(crate) words: &'static [Word],
    /// One of these has to be given, and one alone, where there are any.
    pub(crate) choice: &'static [&'static str],
}

/// The command lines that the program knows, in the order of its help.
pub(crate) const LINES: [Line; 21] = [
    Line {
        name: "make",
        about: texts::MAKE_ABOUT,
        help: texts::MAKE_HELP,
        words: &[HEX, EXPLAIN],
        choice: &[],
    },
    Line {
        name: "sim",
        about: texts::SIM_ABOUT,
        help: texts::SIM_HELP,
        words: &[EXPLAIN],
        choice: &[],
    },
    Line {
        name: "ship",
        about: texts::SHIP_ABOUT,
        help: texts::SHIP_HELP,
        words: &[
            Word::Free {
                name: "log",
                value: "FILE",
                help: "The log text that is served",
            },
            Word::Free {
                name: "dir",
                value: "DIR",
                help: "The folder of a node whose log is served",
            },
            Word::Text {
                name: "listen",
                value: "ADDR",
                help: "Where the follower comes to",
            },
            TIMEOUT,
            Word::Flag {
                name: "keep",
                help: "Serve up to eight followers at once",
            },
            Word::Flag {
                name: "follow",
                help: "Wait at the end of FILE for it to grow",
            },
            WINDOW,
            EXPLAIN,
        ],
        choice: &["log", "dir"],
    },
    Line {
        name: "standby",
        about: texts::STANDBY_ABOUT,
        help: texts::STANDBY_HELP,
        words: &[
            DIR,
            Word::Text {
                name: "from",
                value: "ADDR",
                help: "Where the primary's log is served",
            },
            Word::Long {
                name: "pages",
                value: "N",
                help: "How many pages the database has",
                is_wanted: true,
            },
            NEW_LOG_BLOCKS,
            Word::Long {
                name: "checkpoint-mb",
                value: "M",
                help: "Megabytes of log from one checkpoint to the next [default: 4]",
                is_wanted: false,
            },
            Word::Long {
                name: "workers",
                value: "W",
                help: "Threads that redo pages, 0 to 8; 0 follows in one thread [default: 4]",
                is_wanted: false,
            },
            TIMEOUT,
            Word::Flag {
                name: "keep",
                help: "Follow one session after another, for ever",
            },
            Word::Free {
                name: "serve",
                value: "ADDR",
                help: "Answer reads over HTTP there: a port of the loopback, or HOST:PORT",
            },
            Word::Long {
                name: "readers",
                value: "R",
                help: "Threads that answer them, 1 to 8 [default: 2]",
                is_wanted: false,
            },
            Word::Flag {
                name: "forget-unreached",
                help: "Forget the takeovers of which DIR holds nothing",
            },
            Word::Flag {
                name: "uncompared",
                help: "Follow also a node that does not answer which log it has",
            },
            LISTEN,
            FOLLOWER,
            WINDOW,
            EXPLAIN,
        ],
        choice: &[],
    },
    Line {
        name: "takeover",
        about: texts::TAKEOVER_ABOUT,
        help: texts::TAKEOVER_HELP,
        words: &[
            Word::FreePlace {
                name: "node",
                value: "DIR",
                help: "The folder of the database; --dir DIR is the same",
            },
            Word::Free {
                name: "dir",
                value: "DIR",
                help: "The folder of the database",
            },
            Word::Several {
                name: "peer",
                value: "PEER",
                help: "Another node: HOST:PORT of its --listen, or its folder; again for each",
            },
            EXPLAIN,
        ],
        choice: &["node", "dir"],
    },
    Line {
        name: "new",
        about: texts::NEW_ABOUT,
        help: texts::NEW_HELP,
        words: &[
            NEW_FOLDER,
            Word::Long {
                name: "pages",
                value: "N",
                help: "How many pages the database has, 1 to 4096",
                is_wanted: true,
            },
            NEW_LOG_BLOCKS,
            EXPLAIN,
        ],
        choice: &[],
    },
    Line {
        name: "commit",
        about: texts::COMMIT_ABOUT,
        help: texts::COMMIT_HELP,
        words: &[
            DIR,
            OWN_PAGES,
            OWN_LOG_BLOCKS,
            Word::Long {
                name: "batch",
                value: "L",
                help: "Lines that one force makes durable, 1 to 1000 [default: 1]",
                is_wanted: false,
            },
            Word::Flag {
                name: "skip-bad",
                help: "Pass over a line that is no transaction",
            },
            EXPLAIN,
        ],
        choice: &[],
    },
    Line {
        name: "primary",
        about: texts::PRIMARY_ABOUT,
        help: texts::PRIMARY_HELP,
        words: &[
            DIR,
            Word::Text {
                name: "serve",
                value: "ADDR",
                help: "Answer over HTTP there: a port of the loopback, or HOST:PORT",
            },
            OWN_PAGES,
            OWN_LOG_BLOCKS,
            Word::Free {
                name: "token-file",
                value: "FILE",
                help: "Who brings the token in FILE may commit, and nobody else",
            },
            Word::Long {
                name: "connections",
                value: "C",
                help: "Connections that are served at a time, 1 to 64 [default: 64]",
                is_wanted: false,
            },
            Word::Long {
                name: "commit-timeout",
                value: "SECONDS",
                help: "How long a transaction may wait to begin, 1 to 3600 [default: 10]",
                is_wanted: false,
            },
            LISTEN,
            Word::Short {
                name: "sync",
                value: "K",
                help: "Answer a commit once K standbys acknowledged it, 0 to 8 [default: 0]",
                is_wanted: false,
            },
            Word::Long {
                name: "read-for",
                value: "SECONDS",
                help: "How long it reads since K standbys answered, 1 to 3600 [default: 5]",
                is_wanted: false,
            },
            FOLLOWER,
            WINDOW,
            TIMEOUT,
            EXPLAIN,
        ],
        choice: &[],
    },
    Line {
        name: "resolve",
        about: texts::RESOLVE_ABOUT,
        help: texts::RESOLVE_HELP,
        words: &[
            DIR,
            Word::Short {
                name: "trans",
                value: "T",
                help: "The transaction",
                is_wanted: true,
            },
            Word::Flag {
                name: "commit",
                help: "Its coordinator has committed it",
            },
            Word::Flag {
                name: "rollback",
                help: "Its coordinator has rolled it back",
            },
            EXPLAIN,
        ],
        choice: &["commit", "rollback"],
    },
    Line {
        name: "rebuild-pages",
        about: texts::REBUILD_PAGES_ABOUT,
        help: texts::REBUILD_PAGES_HELP,
        words: &[DIR, EXPLAIN],
        choice: &[],
    },
    Line {
        name: "dump",
        about: texts::DUMP_ABOUT,
        help: texts::DUMP_HELP,
        words: &[
            PATH,
            Word::Long {
                name: "from",
                value: "LSN",
                help: "Only records from this LSN on",
                is_wanted: false,
            },
            Word::Short {
                name: "trans",
                value: "T",
                help: "Only records of this transaction",
                is_wanted: false,
            },
            Word::Short {
                name: "page",
                value: "P",
                help: "Only records that change this page",
                is_wanted: false,
            },
            Word::Flag {
                name: "commits",
                help: "A line for each commit, with its keys; the options above count for nothing",
            },
            EXPLAIN,
        ],
        choice: &[],
    },
    Line {
        name: "cut",
        about: texts::CUT_ABOUT,
        help: texts::CUT_HELP,
        words: &[
            PATH,
            AT,
            Word::Short {
                name: "before-commit",
                value: "T",
                help: "Up to the commit record of transaction T, without it",
                is_wanted: false,
            },
            EXPLAIN,
        ],
        choice: &["at", "before-commit"],
    },
    Line {
        name: "show",
        about: texts::SHOW_ABOUT,
        help: texts::SHOW_HELP,
        words: &[PATH, AT, EXPLAIN],
        choice: &[],
    },
    Line {
        name: "begin",
        about: texts::BEGIN_ABOUT,
        help: texts::BEGIN_HELP,
        words: &[
            Word::Text {
                name: "from",
                value: "PATH",
                help: "A log file, or the folder of a node",
            },
            EXPLAIN,
        ],
        choice: &[],
    },
    BACKUP,
    RESTORE,
    Line {
        name: "rewind",
        about: texts::REWIND_ABOUT,
        help: texts::REWIND_HELP,
        words: &[
            DIR,
            Word::Long {
                name: "to",
                value: "LSN",
                help: "Where the log is to end: at the end of one of its records",
                is_wanted: true,
            },
            Word::Long {
                name: "lose-commits",
                value: "N",
                help: "How many commits behind LSN are lost: this very number [default: 0]",
                is_wanted: false,
            },
            EXPLAIN,
        ],
        choice: &[],
    },
    Line {
        name: "grow",
        about: texts::GROW_ABOUT,
        help: texts::GROW_HELP,
        words: &[
            DIR,
            Word::Long {
                name: "log-blocks",
                value: "B",
                help: "Blocks that the log is to have, up to 4194304",
                is_wanted: true,
            },
            EXPLAIN,
        ],
        choice: &[],
    },
    Line {
        name: "verify",
        about: texts::VERIFY_ABOUT,
        help: texts::VERIFY_HELP,
        words: &[PATH, EXPLAIN],
        choice: &[],
    },
    Line {
        name: "status",
        about: texts::STATUS_ABOUT,
        help: texts::STATUS_HELP,
        words: &[FOLDER, AT, EXPLAIN],
        choice: &[],
    },
    Line {
        name: "get",
        about: texts::GET_ABOUT,
        help: texts::GET_HELP,
        words: &[FOLDER, KEY_PAGE, KEY_SLOT, AT, EXPLAIN],
        choice: &[],
    },
];

/// Asks for digits.
const HEX: Word = Word::Flag {
    name: "hex",
    help: "Write lower case hexadecimal, the header and each record on a line",
};

/// Asks for remarks.
pub(crate) const EXPLAIN: Word = Word::Flag {
    name: "explain",
    help: "Say more on standard error of what is wrong (so it is on a terminal)",
};

/// Bounds how long a connection may be silent.
pub(crate) const TIMEOUT: Word = Word::Long {
    name: "timeout",
    value: "SECONDS",
    help: "How long the other end may be silent, 0 without a limit [default: 60]",
    is_wanted: false,
};

/// How large a database has to be.
const OWN_PAGES: Word = Word::Long {
    name: "pages",
    value: "N",
    help: "Refuse a database of another number of pages",
    is_wanted: false,
};

/// How long its log has to be.
const OWN_LOG_BLOCKS: Word = Word::Long {
    name: "log-blocks",
    value: "B",
    help: "Refuse a database whose log has fewer blocks",
    is_wanted: false,
};

/// How long its log may get.
const NEW_LOG_BLOCKS: Word = Word::Long {
    name: "log-blocks",
    value: "B",
    help: "Blocks of the log of a new database [default: 2048]",
    is_wanted: false,
};

/// Where followers of the log connect.
const LISTEN: Word = Word::Free {
    name: "listen",
    value: "HOST:PORT",
    help: "Serve the log to up to 8 standbys there",
};

/// Who may follow.
const FOLLOWER: Word = Word::Free {
    name: "follower",
    value: "ADDRS",
    help: "Standbys that may follow, as ADDR or ADDR/BITS, with commas between",
};

/// How far a session sends ahead.
const WINDOW: Word = Word::Short {
    name: "window",
    value: "W",
    help: "Frames sent ahead of their acknowledgements, 1 to 64 [default: 16]",
    is_wanted: false,
};

const PATH: Word = Word::Place {
    name: "path",
    value: "PATH",
    help: "A log file, or the folder of a node",
};

/// Looks at a log up to an LSN.
pub(crate) const AT: Word = Word::Long {
    name: "at",
    value: "LSN",
    help: "Up to the last record that ends at or below this LSN",
    is_wanted: false,
};

const FOLDER: Word = Word::Place {
    name: "folder",
    value: "DIR",
    help: "The folder of a node; with --at a log file too",
};

const NEW_FOLDER: Word = Word::Place {
    name: "folder",
    value: "DIR",
    help: "The folder of the new database, which is there",
};

const KEY_PAGE: Word = Word::PagePlace {
    name: "key-page",
    value: "P",
    help: "The key's page",
};

const KEY_SLOT: Word = Word::SlotPlace {
    name: "key-slot",
    value: "S",
    help: "The key's slot",
};

const DIR: Word = Word::Text {
    name: "dir",
    value: "DIR",
    help: "The folder of the database",
};

impl Line {
    /// The command line as the parser takes it.
    pub(crate) fn command<'a>(self, alloc: Global) -> Result<Command<'a>, AllocError> {
        let mut words: Vec<Arg<'a>> = Vec::new(alloc);
        for word in self.words {
            words.push(word.arg(alloc))?;
        }
        let command = Command::new(alloc, self.name)
            .about(self.about)
            .after_help(self.help)
            .args(words)?;
        if self.choice.is_empty() {
            return Ok(command);
        }
        let choice = ArgGroup::new(alloc, "choice").args(self.choice)?;
        command.group(choice.required(true))
    }
}
