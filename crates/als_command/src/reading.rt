use crate::backup_lines::{CUT_TWICE, backup, is_cut_twice, restore};
use crate::command::Command;
use crate::language::language;
use crate::no_command::NoCommand;
use crate::peers::Peers;
use clap::error::ErrorKind;
use clap::{ArgMatches, Command as Language, Error};
use std::alloc::{AllocError, Global};
use std::convert::AsStr;

/// The megabytes of log from one checkpoint to the next, where the command line does not say.
const CHECKPOINT_MB: u64 = 4;

/// The threads that redo pages, where the command line does not say.
const WORKERS: u64 = 4;

/// The seconds that the other end may be silent, where the command line does not say.
const TIMEOUT: u64 = 60;

/// The connections that a primary serves at a time, where the command line does not say.
const CONNECTIONS: u64 = 64;

/// The seconds that a transaction may wait to begin, where the command line does not say.
const COMMIT_TIMEOUT: u64 = 10;

/// What is said of words of which one is of a file, and the other of a folder.
const PARTED: &str =
    "the argument '--follow' cannot be used with '--dir <DIR>': a node's log does not grow while it is shipped; --keep can";

/// What is said of more peers than a takeover asks.
const CROWDED: &str = "the argument '--peer <PEER>' cannot be used more than eight times";

/// What the words ask for, of which the first is the program's name.
pub fn args<'a, S: AsStr>(alloc: Global, words: &'a [S]) -> Result<Command<'a>, NoCommand> {
    match parsed(alloc, words) {
        Ok(command) => Ok(command),
        Err(error) => Err(told(alloc, &error)?),
    }
}

/// What the words ask for. An error is a mistake in the words, a request for help, or want of
/// memory; its text says which.
fn parsed<'a, S: AsStr>(alloc: Global, words: &'a [S]) -> Result<Command<'a>, Error> {
    let mut als = language(alloc)?;
    matched(&mut als, words)
}

/// What the words ask a program for that knows these command lines.
fn matched<'a, S: AsStr>(als: &mut Language<'a>, words: &'a [S]) -> Result<Command<'a>, Error> {
    let matches = als.try_get_matches_from_mut(words)?;
    if is_parted(&matches) {
        return Err(als.error(ErrorKind::ArgumentConflict, PARTED)?);
    }
    if is_crowded(&matches) {
        return Err(als.error(ErrorKind::TooManyValues, CROWDED)?);
    }
    if is_cut_twice(&matches) {
        return Err(als.error(ErrorKind::ArgumentConflict, CUT_TWICE)?);
    }
    match found(&matches) {
        Ok(command) => Ok(command),
        Err(lack) => Err(als.error(lack, "an argument is wanted")?),
    }
}

/// Whether a node's log is to be shipped, and waited for to grow: nobody writes it meanwhile.
fn is_parted(matches: &ArgMatches<'_>) -> bool {
    match matches.subcommand() {
        Some(("ship", ship)) => ship.get_flag("follow") && ship.get_str("dir").is_some(),
        _ => false,
    }
}

/// Whether a takeover names more peers than it asks.
fn is_crowded(matches: &ArgMatches<'_>) -> bool {
    match matches.subcommand() {
        Some(("takeover", takeover)) => {
            Peers::of(takeover.get_strs("peer").unwrap_or(&[])).is_none()
        }
        _ => false,
    }
}

/// The command that was found. An error is what was not, which the parser has printed by then.
fn found<'a>(matches: &ArgMatches<'a>) -> Result<Command<'a>, ErrorKind> {
    let (name, matches) = matches.subcommand().ok_or(ErrorKind::MissingSubcommand)?;
    asked(name, matches).ok_or(ErrorKind::MissingRequiredArgument)
}

/// What is said of words that are no command.
fn told(alloc: Global, error: &Error) -> Result<NoCommand, AllocError> {
    if matches!(error.kind(), ErrorKind::OutOfMemory) {
        return Ok(NoCommand::Memory);
    }
    let text = format!(in alloc; "{error}")?;
    if error.use_stderr() {
        Ok(NoCommand::Mistake(text))
    } else {
        Ok(NoCommand::Help(text))
    }
}

/// The command of this name. None: an argument that has to be given is missing, which the parser
/// has printed by then.
fn asked<'a>(name: &str, matches: &ArgMatches<'a>) -> Option<Command<'a>> {
    match name {
        "make" => Some(Command::Make {
            hex: matches.get_flag("hex"),
            explain: matches.get_flag("explain"),
        }),
        "sim" => Some(Command::Sim {
            explain: matches.get_flag("explain"),
        }),
        "ship" => ship(matches),
        "standby" => standby(matches),
        "takeover" => takeover(matches),
        "new" => new(matches),
        "commit" => commit(matches),
        "primary" => primary(matches),
        "resolve" => resolve(matches),
        "rebuild-pages" => rebuild_pages(matches),
        "dump" => dump(matches),
        "cut" => cut(matches),
        "show" => show(matches),
        "begin" => begin(matches),
        "backup" => backup(matches, TIMEOUT),
        "restore" => restore(matches),
        "rewind" => rewind(matches),
        "grow" => grow(matches),
        "verify" => verify(matches),
        "status" => status(matches),
        "get" => get(matches),
        _ => None,
    }
}

fn ship<'a>(matches: &ArgMatches<'a>) -> Option<Command<'a>> {
    let listen = matches.get_str("listen")?;
    let timeout = matches.get_one("timeout").unwrap_or(TIMEOUT);
    let keep = matches.get_flag("keep");
    let follow = matches.get_flag("follow");
    let explain = matches.get_flag("explain");
    let Some(dir) = matches.get_str("dir") else {
        return Some(Command::Ship {
            log: matches.get_str("log")?,
            listen,
            timeout,
            keep,
            follow,
            window: matches.get_one("window"),
            explain,
        });
    };
    Some(Command::ShipNode {
        dir,
        listen,
        timeout,
        keep,
        window: matches.get_one("window"),
        explain,
    })
}

fn standby<'a>(matches: &ArgMatches<'a>) -> Option<Command<'a>> {
    Some(Command::Standby {
        dir: matches.get_str("dir")?,
        from: matches.get_str("from")?,
        pages: matches.get_one("pages")?,
        log_blocks: matches.get_one("log-blocks"),
        checkpoint_mb: matches.get_one("checkpoint-mb").unwrap_or(CHECKPOINT_MB),
        workers: matches.get_one("workers").unwrap_or(WORKERS),
        timeout: matches.get_one("timeout").unwrap_or(TIMEOUT),
        keep: matches.get_flag("keep"),
        serve: matches.get_str("serve"),
        readers: matches.get_one("readers"),
        forget_unreached: matches.get_flag("forget-unreached"),
        uncompared: matches.get_flag("uncompared"),
        listen: matches.get_str("listen"),
        window: matches.get_one("window"),
        followers: matches.get_str("follower"),
        explain: matches.get_flag("explain"),
    })
}

fn takeover<'a>(matches: &ArgMatches<'a>) -> Option<Command<'a>> {
    let dir = match matches.get_str("dir") {
        Some(dir) => dir,
        None => matches.get_str("node")?,
    };
    let named = matches.get_strs("peer").unwrap_or(&[]);
    Some(Command::Takeover {
        dir,
        peers: Peers::of(named)?,
        explain: matches.get_flag("explain"),
    })
}

fn new<'a>(matches: &ArgMatches<'a>) -> Option<Command<'a>> {
    Some(Command::New {
        dir: matches.get_str("folder")?,
        pages: matches.get_one("pages")?,
        log_blocks: matches.get_one("log-blocks"),
        explain: matches.get_flag("explain"),
    })
}

fn commit<'a>(matches: &ArgMatches<'a>) -> Option<Command<'a>> {
    Some(Command::Commit {
        dir: matches.get_str("dir")?,
        pages: matches.get_one("pages"),
        log_blocks: matches.get_one("log-blocks"),
        batch: matches.get_one("batch").unwrap_or(1),
        skip_bad: matches.get_flag("skip-bad"),
        explain: matches.get_flag("explain"),
    })
}

fn primary<'a>(matches: &ArgMatches<'a>) -> Option<Command<'a>> {
    Some(Command::Primary {
        dir: matches.get_str("dir")?,
        serve: matches.get_str("serve")?,
        pages: matches.get_one("pages"),
        log_blocks: matches.get_one("log-blocks"),
        token_file: matches.get_str("token-file"),
        connections: matches.get_one("connections").unwrap_or(CONNECTIONS),
        commit_timeout: matches.get_one("commit-timeout").unwrap_or(COMMIT_TIMEOUT),
        listen: matches.get_str("listen"),
        sync: matches.get_one("sync").unwrap_or(0),
        read_for: matches.get_one("read-for"),
        window: matches.get_one("window"),
        followers: matches.get_str("follower"),
        timeout: matches.get_one("timeout").unwrap_or(TIMEOUT),
        explain: matches.get_flag("explain"),
    })
}

fn resolve<'a>(matches: &ArgMatches<'a>) -> Option<Command<'a>> {
    Some(Command::Resolve {
        dir: matches.get_str("dir")?,
        trans: matches.get_one("trans")?,
        is_commit: matches.get_flag("commit"),
        explain: matches.get_flag("explain"),
    })
}

fn rebuild_pages<'a>(matches: &ArgMatches<'a>) -> Option<Command<'a>> {
    Some(Command::RebuildPages {
        dir: matches.get_str("dir")?,
        explain: matches.get_flag("explain"),
    })
}

fn dump<'a>(matches: &ArgMatches<'a>) -> Option<Command<'a>> {
    let path = matches.get_str("path")?;
    let explain = matches.get_flag("explain");
    if matches.get_flag("commits") {
        return Some(Command::Commits { path, explain });
    }
    Some(Command::Dump {
        path,
        from: matches.get_one("from").unwrap_or(0),
        trans: matches.get_one("trans"),
        page: matches.get_one("page"),
        explain,
    })
}

fn cut<'a>(matches: &ArgMatches<'a>) -> Option<Command<'a>> {
    let path = matches.get_str("path")?;
    let explain = matches.get_flag("explain");
    match matches.get_one("at") {
        Some(lsn) => Some(Command::CutAt { path, lsn, explain }),
        None => Some(Command::CutBefore {
            path,
            trans: matches.get_one("before-commit")?,
            explain,
        }),
    }
}

fn show<'a>(matches: &ArgMatches<'a>) -> Option<Command<'a>> {
    Some(Command::Show {
        path: matches.get_str("path")?,
        at: matches.get_one("at"),
        explain: matches.get_flag("explain"),
    })
}

fn begin<'a>(matches: &ArgMatches<'a>) -> Option<Command<'a>> {
    Some(Command::Begin {
        path: matches.get_str("from")?,
        explain: matches.get_flag("explain"),
    })
}

fn rewind<'a>(matches: &ArgMatches<'a>) -> Option<Command<'a>> {
    Some(Command::Rewind {
        dir: matches.get_str("dir")?,
        lsn: matches.get_one("to")?,
        lose_commits: matches.get_one("lose-commits"),
        explain: matches.get_flag("explain"),
    })
}

fn grow<'a>(matches: &ArgMatches<'a>) -> Option<Command<'a>> {
    Some(Command::Grow {
        dir: matches.get_str("dir")?,
        log_blocks: matches.get_one("log-blocks")?,
        explain: matches.get_flag("explain"),
    })
}

fn verify<'a>(matches: &ArgMatches<'a>) -> Option<Command<'a>> {
    Some(Command::Verify {
        path: matches.get_str("path")?,
        explain: matches.get_flag("explain"),
    })
}

fn status<'a>(matches: &ArgMatches<'a>) -> Option<Command<'a>> {
    Some(Command::Status {
        dir: matches.get_str("folder")?,
        at: matches.get_one("at"),
        explain: matches.get_flag("explain"),
    })
}

fn get<'a>(matches: &ArgMatches<'a>) -> Option<Command<'a>> {
    Some(Command::Get {
        dir: matches.get_str("folder")?,
        page: matches.get_one("key-page")?,
        slot: matches.get_one("key-slot")?,
        at: matches.get_one("at"),
        explain: matches.get_flag("explain"),
    })
}
