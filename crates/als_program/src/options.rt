// Which option of a command is refused.
use als_command::Command;
use als_followers::Block;
use std::io;
use std::io::Write;

/// What is wrong with an option.
#[derive(Clone, Copy)]
pub enum Mistake<'a> {
    /// It is not between these two.
    Range {
        name: &'static str,
        given: u64,
        least: u64,
        most: u64,
    },
    /// It has no effect without this other one.
    Alone {
        name: &'static str,
        wants: &'static str,
    },
    /// This one of the addresses of `--follower` is neither an address nor a block.
    NoBlock(&'a str),
}

/// The most pages of a database.
const PAGES: u64 = 4_096;

/// The most blocks of a log.
const BLOCKS: u64 = 4_194_304;

/// The most seconds of an option of `als primary`.
const SECONDS: u64 = 3_600;

/// An option without the one that gives it an effect. The lower crates have a default for it, and do not know
/// whether it was given.
pub fn misplaced(command: Command<'_>) -> Option<Mistake<'static>> {
    match command {
        Command::Standby {
            serve,
            readers,
            listen,
            window,
            followers,
            ..
        } => alone("--readers", "--serve", readers.is_some(), serve.is_some())
            .or(alone("--window", "--listen", window.is_some(), listen.is_some()))
            .or(alone(
                "--follower",
                "--listen",
                followers.is_some(),
                listen.is_some(),
            )),
        Command::Primary {
            listen,
            sync,
            read_for,
            window,
            followers,
            ..
        } => alone("--sync", "--listen", sync > 0, listen.is_some())
            .or(alone("--read-for", "--sync", read_for.is_some(), sync > 0))
            .or(alone("--window", "--listen", window.is_some(), listen.is_some()))
            .or(alone(
                "--follower",
                "--listen",
                followers.is_some(),
                listen.is_some(),
            )),
        Command::Ship {
            keep,
            follow,
            window,
            ..
        } => alone(
            "--window",
            "--keep or --follow",
            window.is_some(),
            keep || follow,
        ),
        Command::ShipNode { keep, window, .. } => {
            alone("--window", "--keep", window.is_some(), keep)
        }
        _ => None,
    }
}

/// What is wrong where an option is given without another one.
fn alone(
    name: &'static str,
    wants: &'static str,
    is_given: bool,
    has_other: bool,
) -> Option<Mistake<'static>> {
    if is_given && !has_other {
        return Some(Mistake::Alone { name, wants });
    }
    None
}

/// The number of an option. None: it was not given.
type Numbered = (&'static str, Option<u64>, u64, u64);

/// The first of these options that is out of its range.
fn beyond(options: &[Numbered]) -> Option<Mistake<'static>> {
    for option in options {
        let (name, given, least, most) = *option;
        if let Some(given) = given {
            if given < least || given > most {
                return Some(Mistake::Range {
                    name,
                    given,
                    least,
                    most,
                });
            }
        }
    }
    None
}

/// The option of a command that is out of its range.
fn ranged(command: Command<'_>) -> Option<Mistake<'static>> {
    match command {
        Command::New {
            pages,
            log_blocks,
            ..
        } => beyond(&[
            ("--pages", Some(pages), 1, PAGES),
            ("--log-blocks", log_blocks, 1, BLOCKS),
        ]),
        Command::Commit {
            pages,
            log_blocks,
            batch,
            ..
        } => beyond(&[
            ("--pages", pages, 1, PAGES),
            ("--log-blocks", log_blocks, 1, BLOCKS),
            ("--batch", Some(batch), 1, 1_000),
        ]),
        Command::Ship { window, .. } | Command::ShipNode { window, .. } => {
            beyond(&[("--window", window.map(u64::from), 1, 64)])
        }
        Command::Standby { .. } => ranged_of_standby(command),
        Command::Primary { .. } => ranged_of_primary(command),
        _ => None,
    }
}

/// The same of `als standby`.
fn ranged_of_standby(command: Command<'_>) -> Option<Mistake<'static>> {
    match command {
        Command::Standby {
            pages,
            log_blocks,
            workers,
            readers,
            window,
            ..
        } => beyond(&[
            ("--pages", Some(pages), 1, PAGES),
            ("--log-blocks", log_blocks, 1, BLOCKS),
            ("--workers", Some(workers), 0, 8),
            ("--readers", readers, 1, 8),
            ("--window", window.map(u64::from), 1, 64),
        ]),
        _ => None,
    }
}

/// The same of `als primary`.
fn ranged_of_primary(command: Command<'_>) -> Option<Mistake<'static>> {
    match command {
        Command::Primary {
            pages,
            log_blocks,
            connections,
            commit_timeout,
            sync,
            read_for,
            window,
            timeout,
            ..
        } => beyond(&[
            ("--pages", pages, 1, PAGES),
            ("--log-blocks", log_blocks, 1, BLOCKS),
            ("--connections", Some(connections), 1, 64),
            ("--commit-timeout", Some(commit_timeout), 1, SECONDS),
            ("--sync", Some(u64::from(sync)), 0, 8),
            ("--read-for", read_for, 1, SECONDS),
            ("--window", window.map(u64::from), 1, 64),
            ("--timeout", Some(timeout), 0, SECONDS),
        ]),
        _ => None,
    }
}

/// The first name of `--follower` that is neither an address nor a block.
fn unfit(list: &str) -> Option<Mistake<'_>> {
    for name in list.split(',') {
        if Block::parse(name).is_none() {
            return Some(Mistake::NoBlock(name));
        }
    }
    None
}

/// The option for which a command is refused by BadConfig. None: it is for something else.
pub fn mistake_in(command: Command<'_>) -> Option<Mistake<'_>> {
    let named = match command {
        Command::Primary {
            followers: Some(list),
            ..
        }
        | Command::Standby {
            followers: Some(list),
            ..
        } => unfit(list),
        _ => None,
    };
    match misplaced(command).or(ranged(command)) {
        Some(mistake) => Some(mistake),
        None => named,
    }
}

/// Says what is wrong with an option.
pub fn tell<E: Write>(errors: &mut E, mistake: Mistake<'_>) -> io::Result<()> {
    match mistake {
        Mistake::Range {
            name,
            given,
            least,
            most,
        } => writeln!(
            errors,
            "als: {name} is {given}: wanted is a number from {least} to {most}"
        ),
        Mistake::Alone { name, wants } => {
            writeln!(errors, "als: {name} has no effect without {wants}")
        }
        Mistake::NoBlock(text) => writeln!(
            errors,
            "als: --follower: {text} is neither an address nor a block as ADDR/BITS"
        ),
    }
}

/// How many addresses a name of `--follower` has: of more than eight, eight.
fn addresses_of(name: &str) -> u64 {
    let Some((addr, bits)) = name.rsplit_once('/') else {
        return 1;
    };
    let width: u64 = if addr.contains(':') { 128 } else { 32 };
    let Ok(bits) = bits.parse::<u64>() else {
        return 0;
    };
    match width.saturating_sub(bits) {
        0 => 1,
        1 => 2,
        2 => 4,
        _ => 8,
    }
}

/// Says where `--follower` names fewer addresses than the standbys that `--sync` asks for. It is no mistake: a
/// standby counts by the id of its folder, whatever address it comes from.
pub fn tell_few<E: Write>(errors: &mut E, sync: u32, names: &[&str]) {
    let mut count: u64 = 0;
    for name in names {
        count = count.saturating_add(addresses_of(name));
    }
    if names.is_empty() || count >= u64::from(sync) {
        return;
    }
    // Where it can't be said, the state of the primary shows that commits wait.
    let _ = writeln!(
        errors,
        "als: --sync is {sync}, and --follower admits fewer addresses: commits wait until standbys share one, each with an id of its folder"
    );
}
