use crate::client::{Seen, works};
use crate::ports::Ports;
use crate::served::{serves, stands_by};
use crate::standby::take_over;
use als_lead::{NewDatabase, lay_out};
use std::alloc::Global;
use std::fs::File;
use std::io::Write;
use std::net::{Net, OpenListener, TcpListener, TcpStream};
use std::rt::Files;
use std::sync::Wait;
use std::test::Fail;
use std::{fs, thread};

/// The folders of one try.
#[derive(Clone, Copy)]
struct Folders {
    first: &'static str,
    second: &'static str,
    third: &'static str,
}

/// A port that was free may be taken by another program.
const TRIES: [Folders; 2] = [
    Folders {
        first: "seven",
        second: "eight",
        third: "nine",
    },
    Folders {
        first: "ten",
        second: "eleven",
        third: "twelve",
    },
];

/// So many commits the first primary takes, and so many it and the next one together.
const FIRST: u8 = 20;

const ALL: u8 = 40;

/// A port that is free.
fn free_port<R: Net<Listener = TcpListener, Stream = TcpStream>>(rt: &R) -> Option<u64> {
    let listener = TcpListener::bind(rt, "127.0.0.1:0").ok()?;
    Some(u64::from(listener.local_addr().ok()?.port()))
}

/// Makes the folder of a new primary, and two empty ones. What an earlier run left of them goes.
fn make<R: AllocGlobal + Files<File = File> + Wait>(rt: &R, folders: Folders) -> Option<()> {
    clear(rt, folders);
    fs::create_dir(rt, folders.first).ok()?;
    fs::create_dir(rt, folders.second).ok()?;
    fs::create_dir(rt, folders.third).ok()?;
    let new = NewDatabase {
        dir: folders.first,
        pages: 4,
        log_blocks: 256,
    };
    lay_out(rt, new).ok()
}

/// Removes the folders.
fn clear<R: AllocGlobal + Files>(rt: &R, folders: Folders) {
    for dir in [folders.first, folders.second, folders.third] {
        let _ = fs::remove_dir_all(rt, dir);
    }
}

/// The rows of the commits up to this number, as a takeover prints them: as many keys a page.
fn rows_of(alloc: Global, count: u8) -> Option<Vec<u8>> {
    let mut rows = Vec::new(alloc);
    for page in 0..4_u8 {
        for slot in 0..count / 4 {
            let number = slot * 4 + page;
            writeln!(rows, "{page}/{slot} {number:02x}").ok()?;
        }
    }
    Some(rows)
}

/// Whether a takeover of a folder finds just the commits up to this number, and the one by which the client saw
/// that its primary had ended: that one has to be there where it is wanted. None: it failed.
fn has_all<R: AllocGlobal + Files<File = File> + Wait>(
    rt: &R,
    dir: &str,
    count: u8,
    wants_last: bool,
) -> Option<bool> {
    let printed = take_over(rt, dir)?;
    let mut rows = rows_of(rt.alloc(), count)?;
    let found = printed.as_slice().ends_with(rows.as_slice());
    writeln!(rows, "3/14 ff").ok()?;
    Some((found && !wants_last) || printed.as_slice().ends_with(rows.as_slice()))
}

/// Whether a client has seen what it should.
fn is_right(seen: Option<Seen>) -> bool {
    match seen {
        Some(seen) => seen.is_right,
        None => false,
    }
}

/// Whether a client was answered once its primary's log was away.
fn answers_last(seen: Option<Seen>) -> bool {
    match seen {
        Some(seen) => seen.answers_last,
        None => false,
    }
}

#[test]
fn the_commits_of_two_primaries_are_found_by_a_takeover(rt: HostRuntime) -> Result<(), Fail> {
    let mut found = None;
    for folders in TRIES {
        if found.is_none() {
            let rt = &rt;
            make(rt, folders).ok_or("folders")?;
            let second = free_port(rt).ok_or("a port")?;
            let third = free_port(rt).ok_or("another port")?;
            let ports = &Ports::new();
            let both = &[second, third];
            let ((ended, _), worked) = thread::join(
                rt,
                move || {
                    thread::join(
                        rt,
                        move || serves(rt, folders.first, ports),
                        move || {
                            thread::join(
                                rt,
                                move || stands_by(rt, folders.second, ports, second),
                                move || stands_by(rt, folders.third, ports, third),
                            )
                        },
                    )
                },
                move || works(rt, folders.first, ports, both, (0, FIRST)),
            );
            // Either standby may have what was answered last.
            if ended
                && is_right(worked)
                && has_all(rt, folders.second, FIRST, false) == Some(true)
            {
                let ports = &Ports::new();
                let one = &[third];
                let ((ended, _), worked) = thread::join(
                    rt,
                    move || {
                        thread::join(
                            rt,
                            move || serves(rt, folders.second, ports),
                            move || stands_by(rt, folders.third, ports, third),
                        )
                    },
                    move || works(rt, folders.second, ports, one, (FIRST, ALL)),
                );
                if ended && is_right(worked) {
                    found = has_all(rt, folders.third, ALL, answers_last(worked));
                }
            }
            clear(rt, folders);
        }
    }
    assert!(rt; found == Some(true));
    Ok(())
}
