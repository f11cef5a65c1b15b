use crate::primary::leads;
use crate::standby::{follows, take_over};
use std::alloc::Global;
use std::fs::File;
use std::io::Write;
use std::net::{Net, OpenListener, TcpListener, TcpStream};
use std::rt::Files;
use std::sync::Wait;
use std::test::Fail;
use std::{fs, thread};

/// The seconds for which its primary may be silent: the first standby ends then, and the second one stays.
const SHORT: u64 = 4;

const LONG: u64 = 20;

/// The folders of one try.
#[derive(Clone, Copy)]
struct Folders {
    primary: &'static str,
    first: &'static str,
    second: &'static str,
}

const TRIES: [Folders; 2] = [
    Folders {
        primary: "one",
        first: "two",
        second: "three",
    },
    Folders {
        primary: "four",
        first: "five",
        second: "six",
    },
];

/// Removes a folder, if it is there.
fn remove<R: AllocGlobal + Files>(rt: &R, dir: &str) {
    let _ = fs::remove_dir_all(rt, dir);
}

/// Makes an empty folder. What an earlier run left of it goes.
fn make<R: AllocGlobal + Files>(rt: &R, dir: &str) -> Option<()> {
    remove(rt, dir);
    fs::create_dir(rt, dir).ok()
}

/// Makes the folders, and listens. None: something failed.
fn begin<R: AllocGlobal + Files<File = File> + Net<Listener = TcpListener, Stream = TcpStream>>(
    rt: &R,
    folders: Folders,
) -> Option<TcpListener> {
    make(rt, folders.primary)?;
    make(rt, folders.first)?;
    make(rt, folders.second)?;
    TcpListener::bind(rt, "127.0.0.1:0").ok()
}

/// Removes the folders.
fn clear<R: AllocGlobal + Files>(rt: &R, folders: Folders) {
    remove(rt, folders.primary);
    remove(rt, folders.first);
    remove(rt, folders.second);
}

/// Where a listener is reached.
fn address_of(alloc: Global, listener: &TcpListener) -> Option<String> {
    let port = listener.local_addr().ok()?.port();
    format!(in alloc; "127.0.0.1:{port}").ok()
}

/// The database of all transactions, as a takeover prints it: ten keys a page.
fn database(alloc: Global) -> Option<Vec<u8>> {
    let mut rows = Vec::new(alloc);
    for place in 0_u8..40 {
        let (page, slot) = (place / 10, place % 10);
        let number = slot * 4 + page;
        writeln!(rows, "{page}/{slot} {number:02x}").ok()?;
    }
    Some(rows)
}

/// Whether a takeover of a folder finds just the database of all transactions. None: it failed.
fn has_all<R: AllocGlobal + Files<File = File> + Wait>(rt: &R, dir: &str) -> Option<bool> {
    let printed = take_over(rt, dir)?;
    let rows = database(rt.alloc())?;
    Some(printed.as_slice().ends_with(rows.as_slice()))
}

#[test]
fn an_answered_commit_is_found_by_a_takeover(rt: HostRuntime) -> Result<(), Fail> {
    let mut found = None;
    // Where the machine was slow, once more.
    for folders in TRIES {
        if found.is_none() {
            let rt = &rt;
            let listener = begin(rt, folders).ok_or("a listener")?;
            let from = address_of(rt.alloc(), &listener).ok_or("its address")?;
            let from = from.as_str();
            let ((parted, stayed), committed) = thread::join(
                rt,
                move || {
                    thread::join(
                        rt,
                        move || follows(rt, folders.first, from, SHORT),
                        move || follows(rt, folders.second, from, LONG),
                    )
                },
                move || leads(rt, folders.primary, listener),
            );
            if committed == Some(40) && !parted && stayed {
                found = has_all(rt, folders.second);
            }
            clear(rt, folders);
        }
    }
    assert!(rt; found == Some(true));
    Ok(())
}
