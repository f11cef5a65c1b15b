use crate::folder::Folder;
use crate::following::{SOUND, TEXT, prints};
use als_program::program;
use std::fs::{File, OpenOptions};
use std::net::{Net, TcpListener, TcpStream};
use std::process::Abort;
use std::random::RandomSource;
use std::rt::Files;
use std::sync::Wait;
use std::thread::Threads;
use std::time::Clock;
use std::{fs, io};

/// The files of the folder that is damaged.
const FILES: [&str; 3] = [
    "damaged/log.blk",
    "damaged/control.blk",
    "damaged/pages.blk",
];

const TAKEOVER: [&str; 4] = ["als", "takeover", "--dir", "damaged"];

const VERIFY: [&str; 3] = ["als", "verify", "damaged"];

const DUMP: [&str; 3] = ["als", "dump", "damaged"];

const COMMIT: [&str; 4] = ["als", "commit", "--dir", "damaged"];

const PRIMARY: [&str; 6] = [
    "als",
    "primary",
    "--dir",
    "damaged",
    "--serve",
    "127.0.0.1:0",
];

const STANDBY: [&str; 8] = [
    "als", "standby", "--dir", "damaged", "--from", "nowhere", "--pages", "4",
];

/// What a damaged folder is refused by: what is printed, the refusal, and what `--explain` adds.
#[derive(Clone, Copy)]
struct Refusal<'a> {
    printed: &'a str,
    refusal: &'a str,
    explained: &'a str,
}

/// The sizes of a folder's database are others than are asked for.
const OTHER_PAGES: &str =
    "als: refused 34 BadControl\nals: damaged: the database has 4 pages, and --pages says 8\n";

/// Whether the program prints this, is refused so, and says no more.
fn is_told<
    R: AllocGlobal
        + Files<File = File>
        + Net<Listener = TcpListener, Stream = TcpStream>
        + Threads
        + Wait
        + Sync
        + Clock
        + RandomSource
        + Clone
        + Send
        + Drop
        + 'static,
>(rt: &R, words: &[&str], wanted: Refusal) -> bool {
    let mut output = Vec::new(rt.alloc());
    let mut errors = Vec::new(rt.alloc());
    let status = program(rt, words, io::empty(), &mut output, &mut errors);
    let told = errors.as_slice().strip_prefix(wanted.refusal.as_bytes());
    status == 3
        && output.as_slice() == wanted.printed.as_bytes()
        && told == Some(wanted.explained.as_bytes())
}

/// A command is refused so, and with `--explain` more is said. `None`: allocation failed.
fn refuses<
    R: AllocGlobal
        + Files<File = File>
        + Net<Listener = TcpListener, Stream = TcpStream>
        + Threads
        + Wait
        + Sync
        + Clock
        + RandomSource
        + Clone
        + Send
        + Drop
        + 'static,
>(rt: &R, words: &[&str], wanted: Refusal) -> bool {
    let Ok(mut explained) = Vec::from_slice(rt.alloc(), words) else {
        return false;
    };
    if explained.push("--explain").is_err() {
        return false;
    }
    let short = Refusal {
        explained: "",
        ..wanted
    };
    is_told(rt, words, short) && is_told(rt, explained.as_slice(), wanted)
}

/// The same, twice at most.
fn is_refused<
    R: Abort
        + AllocGlobal
        + Files<File = File>
        + Net<Listener = TcpListener, Stream = TcpStream>
        + Threads
        + Wait
        + Sync
        + Clock
        + RandomSource
        + Clone
        + Send
        + Drop
        + 'static,
>(rt: &R, words: &[&str], wanted: Refusal) {
    let explained = wanted.explained;
    assert!(rt;
        refuses(rt, words, wanted) || refuses(rt, words, wanted),
        "{explained}"
    );
}

/// Lays a folder out, with one byte of each file altered that has a place here. `None`: memory was
/// refused.
fn lays_out<R: AllocGlobal + Files<File = File>>(
    rt: &R,
    altered: [Option<usize>; 3],
) -> Option<()> {
    let Folder {
        mut log,
        mut control,
        mut pages,
    } = Folder::of(rt.alloc(), &TEXT)?;
    alter(&mut log, altered[0]);
    alter(&mut control, altered[1]);
    alter(&mut pages, altered[2]);
    let folder = Folder {
        log,
        control,
        pages,
    };
    folder.write(rt, FILES)
}

/// Alters the byte at a place, if there is one.
fn alter(bytes: &mut Vec<u8>, place: Option<usize>) {
    if let Some(place) = place {
        if let Some(byte) = bytes.get_mut(place) {
            *byte ^= 64;
        }
    }
}

/// A folder with one damaged byte, or a sound one.
fn laid_out<R: Abort + AllocGlobal + Files<File = File>>(rt: &R, altered: [Option<usize>; 3]) {
    assert!(rt; lays_out(rt, altered).is_some() || lays_out(rt, altered).is_some());
}

/// Each file of a folder, damaged.
fn files_are_told<
    R: Abort
        + AllocGlobal
        + Files<File = File>
        + Net<Listener = TcpListener, Stream = TcpStream>
        + Threads
        + Wait
        + Sync
        + Clock
        + RandomSource
        + Clone
        + Send
        + Drop
        + 'static,
>(rt: &R) {
    laid_out(rt, [Some(0), None, None]);
    let header = Refusal {
        printed: "",
        refusal: "als: refused 1 BadHeader\n",
        explained: "als: damaged/log.blk: the log's header is damaged, or that of another database\n",
    };
    is_refused(rt, &TAKEOVER, header);
    is_refused(rt, &STANDBY, header);
    is_refused(rt, &DUMP, header);
    let printed = "unsound lsn=0 1 BadHeader\n";
    is_refused(rt, &VERIFY, Refusal { printed, ..header });
    laid_out(rt, [None, Some(9), None]);
    let control = Refusal {
        printed: "",
        refusal: "als: refused 34 BadControl\n",
        explained: "als: damaged/control.blk: the control block or the checkpoint is damaged, or that of another log or page count\n",
    };
    is_refused(rt, &TAKEOVER, control);
    is_refused(rt, &STANDBY, control);
    is_refused(rt, &DUMP, control);
    let printed = "unsound lsn=0 34 BadControl\n";
    is_refused(rt, &VERIFY, Refusal { printed, ..control });
    laid_out(rt, [None, None, Some(3 * 512)]);
    let page = Refusal {
        printed: "unsound lsn=0 33 BadPage 3\n",
        refusal: "als: refused 33 BadPage 3\n",
        explained: "als: damaged/pages.blk: the block of page 3 is damaged, or is not what log.blk makes of it: compare the log with another node's (als cut), then als rebuild-pages\n",
    };
    is_refused(rt, &VERIFY, page);
    is_refused(
        rt,
        &TAKEOVER,
        Refusal {
            printed: "",
            ..page
        },
    );
    laid_out(rt, [Some(16 + 4), None, None]);
    let record = Refusal {
        printed: "unsound lsn=16 3 BadType\n",
        refusal: "als: refused 3 BadType\n",
        explained: "als: damaged/log.blk: a record is damaged, or may not follow those in front of it\n",
    };
    is_refused(rt, &VERIFY, record);
    is_refused(
        rt,
        &STANDBY,
        Refusal {
            printed: "",
            ..record
        },
    );
}

/// A folder whose file of this number has so many bytes.
fn cuts<R: AllocGlobal + Files<File = File>>(rt: &R, number: usize, len: u64) -> Option<()> {
    lays_out(rt, [None, None, None])?;
    lengthens(rt, number, len)
}

/// The file of this number has so many bytes from now on.
fn lengthens<R: AllocGlobal + Files<File = File>>(rt: &R, number: usize, len: u64) -> Option<()> {
    let path = FILES.get(number)?;
    let file = OpenOptions::new().write(true).open(rt, *path).ok()?;
    file.set_len(len).ok()
}

/// A file that is shorter than its database is told as that one, and each command is refused so.
fn a_short_file_is_told<
    R: Abort
        + AllocGlobal
        + Files<File = File>
        + Net<Listener = TcpListener, Stream = TcpStream>
        + Threads
        + Wait
        + Sync
        + Clock
        + RandomSource
        + Clone
        + Send
        + Drop
        + 'static,
>(rt: &R) {
    let refusal = "als: refused 34 BadControl\n";
    let rows = [
        (0, 0, "als: damaged/log.blk: the file ends too early\n"),
        (1, 0, "als: damaged/control.blk: the file ends too early\n"),
        (
            1,
            320 * 512,
            "als: damaged/control.blk: the file ends too early\n",
        ),
        (
            2,
            3 * 512,
            "als: damaged/pages.blk: the file ends too early: als rebuild-pages makes it anew\n",
        ),
    ];
    for (number, len, explained) in &rows {
        assert!(rt; cuts(rt, *number, *len).is_some() || cuts(rt, *number, *len).is_some());
        let short = Refusal {
            printed: "",
            refusal,
            explained: *explained,
        };
        is_refused(rt, &TAKEOVER, short);
        let printed = "unsound lsn=0 34 BadControl\n";
        is_refused(rt, &VERIFY, Refusal { printed, ..short });
    }
}

/// A pages.blk of more blocks than its database has pages, of a standby and of one that was taken over: the
/// check of a folder and each command that writes it are refused so.
fn a_long_file_is_told<
    R: Abort
        + AllocGlobal
        + Files<File = File>
        + Net<Listener = TcpListener, Stream = TcpStream>
        + Threads
        + Wait
        + Sync
        + Clock
        + RandomSource
        + Clone
        + Send
        + Drop
        + 'static,
>(rt: &R) {
    let long = Refusal {
        printed: "",
        refusal: "als: refused 34 BadControl\n",
        explained: "als: damaged/pages.blk: the file has 5 blocks, and its database 4 pages: als rebuild-pages makes it anew\n",
    };
    let printed = "unsound lsn=0 34 BadControl\n";
    assert!(rt; cuts(rt, 2, 5 * 512).is_some() || cuts(rt, 2, 5 * 512).is_some());
    is_refused(rt, &VERIFY, Refusal { printed, ..long });
    is_refused(rt, &TAKEOVER, long);
    is_refused(rt, &STANDBY, long);
    // Bytes that are no whole block are none of it.
    assert!(rt; cuts(rt, 2, 5 * 512 - 1).is_some() || cuts(rt, 2, 5 * 512 - 1).is_some());
    assert!(rt; prints(rt, &VERIFY, SOUND) || prints(rt, &VERIFY, SOUND));
    let taken = "end=108\n0/0 aa\n";
    assert!(rt; prints(rt, &TAKEOVER, taken) || prints(rt, &TAKEOVER, taken));
    assert!(rt; lengthens(rt, 2, 5 * 512).is_some() || lengthens(rt, 2, 5 * 512).is_some());
    is_refused(rt, &VERIFY, Refusal { printed, ..long });
    is_refused(rt, &TAKEOVER, long);
    is_refused(rt, &COMMIT, long);
    is_refused(rt, &PRIMARY, long);
    // A page count that is given has to be that of the database.
    assert!(rt; lengthens(rt, 2, 4 * 512).is_some() || lengthens(rt, 2, 4 * 512).is_some());
    let other = Refusal {
        refusal: OTHER_PAGES,
        explained: "als: damaged/control.blk: the control block or the checkpoint is damaged, or that of another log or page count\n",
        ..long
    };
    is_refused(
        rt,
        &["als", "commit", "--dir", "damaged", "--pages", "8"],
        other,
    );
    let primary = [
        "als",
        "primary",
        "--dir",
        "damaged",
        "--serve",
        "127.0.0.1:0",
        "--pages",
        "8",
    ];
    is_refused(rt, &primary, other);
    let beyond = Refusal {
        refusal: "als: refused 37 BadConfig\nals: --pages is 4097: wanted is a number from 1 to 4096\n",
        explained: "",
        ..long
    };
    is_refused(
        rt,
        &["als", "commit", "--dir", "damaged", "--pages", "4097"],
        beyond,
    );
    // It has not become a primary's.
    assert!(rt; !has_role(rt));
}

/// Damages the block of page 3 of the folder.
fn damages<R: AllocGlobal + Files<File = File>>(rt: &R) -> Option<()> {
    let mut pages = fs::read(rt, FILES[2]).ok()?;
    alter(&mut pages, Some(3 * 512));
    fs::write(rt, FILES[2], pages.as_slice()).ok()
}

/// A folder that was taken over follows no more: that is said before its pages are looked at. A takeover of it
/// looks at them.
fn a_damaged_primary_is_told<
    R: Abort
        + AllocGlobal
        + Files<File = File>
        + Net<Listener = TcpListener, Stream = TcpStream>
        + Threads
        + Wait
        + Sync
        + Clock
        + RandomSource
        + Clone
        + Send
        + Drop
        + 'static,
>(rt: &R) {
    laid_out(rt, [None, None, None]);
    let taken = "end=108\n0/0 aa\n";
    assert!(rt; prints(rt, &TAKEOVER, taken) || prints(rt, &TAKEOVER, taken));
    assert!(rt; damages(rt).is_some());
    let sealed = Refusal {
        printed: "",
        refusal: "als: refused 21 Sealed\n",
        explained: "",
    };
    is_refused(rt, &STANDBY, sealed);
    let page = Refusal {
        printed: "",
        refusal: "als: refused 33 BadPage 3\n",
        explained: "als: damaged/pages.blk: the block of page 3 is damaged, or is not what log.blk makes of it: compare the log with another node's (als cut), then als rebuild-pages\n",
    };
    is_refused(rt, &TAKEOVER, page);
}

/// Whether the folder says that it is a primary's.
fn has_role<R: Files>(rt: &R) -> bool {
    fs::metadata(rt, "damaged/role").is_ok()
}

/// A folder without its control block.
fn a_missing_file_is_told<
    R: Abort
        + AllocGlobal
        + Files<File = File>
        + Net<Listener = TcpListener, Stream = TcpStream>
        + Threads
        + Wait
        + Sync
        + Clock
        + RandomSource
        + Clone
        + Send
        + Drop
        + 'static,
>(rt: &R) {
    laid_out(rt, [None, None, None]);
    assert!(rt; fs::remove_file(rt, FILES[1]).is_ok());
    let missing = Refusal {
        printed: "",
        refusal: "als: refused 30 Device\n",
        explained: "als: damaged/control.blk: the file is missing, or a link that leads nowhere\n",
    };
    is_refused(rt, &TAKEOVER, missing);
    is_refused(rt, &VERIFY, missing);
    is_refused(rt, &DUMP, missing);
    // Its log is not written over.
    let before = fs::read(rt, FILES[0]);
    let explained =
        "als: damaged/log.blk: it has data, but control.blk is missing: bring that back, or move the data away\n";
    is_refused(
        rt,
        &STANDBY,
        Refusal {
            explained,
            ..missing
        },
    );
    match (before, fs::read(rt, FILES[0])) {
        (Ok(before), Ok(after)) => assert!(rt; before.as_slice() == after.as_slice()),
        _ => {}
    }
}

#[test]
fn a_damaged_file_is_told(rt: HostRuntime) {
    assert!(rt; fs::create_dir(&rt, "damaged").is_ok());
    files_are_told(&rt);
    a_short_file_is_told(&rt);
    a_missing_file_is_told(&rt);
    a_long_file_is_told(&rt);
    a_damaged_primary_is_told(&rt);
    assert!(rt; fs::remove_dir_all(&rt, "damaged").is_ok());
    let missing = Refusal {
        printed: "",
        refusal: "als: refused 30 Device\n",
        explained: "als: damaged: the folder is missing\n",
    };
    is_refused(&rt, &TAKEOVER, missing);
    is_refused(&rt, &STANDBY, missing);
}

/// A log file has no name but its path.
#[test]
fn a_damaged_log_file_is_told(rt: HostRuntime) {
    assert!(rt; fs::write(&rt, "short.log", &TEXT[..107]).is_ok());
    let short = Refusal {
        printed: "unsound lsn=80 43 Cut\n",
        refusal: "als: refused 43 Cut\n",
        explained: "als: short.log: the file ends too early\n",
    };
    is_refused(&rt, &["als", "verify", "short.log"], short);
    let printed = "52 commit trans=1 prev=16\n";
    let words = ["als", "dump", "short.log", "--from", "17"];
    is_refused(&rt, &words, Refusal { printed, ..short });
    assert!(rt; fs::remove_file(&rt, "short.log").is_ok());
}
