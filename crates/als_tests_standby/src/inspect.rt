use als_folder::{Part, Trouble, Wrong};
use als_inspect::{Fault, Wanted, verify};
use als_record::{Body, Image, Key, Lsn, Record, TransId};
use std::fs;
use std::fs::File;
use std::process::Abort;
use std::rt::Files;
use std::sync::Wait;

/// An update of page 3 by transaction 2, at 52.
fn update() -> Record {
    let absent: Image = None;
    Record {
        lsn: Lsn(52),
        prev: Lsn(0),
        trans: TransId(2),
        body: Body::Update {
            key: Key { page: 3, slot: 0 },
            before: absent,
            after: None,
        },
    }
}

const ALL: Wanted = Wanted {
    from: Lsn(0),
    trans: None,
    page: None,
};

#[test]
fn records_are_chosen(rt: HostRuntime) {
    let logged = update();
    let rows = [
        (ALL, true),
        (
            Wanted {
                from: Lsn(52),
                ..ALL
            },
            true,
        ),
        (
            Wanted {
                from: Lsn(53),
                ..ALL
            },
            false,
        ),
        (
            Wanted {
                trans: Some(TransId(2)),
                ..ALL
            },
            true,
        ),
        (
            Wanted {
                trans: Some(TransId(3)),
                ..ALL
            },
            false,
        ),
        (
            Wanted {
                page: Some(3),
                ..ALL
            },
            true,
        ),
        (
            Wanted {
                page: Some(2),
                ..ALL
            },
            false,
        ),
    ];
    for (wanted, admitted) in rows {
        assert!(rt; wanted.admits(&logged) == admitted);
    }
}

/// Whether verifying a file with these bytes is refused so, with this line. An allocation fails
/// once at most.
fn tells<R: AllocGlobal + Files<File = File> + Wait>(
    rt: &R,
    bytes: &[u8],
    line: &str,
    wanted: Fault,
) -> bool {
    let path = "verified.log";
    if fs::write(rt, path, bytes).is_err() {
        return false;
    }
    let mut printed = Vec::new(rt.alloc());
    let answer = verify(rt, path, &mut printed);
    let removed = fs::remove_file(rt, path).is_ok();
    removed && answer == Err(wanted) && printed.as_slice() == line.as_bytes()
}

/// The same, twice at most.
fn is_told<R: Abort + AllocGlobal + Files<File = File> + Wait>(
    rt: &R,
    bytes: &[u8],
    line: &str,
    wanted: Fault,
) {
    assert!(rt; tells(rt, bytes, line, wanted) || tells(rt, bytes, line, wanted));
}

#[test]
fn a_file_that_is_no_log(rt: HostRuntime) {
    let bad = Fault::BadHeader;
    is_told(&rt, b"", "unsound lsn=0 1 BadHeader\n", bad);
    is_told(
        &rt,
        b"ALSLOG01\0\0\0\x04\0\0\0",
        "unsound lsn=0 1 BadHeader\n",
        bad,
    );
    is_told(
        &rt,
        b"ALSLOG02\0\0\0\x04\0\0\0\0",
        "unsound lsn=0 1 BadHeader\n",
        bad,
    );
    is_told(
        &rt,
        b"ALSLOG01\0\0\0\x04\0\0\0\0\0",
        "unsound lsn=16 43 Cut\n",
        Fault::Cut,
    );
    let short = Trouble {
        part: Part::Log,
        wrong: Wrong::Short,
    };
    assert!(rt; Fault::Cut.trouble() == Some(short));
    assert!(rt; Fault::Stream.trouble() == None);
    assert!(rt; Fault::Cut.number() == 43);
    assert!(rt; Fault::BadControl.name() == "BadControl");
    assert!(rt; Fault::Stream.number() == 44);
}
