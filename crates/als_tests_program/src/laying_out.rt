use crate::row::{Row, run_row};
use std::fs;

/// A new database.
const NEW: [&str; 7] = ["als", "new", "new", "--pages", "4", "--log-blocks", "2"];

/// The same, and more is said of a refusal.
const EXPLAINED: [&str; 6] = ["als", "new", "new", "--pages", "4", "--explain"];

const COMMIT: [&str; 4] = ["als", "commit", "--dir", "new"];

const PRIMARY: [&str; 6] = ["als", "primary", "--dir", "new", "--serve", "127.0.0.1:0"];

const STATUS: [&str; 3] = ["als", "status", "new"];

/// What is said of a folder without a database.
const VACANT: &str =
    "als: refused 30 Device\nals: new: there is no database; als new new --pages N lays a new, empty one out\n";

/// What a new database is.
const EMPTY: &str =
    "phase=Following pages=4 end=16 ack=16 checkpoint=0 behind=0 transactions=0 capacity=1024 left=1008 rank=0/16\nrole primary epoch=0\n";

/// A primary and `als commit` make no database in an empty folder, and touch nothing there: only `als new` does,
/// and once.
#[test]
fn only_new_makes_a_database(rt: HostRuntime) {
    assert!(rt; fs::create_dir(&rt, "new").is_ok());
    for words in [&COMMIT[..], &PRIMARY[..]] {
        run_row(&rt, Row::of(words, "", "").failing(VACANT, 3));
    }
    // Nothing is there: the folder can be removed.
    assert!(rt; fs::remove_dir(&rt, "new").is_ok());
    assert!(rt; fs::create_dir(&rt, "new").is_ok());
    // What a layout left that did not come to its end is taken away.
    for left in [
        "new/log.new",
        "new/control.new",
        "new/pages.new",
        "new/role.new",
    ] {
        assert!(rt; fs::write(&rt, left, b"left").is_ok());
    }
    assert!(rt; fs::write(&rt, "new/role", b"primary epoch=0\n").is_ok());
    run_row(&rt, Row::of(&NEW, "", "pages=4 capacity=1024\n"));
    for left in [
        "new/log.new",
        "new/control.new",
        "new/pages.new",
        "new/role.new",
    ] {
        assert!(rt; fs::metadata(&rt, left).is_err());
    }
    run_row(&rt, Row::of(&STATUS, "", EMPTY));
    run_row(
        &rt,
        Row::of(&NEW, "", "").failing("als: refused 30 Device\n", 3),
    );
    let kept = "als: refused 30 Device\nals: new: there is a database already\n";
    run_row(&rt, Row::of(&EXPLAINED, "", "").failing(kept, 3));
    run_row(
        &rt,
        Row::of(
            &COMMIT,
            "{\"set\":[{\"key\":[0,0],\"to\":\"aa\"}]}\n",
            "lsn=52 trans=1\n",
        ),
    );
    assert!(rt; fs::remove_dir_all(&rt, "new").is_ok());
}

/// Sizes out of range are refused before the folder is looked at, and a folder that is missing is not made.
#[test]
fn a_new_database_has_its_range(rt: HostRuntime) {
    let pages = "als: refused 37 BadConfig\nals: --pages is 0: wanted is a number from 1 to 4096\n";
    let many =
        "als: refused 37 BadConfig\nals: --pages is 4097: wanted is a number from 1 to 4096\n";
    let blocks =
        "als: refused 37 BadConfig\nals: --log-blocks is 4194305: wanted is a number from 1 to 4194304\n";
    let missing = "als: refused 30 Device\n";
    let rows = [
        ("0", "1", pages),
        ("4097", "1", many),
        ("4", "4194305", blocks),
        ("4", "1", missing),
    ];
    for (pages, blocks, wanted) in rows {
        let words = [
            "als",
            "new",
            "nowhere",
            "--pages",
            pages,
            "--log-blocks",
            blocks,
        ];
        run_row(&rt, Row::of(&words, "", "").failing(wanted, 3));
    }
    assert!(rt; fs::metadata(&rt, "nowhere").is_err());
}

/// Where fewer addresses are admitted than followers have to acknowledge a commit, that is said: standbys that share
/// an address count by their ids alone. A name that is no address is refused, and nothing is looked at.
#[test]
fn fewer_addresses_than_followers_are_told(rt: HostRuntime) {
    let few =
        "als: --sync is 3, and --follower admits fewer addresses: commits wait until standbys share one, each with an id of its folder\nals: refused 30 Device\n";
    let alone = "als: refused 37 BadConfig\nals: --sync has no effect without --listen\n";
    let no_block =
        "als: refused 37 BadConfig\nals: --follower: 10.0.0.x is neither an address nor a block as ADDR/BITS\n";
    let enough = "als: refused 30 Device\n";
    let rows = [
        ("--listen=127.0.0.1:0", "--follower=10.0.0.1", few),
        ("--listen=127.0.0.1:0", "--follower=10.0.0.0/31", few),
        ("--listen=127.0.0.1:0", "--follower=::1,10.0.0.1/32", few),
        ("--listen=127.0.0.1:0", "--follower=::1,10.0.0.0/31", enough),
        ("--listen=127.0.0.1:0", "--follower=10.0.0.0/30", enough),
        ("--listen=127.0.0.1:0", "--follower=fd00::/126", enough),
        ("--listen=127.0.0.1:0", "--connections=2", enough),
        ("--listen=127.0.0.1:0", "--follower=10.0.0.x", no_block),
        ("--connections=2", "--commit-timeout=2", alone),
    ];
    for (first, second, wanted) in rows {
        let words = [
            "als",
            "primary",
            "--dir",
            "nowhere",
            "--serve",
            "127.0.0.1:0",
            "--sync",
            "3",
            first,
            second,
        ];
        run_row(&rt, Row::of(&words, "", "").failing(wanted, 3));
    }
}
