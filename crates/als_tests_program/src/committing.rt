use crate::row::{Row, run_row};
use std::fs;

/// A new database of one log block.
const NEW: [&str; 7] = [
    "als",
    "new",
    "committed",
    "--pages",
    "4",
    "--log-blocks",
    "1",
];

/// The same folder from then on.
const AGAIN: [&str; 4] = ["als", "commit", "--dir", "committed"];

/// The same, where a line that is no transaction is passed over.
const SKIPPING: [&str; 5] = ["als", "commit", "--dir", "committed", "--skip-bad"];

/// Lines up to one that is none, and what becomes of each.
const LINES: (&str, &str) = (
    r#"{"set":[{"key":[0,0],"to":"aa"}]}
{"if":[{"key":[0,0],"is":"AA"}],"set":[{"to":null,"key":[0,0]}]}
{"if":[{"key":[0,0],"is":"aa"}],"set":[{"key":[1,3],"to":""}]}
{"set":[{"key":[1,3],"to":""}],"if":[{"key":[1,3],"unchanged_since":0},{"key":[0,0],"is":null}]}
{"if":[{"key":[0,0],"unchanged_since":52}],"set":[{"key":[1,3],"to":"00"}]}
{"if":[{"key":[2,1],"unchanged_since":290},{"key":[2,2],"unchanged_since":291}],"set":[{"key":[1,3],"to":"00"}]}
{"if":[{"key":[1,3],"is":null},{"key":[0,0],"is":null},{"key":[0,0],"is":"aa"}],"set":[{"key":[1,3],"to":"00"}]}
{"set":[{"key":[2,0],"to":"00112233445566778899aabbccddeeff00112233445566778899aabbccddee"},{"key":[2,1],"to":"00112233445566778899aabbccddeeff00112233445566778899aabbccddee"}]}
{"set":[{"key":[0,0],"to":"aa"}
{"set":[{"key":[0,0],"to":"bb"}]}
"#,
    "lsn=52 trans=1
lsn=144 trans=2
not as asked [0,0]=-
lsn=235 trans=3
not as asked [0,0]=-
not as asked [2,2]=-
not as asked [1,3]=. [0,0]=-
refused 29 LogFull
",
);

/// Lines that are no transaction, and one that is.
const BAD: (&str, &str) = (
    r#"{}
{"set":[]}
{"set":[{"key":[4,0],"to":null}]}
{"set":[{"key":[0,15],"to":null}]}
{"set":[{"key":[0,0],"to":"a"}]}
{"set":[{"key":[0,0],"to":"aa"},{"key":[0,0],"to":"bb"}]}
{"set":[{"key":[0,0],"key":[0,1],"to":"aa"}]}
{"set":[{"key":[0],"to":"aa"}]}
{"if":[{"key":[0,0],"unchanged_since":-1}],"set":[{"key":[0,0],"to":"aa"}]}
{"set":[{"key":[0,0],"to":"bb"}],"also":1}
{"if":[{"key":[1,3],"is":""}],"set":[{"key":[0,0],"to":"bb"}]}
"#,
    r#"line 1: no transaction: an object of "set", with "if" or without
line 2: it sets no key
line 3: the database has no key [4,0]
line 4: the database has no key [0,15]
line 5: set 1 of "set" has a value that is neither null nor hexadecimal digits of at most 31 bytes
line 6: it sets [0,0] twice
line 7: a name comes twice in one object
line 8: set 1 of "set" has a key that is no [PAGE,SLOT]
line 9: comparison 1 of "if" has an LSN that is no whole number
line 10: no transaction: an object of "set", with "if" or without
"#,
);

/// The same folder, of which a longer log is asked.
const LONGER: [&str; 6] = ["als", "commit", "--dir", "committed", "--log-blocks", "2"];

/// What is said of it.
const OTHER_BLOCKS: &str =
    "als: refused 37 BadConfig\nals: committed: the log of this database has 1 blocks, and --log-blocks says 2\n";

/// The same, of which no more is asked than there is.
const SAME: [&str; 8] = [
    "als",
    "commit",
    "--dir",
    "committed",
    "--log-blocks",
    "1",
    "--pages",
    "4",
];

/// A takeover of the folder, and the first transaction after it.
const TAKEOVER: [&str; 4] = ["als", "takeover", "--dir", "committed"];

/// What is said of a takeover without a peer.
const ALONE: &str =
    "als: committed: its rank 0/383 was compared with no other node's (--peer): see that rank= of als status of each is not above it. Where one is, als rewind --dir committed --to 383 takes this one back, before it answers clients\n";

/// What the folder holds.
const STATUS: [&str; 3] = ["als", "status", "committed"];

#[test]
fn lines_are_written_or_refused_as_they_say(rt: HostRuntime) {
    assert!(rt; fs::create_dir(&rt, "committed").is_ok());
    let (lines, answers) = LINES;
    run_row(&rt, Row::of(&NEW, "", "pages=4 capacity=512\n"));
    let first = Row::of(&AGAIN, lines, answers);
    run_row(&rt, first.failing("line 9: no JSON\n", 2));
    let (lines, mistakes) = BAD;
    run_row(
        &rt,
        Row::of(&SKIPPING, lines, "lsn=327 trans=4\n").failing(mistakes, 0),
    );
    run_row(&rt, Row::of(&LONGER, "", "").failing(OTHER_BLOCKS, 3));
    run_row(&rt, Row::of(&SAME, "", ""));
    run_row(
        &rt,
        Row::of(&TAKEOVER, "", "end=383\n0/0 bb\n1/3 .\n").failing(ALONE, 0),
    );
    run_row(
        &rt,
        Row::of(
            &AGAIN,
            "{\"set\":[{\"key\":[0,0],\"to\":null}]}\n",
            "lsn=419 trans=5\n",
        ),
    );
    run_row(
        &rt,
        Row::of(
            &STATUS,
            "",
            "phase=Following pages=4 end=475 ack=475 checkpoint=475 behind=0 transactions=0 capacity=512 left=37 rank=383/475\nepoch 1 seals 383\nrole primary epoch=1\n",
        ),
    );
    assert!(rt; fs::remove_dir_all(&rt, "committed").is_ok());
}
