use crate::row::{Row, run_row};
use als_program::{Terminals, program_on};
use std::{fs, io};

/// A new database.
const NEW: [&str; 7] = ["als", "new", "past", "--pages", "4", "--log-blocks", "1"];

/// Transactions in it.
const COMMIT: [&str; 4] = ["als", "commit", "--dir", "past"];

/// Three transactions, and their answers.
const LINES: (&str, &str) = (
    r#"{"set":[{"key":[0,0],"to":"aa"}]}
{"set":[{"key":[1,3],"to":"bb"},{"key":[0,0],"to":"cc"}]}
{"set":[{"key":[1,3],"to":null}]}
"#,
    "lsn=52 trans=1
lsn=181 trans=2
lsn=273 trans=3
",
);

/// What looks back print, and where they are refused: their words, output, standard error and status.
const LOOKS: [(&[&str], &str, &str, u8); 16] = [
    (
        &["als", "dump", "past", "--commits"],
        "52 trans=1 0/0\n181 trans=2 1/3 0/0\n273 trans=3 1/3\n",
        "",
        0,
    ),
    (&["als", "show", "past"], "0/0 cc\n", "", 0),
    (
        &["als", "show", "past", "--at", "237"],
        "0/0 cc\n1/3 bb\n",
        "",
        0,
    ),
    (
        &["als", "show", "past", "--at", "236"],
        "0/0 cc\n1/3 bb\n",
        "",
        0,
    ),
    (&["als", "show", "past", "--at", "208"], "0/0 aa\n", "", 0),
    (&["als", "show", "past", "--at", "16"], "empty\n", "", 0),
    // A commit counts from the end of its record on.
    (&["als", "show", "past", "--at", "52"], "empty\n", "", 0),
    (&["als", "show", "past", "--at", "80"], "0/0 aa\n", "", 0),
    (
        &["als", "status", "past", "--at", "15"],
        "",
        "als: an LSN below 16 is within the log's header\nals: refused 37 BadConfig\n",
        3,
    ),
    (
        &["als", "get", "past", "0", "0", "--at", "150"],
        "aa commits=1 lsn=52\n",
        "",
        0,
    ),
    (
        &["als", "get", "past", "0", "0"],
        "cc commits=3 lsn=273\n",
        "",
        0,
    ),
    (
        &["als", "show", "past", "--at", "330"],
        "",
        "als: the log ends at 329\nals: refused 37 BadConfig\n",
        3,
    ),
    (
        &["als", "cut", "past", "--before-commit", "9"],
        "",
        "als: the log has no commit of this transaction\nals: refused 37 BadConfig\n",
        3,
    ),
    (
        &["als", "grow", "--dir", "past", "--log-blocks", "3"],
        "",
        "",
        0,
    ),
    (
        &["als", "grow", "--dir", "past", "--log-blocks", "2"],
        "",
        "als: the log has 3 blocks\nals: refused 37 BadConfig\n",
        3,
    ),
    (
        &["als", "status", "past"],
        "phase=Following pages=4 end=329 ack=329 checkpoint=329 behind=0 transactions=0 capacity=1536 left=1207 rank=0/329\nrole primary epoch=0\n",
        "",
        0,
    ),
];

#[test]
fn a_log_is_looked_back_in(rt: HostRuntime) {
    assert!(rt; fs::create_dir(&rt, "past").is_ok());
    let (lines, answers) = LINES;
    run_row(&rt, Row::of(&NEW, "", "pages=4 capacity=512\n"));
    run_row(&rt, Row::of(&COMMIT, lines, answers));
    for look in LOOKS {
        let (words, output, errors, status) = look;
        run_row(&rt, Row::of(words, "", output).failing(errors, status));
    }
    assert!(rt; fs::remove_dir_all(&rt, "past").is_ok());
}

/// What is said where a log text would go to a terminal.
const BYTES: &[u8] = b"als: a log text is bytes, which no terminal shows: write it to a file\n";

/// The commands that write a log text write none to a terminal, whatever they would read.
#[test]
fn no_text_goes_to_a_terminal(rt: HostRuntime) {
    let commands: [&[&str]; 3] = [
        &["als", "cut", "past", "--at", "16"],
        &["als", "cut", "past", "--before-commit", "1"],
        &["als", "begin", "--from", "past"],
    ];
    let terminals = Terminals {
        input: false,
        output: true,
        errors: false,
    };
    for words in commands {
        let mut said = Vec::new(rt.alloc());
        let status = program_on(&rt, terminals, words, io::empty(), io::sink(), &mut said);
        assert!(rt; status == 2);
        assert!(rt; said.as_slice() == BYTES);
    }
}
