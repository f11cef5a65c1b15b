use crate::row::{Row, run_row};
use als_program::program;
use std::fs::File;
use std::net::{Net, TcpListener, TcpStream};
use std::process::Abort;
use std::random::RandomSource;
use std::rt::Files;
use std::sync::Wait;
use std::thread::Threads;
use std::time::Clock;

/// Record lines, and the text that they make: the bytes are those of the format, written down by
/// hand and by another program.
const TEXTS: [(&str, &str); 5] = [
    ("pages 4", "414c534c4f4730310000000400000000\n"),
    (
        "pages 4
u 1 0 0 - aa
commit 1
end 1
",
        "414c534c4f4730310000000400000000
000000240100000000000000000000100000000000000000000000010000000000ff01aa
0000001c030000000000000000000034000000000000001000000001
0000001c050000000000000000000050000000000000003400000001
",
    ),
    // A compensation, as a takeover would write it.
    (
        "pages 4
u 1 0 0 - aa
commit 1
u 2 0 1 - bb
u 2 0 0 aa cc
end 1
c 2 0 0 aa 80
",
        "414c534c4f4730310000000400000000
000000240100000000000000000000100000000000000000000000010000000000ff01aa
0000001c030000000000000000000034000000000000001000000001
000000240100000000000000000000500000000000000000000000020000000001ff01bb
0000002501000000000000000000007400000000000000500000000200000000000101aacc
0000001c050000000000000000000099000000000000003400000001
0000002b0200000000000000000000b50000000000000074000000020000000000000050000000000001aa
",
    ),
    // A prepare, shaped as a commit.
    (
        "pages 4
u 1 0 0 - aa
prepare 1
",
        "414c534c4f4730310000000400000000
000000240100000000000000000000100000000000000000000000010000000000ff01aa
0000001c080000000000000000000034000000000000001000000001
",
    ),
    // Nothing is checked but the spelling; checkpoint records count for transaction 0.
    (
        "# odd records
pages 00005000

u 4294967295 4294967295 255 . 00ff
u 4294967295 1 2 - - prev=7
ckptend
ckpt
commit 0
ckpt prev=18446744073709551615
rollback 0
ckptend
c 7 1 2 . 18446744073709551615 prev=3
end 7
end 7 prev=0",
        "414c534c4f4730310000138800000000
000000250100000000000000000000100000000000000000ffffffffffffffffff000200ff
000000230100000000000000000000350000000000000007ffffffff0000000102ffff
0000002007000000000000000000005800000000000000000000000000000000
0000001c060000000000000000000078000000000000000000000000
0000001c030000000000000000000094000000000000007800000000
0000001c0600000000000000000000b0ffffffffffffffff00000000
0000001c0400000000000000000000cc00000000000000b000000000
000000200700000000000000000000e800000000000000b00000000000000000
0000002a020000000000000000000108000000000000000300000007ffffffffffffffff000000010200
0000001c050000000000000000000132000000000000010800000007
0000001c05000000000000000000014e000000000000000000000007
",
    ),
];

/// Scripts, and the number of their first bad line.
const BAD: [(&str, u64); 11] = [
    ("", 1),
    (
        "#

",
        3,
    ),
    ("# no end of line", 2),
    ("pages\n", 1),
    ("pages 4 4\n", 1),
    ("pages 4294967296\n", 1),
    ("pages 4\r\n", 1),
    (
        "commit 1
pages 4
",
        1,
    ),
    (
        "pages 4
commit 1
pages 4
",
        3,
    ),
    (
        "pages 4
feed 0 16
",
        2,
    ),
    (
        "
# c
pages 4

# c
commit 1
x
",
        7,
    ),
];

#[test]
fn make_writes_log_texts(rt: HostRuntime) {
    for (lines, text) in TEXTS {
        run_row(&rt, Row::make_hex(lines, text));
    }
}

/// A value may have 254 bytes, and no more.
fn takes_long_values<
    R: Abort
        + AllocGlobal
        + Files<File = File>
        + Net<Listener = TcpListener, Stream = TcpStream>
        + Threads
        + Wait
        + Sync
        + Clock
        + RandomSource
        + Clone
        + Send
        + Drop
        + 'static,
>(rt: &R) -> Option<()> {
    let longest = "5a".repeat(rt.alloc(), 254).ok()?;
    let script = format!(in rt.alloc();
        "pages 1
u 1 0 0 {longest} {longest}
"
    )
    .ok()?;
    let head = "414c534c4f4730310000000100000000
0000021f01000000000000000000001000000000000000000000000100000000";
    let output = format!(in rt.alloc(); "{head}00fefe{longest}{longest}\n").ok()?;
    let too_long = format!(in rt.alloc();
        "pages 1
u 1 0 0 - {longest}5a
"
    )
    .ok()?;
    run_row(rt, Row::make_hex(script.as_str(), output.as_str()));
    run_row(
        rt,
        Row::make_hex(too_long.as_str(), "").failing("line 2: bad line\n", 2),
    );
    Some(())
}

#[test]
fn make_takes_long_values(rt: HostRuntime) {
    assert!(rt; takes_long_values(&rt).is_some() || takes_long_values(&rt).is_some());
}

/// Without `--hex` the text itself is written.
fn writes_bytes<
    R: Abort
        + AllocGlobal
        + Files<File = File>
        + Net<Listener = TcpListener, Stream = TcpStream>
        + Threads
        + Wait
        + Sync
        + Clock
        + RandomSource
        + Clone
        + Send
        + Drop
        + 'static,
>(rt: &R) -> Option<()> {
    let mut output = Vec::new(rt.alloc());
    let mut errors = Vec::new(rt.alloc());
    let script = b"pages 258\ncommit 3\n".as_slice();
    let status = program(rt, &["als", "make"], script, &mut output, &mut errors);
    let text =
        b"ALSLOG01\0\0\x01\x02\0\0\0\0\0\0\0\x1c\x03\0\0\0\0\0\0\0\0\0\0\x10\0\0\0\0\0\0\0\0\0\0\0\x03";
    if status != 0 || !errors.is_empty() || output.as_slice() != text.as_slice() {
        return None;
    }
    Some(())
}

#[test]
fn make_writes_bytes(rt: HostRuntime) {
    assert!(rt; writes_bytes(&rt).is_some() || writes_bytes(&rt).is_some());
}

/// A bad line is told by its number, and nothing is written.
fn tells_bad_lines<
    R: Abort
        + AllocGlobal
        + Files<File = File>
        + Net<Listener = TcpListener, Stream = TcpStream>
        + Threads
        + Wait
        + Sync
        + Clock
        + RandomSource
        + Clone
        + Send
        + Drop
        + 'static,
>(rt: &R) -> Option<()> {
    for (lines, number) in BAD {
        let errors = format!(in rt.alloc(); "line {number}: bad line\n").ok()?;
        run_row(rt, Row::make_hex(lines, "").failing(errors.as_str(), 2));
    }
    Some(())
}

#[test]
fn make_tells_bad_lines(rt: HostRuntime) {
    assert!(rt; tells_bad_lines(&rt).is_some() || tells_bad_lines(&rt).is_some());
}
