use crate::row::{Row, run_row};

/// Scripts, what they print, what is said of it, and how they end.
const EXPLAINED: [(&str, &str, &str, u8); 6] = [
    // Nothing was refused.
    (
        "world pages=4 log=8 frames=4 workers=2 pending=1000
u 1 0 0 - aa
feed 16 40
",
        "ok taken=24 records=0 end=16\n",
        "",
        0,
    ),
    // A feed that begins within a record.
    (
        "world pages=4 log=8 frames=4 workers=2 pending=1000
u 1 0 0 - aa
feed 20 52
feed 16 52
",
        "refused 2 BadLength taken=0 records=0 end=16
refused 2 BadLength taken=0 records=0 end=16
",
        "als: line 3: this feed begins at 20; feeds begin at the end of the log (16)
als: the standby keeps the refusal 2 BadLength, and refuses all that is fed, until a line `resync`
",
        0,
    ),
    // One that leaves bytes out, behind a partial record; and a partial record at the end.
    (
        "world pages=4 log=8 frames=4 workers=2 pending=1000
u 1 0 0 - aa
feed 16 40
feed 44 52
feed 16 40
resync
feed 16 30
",
        "ok taken=24 records=0 end=16
ok taken=8 records=0 end=16
refused 6 BadKey taken=0 records=0 end=16
ok
ok taken=14 records=0 end=16
",
        "als: line 5: this feed begins at 16; feeds begin at the end of the log (16), behind the 32 bytes of its next record
als: the standby has 14 bytes of the record at 16, which is not whole yet
",
        0,
    ),
    // A record that may not follow, at its place.
    (
        "world pages=4 log=8 frames=4 workers=2 pending=1000
u 1 0 0 - 11
u 2 0 0 11 22
feed 16 89
",
        "refused 13 RecordHeld 1 taken=36 records=1 end=52\n",
        "als: the standby keeps the refusal 13 RecordHeld 1, and refuses all that is fed, until a line `resync`\n",
        0,
    ),
    // A world that is refused.
    (
        "world pages=0 log=8 frames=4 workers=9 pending=1000\n",
        "refused 37 BadConfig\n",
        "als: pages=0: wanted is a number from 1 to 4096
als: workers=9: wanted is a number from 1 to 8
",
        3,
    ),
    // A bad line.
    (
        "world pages=4 log=8 frames=4 workers=2 pending=1000
commit x
",
        "",
        "line 2: bad line
als: line 2: word 2 is `x`; wanted is a decimal number of at most 32 bits, as in `commit T`
",
        2,
    ),
];

#[test]
fn more_is_said_where_it_is_asked_for(rt: HostRuntime) {
    for (script, output, errors, status) in EXPLAINED {
        run_row(&rt, Row::explained(script, output).failing(errors, status));
    }
}
