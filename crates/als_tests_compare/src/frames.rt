use crate::log::summary;
use als_compare::{
    Summary, Verdict, ask, read_answer, read_question, write_answer, write_question,
};
use als_wire::Fault;
use std::alloc::Global;
use std::process::Abort;

/// The SHA-256 of the three letters abc, as FIPS 180-4 has it.
const ABC: [u8; 32] = [
    0xba, 0x78, 0x16, 0xbf, 0x8f, 0x01, 0xcf, 0xea, 0x41, 0x41, 0x40, 0xde, 0x5d, 0xae, 0x22, 0x23,
    0xb0, 0x03, 0x61, 0xa3, 0x96, 0x17, 0x7a, 0x9c, 0xb4, 0x10, 0xff, 0x61, 0xf2, 0x00, 0x15, 0xad,
];

/// A question of epoch 2 about abc: its bytes, and what is read of them. `None`: allocation failed.
fn question(rt: &impl Abort, alloc: Global) -> Option<()> {
    let asked = summary(b"abc", 2);
    let mut bytes = Vec::new(alloc);
    write_question(&mut bytes, &asked).ok()?;
    assert!(rt; bytes.len() == 45);
    let (head, digest) = bytes.as_slice().split_at_checked(13)?;
    assert!(rt; head == b"V\0\0\0\x02\0\0\0\0\0\0\0\x03".as_slice());
    assert!(rt; digest == ABC.as_slice());
    let mut reader = bytes.as_slice();
    let Summary { epoch, end, digest } = read_question(&mut reader).ok()?;
    assert!(rt; epoch == 2 && end == 3);
    assert!(rt; digest.as_slice() == ABC.as_slice());
    assert!(rt; reader.is_empty());
    Some(())
}

#[test]
fn a_question_is_written_and_read(rt: HostRuntime) {
    let alloc = rt.alloc();
    assert!(rt; question(&rt, alloc).is_some() || question(&rt, alloc).is_some());
}

/// Why a question of these bytes is not read.
fn why(bytes: &[u8]) -> Option<Fault> {
    let mut reader = bytes;
    read_question(&mut reader).err()
}

#[test]
fn what_is_no_question(rt: HostRuntime) {
    assert!(rt; why(b"Q") == Some(Fault::BadFrame));
    assert!(rt; why(b"") == Some(Fault::Cut));
    assert!(rt; why(b"V\0\0\0\x02\0\0\0\0\0\0\0\x03half of a digest") == Some(Fault::Cut));
}

/// What an answer of this verdict is, and what is read of it. `None`: allocation failed.
fn answer(rt: &impl Abort, alloc: Global, verdict: Verdict, byte: u8) -> Option<()> {
    let mut bytes = Vec::new(alloc);
    write_answer(&mut bytes, verdict).ok()?;
    assert!(rt; bytes.as_slice() == [b'V', byte].as_slice());
    let mut reader = bytes.as_slice();
    assert!(rt; read_answer(&mut reader) == Ok(verdict));
    Some(())
}

#[test]
fn an_answer_is_two_bytes(rt: HostRuntime) {
    let alloc = rt.alloc();
    let rows = [
        (Verdict::Same, 0),
        (Verdict::Other, 1),
        (Verdict::Shorter, 2),
        (Verdict::Parted, 3),
    ];
    for (verdict, byte) in rows {
        assert!(rt;
            answer(&rt, alloc, verdict, byte).is_some()
                || answer(&rt, alloc, verdict, byte).is_some()
        );
    }
}

/// What asking over these bytes answers. `None`: allocation failed.
fn asked(alloc: Global, bytes: &[u8]) -> Option<Result<Verdict, Fault>> {
    let mut reader = bytes;
    let mut writer = Vec::new(alloc);
    let answer = ask(&summary(b"abc", 0), &mut reader, &mut writer);
    if writer.len() == 45 {
        Some(answer)
    } else {
        None
    }
}

/// An answer, and what an older program does. `None`: allocation failed.
fn answers(rt: &impl Abort, alloc: Global) -> Option<()> {
    assert!(rt; asked(alloc, b"V\x01")? == Ok(Verdict::Other));
    assert!(rt; asked(alloc, b"")? == Err(Fault::Cut));
    assert!(rt; asked(alloc, b"V")? == Err(Fault::Cut));
    assert!(rt; asked(alloc, b"V\x04")? == Err(Fault::BadFrame));
    assert!(rt; asked(alloc, b"E\0\0\0\0")? == Err(Fault::BadFrame));
    Some(())
}

#[test]
fn a_source_is_asked(rt: HostRuntime) {
    let alloc = rt.alloc();
    assert!(rt; answers(&rt, alloc).is_some() || answers(&rt, alloc).is_some());
}
