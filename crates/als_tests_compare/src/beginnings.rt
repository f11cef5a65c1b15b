use als_compare::{Verdict, beginning, read_whole_id, said_first, write_id};
use als_wire::Fault;
use std::alloc::Global;
use std::process::Abort;

#[test]
fn it_ends_at_the_first_seal_or_where_a_log_does(rt: HostRuntime) {
    assert!(rt; beginning(None, 300, 500) == 300);
    assert!(rt; beginning(None, 500, 300) == 300);
    assert!(rt; beginning(Some(100), 500, 300) == 100);
    assert!(rt; beginning(Some(400), 500, 300) == 300);
}

#[test]
fn another_beginning_is_said_first(rt: HostRuntime) {
    for whole in [
        Verdict::Same,
        Verdict::Other,
        Verdict::Shorter,
        Verdict::Parted,
    ] {
        assert!(rt; said_first(whole, Some(Verdict::Other)) == Verdict::Other);
        assert!(rt; said_first(whole, Some(Verdict::Same)) == whole);
        assert!(rt; said_first(whole, Some(Verdict::Shorter)) == whole);
        assert!(rt; said_first(whole, None) == whole);
    }
}

/// The id of which each byte is 7, to the byte, and what is read of it. `None`: allocation failed.
fn id(rt: &impl Abort, alloc: Global) -> Option<()> {
    let mut bytes = Vec::new(alloc);
    write_id(&mut bytes, &[7; 16]).ok()?;
    assert!(rt;
        bytes.as_slice()
            == b"I\x07\x07\x07\x07\x07\x07\x07\x07\x07\x07\x07\x07\x07\x07\x07\x07".as_slice()
    );
    bytes.push(b'Q').ok()?;
    let mut reader = bytes.as_slice();
    assert!(rt; read_whole_id(&mut reader) == Ok([7; 16]));
    assert!(rt; reader == b"Q".as_slice());
    let mut short = &bytes.as_slice()[..16];
    assert!(rt; read_whole_id(&mut short) == Err(Fault::Cut));
    Some(())
}

#[test]
fn an_id_is_written_and_read(rt: HostRuntime) {
    let alloc = rt.alloc();
    assert!(rt; id(&rt, alloc).is_some() || id(&rt, alloc).is_some());
    let mut other = b"Q\0\0\0\0\0\0\0\0\0\0\0\0\0\0\0\0".as_slice();
    assert!(rt; read_whole_id(&mut other) == Err(Fault::BadFrame));
}
