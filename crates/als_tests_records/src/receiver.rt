use als_receiver::{Receiver, Refusal};
use als_record::{Fault, Lsn};
use std::process::Abort;

// An update at 16, a commit at 52 and an end at 80, of one transaction.
const LOG: [u8; 92] = [
    0, 0, 0, 0x24, 1, 0, 0, 0, 0, 0, 0, 0, 0, 0, 0, 0x10, 0, 0, 0, 0, 0, 0, 0, 0, 0, 0, 0, 1, 0, 0,
    0, 0, 0, 0xff, 1, 0xaa, //
    0, 0, 0, 0x1c, 3, 0, 0, 0, 0, 0, 0, 0, 0, 0, 0, 0x34, 0, 0, 0, 0, 0, 0, 0, 0x10, 0, 0, 0, 1, //
    0, 0, 0, 0x1c, 5, 0, 0, 0, 0, 0, 0, 0, 0, 0, 0, 0x50, 0, 0, 0, 0, 0, 0, 0, 0x34, 0, 0, 0, 1,
];

// An end_chkpt at 16 with one transaction row.
const CHECKPOINT: [u8; 53] = [
    0, 0, 0, 53, 7, 0, 0, 0, 0, 0, 0, 0, 0, 0, 0, 0x10, 0, 0, 0, 0, 0, 0, 0, 0, 0, 0, 0, 0, 0, 1,
    0, 0, 0, 0, 0, 1, 1, 0, 0, 0, 0, 0, 0, 0, 16, 0, 0, 0, 0, 0, 0, 0, 16,
];

// Where the records stand that were handed out.
#[derive(Clone, Copy, Debug, PartialEq, Eq)]
struct Found {
    lsns: [u64; 3],
    count: usize,
}

const NONE: Found = Found {
    lsns: [0; 3],
    count: 0,
};

// All records of the log.
const ALL: Found = Found {
    lsns: [16, 52, 80],
    count: 3,
};

impl Found {
    fn note(&mut self, lsn: Lsn) {
        if let Some(place) = self.lsns.get_mut(self.count) {
            *place = lsn.0;
        }
        self.count = self.count.saturating_add(1);
    }
}

// Pushes a piece. A refused growth changes nothing, and is met once at most: the piece is taken at
// the next try.
fn push(rt: &impl Abort, receiver: &mut Receiver, piece: &[u8]) {
    let before = receiver.partial();
    let position = receiver.position();
    assert!(rt; position < 1000 && piece.len() < 1000);
    if receiver.push(piece).is_err() {
        assert!(rt; receiver.partial() == before);
        assert!(rt; receiver.position() == position);
        assert!(rt; receiver.push(piece).is_ok());
    }
    assert!(rt; receiver.position() == position + piece.len() as u64);
}

// Pushes a piece, and notes where the records stand that are whole then.
fn feed(rt: &impl Abort, receiver: &mut Receiver, piece: &[u8], found: &mut Found) {
    push(rt, receiver, piece);
    for _ in 0..10 {
        match receiver.next() {
            Ok(Some(record)) => found.note(record.lsn),
            Ok(None) => return,
            Err(refusal) => panic!(rt; "{refusal}"),
        }
    }
}

#[test]
fn each_cut_gives_the_records(rt: HostRuntime) {
    for cut in 0..=LOG.len() {
        let mut receiver = Receiver::new(rt.alloc(), Lsn(16), 4);
        let mut found = NONE;
        feed(&rt, &mut receiver, &LOG[..cut], &mut found);
        assert!(rt; receiver.position() == 16 + cut as u64);
        feed(&rt, &mut receiver, &LOG[cut..], &mut found);
        assert!(rt; found == ALL);
        assert!(rt; receiver.partial() == 0);
        assert!(rt; receiver.next_lsn() == Lsn(108));
    }
}

#[test]
fn single_bytes_give_the_records(rt: HostRuntime) {
    let mut receiver = Receiver::new(rt.alloc(), Lsn(16), 4);
    let mut found = NONE;
    for byte in LOG {
        feed(&rt, &mut receiver, &[byte], &mut found);
    }
    assert!(rt; found == ALL);
    assert!(rt; receiver.partial() == 0);
}

#[test]
fn a_refusal_stays(rt: HostRuntime) {
    let mut log = LOG;
    log[40] = 9;
    let refusal = Refusal {
        lsn: Lsn(52),
        fault: Fault::BadType,
    };
    let mut receiver = Receiver::new(rt.alloc(), Lsn(16), 4);
    push(&rt, &mut receiver, &log);
    assert!(rt; matches!(receiver.next(), Ok(Some(_))));
    for _ in 0..3 {
        assert!(rt; receiver.next().err() == Some(refusal));
    }
    receiver.drop_partial();
    assert!(rt; receiver.partial() == 0);
    assert!(rt; receiver.next_lsn() == Lsn(52));
    assert!(rt; receiver.next().err() == Some(refusal));
}

#[test]
fn want_of_memory_is_not_kept(rt: HostRuntime) {
    let mut receiver = Receiver::new(rt.alloc(), Lsn(16), 4);
    push(&rt, &mut receiver, &CHECKPOINT);
    let mut answer = receiver.next();
    if let Err(refusal) = answer {
        assert!(rt;
            refusal
                == Refusal {
                    lsn: Lsn(16),
                    fault: Fault::Memory
                }
        );
        assert!(rt; receiver.partial() == CHECKPOINT.len());
        answer = receiver.next();
    }
    assert!(rt; matches!(answer, Ok(Some(_))));
    assert!(rt; receiver.next_lsn() == Lsn(69));
}

#[test]
fn room_that_was_made_takes_the_pieces(rt: HostRuntime) {
    let mut receiver = Receiver::new(rt.alloc(), Lsn(16), 4);
    // A refused growth is met once at most, and loses nothing.
    if receiver.reserve(LOG.len()).is_err() {
        assert!(rt; receiver.reserve(LOG.len()).is_ok());
    }
    assert!(rt; receiver.partial() == 0);
    assert!(rt; receiver.push(&LOG[..40]).is_ok());
    assert!(rt; matches!(receiver.next(), Ok(Some(_))));
    assert!(rt; receiver.position() == 56);
    assert!(rt; receiver.push(&LOG[40..]).is_ok());
    assert!(rt; receiver.position() == 108);
}

#[test]
fn what_is_shown_is_taken(rt: HostRuntime) {
    let mut receiver = Receiver::new(rt.alloc(), Lsn(16), 4);
    push(&rt, &mut receiver, &LOG[..60]);
    assert!(rt; matches!(receiver.peek(), Ok(Some((view, 36))) if view.lsn == Lsn(16)));
    assert!(rt; take(&rt, &mut receiver, &LOG[..36]));
    assert!(rt; receiver.next_lsn() == Lsn(52));
    assert!(rt; matches!(receiver.peek(), Ok(None)));
    push(&rt, &mut receiver, &LOG[60..]);
    assert!(rt; take(&rt, &mut receiver, &LOG[36..64]));
    assert!(rt; take(&rt, &mut receiver, &LOG[64..]));
    assert!(rt; receiver.partial() == 0);
}

// Takes the record that is shown, whose bytes are these.
fn take(rt: &impl Abort, receiver: &mut Receiver, bytes: &[u8]) -> bool {
    match receiver.peek() {
        Ok(Some((_, len))) => {
            assert!(rt; receiver.front(len) == bytes);
            receiver.advance(len);
            true
        }
        _ => false,
    }
}
