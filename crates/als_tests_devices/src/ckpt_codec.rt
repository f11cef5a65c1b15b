use als_ckpt_codec::{Checkpoint, Fault, Numbers, decode_checkpoint, encode_checkpoint};
use als_record::{LoggedPage, LoggedTransaction, Lsn, PageRows, TransId, TransactionRows};
use std::alloc::Global;
use std::process::Abort;

fn numbers() -> Numbers {
    Numbers {
        position: Lsn(116),
        greatest: TransId(9),
        open_checkpoint: Lsn(60),
        commits: 3,
        last_commit: Lsn(88),
    }
}

/// The 106 bytes of a checkpoint with two rows in each table, and zeros to a block's end.
fn checkpoint_block(alloc: Global) -> Result<[u8; 512], Fault> {
    let mut transactions = TransactionRows::new(alloc);
    for (trans, state) in [(5, 1), (9, 3)] {
        let row = LoggedTransaction {
            trans: TransId(trans),
            state,
            last: Lsn(100),
            undo_next: Lsn(72),
        };
        if transactions.as_slice().len() < TransactionRows::LIMIT {
            transactions.push(row)?;
        }
    }
    let mut pages = PageRows::new(alloc);
    for page in [0, 2] {
        let row = LoggedPage {
            page,
            rec_lsn: Lsn(60),
        };
        if pages.as_slice().len() < PageRows::LIMIT {
            pages.push(row)?;
        }
    }
    let bytes = encode_checkpoint(
        alloc,
        Checkpoint {
            numbers: numbers(),
            transactions,
            pages,
        },
    )?;
    let mut block = [0; 512];
    for at in 0..512usize {
        if let Some(byte) = bytes.get(at) {
            block[at] = *byte;
        }
    }
    Ok(block)
}

/// What is read from the checkpoint's bytes with another byte at a place: the numbers, and how many
/// rows.
fn read_checkpoint_with(
    alloc: Global,
    at: u16,
    byte: u8,
) -> Result<(Numbers, usize, usize), Fault> {
    let mut block = checkpoint_block(alloc)?;
    if let Some(place) = block.get_mut(at as usize) {
        *place = byte;
    }
    let found = decode_checkpoint(alloc, &mut block, 4, Lsn(116))?;
    Ok((
        found.numbers,
        found.transactions.as_slice().len(),
        found.pages.as_slice().len(),
    ))
}

/// The same, by a second try where allocation failed.
fn read_again_with(alloc: Global, at: u16, byte: u8) -> Result<(Numbers, usize, usize), Fault> {
    match read_checkpoint_with(alloc, at, byte) {
        Err(Fault::Memory) => read_checkpoint_with(alloc, at, byte),
        read => read,
    }
}

/// With another byte at a place the checkpoint is read as it is.
fn is_read(alloc: Global, at: u16, byte: u8) -> bool {
    read_again_with(alloc, at, byte) == Ok((numbers(), 2, 2))
}

/// With another byte at a place nothing is read.
fn expect_refused(rt: &impl Abort, alloc: Global, what: &str, at: u16, byte: u8) {
    assert!(rt;
        read_again_with(alloc, at, byte) == Err(Fault::BadControl),
        "{what}"
    );
}

#[test]
fn a_checkpoint_is_read_back(rt: HostRuntime) {
    assert!(rt; is_read(rt.alloc(), 0, 0));
    // a byte behind the rows is not looked at
    assert!(rt; is_read(rt.alloc(), 106, 1));
    let rows: [(&str, u16, u8); 9] = [
        ("another position", 7, 117),
        ("more than 256 transactions", 36, 2),
        ("more than 4,096 pages", 38, 17),
        ("no state", 44, 0),
        ("a state above 4", 44, 5),
        ("transactions that fall", 64, 4),
        ("a transaction twice", 64, 5),
        ("a page twice", 97, 0),
        ("a page past the database", 97, 4),
    ];
    for (what, at, byte) in rows {
        expect_refused(&rt, rt.alloc(), what, at, byte);
    }
}
