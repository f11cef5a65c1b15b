use crate::resident::resident;
use als_analysis::{Fault, TransTable};
use als_record::{Body, Image, Key, Lsn, Record, TransId, Value};
use std::io;
use std::rt::Files;

/// The table is measured behind this many updates of its one open transaction.
const MARKS: [u64; 3] = [1, 1_000, 1_000_000];

/// An update has this many bytes.
const LENGTH: u64 = 36;

/// Prints how much memory this process has behind 1, 1,000 and 1,000,000 updates of one open
/// transaction, more than before the first. The transaction table alone takes them.
pub fn note_all<R: Print + Files + AllocGlobal>(rt: &R) -> io::Result<()> {
    match TransTable::new(rt.alloc()) {
        Ok(table) => note_marks(rt, table),
        Err(fault) => println!(rt; "{fault}"),
    }
}

fn note_marks<R: Print + Files + AllocGlobal>(rt: &R, table: TransTable) -> io::Result<()> {
    let mut table = table;
    let mut noted = 0;
    let before = resident(rt);
    for mark in MARKS {
        if let Err(fault) = note_up_to(&mut table, noted, mark) {
            return println!(rt; "{fault}");
        }
        noted = mark;
        let (Some(before), Some(now)) = (before, resident(rt)) else {
            return println!(rt; "this machine does not say how much memory a process has");
        };
        println!(rt;
            "transaction table, one open transaction of {mark} updates: {} left, {} KiB more",
            table.rows().first().map_or(0, |kept| kept.left()),
            now.saturating_sub(before).saturating_mul(4)
        )?;
    }
    Ok(())
}

/// Notes the updates of these numbers.
fn note_up_to(table: &mut TransTable, from: u64, to: u64) -> Result<(), Fault> {
    for number in from..to {
        let update = update(number);
        table.note(&update.view())?;
    }
    Ok(())
}

/// The update of a number: it gives a key a value of one byte.
fn update(number: u64) -> Record {
    let at = 16u64.saturating_add(number.saturating_mul(LENGTH));
    Record {
        lsn: Lsn(at),
        prev: Lsn(at.saturating_sub(LENGTH)),
        trans: TransId(1),
        body: Body::Update {
            key: Key { page: 0, slot: 0 },
            before: None,
            after: one_byte(),
        },
    }
}

/// A value of one byte.
fn one_byte() -> Image {
    Value::try_from(&[7u8][..]).ok()
}
