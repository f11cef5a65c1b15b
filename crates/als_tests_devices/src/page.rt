use als_page::{Fault, Page};
use als_record::{BLOCK_LEN, Change, Image, ImageView, KeptImage, Key, Lsn, Value};
use std::process::Abort;

// A value of one byte.
fn one_byte(byte: u8) -> Image {
    let mut value = Value::new();
    match value.try_push(byte) {
        Ok(()) => Some(value),
        Err(_) => None,
    }
}

// The block of page 0 whose slot 0 has the value aa by the record at 16.
fn block_of_first_update() -> [u8; BLOCK_LEN] {
    let mut block = [0; BLOCK_LEN];
    block[7] = 0x10;
    block[13] = 1;
    block[32] = 2;
    block[33] = 0xaa;
    block
}

// The page that a block holds.
fn page_of(rt: &impl Abort, id: u32, block: &[u8; BLOCK_LEN]) -> Page {
    match Page::read_block(id, block) {
        Ok(page) => page,
        Err(_) => panic!(rt; "refused"),
    }
}

// Slot 0 of a page has the value aa.
fn expect_aa(rt: &impl Abort, page: &Page) {
    assert!(rt; page.image(0) == one_byte(0xaa));
}

#[test]
fn writes_and_reads_a_block(rt: HostRuntime) {
    let mut page = Page::empty(0);
    page.redo(&Change {
        lsn: Lsn(16),
        key: Key { page: 0, slot: 0 },
        after: KeptImage::of(&ImageView::of(&one_byte(0xaa))),
    });
    let mut block = [7; BLOCK_LEN];
    page.write_block(&mut block);
    assert!(rt; block.as_slice() == block_of_first_update().as_slice());
    let read = page_of(&rt, 0, &block);
    assert!(rt; read.id() == 0);
    assert!(rt; read.lsn().0 == 16);
    expect_aa(&rt, &read);
    assert!(rt; read.image(14).is_none());
    let copy = page;
    page.redo(&Change {
        lsn: Lsn(17),
        key: Key { page: 0, slot: 0 },
        after: KeptImage::absent(),
    });
    assert!(rt; page.image(0).is_none());
    expect_aa(&rt, &copy);
}

#[test]
fn an_untouched_page_is_zeros(rt: HostRuntime) {
    let read = page_of(&rt, 7, &[0; BLOCK_LEN]);
    assert!(rt; read.id() == 7);
    assert!(rt; read.lsn().0 == 0);
    assert!(rt; read.image(0).is_none());
    let mut block = [7; BLOCK_LEN];
    read.write_block(&mut block);
    assert!(rt; block.as_slice() == [0; BLOCK_LEN].as_slice());
}

#[test]
fn refuses_what_is_no_block(rt: HostRuntime) {
    // page_LSN below 16; another number; another version; a zero of the head; a first byte above
    // 32; a zero of an absent slot; a zero behind a value; a zero of a block whose page_LSN is 0
    for (at, byte) in [
        (7, 15),
        (11, 1),
        (13, 2),
        (31, 1),
        (64, 33),
        (95, 1),
        (34, 1),
        (7, 0),
    ] {
        let mut block = block_of_first_update();
        block[at] = byte;
        match Page::read_block(0, &block) {
            Ok(_) => panic!(rt; "taken: {byte} at {at}"),
            Err(fault) => assert!(rt; fault == Fault::BadPage { page: 0 }),
        }
    }
    let fault = Fault::BadPage { page: 9 };
    assert!(rt; fault.number() == 33);
    assert!(rt; fault.name() == "BadPage");
}
