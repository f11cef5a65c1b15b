ghost use Rattle.std.specs.Prelude.{◌≡◌, ◌<◌, ◌≤◌, length, IfOk};

use als_dirty::{DirtyTable, other_records_pass, rec_lsn_covers_each_image};
use als_record::{LoggedPage, Lsn, PageRows};
use std::alloc::{AllocError, Global};
use std::process::Abort;
use std::test::Fail;

// A new table. A refused growth is met once at most: it is made at the next try.
fn fresh(alloc: Global, pages: u32) -> Result<DirtyTable, AllocError>
    requires { pages ≤ 4096 }
    ensures { IfOk result (λ table. length table ≡ pages) }
{
    if let Ok(table) = DirtyTable::new(alloc, pages) {
        return Ok(table);
    }
    let table = DirtyTable::new(alloc, pages)?;
    Ok(table)
}

// All rows, in the same way.
fn rows_of(table: &DirtyTable, alloc: Global) -> Result<PageRows, AllocError> {
    match table.rows(alloc) {
        Ok(rows) => Ok(rows),
        Err(_) => table.rows(alloc),
    }
}

fn row(page: u32, lsn: u64) -> LoggedPage {
    LoggedPage {
        page,
        rec_lsn: Lsn(lsn),
    }
}

// The row of a page is this one.
fn expect_rec_lsn(rt: &impl Abort, table: &DirtyTable, page: u32, lsn: u64)
    requires { page < length table.now }
{
    assert!(rt; table.rec_lsn(page) == Some(Lsn(lsn)));
}

// Whether these are all rows.
fn are_rows(table: &DirtyTable, alloc: Global, wanted: &[LoggedPage]) -> Result<bool, AllocError> {
    let rows = rows_of(table, alloc)?;
    Ok(rows.as_slice() == wanted)
}

// The first row from a page on is this one.
fn expect_next_row(rt: &impl Abort, table: &DirtyTable, from: u32, page: u32, lsn: u64) {
    assert!(rt; table.next_row(from) == Some(row(page, lsn)));
}

#[test]
fn a_row_moves_at_the_sync(rt: HostRuntime) -> Result<(), Fail> {
    let mut table = fresh(rt.alloc(), 2)?;
    table.note_change(0, Lsn(16));
    table.note_change(0, Lsn(80));
    expect_rec_lsn(&rt, &table, 0, 16);
    table.note_write(0, Some(Lsn(80)));
    expect_rec_lsn(&rt, &table, 0, 16);
    table.note_sync();
    expect_rec_lsn(&rt, &table, 0, 80);
    table.note_write(0, None);
    table.note_sync();
    assert!(rt; table.rec_lsn(0).is_none());
    table.note_change(0, Lsn(116));
    expect_rec_lsn(&rt, &table, 0, 116);
    Ok(())
}

#[test]
fn a_row_is_exact_once_the_image_is_read(rt: HostRuntime) -> Result<(), Fail> {
    let mut table = fresh(rt.alloc(), 3)?;
    table.loaded(2, Some(Lsn(16)));
    expect_rec_lsn(&rt, &table, 2, 16);
    table.note_change(2, Lsn(80));
    table.loaded(2, Some(Lsn(80)));
    expect_next_row(&rt, &table, 0, 2, 80);
    table.loaded(2, None);
    assert!(rt; table.next_row(0).is_none());
    Ok(())
}

#[test]
fn a_page_that_is_written_often_is_listed_once(rt: HostRuntime) -> Result<(), Fail> {
    let mut table = fresh(rt.alloc(), 2)?;
    table.note_change(0, Lsn(16));
    table.note_change(1, Lsn(52));
    table.note_write(1, Some(Lsn(80)));
    table.note_write(0, None);
    table.note_write(1, Some(Lsn(80)));
    table.note_write(0, None);
    table.note_write(1, Some(Lsn(80)));
    table.note_sync();
    expect_next_row(&rt, &table, 0, 1, 80);
    table.note_write(1, None);
    table.note_sync();
    assert!(rt; table.next_row(0).is_none());
    Ok(())
}

#[test]
fn rows_stand_in_rising_page(rt: HostRuntime) -> Result<(), Fail> {
    let mut table = fresh(rt.alloc(), 4096)?;
    assert!(rt; table.next_row(0).is_none());
    assert!(rt; are_rows(&table, rt.alloc(), &[])?);
    table.note_change(4095, Lsn(16));
    table.note_change(3, Lsn(52));
    table.note_change(7, Lsn(88));
    let wanted = [row(3, 52), row(7, 88), row(4095, 16)];
    assert!(rt; are_rows(&table, rt.alloc(), &wanted)?);
    expect_next_row(&rt, &table, 0, 3, 52);
    expect_next_row(&rt, &table, 3, 3, 52);
    expect_next_row(&rt, &table, 4, 7, 88);
    expect_next_row(&rt, &table, 8, 4095, 16);
    assert!(rt; table.next_row(4096).is_none());
    Ok(())
}

#[test]
fn laws_take_nothing() {
    rec_lsn_covers_each_image();
    other_records_pass();
}
