ghost use Rattle.std.specs.Prelude.{◌≡◌, ◌≢◌, ◌≤◌, ℕ, Some, Ok, Err, IfOk};
ghost use Rattle.als_disk.specs.MemDisk.{mem_blocks, mem_slot};
ghost use Rattle.als_disk.specs.Slot.{IsSettled};
ghost use Rattle.als_ckpt.specs.declared.control_state.ControlState.{ControlState as AnyState};
ghost use Rattle.als_inspect.specs.declared.fault.Fault.{Fault as AnyFault};
ghost use Rattle.als_inspect.specs.declared.fault.Fault.TheVariants.{BadHeader as NoHeader};

use crate::copying::copy;
use crate::fault::Fault;
use crate::log_text::{
    Database, control_failed, control_state, damaged, first_bytes, of_folder, of_log, pages_of,
};
use als_ckpt::{ControlState, Fault as ControlFault, read_said};
use als_disk::MemDisk;
use als_engine::CONTROL_BLOCKS;
use als_folder::{DeviceFiles, Fault as FolderFault, LOG_LIMIT, Part, Sizes, Trouble, Wrong};
use als_progress::Unwatched;
use std::alloc::Global;
use std::fs::File;

/// What the files of a folder say of its database, which has a page for each block of pages.blk.
///
/// The first of these that a restart meets. BadControl, or Folder where a file has not the length that the
/// others say: control.blk has no control block of so many pages and its checkpoint, or log.blk ends in front of
/// the mark. BadHeader: the log begins with no header of so many pages. Folder also where a file failed.
/// Memory: there was none for a copy of control.blk.
#[tactic(auto, using(crate::proofs::Ranges::mark_in_range))]
pub(crate) fn whole_database_of(alloc: Global, files: &DeviceFiles) -> Result<Database, Fault>
    ensures { IfOk result (λ d. (16 ≤ d.state.mark.0) × (d.state.mark.0 ≤ 2147483648)) }
{
    let found = files.sizes().map_err(of_folder)?;
    let header = header_of(&files.log, found)?;
    let control = control_of(alloc, &files.control, found, header);
    judged(found.pages, control, header)
}

/// The page count of the log's header. None: the log begins with none.
fn header_of(log: &File, found: Sizes) -> Result<Option<u32>, Fault> {
    if found.log == 0 {
        return Ok(None);
    }
    Ok(pages_of(first_bytes(log).map_err(of_log)?))
}

/// What is wrong with a database of so many pages is the control device first, and then the header.
fn judged(
    pages: u64,
    control: Result<ControlState, Fault>,
    header: Option<u32>,
) -> Result<Database, Fault>
    // Whatever the header is.
    ensures control { (fault : AnyFault) → control ≡ Err fault → result ≡ Err fault }
    // The control device is that of so many pages, and the header is none, or one of another page count.
    ensures header { (state : AnyState) → control ≡ Ok state → header ≢ Some pages
        → result ≡ Err NoHeader }
    ensures sound { (state : AnyState) → control ≡ Ok state → header ≡ Some pages
        → result ≡ Ok (record { pages = pages; state = state }) }
    ensures only { IfOk result (λ d. control ≡ Ok d.state) }
{
    let state = match control {
        Ok(state) => state,
        Err(fault) => return Err(fault),
    };
    let Some(count) = header else {
        return Err(Fault::BadHeader);
    };
    if u64::from(count) != pages {
        return Err(Fault::BadHeader);
    }
    Ok(Database {
        pages: count,
        state,
    })
}

/// What the control block says, where it is that of a database with a page for each block of pages.blk, its
/// checkpoint is whole, and the log goes on up to the mark. `header` has the page count of the log's header, if
/// there is one.
fn control_of(
    alloc: Global,
    control: &File,
    found: Sizes,
    header: Option<u32>,
) -> Result<ControlState, Fault>
    ensures { IfOk result (λ state. (16 ≤ state.mark.0) × (state.mark.0 ≤ 2147483648)) }
{
    if found.control < CONTROL_BLOCKS {
        return Err(damaged(Part::Control));
    }
    let Ok(pages) = u32::try_from(found.pages) else {
        return Err(Fault::BadControl);
    };
    let len = CONTROL_BLOCKS * 512;
    let mut disk = match copy(alloc, control, len, CONTROL_BLOCKS, &mut Unwatched) {
        Ok(disk) => disk,
        Err(e) => return Err(Fault::Folder(FolderFault::of(Part::Control, e))),
    };
    match whole_state(alloc, &mut disk, pages) {
        Ok(state) => {
            if state.mark.0.div_ceil(512) > found.log {
                return Err(damaged(Part::Log));
            }
            Ok(state)
        }
        Err(ControlFault::Memory) => Err(Fault::Memory),
        Err(ControlFault::Device) => Err(control_failed()),
        Err(_) => Err(wrong_with(alloc, control, found, header)),
    }
}

/// What a control device says of a database of so many pages, with a whole checkpoint where it publishes one.
fn whole_state(alloc: Global, disk: &mut MemDisk, pages: u32) -> Result<ControlState, ControlFault>
    requires settled { (k : ℕ) → IsSettled (mem_slot disk.old k) }
    requires room { 321 ≤ mem_blocks disk.old }
    ensures { IfOk result (λ state. (16 ≤ state.mark.0) × (state.mark.0 ≤ 2147483648)) }
{
    let (state, checkpoint) = read_said(alloc, disk, pages, LOG_LIMIT)?;
    drop(checkpoint);
    Ok(state)
}

/// What is wrong with a control device that is not that of a database with a page for each block of pages.blk: with
/// pages.blk, where the control block is that of the header's page count.
fn wrong_with(alloc: Global, control: &File, found: Sizes, header: Option<u32>) -> Fault {
    let blocks = found.pages;
    let Some(pages) = header else {
        return Fault::BadControl;
    };
    if u64::from(pages) == blocks || control_state(alloc, control, pages, found).is_err() {
        return Fault::BadControl;
    }
    if blocks < u64::from(pages) {
        return damaged(Part::Pages);
    }
    Fault::Folder(FolderFault::Damaged(Trouble {
        part: Part::Pages,
        wrong: Wrong::Long { blocks, pages },
    }))
}
