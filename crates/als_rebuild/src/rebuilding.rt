// The pages of a folder are laid out anew from its log.
//
//  1. The log is read and judged up to the mark. Nothing is written where it is refused.
//  2. pages.new is made of zeros and synced, as many blocks as the log's header has pages.
//  3. The control block forgets its checkpoint. Over the old pages that is the node of before, and
//     over zeros it is a node too: what the pages lack is looked for from the first record on.
//  4. pages.new becomes pages.blk.
//  5. The node is opened as ever, redoes its whole log, and settles.
//
// A stop in front of 3 leaves the folder as it was, and one behind it a log whose pages are made
// anew by another call: `als_reopen` has the laws.
ghost use Rattle.std.specs.Prelude.{◌≡◌, ◌≤◌, ℕ, OnOk};
ghost use Rattle.als_disk.specs.Slot.{IsSettled};

use als_ckpt::{Fault as ControlFault, forget_checkpoint, read_state};
use als_disk::{BlockDisk, FileDisk};
use als_drive::{Progress, recover_telling};
use als_engine::{CONTROL_BLOCKS, Fault as EngineFault, LOG_BLOCK_LIMIT};
use als_folder::{Fault as FolderFault, Folder, LOG_LIMIT, Part, Trouble, Wrong};
use als_operate::{Fault, PENDING, named, reopen, settle};
use als_progress::{Advance, Work};
use als_record::{LogHeader, Lsn};
use als_scan::{Fault as ScanFault, Scan};
use std::alloc::Global;
use std::fs::File;
use std::io::Write;
use std::rt::Files;
use std::sync::Wait;

/// After this many records it reports how far the log was read.
const TOLD_EACH: u64 = 1_024;

/// A log that was read up to its mark.
#[derive(Clone, Copy)]
struct Judged {
    /// How many pages its database has.
    pages: u32,
    /// The bytes of its device.
    log_bytes: u64,
}

/// Lays the pages of a folder's node out anew from its log, whatever they held, and then prints
/// `end=E ack=A`. A missing pages.blk is no fault. It may be called again after a stop. `progress`
/// receives how far it has come.
///
/// Device: the folder or one of its files failed, it has no control block, or another program has
/// it. Shape, Invalid, BadControl: the log or the control block is damaged, and nothing was written.
/// Stream: the output failed. Memory: there was none for a copy of the log. Else as `Engine::open`
/// says, or the first refusal of an event.
pub fn rebuild_pages<R: AllocGlobal + Files<File = File> + Wait, P: Progress + Advance, O: Write>(
    rt: &R,
    dir: &str,
    progress: &mut P,
    output: &mut O,
) -> Result<(), Fault> {
    let folder = Folder::hold(rt, dir)?;
    match rebuild_in(rt, &folder, progress, output) {
        Ok(()) => Ok(()),
        Err(fault) => Err(named(&folder, fault)),
    }
}

/// The same in a folder that is held.
fn rebuild_in<R: AllocGlobal + Files<File = File> + Wait, P: Progress + Advance, O: Write>(
    rt: &R,
    folder: &Folder,
    progress: &mut P,
    output: &mut O,
) -> Result<(), Fault> {
    let judged = judge_log(rt, folder, progress)?;
    lay_out(rt, folder, judged)?;
    let mut engine = reopen(rt, folder, PENDING)?;
    recover_telling(rt, &mut engine, progress)?;
    settle(&mut engine)?;
    let status = engine.status();
    writeln!(output, "end={} ack={}", status.end.0, status.acknowledged.0)?;
    Ok(())
}

/// Puts zeros in the place of the pages, once the control block has forgotten its checkpoint.
fn lay_out<R: AllocGlobal + Files<File = File>>(
    rt: &R,
    folder: &Folder,
    judged: Judged,
) -> Result<(), Fault> {
    let laid_out = folder.lay_out_pages(rt, u64::from(judged.pages))?;
    drop(laid_out);
    let mut control = folder.open_control(rt)?;
    check_control(&control)?;
    match forget_checkpoint(&mut control, judged.pages, judged.log_bytes) {
        Ok(_) => {}
        Err(fault) => return Err(of_control(fault)),
    }
    folder.keep_pages(rt)?;
    Ok(())
}

/// Reads the log of a folder up to the mark of its control block. Nothing is written.
fn judge_log<R: AllocGlobal + Files<File = File>, A: Advance>(
    rt: &R,
    folder: &Folder,
    advance: &mut A,
) -> Result<Judged, Fault> {
    let mut control = folder.open_control(rt)?;
    check_control(&control)?;
    let mut log = folder.open_whole_log(rt)?;
    if log.blocks() > LOG_BLOCK_LIMIT {
        return Err(Fault::Refused(EngineFault::BadConfig));
    }
    let log_bytes = log.blocks() * 512;
    let pages = pages_of(&mut log)?;
    match read_state(&mut control, pages, LOG_LIMIT) {
        Ok(state) => read_log(rt.alloc(), log, pages, state.mark, advance)?,
        Err(fault) => return Err(of_control(fault)),
    }
    Ok(Judged { pages, log_bytes })
}

/// Reads all records of a log below a mark.
fn read_log<A: Advance>(
    alloc: Global,
    log: FileDisk,
    pages: u32,
    mark: Lsn,
    advance: &mut A,
) -> Result<(), Fault>
    requires settled { (k : ℕ) → IsSettled (⟦<FileDisk<File> as BlockDisk>⟧.slot log k) }
    requires few { ⟦<FileDisk<File> as BlockDisk>⟧.block_count log ≤ 4194304 }
    requires low { 16 ≤ mark.0 }
{
    if mark.0 > log.blocks() * 512 {
        return Err(short(Part::Log));
    }
    match Scan::new(alloc, log, pages, mark.0) {
        Ok(records) => {
            let mut records = records;
            read_on(&mut records, mark.0, advance)
        }
        Err(unread) => {
            let fault = unread.fault;
            drop(unread);
            Err(of_log(fault))
        }
    }
}

/// Reads all records, of so many bytes.
fn read_on<D: BlockDisk, A: Advance>(
    records: &mut Scan<D>,
    whole: u64,
    advance: &mut A,
) -> Result<(), Fault> {
    for count in 0..u64::MAX {
        if count % TOLD_EACH == 0 {
            advance.advances(Work::Judge, records.end().0, whole);
        }
        match records.next() {
            Ok(Some(_)) => {}
            Ok(None) => return Ok(()),
            Err(fault) => return Err(of_log(fault)),
        }
    }
    Err(Fault::Memory)
}

/// How many pages the header of a log says.
fn pages_of<D: BlockDisk>(log: &mut D) -> Result<u32, Fault>
    ensures settled { ((k : ℕ) → IsSettled (D.slot log.old k)) → (k : ℕ)
        → IsSettled (D.slot log.new k) }
    ensures count { D.block_count log.new ≡ D.block_count log.old }
{
    if log.blocks() == 0 {
        return Err(short(Part::Log));
    }
    let mut block = [0; 512];
    match log.read(0, &mut block) {
        Ok(()) => {}
        Err(_) => return Err(Fault::Refused(EngineFault::Device)),
    }
    let (front, _) = block.split_at(16);
    match LogHeader::decode(front) {
        Ok(Some(header)) => Ok(header.pages),
        Ok(None) | Err(_) => Err(Fault::Refused(EngineFault::BadHeader)),
    }
}

/// Refuses a control file that is too short.
fn check_control(control: &FileDisk) -> Result<(), Fault>
    ensures { OnOk result (321 ≤ ⟦<FileDisk<File> as BlockDisk>⟧.block_count control.now) }
{
    if control.blocks() < CONTROL_BLOCKS {
        return Err(short(Part::Control));
    }
    Ok(())
}

/// A file is too short.
fn short(part: Part) -> Fault {
    let wrong = Wrong::Short;
    Fault::Folder(FolderFault::Damaged(Trouble { part, wrong }))
}

/// Why the control block is refused.
fn of_control(fault: ControlFault) -> Fault {
    match fault {
        ControlFault::Device => Fault::Refused(EngineFault::Device),
        ControlFault::Memory => Fault::Memory,
        _ => Fault::Refused(EngineFault::BadControl),
    }
}

/// Why the log is refused.
fn of_log(fault: ScanFault) -> Fault {
    match fault {
        ScanFault::Shape(shape) => Fault::Refused(EngineFault::from(shape)),
        ScanFault::Invalid(cause) => Fault::Refused(EngineFault::from(cause)),
        ScanFault::BadControl => Fault::Refused(EngineFault::BadControl),
        ScanFault::Device => Fault::Refused(EngineFault::Device),
        ScanFault::Memory => Fault::Memory,
    }
}
