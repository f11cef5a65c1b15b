use crate::fault::Fault;
use crate::opening::named;
use als_ckpt::{Fault as ControlFault, Restated, Unreached, forget_unreached};
use als_disk::BlockDisk;
use als_engine::Fault as EngineFault;
use als_folder::{Fault as FolderFault, Folder, Part};
use als_record::{LogHeader, Lsn};
use std::fs::File;
use std::os::unix::fs::FileExt;
use std::rt::Files;

/// Receives the takeovers that a folder forgets.
pub trait Forgets {
    /// The takeover that was sealed there is forgotten: the folder's log never reached it.
    fn forgot(&mut self, seal: Lsn);
}

/// The control block's page count and the log device's bytes, as a folder's files have them.
#[derive(Clone, Copy)]
pub struct Extent {
    pub pages: u32,
    pub log_bytes: u64,
}

/// Makes the standby of a folder forget the takeovers of which its log holds nothing: those that
/// were sealed at its end or above. It then follows a primary that they did not come to. Where the
/// folder has no database nothing is done.
///
/// Device: the folder or one of its files failed, or another program has it. Memory: allocation
/// failed.
pub fn forget<R: AllocGlobal + Files<File = File>, F: Forgets>(
    rt: &R,
    dir: &str,
    forgets: &mut F,
) -> Result<(), Fault> {
    let folder = Folder::hold(rt, dir)?;
    if !folder.is_kept(rt)? {
        return Ok(());
    }
    match forget_in(rt, &folder, Unreached::FromEnd, forgets) {
        Ok(()) => Ok(()),
        Err(fault) => Err(named(&folder, fault)),
    }
}

/// The same of a folder that is held, and of these takeovers. A folder whose files say nothing is
/// left to those who open it.
pub(crate) fn forget_in<R: AllocGlobal + Files<File = File>, F: Forgets>(
    rt: &R,
    folder: &Folder,
    which: Unreached,
    forgets: &mut F,
) -> Result<(), Fault> {
    let Some(extent) = extent_of(rt, folder)? else {
        return Ok(());
    };
    let mut control = folder.open_control(rt)?;
    if control.blocks() == 0 {
        return Ok(());
    }
    match forget_unreached(&mut control, extent.pages, extent.log_bytes, which) {
        Ok(restated) => {
            tell(&restated, forgets);
            Ok(())
        }
        Err(ControlFault::BadControl) => Ok(()),
        Err(_) => Err(Fault::Refused(EngineFault::Device)),
    }
}

/// Tells each seal that went away, the oldest first.
fn tell<F: Forgets>(restated: &Restated, forgets: &mut F) {
    let Restated { before, after } = restated;
    let kept = after.history.epoch();
    for (place, seal) in before.history.seals().iter().enumerate() {
        if place >= kept as usize {
            forgets.forgot(Lsn(*seal));
        }
    }
}

/// What the log's header and its length say. None: there is no header.
pub fn extent_of<R: AllocGlobal + Files<File = File>>(
    rt: &R,
    folder: &Folder,
) -> Result<Option<Extent>, Fault> {
    let files = folder.open_to_read(rt)?;
    let sizes = match files.sizes() {
        Ok(sizes) => sizes,
        Err(e) => return Err(Fault::Folder(FolderFault::of(Part::Log, e))),
    };
    if sizes.log == 0 {
        return Ok(None);
    }
    let mut front = [0; 16];
    match files.log.read_exact_at(front.as_mut_slice(), 0) {
        Ok(()) => {}
        Err(e) => return Err(Fault::Folder(FolderFault::of(Part::Log, e))),
    }
    match LogHeader::decode(front.as_slice()) {
        Ok(Some(header)) => Ok(Some(Extent {
            pages: header.pages,
            log_bytes: sizes.log.saturating_mul(512),
        })),
        Ok(None) | Err(_) => Ok(None),
    }
}
