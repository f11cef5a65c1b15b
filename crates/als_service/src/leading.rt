// What a primary has to say before a folder is opened.
ghost use Rattle.std.specs.Prelude.{◌≡◌, ◌<◌, ℕ, length, Ok, OnOk};
ghost use Rattle.als_disk.specs.Slot.{IsSettled};
ghost use Rattle.als_epochs.specs.declared.step.Step.TheVariants.{Adopt};
ghost use Rattle.als_epochs.specs.Judging.{judged};
ghost use Rattle.als_service.specs.Leading.{IsTakenOver, wants_of};

use als_ckpt::{Phase, read_state};
use als_disk::{BlockDisk, FileDisk};
use als_engine::{CONTROL_BLOCKS, Fault as EngineFault};
use als_epochs::{Fault as HistoryFault, History, Step, judge};
use als_folder::{Fault as FolderFault, Folder, Found, LOG_LIMIT, Part, Role, Trouble, Wrong};
use als_operate::{Fault, Following, dial};
use als_record::{LogHeader, Lsn};
use als_ship::Fault as SessionFault;
use als_wire::{read_epochs, write_resume};
use std::alloc::Global;
use std::fs::File;
use std::io::{Read, Write};
use std::net::{Net, OpenStream};
use std::rt::Files;

/// Where the log of a primary's folder ends, and under which history.
#[derive(Drop)]
pub(crate) struct Led {
    pub end: Lsn,
    pub history: History,
}

/// What a folder wants of its primary before it is opened.
#[derive(Drop)]
pub(crate) enum Wants {
    /// Nothing: it has a standby's database, or one that is refused whatever the primary says.
    Nothing,
    /// A history, whichever: it has no database.
    Greeting,
    /// That of a primary that took over from the folder, which is a primary's.
    Takeover(Led),
}

/// What a folder with a database of so many pages wants of its primary. It is held for that. Nothing is opened but
/// its control block. A role beside no database is nobody's, and goes: whoever made it stopped before there was one.
///
/// Device: the folder or one of its files failed, or another program has it. Memory: there was none for a name or the
/// control block.
pub(crate) fn wanted_by<R: AllocGlobal + Files<File = File>>(
    rt: &R,
    dir: &str,
    pages: u64,
) -> Result<Wants, Fault> {
    let folder = Folder::hold(rt, dir)?;
    let role = folder.role(rt)?;
    match folder.find(rt)? {
        Found::Kept => {}
        Found::Vacant(vacancy) => {
            drop(vacancy);
            if role.is_some() {
                folder.remove_role(rt)?;
            }
            return Ok(Wants::Greeting);
        }
    }
    let Some(role) = role else {
        return Ok(Wants::Nothing);
    };
    let mut control = folder.open_control(rt)?;
    Ok(wants_of(role, led_by(&mut control, pages)))
}

/// What a folder with this role wants, whose control block says this. One that says nothing, or that its database
/// was taken over, is refused when it is opened. A folder whose history has gone on since its role was made
/// wrote nothing of that history.
fn wants_of(role: Role, led: Option<Led>) -> Wants
    ensures { result ≡ wants_of role led }
{
    match led {
        Some(led) => {
            if led.history.epoch() <= role.epoch {
                Wants::Takeover(led)
            } else {
                Wants::Nothing
            }
        }
        None => Wants::Nothing,
    }
}

/// Where the log of a database of so many pages ends, and under which history, as its control block says. None: it
/// is no such control block, or the database was taken over.
fn led_by(control: &mut FileDisk, pages: u64) -> Option<Led>
    requires { (k : ℕ) → IsSettled (⟦<FileDisk<File> as BlockDisk>⟧.slot control.old k) }
{
    if control.blocks() < CONTROL_BLOCKS {
        return None;
    }
    let Ok(count) = u32::try_from(pages) else {
        return None;
    };
    match read_state(control, count, LOG_LIMIT) {
        Ok(state) if state.phase == Phase::Following => Some(Led {
            end: state.mark,
            history: state.history,
        }),
        Ok(_) | Err(_) => None,
    }
}

/// The history under which a folder's log is held, as its control block says. None: it is no such control block. The
/// folder is held already, and nobody writes it meanwhile.
///
/// Device: the folder or the file failed. Memory: there was none for a name or the control block.
pub(crate) fn held_history<R: AllocGlobal + Files<File = File>>(
    rt: &R,
    following: Following<'_>,
) -> Result<Option<History>, Fault> {
    let Ok(pages) = u32::try_from(following.pages) else {
        return Ok(None);
    };
    let held = File::open(rt, following.dir)?;
    let folder = Folder::over(rt.alloc(), following.dir, held)?;
    let mut control = folder.open_control(rt)?;
    if control.blocks() < CONTROL_BLOCKS {
        return Ok(None);
    }
    match read_state(&mut control, pages, LOG_LIMIT) {
        Ok(state) => Ok(Some(state.history)),
        Err(_) => Ok(None),
    }
}

/// The history that the primary of a former primary's folder offers, over a connection of its own.
///
/// Session, Stream: nobody serves at the address, what came is no history, or the network failed.
pub(crate) fn offered_to<R: AllocGlobal + Net>(
    rt: &R,
    following: Following<'_>,
    led: &Led,
) -> Result<History, Fault> {
    let Ok(pages) = u32::try_from(following.pages) else {
        return Err(Fault::Refused(EngineFault::BadConfig));
    };
    let mut writer = dial(rt, following)?;
    let mut reader = writer.try_clone()?;
    let header = LogHeader { pages };
    let offered = answer_to(rt.alloc(), header, led, &mut reader, &mut writer)?;
    Ok(offered)
}

/// The history that is answered to who asks for the log behind a folder's.
fn answer_to<I: Read, O: Write>(
    alloc: Global,
    header: LogHeader,
    led: &Led,
    reader: &mut I,
    writer: &mut O,
) -> Result<History, SessionFault> {
    let mut asked = Vec::new(alloc);
    write_resume(&mut asked, led.end, header, &led.history)?;
    writer.write_all(asked.as_slice())?;
    writer.flush()?;
    let offered = read_epochs(reader)?;
    Ok(offered)
}

/// Refuses a history of no more takeovers.
pub(crate) fn check_taken_over(own: &History, offered: &History) -> Result<(), Fault>
    ensures { OnOk result (length own.now < length offered.now) }
{
    if own.epoch() < offered.epoch() {
        return Ok(());
    }
    Err(of_primary())
}

/// The folder is a primary's, and nobody took over from it.
pub(crate) fn of_primary() -> Fault {
    Fault::Folder(FolderFault::Device(Trouble {
        part: Part::Role,
        wrong: Wrong::OfPrimary,
    }))
}

/// Refuses a primary's folder whose log is no front of the log of the primary that offers this history.
///
/// Session: they parted there. Device: that primary did not take over from the folder.
pub(crate) fn check_granted(led: &Led, offered: &History) -> Result<(), Fault>
    ensures { OnOk result (IsTakenOver led.now offered.now) }
{
    match judge(&led.history, offered, led.end) {
        Ok(Step::Adopt) => Ok(()),
        Ok(Step::Stay) => Err(of_primary()),
        Err(HistoryFault::Diverged { seal }) => {
            let cause = SessionFault::Diverged { seal };
            Err(Fault::Session(cause))
        }
        Err(HistoryFault::OtherEpoch { epoch }) => {
            let cause = SessionFault::OtherEpoch { epoch };
            Err(Fault::Session(cause))
        }
    }
}
