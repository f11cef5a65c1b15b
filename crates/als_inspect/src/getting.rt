ghost use Rattle.std.specs.Prelude.{◌≡◌, IfOk, Ok, length};
ghost use Rattle.als_drive.specs.Driving.{IsRecovered, OnlyRecovers};
ghost use Rattle.als_engine.specs.Machine.{Machine};
ghost use Rattle.als_engine.specs.Publishing.{ReadsKey};
ghost use Rattle.als_engine.specs.Readers.{AreReaders};

use crate::fault::Fault;
use crate::log_text::database_of;
use crate::restarting::restarted;
use als_disk::MemDisk;
use als_drive::{Progress, recover_telling};
use als_engine::Engine;
use als_folder::Folder;
use als_progress::Advance;
use als_record::Key;
use als_text::ShownImage;
use als_view::{Answer, Reader};
use std::fs::File;
use std::io::Write;
use std::rt::Files;
use std::sync::Wait;

/// Prints what the committed transactions left at a key of a folder's standby, as `read` of a script
/// does: `VALUE commits=C lsn=L`, with `-` where the key has nothing. The standby is recovered in a
/// copy in memory; the folder is only read. `progress` receives how far that is.
///
/// Folder: the folder or a file of it failed, or another program has it. Stream: the output failed.
/// Memory: there was none for a copy of it. BadHeader, BadControl, Log, Standby: a restart would
/// refuse the database, or fail on one of its pages.
pub fn get<R: AllocGlobal + Files<File = File> + Wait, P: Progress + Advance, O: Write>(
    rt: &R,
    dir: &str,
    key: Key,
    progress: &mut P,
    output: &mut O,
) -> Result<(), Fault> {
    let folder = Folder::hold_to_read(rt, dir)?;
    let files = folder.open_to_read(rt)?;
    let database = database_of(rt.alloc(), &files)?;
    let (engine, readers) = restarted(rt, &files, &database, progress)?;
    let answer = read(rt, engine, readers, key, progress)?;
    let (commits, lsn) = (answer.commits, answer.lsn.0);
    writeln!(
        output,
        "{} commits={commits} lsn={lsn}",
        ShownImage(&answer.value)
    )?;
    Ok(())
}

/// Recovers a standby and reads a key.
fn read<R: Wait, P: Progress>(
    rt: &R,
    engine: Engine<MemDisk>,
    readers: Vec<Reader>,
    key: Key,
    progress: &mut P,
) -> Result<Answer, Fault>
    requires readers { AreReaders engine.book engine.machine.held.pages readers.items }
    requires some { length readers.items ≡ 1 }
    // What the committed transactions left there, of the standby once it is recovered.
    ensures answer { IfOk result (λ a. (m : Machine) × OnlyRecovers engine.machine m × IsRecovered m
        × ReadsKey m key (Ok a)) }
{
    let (mut engine, mut readers) = (engine, readers);
    recover_telling(rt, &mut engine, progress)?;
    Ok(engine.read(&mut readers[0], key)?)
}
