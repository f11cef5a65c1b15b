ghost use Rattle.std.specs.Prelude.{◌≡◌, ◌≤◌, IfOk, IfErr};
ghost use Rattle.als_engine.specs.declared.fault.Fault.TheVariants.{BadConfig};
ghost use Rattle.als_engine.specs.Config.{IsConfig};
ghost use Rattle.als_operate.specs.declared.fault.Fault.TheVariants.{Refused};

use crate::fault::Fault;
use crate::greeting::{Lines, call};
use crate::introducing::Introducing;
use crate::leading::give_up;
use crate::line::Line;
use crate::naming::{keep_name, name_of};
use crate::opening::{begin, named, open_kept};
use crate::standby_command::{Following, PENDING};
use als_disk::FileDisk;
use als_engine::{Config, Engine, Fault as EngineFault, LOG_BLOCK_LIMIT, Reader};
use als_epochs::History;
use als_folder::{Folder, Found};
use als_record::FIRST_LSN;
use std::fs::File;
use std::net::Net;
use std::random::RandomSource;
use std::rt::Files;
use std::sync::Wait;
use std::time::Clock;

/// A standby whose folder is held. What its database has is not redone yet.
pub struct Held<S> {
    pub folder: Folder,
    pub engine: Engine<FileDisk>,
    pub readers: Vec<Reader>,
    /// It is a new database, which the folder does not have before `Folder::keep`.
    pub is_new: bool,
    /// The connection to its primary, to be read and to be written, where that was greeted before a new
    /// database was laid out, or before the folder gave up its role.
    pub greeted: Option<(Line<S>, Line<S>)>,
    /// Says the id of the folder in front of each session.
    pub introducing: Introducing,
}

/// Holds the folder and opens its database, for so many readers, 1 to 8. Where it has none, a new one
/// is made: where the primary is to be asked first, once it has answered with its history, and then the
/// folder has it; else the folder has it only once `Folder::keep` is called. A folder without an id gets one: a new database before
/// it is laid out.
///
/// BadConfig: a number is out of its range; no file was touched. Sealed: the database was taken over,
/// and follows no more. Device: the folder or one of its files failed, another program has the
/// folder, or it is a primary's and nobody took over from it. Session, Stream: the primary was asked, and nobody serves at the address, what came is no
/// history, or the network failed. Memory: allocation failed. Else as `Engine::open` says.
pub fn hold<R: AllocGlobal + Files<File = File> + Net + Wait + Clock + RandomSource>(
    rt: &R,
    following: Following<'_>,
    readers: u64,
    is_asked: bool,
) -> Result<Held<R::Stream>, Fault> {
    let config = config_of(following.pages, following.log_blocks, readers)?;
    let folder = Folder::hold(rt, following.dir)?;
    match hold_in(rt, &folder, config, following, is_asked) {
        Ok(
            Opened {
                engine,
                readers,
                is_new,
                greeted,
                introducing,
            },
        ) => Ok(Held {
            folder,
            engine,
            readers,
            is_new,
            greeted,
            introducing,
        }),
        Err(fault) => Err(named(&folder, fault)),
    }
}

/// What a folder holds, opened, or a new database in it.
struct Opened<S> {
    engine: Engine<FileDisk>,
    readers: Vec<Reader>,
    is_new: bool,
    greeted: Option<(Line<S>, Line<S>)>,
    introducing: Introducing,
}

/// The engine of a folder that is held and its readers, and the connection to its primary, where that
/// was greeted before a new database was laid out. A new one is laid out where als_folder found a
/// vacancy, and nowhere else.
fn hold_in<R: AllocGlobal + Files<File = File> + Net + Wait + Clock + RandomSource>(
    rt: &R,
    folder: &Folder,
    config: Config,
    following: Following<'_>,
    is_asked: bool,
) -> Result<Opened<R::Stream>, Fault> {
    let vacancy = match folder.find(rt)? {
        Found::Kept => return open_found(rt, folder, config, following),
        Found::Vacant(vacancy) => vacancy,
    };
    let named = name_of(rt, folder)?;
    let mut introducing = Introducing::new(named.id);
    let own = History::empty();
    let led = give_up(rt, folder, following, &mut introducing, FIRST_LSN, &own)?;
    let greeted = first_lines(rt, following, &mut introducing, led, is_asked)?;
    keep_name(rt, folder, named)?;
    let (engine, readers) = begin(rt, vacancy, config, following.log_blocks)?;
    if is_asked {
        folder.keep(rt)?;
    }
    Ok(Opened {
        engine,
        readers,
        is_new: !is_asked,
        greeted,
        introducing,
    })
}

/// The connection to the primary of a new database, if that is to be asked first: the one over which it
/// was asked already, or else a new one. None: it is asked later, and only then the folder has the
/// database.
fn first_lines<R: AllocGlobal + Net + Clock>(
    rt: &R,
    following: Following<'_>,
    introducing: &mut Introducing,
    led: Option<Lines<R::Stream>>,
    is_asked: bool,
) -> Result<Option<Lines<R::Stream>>, Fault> {
    if !is_asked {
        drop(led);
        return Ok(None);
    }
    match led {
        Some(lines) => Ok(Some(lines)),
        None => {
            let lines = call(rt, following, introducing)?;
            Ok(Some(lines))
        }
    }
}

/// The database that a folder has, and its readers.
fn open_found<R: AllocGlobal + Files<File = File> + Net + Wait + Clock + RandomSource>(
    rt: &R,
    folder: &Folder,
    config: Config,
    following: Following<'_>,
) -> Result<Opened<R::Stream>, Fault> {
    let (engine, readers) = open_kept(rt, folder, config)?;
    let named = name_of(rt, folder)?;
    keep_name(rt, folder, named)?;
    let mut introducing = Introducing::new(named.id);
    let greeted = give_up(
        rt,
        folder,
        following,
        &mut introducing,
        engine.status().end,
        &engine.history(),
    )?;
    Ok(Opened {
        engine,
        readers,
        is_new: false,
        greeted,
        introducing,
    })
}

/// The configuration that is asked for. BadConfig: a number is out of its range.
pub(crate) fn config_of(pages: u64, log_blocks: u64, readers: u64) -> Result<Config, Fault>
    ensures ok { IfOk result (λ config. IsConfig config × (1 ≤ log_blocks)
        × (log_blocks ≤ 4194304)) }
    ensures fails { IfErr result (λ f. f ≡ Refused BadConfig) }
{
    let config = Config {
        pages,
        frames: pages,
        pending: PENDING,
        readers,
    };
    if config.is_valid() && (1..=LOG_BLOCK_LIMIT).contains(&log_blocks) {
        Ok(config)
    } else {
        Err(Fault::Refused(EngineFault::BadConfig))
    }
}
