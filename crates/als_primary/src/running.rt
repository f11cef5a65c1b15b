ghost use Rattle.std.specs.Prelude.{◌≡◌, [], Err};
ghost use Rattle.als_primary.specs.Others.{blocks_of};
ghost use Rattle.als_primary.specs.Telling.{told_of, OwesTo, OwesOnly};
ghost use Rattle.als_primary.specs.Ranges.{AreInRange};
ghost use Rattle.als_primary.specs.declared.refusal.Refusal.TheVariants.{Ended};
ghost use Rattle.als_operate.specs.declared.fault.Fault.TheVariants.{Refused};
ghost use Rattle.als_engine.specs.declared.fault.Fault.TheVariants.{BadConfig};

use crate::announcing::Announces;
use crate::beginning::{Begun, Entrance, begin, capacity_of};
use crate::delay::Delay;
use crate::desk::Desk;
use crate::following::{Shipping, allowed_of, follow};
use crate::guarding::guard_of;
use crate::others::Others;
use crate::pulse::Pulse;
use crate::ranges::check_numbers;
use crate::refusal::Refusal;
use crate::serving::Serving;
use crate::token::read_token;
use crate::watching::{Watching, moments_of};
use als_drive::Progress;
use als_engine::Writes;
use als_folder::{Folder, NameWatch};
use als_followers::Allowed;
use als_http::listen;
use als_lead::{Answer, Database, Limits, Primary, PrimaryUpkeep, lead, open};
use als_operate::{Fault, NearlyFull, named, settle};
use als_report::State;
use als_tickets::{Naming, Oath, Opened};
use als_writer::Work;
use std::alloc::Global;
use std::fs::File;
use std::marker::Brand;
use std::net::{Net, TcpListener, TcpStream};
use std::random::RandomSource;
use std::rt::Files;
use std::sync::{Arc, Wait};
use std::thread::Threads;
use std::time::Clock;

/// The readers of the view: as many as it has.
const READERS: u64 = 8;

/// The most transactions, and the most log bytes, of a group.
const GROUP: Limits = Limits {
    transactions: 64,
    bytes: 1_048_576,
};

/// The log bytes from one checkpoint to the next: 4 MiB.
const CHECKPOINT_BYTES: u64 = 4_194_304;

/// Runs the primary of a folder: it commits and answers reads over HTTP until something fails. `lines`
/// receives the progress of the redo before that, and what it announces to whoever runs it.
///
/// BadConfig: a number is out of its range, followers have to acknowledge and none may connect, or a follower is
/// not an address; no file was touched. Stream: it cannot listen at an address. Else as for `als_lead::open`, or
/// the first failure of the engine. However it ends, what the engine has is put on the devices.
pub fn primary<
    R: AllocGlobal
        + Files<File = File>
        + Net<Listener = TcpListener, Stream = TcpStream>
        + Threads
        + Wait
        + Sync
        + Clock
        + RandomSource
        + Clone
        + Send
        + Drop
        + 'static,
    P: Progress + Announces,
>(rt: &R, serving: Serving<'_>, lines: &mut P) -> Result<(), Refusal>
    // Whatever else is wrong.
    ensures numbers { ¬ (AreInRange serving.entry) → result ≡ Err (Ended (Refused BadConfig)) }
{
    match check_numbers(serving) {
        Ok(()) => serve(rt, serving, lines),
        Err(fault) => Err(Refusal::Ended(fault)),
    }
}

/// Decides who may commit and follow, opens the folder, and serves.
fn serve<
    R: AllocGlobal
        + Files<File = File>
        + Net<Listener = TcpListener, Stream = TcpStream>
        + Threads
        + Wait
        + Sync
        + Clock
        + RandomSource
        + Clone
        + Send
        + Drop
        + 'static,
    P: Progress + Announces,
>(rt: &R, serving: Serving<'_>, lines: &mut P) -> Result<(), Refusal> {
    let allowed = allowed_of(rt.alloc(), serving.followers)?;
    let token = token_of(rt, serving)?;
    let listener = listen(rt, rt.alloc(), serving.serve)?;
    let guard = guard_of(&listener, token)?;
    let addr = listener.local_addr()?;
    let shipping = shipping_of(rt, serving, allowed)?;
    let Primary {
        folder,
        mut engine,
        readers,
    } = open(rt, database_of(serving), lines)?;
    let names = names_of(rt, &folder)?;
    let entrance = Entrance {
        listener: &listener,
        addr,
        guard,
        readers,
    };
    match stand(
        rt,
        &folder,
        &mut engine,
        &names,
        entrance,
        shipping,
        serving,
        lines,
    ) {
        Ok(()) => Ok(()),
        Err(fault) => Err(Refusal::Ended(named(&folder, fault))),
    }
}

/// The names of a folder's files, to be looked at.
fn names_of<R: AllocGlobal>(rt: &R, folder: &Folder) -> Result<NameWatch, Fault> {
    Ok(folder.names(rt)?)
}

/// Where followers connect, and who may and counts.
fn shipping_of<R: AllocGlobal + Net<Listener = TcpListener, Stream = TcpStream>>(
    rt: &R,
    serving: Serving<'_>,
    allowed: Allowed,
) -> Result<Shipping, Fault> {
    let listener = match serving.listen {
        Some(addr) => Some(listen(rt, rt.alloc(), addr)?),
        None => None,
    };
    Ok(Shipping { listener, allowed })
}

/// The token that a client has to send to commit. None: no token is wanted.
fn token_of<R: AllocGlobal + Files<File = File>>(
    rt: &R,
    serving: Serving<'_>,
) -> Result<Option<Vec<u8>>, Refusal> {
    let Some(path) = serving.token_file else {
        return Ok(None);
    };
    match read_token(rt, path) {
        Ok(token) => Ok(Some(token)),
        Err(why) => Err(Refusal::BadToken(why)),
    }
}

/// The database that is asked for.
fn database_of(serving: Serving<'_>) -> Database<'_> {
    Database {
        dir: serving.dir,
        pages: serving.pages,
        log_blocks: serving.log_blocks,
        readers: READERS,
    }
}

/// Serves until something fails. Then what the engine has is put on the devices.
fn stand<
    R: AllocGlobal
        + Files<File = File>
        + Threads
        + Wait
        + Sync
        + Clock
        + RandomSource
        + Clone
        + Send
        + Drop
        + 'static,
    E: Writes,
    P: Announces,
>(
    rt: &R,
    folder: &Folder,
    engine: &mut E,
    names: &NameWatch,
    entrance: Entrance<'_>,
    shipping: Shipping,
    serving: Serving<'_>,
    lines: &mut P,
) -> Result<(), Fault> {
    // Whatever is true of an engine that goes on from this one, and is confirmed, may be told.
    stand_as::<Brand, Brand, R, E, P>(
        rt,
        Opened::new(),
        folder,
        engine,
        names,
        entrance,
        shipping,
        serving,
        lines,
    )
}

/// The same, where all that is true and confirmed may be told. Nothing else is.
fn stand_as<
    O: Oath<Work, Answer> + Send + Sync + 'static,
    J: Naming + Send + Sync + 'static,
    R: AllocGlobal
        + Files<File = File>
        + Threads
        + Wait
        + Sync
        + Clock
        + RandomSource
        + Clone
        + Send
        + Drop
        + 'static,
    E: Writes,
    P: Announces,
>(
    rt: &R,
    opened: Opened<Work>,
    folder: &Folder,
    engine: &mut E,
    names: &NameWatch,
    entrance: Entrance<'_>,
    shipping: Shipping,
    serving: Serving<'_>,
    lines: &mut P,
) -> Result<(), Fault>
    requires book { opened.seen.book ≡ J.book }
    requires owed { OwesTo E.alone E.machine engine.old shipping.allowed.blocks.items serving.sync
        O.may_tell }
    requires only { OwesOnly E.alone E.machine engine.old shipping.allowed.blocks.items
        serving.sync O.may_tell }
{
    let capacity = capacity_of(rt, folder);
    let addr = entrance.addr;
    let begun = begin::<O, J, R, E>(rt, opened, &*engine, capacity, entrance, serving)?;
    let status = engine.status();
    lines.serves(serving.dir, addr, engine.history().epoch(), status.end);
    let Begun {
        board,
        doubts,
        shown,
        leader,
        servers,
    } = begun;
    let reported = Arc::try_clone(&board)?;
    let noted = Arc::try_clone(&doubts)?;
    board.set_sync(u64::from(serving.sync));
    let mut desk = Desk::new(rt, rt.alloc(), GROUP.transactions, reported, noted, leader)?;
    let Shipping { listener, allowed } = shipping;
    let others = Others::new(rt, rt.alloc(), serving.sync, allowed, status.acknowledged)?;
    let followers = follow(rt, folder, &*engine, &others, listener, serving, lines)?;
    let mut watching = Watching {
        upkeep: PrimaryUpkeep::new(rt, CHECKPOINT_BYTES, status.end),
        board: &*board,
        doubts: &*doubts,
        shown: &*shown,
        clock: rt,
        lines: &mut *lines,
        capacity,
        names,
        full: NearlyFull::NEVER,
        others,
        moments: moments_of(serving.commit_timeout),
        delay: Delay::NONE,
        pulse: Pulse::within(serving.read_for),
        followers: followers.as_ref(),
        short: 0,
        undone: 0,
    };
    let led = lead_as(rt.alloc(), engine, &mut desk, &mut watching);
    drop(watching);
    board.set_state(State::Stopped);
    desk.end();
    if let Some(followers) = followers {
        followers.close(rt);
    }
    servers.close(rt);
    let settled = settle(engine);
    led.and(settled)
}

/// Leads until something fails, where all that this upkeep's followers have acknowledged may be told.
fn lead_as<
    O: Oath<Work, Answer>,
    J: Naming,
    R: Wait + Clock + Files<File = File> + Drop,
    E: Writes,
    A: Announces,
>(
    alloc: Global,
    engine: &mut E,
    desk: &mut Desk<'_, R, O, J>,
    watching: &mut Watching<'_, R, A>,
) -> Result<(), Fault>
    requires told { told_of desk.old.account ≡ [] }
    requires waiting { desk.old.waiting.items ≡ [] }
    requires owed { OwesTo E.alone E.machine engine.old
        (blocks_of watching.old.others.quorum.value) watching.old.others.count O.may_tell }
{
    lead(alloc, engine, desk, watching, GROUP)
}
