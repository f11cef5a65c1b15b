use crate::book::Book;
use crate::cuts::Cuts;
use crate::deciding::decide_one;
use crate::failing::{CONFIG, NEVER, PARTS, Part};
use crate::media::Medium;
use crate::putting::{put, tidied};
use crate::steps::{Steps, force, force_block, keep_up};
use crate::stop::Stop;
use crate::transfers::roll;
use crate::trouble::Trouble;
use als_disk::BlockDisk;
use als_drive::{drain, recover};
use als_engine::{Disks, Engine, Writes};
use als_sample_logs::Dice;
use als_writer::Changes;
use std::alloc::Global;
use std::sync::Wait;

/// The deeds of a writer, from its empty log on: a commit, a prepare and a decision are one each.
const COUNT: usize = 28;

/// The most transactions in doubt at once.
const DOUBTS: usize = 2;

/// A writer that is disturbed once is begun again at most so often.
const LIVES: u32 = 50;

/// No writer makes so many calls of a device, or steps.
const CALL_LIMIT: u64 = 100_000;

/// The blocks of which a crash may leave more than one content.
const PICKS: usize = 512;

/// What disturbs a writer, once.
#[derive(Clone, Copy)]
struct Mishap {
    /// The device that fails, and at which call.
    part: Part,
    call: u64,
    /// The steps before the power is cut.
    steps: u64,
    /// Which contents a crash leaves: the oldest, the newest, or random ones.
    outcome: Outcome,
}

/// What a crash leaves of the blocks that were written since the last sync.
#[derive(Clone, Copy, Debug, PartialEq, Eq)]
pub enum Outcome {
    Oldest,
    Newest,
    Mixed,
}

/// The outcomes of a crash over devices in memory.
pub const OUTCOMES: [Outcome; 3] = [Outcome::Oldest, Outcome::Newest, Outcome::Mixed];

/// What was met.
#[derive(Clone, Copy, Debug)]
pub struct Met {
    /// Device calls and steps at which a writer ended.
    pub ended: u64,
    /// Deeds of all writers.
    pub deeds: u64,
    /// The decisions among them.
    pub decided: u64,
    /// What the crashes cut.
    pub cuts: Cuts,
}

/// What a writer met on its way.
#[derive(Clone, Copy)]
struct Through {
    /// How often it was stopped.
    stops: u32,
    /// The decisions in its log.
    decided: u64,
    /// What the crashes cut.
    cuts: Cuts,
}

/// Has each device call of a writer fail in turn, and cuts the power before each of its steps. What
/// a crash leaves has each transaction that was forced, and nothing of one that was not written.
pub fn storm<R: Wait, D: BlockDisk + Drop, M: Medium<D>>(
    rt: &R,
    alloc: Global,
    medium: &mut M,
    outcomes: &[Outcome],
    seed: u64,
) -> Result<Met, Trouble> {
    let mut met = Met {
        ended: 0,
        deeds: 0,
        decided: 0,
        cuts: Cuts::NONE,
    };
    for outcome in outcomes {
        for part in PARTS {
            fail_each(rt, alloc, medium, part, *outcome, seed, &mut met)?;
        }
        cut_each(rt, alloc, medium, *outcome, seed, &mut met)?;
    }
    Ok(met)
}

/// Each call of a device fails in turn, until a writer comes to its end before that call.
fn fail_each<R: Wait, D: BlockDisk + Drop, M: Medium<D>>(
    rt: &R,
    alloc: Global,
    medium: &mut M,
    part: Part,
    outcome: Outcome,
    seed: u64,
    met: &mut Met,
) -> Result<(), Trouble> {
    for call in 1..CALL_LIMIT {
        let mishap = Mishap {
            part,
            call,
            steps: NEVER,
            outcome,
        };
        if !disturb(rt, alloc, medium, mishap, seed, met)? {
            break;
        }
    }
    Ok(())
}

/// The power is cut before each step in turn, until a writer comes to its end before it.
fn cut_each<R: Wait, D: BlockDisk + Drop, M: Medium<D>>(
    rt: &R,
    alloc: Global,
    medium: &mut M,
    outcome: Outcome,
    seed: u64,
    met: &mut Met,
) -> Result<(), Trouble> {
    for steps in 0..CALL_LIMIT {
        let mishap = Mishap {
            part: Part::Log,
            call: NEVER,
            steps,
            outcome,
        };
        if !disturb(rt, alloc, medium, mishap, seed, met)? {
            break;
        }
    }
    Ok(())
}

/// How often a writer was stopped that nothing disturbs: for a failed allocation alone.
pub fn undisturbed<R: Wait, D: BlockDisk + Drop, M: Medium<D>>(
    rt: &R,
    alloc: Global,
    medium: &mut M,
    seed: u64,
) -> Result<u32, Trouble> {
    let mishap = Mishap {
        part: Part::Log,
        call: NEVER,
        steps: NEVER,
        outcome: Outcome::Oldest,
    };
    Ok(write_through(rt, alloc, medium, mishap, seed)?.stops)
}

/// A writer that is disturbed once, and counted: whether the mishap was met.
fn disturb<R: Wait, D: BlockDisk + Drop, M: Medium<D>>(
    rt: &R,
    alloc: Global,
    medium: &mut M,
    mishap: Mishap,
    seed: u64,
    met: &mut Met,
) -> Result<bool, Trouble> {
    let through = write_through(rt, alloc, medium, mishap, seed)?;
    met.cuts.add(through.cuts);
    met.deeds = met.deeds.saturating_add(COUNT as u64);
    met.decided = met.decided.saturating_add(through.decided);
    if through.stops > 0 {
        met.ended = met.ended.saturating_add(1);
    }
    Ok(through.stops > 0)
}

/// Writes transactions until a count of deeds is in the log, over crashes, and one more behind a crash
/// of the last of them.
fn write_through<R: Wait, D: BlockDisk + Drop, M: Medium<D>>(
    rt: &R,
    alloc: Global,
    medium: &mut M,
    mishap: Mishap,
    seed: u64,
) -> Result<Through, Trouble> {
    let mut dice = Dice::new(seed);
    let mut book = Book::new(alloc);
    let mut steps = Steps::new(mishap.steps);
    let mut count = COUNT;
    let mut stops = 0u32;
    let mut engine = new_engine(rt, alloc, medium)?;
    medium.fuses().fail_at(mishap.part, mishap.call);
    for _ in 0..LIVES {
        let ended = live(
            rt,
            alloc,
            &mut engine,
            &mut book,
            &mut dice,
            &mut steps,
            count,
        );
        engine = reopened(
            rt,
            alloc,
            medium,
            engine,
            roll_picks(&mut dice, mishap.outcome),
        )?;
        match ended {
            Ok(()) if count > COUNT => {
                drop(engine.into_disks(rt));
                return Ok(Through {
                    stops,
                    decided: book.decided(),
                    cuts: book.cuts(),
                });
            }
            Ok(()) => count = COUNT + 1,
            Err(Stop::Lost(what)) => {
                drop(engine.into_disks(rt));
                return Err(Trouble::Lost(what));
            }
            Err(Stop::Cut | Stop::Device | Stop::Memory) => {
                stops = stops.saturating_add(1);
                steps = Steps::new(NEVER);
            }
        }
    }
    drop(engine.into_disks(rt));
    Err(Trouble::Lost("a writer does not come to its end"))
}

/// A writer from the opening of its engine on, until its log has so many deeds: it recovers, tidies,
/// and goes on. What it finds is what it was answered before.
fn live<R: Wait, E: Writes>(
    rt: &R,
    alloc: Global,
    engine: &mut E,
    book: &mut Book,
    dice: &mut Dice,
    steps: &mut Steps,
    count: usize,
) -> Result<(), Stop> {
    recover(rt, engine)?;
    if engine.next_of_tail()?.is_some() {
        book.note_owed();
    }
    tidied(alloc, engine)?;
    drain(engine)?;
    book.settle(engine)?;
    book.check(alloc, engine)?;
    let last = engine.writing().last_commit;
    let Ok(mut changes) = Changes::new(alloc, engine.pages(), last) else {
        return Err(Stop::Memory);
    };
    force(engine, steps)?;
    book.note_force();
    for _ in 0..CALL_LIMIT {
        if book.count() >= count {
            break;
        }
        turn(alloc, engine, &mut changes, book, dice, steps)?;
    }
    force(engine, steps)?;
    book.note_force();
    Ok(())
}

/// One transaction, committed or prepared, or the decision of one in doubt; perhaps a force of one
/// block or of all, and then perhaps a checkpoint.
fn turn<E: Writes>(
    alloc: Global,
    engine: &mut E,
    changes: &mut Changes,
    book: &mut Book,
    dice: &mut Dice,
    steps: &mut Steps,
) -> Result<(), Stop> {
    steps.take()?;
    if book.doubts() > 0 && dice.below(3) == 0 {
        decide_one(alloc, engine, changes, book, dice)?;
    } else {
        let rolled = roll(alloc, dice, &book.values(alloc)?)?;
        let prepares = book.doubts() < DOUBTS && dice.below(3) == 0;
        put(alloc, engine, changes, book, rolled, prepares)?;
    }
    if dice.below(2) == 0 {
        force_block(engine, steps)?;
    }
    if dice.below(4) != 0 {
        force(engine, steps)?;
        book.note_force();
        if dice.below(3) == 0 {
            keep_up(engine, steps)?;
        }
    }
    Ok(())
}

/// A new standby's engine, which a writer may feed.
fn new_engine<R: Wait, D: BlockDisk + Drop, M: Medium<D>>(
    rt: &R,
    alloc: Global,
    medium: &mut M,
) -> Result<Engine<D>, Trouble> {
    medium.fuses().mend();
    match Engine::format(alloc, rt, medium.begin()?, CONFIG) {
        Ok((engine, _)) => Ok(engine),
        Err(_) => Err(Trouble::Memory),
    }
}

/// What a crash leaves of an engine, opened. No device fails any more.
fn reopened<R: Wait, D: BlockDisk + Drop, M: Medium<D>>(
    rt: &R,
    alloc: Global,
    medium: &mut M,
    engine: Engine<D>,
    picks: [u8; PICKS],
) -> Result<Engine<D>, Trouble> {
    let disks = medium.crash(engine.into_disks(rt), &picks)?;
    medium.fuses().mend();
    open(rt, alloc, disks)
}

fn open<R: Wait, D: BlockDisk + Drop>(
    rt: &R,
    alloc: Global,
    disks: Disks<D>,
) -> Result<Engine<D>, Trouble> {
    match Engine::open(alloc, rt, disks, CONFIG) {
        Ok((engine, _)) => Ok(engine),
        Err(refused) if refused.fault.number() == 32 => Err(Trouble::Memory),
        Err(_) => Err(Trouble::Lost("a writer's devices are refused")),
    }
}

/// The picks of a crash.
fn roll_picks(dice: &mut Dice, outcome: Outcome) -> [u8; PICKS] {
    let mut picks = match outcome {
        Outcome::Oldest | Outcome::Mixed => [0; PICKS],
        Outcome::Newest => [255; PICKS],
    };
    if outcome == Outcome::Mixed {
        for pick in picks.iter_mut() {
            *pick = dice.below(4) as u8;
        }
    }
    picks
}
