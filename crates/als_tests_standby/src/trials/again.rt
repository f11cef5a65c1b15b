// A node that took over and follows a source again, beside a standby that went on with its history.
use super::script::{SEALED, script};
use super::standby::{Act, opened, standby, take};
use super::text::TEXT;
use als_ckpt::follow_again;
use als_disk::{BlockDisk, MemDisk};
use als_engine::{Engine, History, State, Status, Step};
use als_record::Lsn;
use std::alloc::Global;
use std::process::Abort;
use std::sync::Wait;

/// A first update of transaction 3 where the tail ends, at 294: of 0/1 to `dd`.
const MORE: [u8; 36] = [
    0, 0, 0, 36, 1, 0, 0, 0, 0, 0, 0, 0, 0, 0, 1, 38, 0, 0, 0, 0, 0, 0, 0, 0, 0, 0, 0, 3, 0, 0, 0,
    0, 1, 255, 1, 221,
];

/// What is held is acknowledged and redone.
const FORCE: [Act; 5] = [
    Act::Step(Step::LogWrite),
    Act::Step(Step::LogSync),
    Act::Step(Step::MarkWrite),
    Act::Step(Step::ControlSync),
    Act::Redo(0),
];

/// What a node shows: its state and its log's end, how many transactions have not ended, its
/// takeovers, and its page 0.
#[derive(Clone, Copy, Debug, PartialEq, Eq)]
struct Seen {
    status: Status,
    unended: usize,
    history: History,
    page: [u8; 512],
}

/// The block of page 0. None: it could not be read.
fn page_of(engine: &mut Engine<MemDisk>) -> Option<[u8; 512]> {
    if engine.pages() == 0 {
        return None;
    }
    let Ok(page) = engine.page_now(0) else {
        return None;
    };
    let mut block = [0; 512];
    page.write_block(&mut block);
    Some(block)
}

/// What a node shows now. None: its page could not be read.
fn shown(engine: &mut Engine<MemDisk>) -> Option<Seen> {
    let page = page_of(engine)?;
    let unended = engine.table().len();
    Some(Seen {
        status: engine.status(),
        unended,
        history: engine.history(),
        page,
    })
}

/// The first block of its log. None: it could not be read.
fn log_of<R: Wait>(rt: &R, engine: Engine<MemDisk>) -> Option<[u8; 512]> {
    let mut disk = engine.into_disks(rt).log;
    if disk.blocks() == 0 {
        return None;
    }
    let mut block = [0; 512];
    disk.read(0, &mut block).ok()?;
    Some(block)
}

/// What a node shows that follows, with one more update, and when it has taken over again; and its
/// log. None: allocation failed.
fn goes_on<R: Wait + Abort>(rt: &R, mut engine: Engine<MemDisk>) -> Option<([Seen; 3], [u8; 512])> {
    let first = shown(&mut engine)?;
    take(rt, &mut engine, &[Act::Step(Step::Feed(&MORE))])?;
    take(rt, &mut engine, &FORCE)?;
    let second = shown(&mut engine)?;
    let undo = [
        Act::Step(Step::Seal),
        Act::Step(Step::ControlSync),
        Act::Step(Step::UndoOne),
        Act::Step(Step::UndoOne),
    ];
    take(rt, &mut engine, &undo)?;
    take(rt, &mut engine, &FORCE)?;
    take(
        rt,
        &mut engine,
        &[Act::Step(Step::Finish), Act::Step(Step::ControlSync)],
    )?;
    let third = shown(&mut engine)?;
    let log = log_of(rt, engine)?;
    Some(([first, second, third], log))
}

/// A primary is stopped, and its control block says Following again. None: allocation failed.
fn follows_again<R: Wait + Abort>(rt: &R, alloc: Global) -> Option<Engine<MemDisk>> {
    let mut engine = standby(rt, alloc, 8)?;
    take(rt, &mut engine, &script(&TEXT))?;
    assert!(rt; engine.status().state == State::Primary);
    let (mut disks, _) = engine.crash(rt, &[]);
    follow_again(&mut disks.control, 4, 4096).ok()?;
    let mut engine = opened(rt, alloc, disks)?;
    if engine.status().pending != 0 {
        take(rt, &mut engine, &[Act::Redo(0)])?;
    }
    take(rt, &mut engine, &[Act::Step(Step::Ready)])?;
    Some(engine)
}

/// A standby that held the log up to the seal goes on with that takeover, and follows to its end.
/// None: allocation failed.
fn goes_with_it<R: Wait + Abort>(
    rt: &R,
    alloc: Global,
    history: History,
) -> Option<Engine<MemDisk>> {
    let mut engine = standby(rt, alloc, 8)?;
    let steps = script(&TEXT);
    take(rt, &mut engine, steps.get(..SEALED - 2)?)?;
    assert!(rt; engine.status().end == Lsn(153));
    engine.adopt(history).ok()?;
    take(rt, &mut engine, &[Act::Step(Step::ControlSync)])?;
    take(rt, &mut engine, &[Act::Step(Step::Feed(&TEXT[137..]))])?;
    take(rt, &mut engine, &FORCE)?;
    Some(engine)
}

/// Both show the same: while they follow, behind one more update, and when they have taken over once
/// more. None: allocation failed.
fn show_the_same<R: Wait + Abort>(rt: &R, alloc: Global) -> Option<()> {
    let again = follows_again(rt, alloc)?;
    let history = again.history();
    let (first, first_log) = goes_on(rt, again)?;
    let with_it = goes_with_it(rt, alloc, history)?;
    let (second, second_log) = goes_on(rt, with_it)?;
    assert!(rt; first == second);
    assert!(rt; first_log == second_log);
    assert!(rt; first[0].status.state == State::Following);
    assert!(rt; first[0].status.acknowledged == Lsn(294));
    assert!(rt; first[2].status.state == State::Primary);
    assert!(rt; first[2].history.seals() == [153, 330].as_slice());
    Some(())
}

#[test]
fn a_primary_that_follows_again_is_a_standby_that_went_on(rt: HostRuntime) {
    let alloc = rt.alloc();
    assert!(rt; show_the_same(&rt, alloc).is_some() || show_the_same(&rt, alloc).is_some());
}
