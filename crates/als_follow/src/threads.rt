ghost use Rattle.std.specs.Prelude.{◌≡◌, ◌<◌, None};
ghost use Rattle.crossbeam_channel.specs.Claims.{view};
ghost use Rattle.als_workers.specs.Passes.{IsPassOf};
ghost use Rattle.als_ship.specs.Vouching.{TellsVouched};
ghost use Rattle.als_follow.specs.Answered.{IsAnswered};

use crate::context::Context;
use crate::pacing::Pacing;
use crate::publishing::Publishing;
use crate::refusal::Refusal;
use crate::session::Session;
use als_engine::Events;
use als_record::LogHeader;
use als_share::{Handle, Ledgers, Observed, Share, Through};
use als_ship::{Fault, Follower};
use als_workers::{Halt, Pass, checkpointer, dispatcher, flusher};
use std::io::{Read, Write};
use std::sync::Wait;

/// What a thread hands back: its share, and why it ended early.
#[derive(Drop)]
pub(crate) struct ThreadEnd<L: Ledgers> {
    pub share: Share<L>,
    pub refusal: Option<Refusal>,
}

/// Lends what waits for redo, each time that it is due.
pub(crate) fn run_dispatcher<L: Ledgers, E: Events, R: Wait>(
    context: &Context<'_, L, E, R>,
    share: Share<L>,
    pass: Pass,
    workers: usize,
) -> Share<L>
    requires queue { IsPassOf context.now.queue.now pass }
    requires parts { 0 < (view pass).parts }
{
    let scheduler = context.scheduler;
    scheduler.enter();
    let mut pass = pass;
    let handle = Handle::new(context.rt, context.shared, share);
    let mut events = Observed::new(Pacing::new(scheduler), handle);
    // What it leaves is lent, and refused, once more when all that is held is put away.
    let _ = dispatcher(
        context.rt,
        context.queue,
        &mut pass,
        &mut events,
        scheduler,
        workers,
    );
    scheduler.end_lending();
    events.end().end()
}

/// What the follower hands back: its session, and why that ended early.
#[derive(Drop)]
pub(crate) struct FollowerEnd<L: Ledgers, I, O> {
    pub session: Session<L, I, O>,
    pub refusal: Option<Refusal>,
}

/// Writes the dirty pages, each time that they are due.
pub(crate) fn run_flusher<L: Ledgers, E: Events, R: Wait>(
    context: &Context<'_, L, E, R>,
    share: Share<L>,
) -> ThreadEnd<L> {
    context.scheduler.enter();
    let mut events = Handle::new(context.rt, context.shared, share);
    let halt = flusher(context.rt, &mut events, context.scheduler);
    let share = events.end();
    let refusal = refusal_of(context, halt);
    ThreadEnd { share, refusal }
}

/// Takes a checkpoint, each time that one is due.
pub(crate) fn run_checkpointer<L: Ledgers, E: Events, R: Wait>(
    context: &Context<'_, L, E, R>,
    share: Share<L>,
) -> ThreadEnd<L> {
    context.scheduler.enter();
    let mut events = Handle::new(context.rt, context.shared, share);
    let halt = checkpointer(context.rt, &mut events, context.scheduler);
    let share = events.end();
    let refusal = refusal_of(context, halt);
    ThreadEnd { share, refusal }
}

/// Why a flusher or a checkpointer ended early. All others end with it.
fn refusal_of<L: Ledgers, E: Events, R: Wait>(
    context: &Context<'_, L, E, R>,
    halt: Halt,
) -> Option<Refusal> {
    match halt {
        Halt::Gate => None,
        Halt::Refused(fault) => {
            let refusal = Refusal::new(context.scheduler, Fault::Refused(fault));
            context.scheduler.close();
            Some(refusal)
        }
    }
}

/// Follows the session. What it leaves for redo is then due.
#[tactic(auto, using(crate::proofs::Following::is_answered))]
pub(crate) fn run_follower<L: Ledgers, E: Events, R: Wait, I: Read + Drop, O: Write + Drop>(
    context: &Context<'_, L, E, R>,
    session: Session<L, I, O>,
) -> FollowerEnd<L, I, O>
    ensures vouched { TellsVouched result.session.acknowledger (O.contents session.writer)
        (O.contents result.session.writer) }
    ensures answered { result.refusal ≡ None → IsAnswered (I.remaining session.reader)
        (I.remaining result.session.reader) (O.contents session.writer)
        (O.contents result.session.writer) }
{
    let Session {
        share,
        acknowledger,
        mut reader,
        mut writer,
    } = session;
    let scheduler = context.scheduler;
    let handle = Handle::new(context.rt, context.shared, share);
    let mut events = Observed::new(Pacing::new(scheduler), handle);
    let mut through = Through::new(acknowledger);
    let header = LogHeader {
        pages: events.pages(),
    };
    let mut upkeep = Publishing::new(context.rt, scheduler);
    let follower = Follower::new(header);
    let refusal = match follower.follow_keeping(
        context.alloc,
        &mut events,
        &mut through,
        &mut upkeep,
        &mut reader,
        &mut writer,
    ) {
        Ok(()) => None,
        Err(fault) => Some(Refusal::new(scheduler, fault)),
    };
    let session = Session {
        share: events.end().end(),
        acknowledger: through.end(),
        reader,
        writer,
    };
    scheduler.end_feeding();
    FollowerEnd { session, refusal }
}
