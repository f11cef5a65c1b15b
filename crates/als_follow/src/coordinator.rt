ghost use Rattle.std.specs.Prelude.{◌≡◌, ◌+◌, ◌<◌, ◌≤◌, true, false, Some, None};
ghost use Rattle.std.specs.Prelude.{vec_len, vec_capacity, IfSome, OnOk};
ghost use Rattle.crossbeam_channel.specs.Claims.{view};
ghost use Rattle.als_workers.specs.Rule.{new_pass};
ghost use Rattle.als_workers.specs.Passes.{IsPassOf};
ghost use Rattle.als_ship.specs.Vouching.{TellsVouched};
ghost use Rattle.als_follow.specs.Answered.{IsAnswered, IsFollowed};

use crate::context::Context;
use crate::pool::{join_workers, make_workers, run_workers};
use crate::putting_away::put_away;
use crate::refusal::{Refusal, first};
use crate::session::Session;
use crate::threads::{
    FollowerEnd, ThreadEnd, run_checkpointer, run_dispatcher, run_flusher, run_follower,
};
use als_engine::Events;
use als_operate::Fault;
use als_share::{Acknowledger, Handle, Ledgers, Runtime, Share};
use als_workers::Pass;
use std::io::{Read, Write};
use std::sync::Wait;
use std::thread;

/// The shares of those beside the workers and the follower.
#[derive(Drop)]
struct HelperShares<L: Ledgers> {
    dispatcher: Share<L>,
    flusher: Share<L>,
    checkpointer: Share<L>,
}

/// The dispatcher and the follower, when they have ended.
struct RedoEnd<L: Ledgers, I, O> {
    dispatcher: Share<L>,
    follower: FollowerEnd<L, I, O>,
    begun: bool,
}

/// All threads but the workers, when they have ended.
struct ThreadsEnd<L: Ledgers, I, O> {
    helpers: HelperShares<L>,
    session: Session<L, I, O>,
    /// The first refusal of them.
    refusal: Option<Refusal>,
    /// Whether all threads had started. Else no frame was asked for.
    begun: bool,
}

/// What is left when all threads have ended, and all that is held is put away.
pub(crate) struct SessionEnd<L: Ledgers, I, O> {
    pub session: Session<L, I, O>,
    /// The shares of all others.
    pub others: Vec<Share<L>>,
    /// None: a thread could not be started, or allocation failed, and no frame was asked for.
    pub ended: Option<Result<(), Fault>>,
}

/// Follows one session with all threads, joins them, recalls what they left lent, and puts all that
/// is held on the devices. The shares come back, the first of them with the session.
#[tactic(auto, using(crate::proofs::Following::followed_vouched, crate::proofs::Following::followed_ended, crate::proofs::Following::still_reader, crate::proofs::Following::still_writer))]
pub(crate) fn coordinate<
    L: Ledgers + Send + Sync,
    E: Events + Send,
    R: Runtime,
    I: Read + Drop,
    O: Write + Drop,
>(
    context: &Context<'_, L, E, R>,
    pass: Pass,
    shares: Vec<Share<L>>,
    acknowledger: Acknowledger<L>,
    workers: usize,
    reader: I,
    writer: O,
) -> SessionEnd<L, I, O>
    requires queue { IsPassOf context.now.queue.now pass × (view pass ≡ new_pass 1024) }
    requires shares { vec_len shares ≡ workers + 4 }
    requires workers { workers ≤ 8 }
    ensures shares { vec_len result.others ≡ workers + 3 }
    // What it told its primary, the acknowledger stands for.
    ensures vouched { TellsVouched result.session.acknowledger (O.contents writer)
        (O.contents result.session.writer) }
    // Ok: frames were read to the last one, and answered.
    ensures answered { IfSome result.ended (λ ended. OnOk ended
        (IsAnswered (I.remaining reader) (I.remaining result.session.reader) (O.contents writer)
        (O.contents result.session.writer))) }
    // None: nothing was read or written.
    ensures reader { result.ended ≡ None → result.session.reader ≡ reader }
    ensures writer { result.ended ≡ None → result.session.writer ≡ writer }
{
    let mut pass = pass;
    let mut shares = shares;
    let session = Session {
        share: take_one(&mut shares),
        acknowledger,
        reader,
        writer,
    };
    let mut pool = Vec::new(context.alloc);
    if pool.reserve(workers).is_err() {
        return not_begun(session, shares);
    }
    let mut others = Vec::new(context.alloc);
    if others.reserve(workers + 3).is_err() {
        return not_begun(session, shares);
    }
    let helpers = take_helpers(&mut shares);
    make_workers(context, &mut pass, shares, &mut pool);
    let (pool, ended) = thread::join(
        context.rt,
        move || run_workers(context.rt, context.scheduler, pool),
        move || -> ThreadsEnd<L, I, O>
            requires { IsPassOf context.now.queue.now pass × (0 < (view pass).parts) × (workers ≤ 8) }
            ensures { IsFollowed I.remaining O.contents result.session.acknowledger result.begun
                result.refusal session.reader result.session.reader session.writer
                result.session.writer }
        { run_beside_workers(context, helpers, session, pass, workers) },
    );
    let ThreadsEnd {
        helpers,
        session,
        refusal,
        begun,
    } = ended;
    let refusal = first(refusal, join_workers(pool, &mut others));
    put_back(helpers, &mut others);
    let (session, ended) = put_away_session(context, session, refusal, begun);
    SessionEnd {
        session,
        others,
        ended,
    }
}

/// Allocation failed, and no frame was asked for.
fn not_begun<L: Ledgers, I, O>(
    session: Session<L, I, O>,
    others: Vec<Share<L>>,
) -> SessionEnd<L, I, O>
    ensures acknowledger { result.session.acknowledger ≡ session.acknowledger }
    ensures reader { result.session.reader ≡ session.reader }
    ensures writer { result.session.writer ≡ session.writer }
    ensures others { result.others ≡ others }
    ensures ended { result.ended ≡ None }
{
    SessionEnd {
        session,
        others,
        ended: None,
    }
}

/// Puts all that is held on the devices, if frames were asked for. The session stays as it is.
fn put_away_session<L: Ledgers, E: Events, R: Wait, I, O>(
    context: &Context<'_, L, E, R>,
    session: Session<L, I, O>,
    refusal: Option<Refusal>,
    begun: bool,
) -> (Session<L, I, O>, Option<Result<(), Fault>>)
    ensures acknowledger { result.0.acknowledger ≡ session.acknowledger }
    ensures reader { result.0.reader ≡ session.reader }
    ensures writer { result.0.writer ≡ session.writer }
    ensures begun { IfSome result.1 (λ ended. begun ≡ true) }
    ensures ok { IfSome result.1 (λ ended. OnOk ended (refusal ≡ None)) }
    ensures none { result.1 ≡ None → begun ≡ false }
{
    let Session {
        share,
        acknowledger,
        reader,
        writer,
    } = session;
    let mut events = Handle::new(context.rt, context.shared, share);
    let ended = if begun {
        Some(outcome_of(refusal, put_away(&mut events)))
    } else {
        None
    };
    let session = Session {
        share: events.end(),
        acknowledger,
        reader,
        writer,
    };
    (session, ended)
}

/// One of the shares.
fn take_one<L: Ledgers>(shares: &mut Vec<Share<L>>) -> Share<L>
    requires { 0 < vec_len shares.old }
    ensures { vec_len shares.new + 1 ≡ vec_len shares.old }
{
    match shares.pop() {
        Some(share) => share,
        None => unreachable!(),
    }
}

/// Three of the shares.
fn take_helpers<L: Ledgers>(shares: &mut Vec<Share<L>>) -> HelperShares<L>
    requires { 3 ≤ vec_len shares.old }
    ensures { vec_len shares.new + 3 ≡ vec_len shares.old }
{
    HelperShares {
        dispatcher: take_one(shares),
        flusher: take_one(shares),
        checkpointer: take_one(shares),
    }
}

/// Puts these shares to the others, which have room.
fn put_back<L: Ledgers>(helpers: HelperShares<L>, shares: &mut Vec<Share<L>>)
    requires { vec_len shares.old + 3 ≤ vec_capacity shares.old }
    ensures { vec_len shares.new ≡ vec_len shares.old + 3 }
{
    let HelperShares {
        dispatcher,
        flusher,
        checkpointer,
    } = helpers;
    shares.push_reserved(dispatcher);
    shares.push_reserved(flusher);
    shares.push_reserved(checkpointer);
}

/// All but the workers: the others in threads of their own, the follower in this one.
#[tactic(auto, using(crate::proofs::Following::followed_first))]
fn run_beside_workers<
    L: Ledgers + Send + Sync,
    E: Events + Send,
    R: Runtime,
    I: Read + Drop,
    O: Write + Drop,
>(
    context: &Context<'_, L, E, R>,
    helpers: HelperShares<L>,
    session: Session<L, I, O>,
    pass: Pass,
    workers: usize,
) -> ThreadsEnd<L, I, O>
    requires queue { IsPassOf context.now.queue.now pass × (0 < (view pass).parts) }
    requires workers { workers ≤ 8 }
    ensures { IsFollowed I.remaining O.contents result.session.acknowledger result.begun
        result.refusal session.reader result.session.reader session.writer result.session.writer }
{
    let HelperShares {
        dispatcher,
        flusher,
        checkpointer,
    } = helpers;
    let (flushed, (checkpointed, redone)) = thread::join(
        context.rt,
        move || run_flusher(context, flusher),
        move || -> (ThreadEnd<L>, RedoEnd<L, I, O>)
            requires { IsPassOf context.now.queue.now pass × (0 < (view pass).parts) × (workers ≤ 8) }
            ensures { IsFollowed I.remaining O.contents result.1.follower.session.acknowledger
                result.1.begun result.1.follower.refusal session.reader result.1.follower.session.reader
                session.writer result.1.follower.session.writer }
        { run_beside_flusher(context, checkpointer, dispatcher, session, pass, workers) },
    );
    let RedoEnd {
        dispatcher,
        follower,
        begun,
    } = redone;
    let FollowerEnd { session, refusal } = follower;
    let others = first(flushed.refusal, checkpointed.refusal);
    ThreadsEnd {
        helpers: HelperShares {
            dispatcher,
            flusher: flushed.share,
            checkpointer: checkpointed.share,
        },
        session,
        refusal: first(refusal, others),
        begun,
    }
}

/// The checkpointer in a thread of its own, and those on whom it does not depend.
fn run_beside_flusher<
    L: Ledgers + Send + Sync,
    E: Events + Send,
    R: Runtime,
    I: Read + Drop,
    O: Write + Drop,
>(
    context: &Context<'_, L, E, R>,
    checkpointer: Share<L>,
    dispatcher: Share<L>,
    session: Session<L, I, O>,
    pass: Pass,
    workers: usize,
) -> (ThreadEnd<L>, RedoEnd<L, I, O>)
    requires queue { IsPassOf context.now.queue.now pass × (0 < (view pass).parts) }
    requires workers { workers ≤ 8 }
    ensures { IsFollowed I.remaining O.contents result.1.follower.session.acknowledger result.1.begun
        result.1.follower.refusal session.reader result.1.follower.session.reader session.writer
        result.1.follower.session.writer }
{
    thread::join(
        context.rt,
        move || run_checkpointer(context, checkpointer),
        move || -> RedoEnd<L, I, O>
            requires { IsPassOf context.now.queue.now pass × (0 < (view pass).parts) × (workers ≤ 8) }
            ensures { IsFollowed I.remaining O.contents result.follower.session.acknowledger result.begun
                result.follower.refusal session.reader result.follower.session.reader session.writer
                result.follower.session.writer }
        { follow_and_dispatch(context, dispatcher, session, pass, workers) },
    )
}

/// The dispatcher in a thread of its own, and the follower in this one. Once the session has ended,
/// and what waited is redone, the scheduler closes. A dispatcher that could not be started comes last, so
/// that no worker waits for ever.
fn follow_and_dispatch<
    L: Ledgers + Send + Sync,
    E: Events + Send,
    R: Runtime,
    I: Read + Drop,
    O: Write + Drop,
>(
    context: &Context<'_, L, E, R>,
    dispatcher: Share<L>,
    session: Session<L, I, O>,
    pass: Pass,
    workers: usize,
) -> RedoEnd<L, I, O>
    requires queue { IsPassOf context.now.queue.now pass × (0 < (view pass).parts) }
    requires workers { workers ≤ 8 }
    ensures { IsFollowed I.remaining O.contents result.follower.session.acknowledger result.begun
        result.follower.refusal session.reader result.follower.session.reader session.writer
        result.follower.session.writer }
{
    let (dispatcher, (begun, follower)) = thread::join(
        context.rt,
        move || -> Share<L>
            requires { IsPassOf context.now.queue.now pass × (0 < (view pass).parts) }
        { run_dispatcher(context, dispatcher, pass, workers) },
        move || -> (bool, FollowerEnd<L, I, O>)
            requires { workers ≤ 8 }
            ensures { IsFollowed I.remaining O.contents result.1.session.acknowledger result.0
                result.1.refusal session.reader result.1.session.reader session.writer
                result.1.session.writer }
        { start_follower(context, session, workers as u64 + 3) },
    );
    context.scheduler.close();
    RedoEnd {
        dispatcher,
        follower,
        begun,
    }
}

/// Follows the session, once so many threads have started. False: they have not, and no frame was
/// asked for.
#[tactic(auto, using(crate::proofs::Following::followed_begun))]
fn start_follower<L: Ledgers, E: Events, R: Wait, I: Read + Drop, O: Write + Drop>(
    context: &Context<'_, L, E, R>,
    session: Session<L, I, O>,
    threads: u64,
) -> (bool, FollowerEnd<L, I, O>)
    ensures { IsFollowed I.remaining O.contents result.1.session.acknowledger result.0
        result.1.refusal session.reader result.1.session.reader session.writer
        result.1.session.writer }
{
    if context.scheduler.have_started(threads) {
        return (true, run_follower(context, session));
    }
    context.scheduler.close();
    let refusal = None;
    (false, FollowerEnd { session, refusal })
}

/// The first refusal of a thread, or else that of putting away what is held.
fn outcome_of(refusal: Option<Refusal>, put_away: Result<(), Fault>) -> Result<(), Fault>
    ensures { OnOk result (refusal ≡ None) }
{
    match refusal {
        Some(refusal) => Err(Fault::Session(refusal.fault())),
        None => put_away,
    }
}
