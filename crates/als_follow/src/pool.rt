ghost use Rattle.std.specs.Prelude.{◌≡◌, ◌+◌, ◌<◌, ◌≤◌, vec_len, vec_capacity};
ghost use Rattle.crossbeam_channel.specs.Claims.{view};
ghost use Rattle.als_workers.specs.Passes.{IsPassOf};

use crate::context::Context;
use crate::refusal::{Refusal, first};
use crate::scheduler::Scheduler;
use crate::worker::Worker;
use als_engine::Events;
use als_share::{Handle, Ledgers, Runtime, Share};
use als_workers::Pass;
use std::sync::Wait;
use std::thread;

/// A worker for each share, with a pass of its own. The pool has room for them.
pub(crate) fn make_workers<'a, L: Ledgers, E: Events, R: Wait>(
    context: &Context<'a, L, E, R>,
    pass: &mut Pass,
    shares: Vec<Share<L>>,
    pool: &mut Vec<Worker<'a, Handle<'a, L, E, R>>>,
)
    requires queue { IsPassOf context.now.queue.now pass.old }
    requires parts { vec_len shares < (view pass.old).parts }
    requires room { vec_len pool.old + vec_len shares ≤ vec_capacity pool.old }
    ensures queue { IsPassOf context.now.queue.now pass.new }
    ensures parts { 0 < (view pass.new).parts }
    ensures pool { vec_len pool.new ≡ vec_len pool.old + vec_len shares }
{
    for share in shares {
        let events = Handle::new(context.rt, context.shared, share);
        let part = context.queue.cut(pass);
        pool.push_reserved(Worker::new(context.queue, part, events));
    }
}

/// Each worker works in a thread of its own, until it takes a stop or the scheduler closes.
pub(crate) fn run_workers<'a, E: Events + Send, R: Runtime>(
    rt: &R,
    scheduler: &Scheduler<'_, R>,
    pool: Vec<Worker<'a, E>>,
) -> Vec<Worker<'a, E>>
    ensures { vec_len result ≡ vec_len pool.entry }
{
    let mut pool = pool;
    let threads = pool.len();
    if threads > 0 {
        thread::for_each_mut(
            rt,
            pool.as_mut_slice(),
            threads,
            &|_, worker| { worker.work(rt, scheduler) },
        );
    }
    pool
}

/// Puts the share of each worker to the others, which have room, and answers the first refusal.
pub(crate) fn join_workers<L: Ledgers, E: Events, R: Wait>(
    pool: Vec<Worker<'_, Handle<'_, L, E, R>>>,
    shares: &mut Vec<Share<L>>,
) -> Option<Refusal>
    requires room { vec_len shares.old + vec_len pool ≤ vec_capacity shares.old }
    ensures shares { vec_len shares.new ≡ vec_len shares.old + vec_len pool.entry }
    ensures room { vec_capacity shares.new ≡ vec_capacity shares.old }
{
    let mut refusal = None;
    for worker in pool {
        let (events, early) = worker.end();
        shares.push_reserved(events.end());
        refusal = first(refusal, early);
    }
    refusal
}
