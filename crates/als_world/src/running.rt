//! Runs of steps over a world: the place where the headline is a clause.
//!
//! A world is a standby that is up, or the devices that it left. A run makes steps one by one:
//! events, reads, and crashes after which the standby begins again. The clause of `run` says for
//! every list of steps which replies come, what stays and what a finished takeover holds.
//! docs/THEOREM.md reads it out.

ghost use Rattle.std.specs.Prelude.{◌≡◌, IfOk, IfErr};
ghost use Rattle.als_world.specs.Standing.{Standing, Shows, Keeps, IsTrue};
ghost use Rattle.als_world.specs.Runs.{Run};

use crate::restarting::step_over;
use crate::step::{WorldReply, WorldStep};
use crate::world::World;
use als_disk::Restart;
use std::alloc::Global;
use std::sync::Wait;

/// Runs the steps one after another, and answers each one's reply. The replies' room is taken
/// first: where that is refused nothing is run, and the world comes back. It waits for readers
/// where a step publishes or crashes.
pub fn run<R: Wait, D: Restart>(
    alloc: Global,
    rt: &R,
    world: World<D>,
    steps: &[WorldStep],
) -> Result<(World<D>, Vec<WorldReply>), World<D>>
    // Over every list of steps the replies and what the world then shows are a run of the small
    // machine, with crashes and restarts. What is acknowledged stays so, and what the control
    // states say of the log is true.
    ensures run { (old : Standing) → Shows D.slot D.block_count world old
        → IfOk result (λ x. (new : Standing) × Shows D.slot D.block_count x.0 new
        × Run world.config old steps.now x.1.items new × Keeps old new × IsTrue new) }
    ensures err { IfErr result (λ w. w ≡ world) }
{
    world.settle();
    let mut world = world;
    let mut replies = match Vec::with_capacity(alloc, steps.len()) {
        Ok(replies) => replies,
        Err(_) => return Err(world),
    };
    for step in steps {
        let (after, reply) = step_over(alloc, rt, world, step);
        world = after;
        replies.push_reserved(reply);
    }
    world.settle();
    Ok((world, replies))
}
