ghost use Rattle.std.specs.Prelude.{◌≡◌, ℕ};
ghost use Rattle.als_engine.specs.declared.config.Config.{Config as AnyConfig};
ghost use Rattle.als_reopen.specs.Node.{Node};
ghost use Rattle.als_engine.specs.Restarts.{Holds, StillHolds, IsMadeWith, IsWarm};
ghost use Rattle.als_world.specs.Slots.{no_leases};
ghost use Rattle.als_world.specs.Standing.{Standing, Shows, Up, Down};
ghost use Rattle.als_world.specs.Runs.{OpensTo, StepsTo};

use crate::place::Place;
use crate::slots::Slots;
use crate::standby::Standby;
use crate::step::{WorldReply, WorldStep};
use crate::world::{World, down, up};
use als_disk::Restart;
use als_engine::{Config, Disks, Engine, Fault};
use als_store::crash_disks;
use std::alloc::Global;
use std::sync::Wait;

/// A standby over what devices hold; or they come back, and the world is down. No slot has a lease.
fn open<R: Wait, D: Restart>(
    alloc: Global,
    rt: &R,
    config: Config,
    slots: Slots,
    disks: Disks<D>,
) -> (World<D>, WorldReply)
    ensures opens { (n : Node) (workers : ℕ) → Holds config (D.block_count disks.log)
        (D.block_count disks.control) (D.block_count disks.pages)
        (D.slot disks.log) (D.slot disks.control) (D.slot disks.pages) n
        → slots ≡ no_leases workers
        → OpensTo D.slot D.block_count config n workers result.1 result.0 }
    ensures same { result.0.config ≡ config }
{
    match Engine::open(alloc, rt, disks, config) {
        Ok((engine, readers)) => {
            let end = engine.status().end;
            (
                up(config, slots, Standby::new(engine, readers)),
                WorldReply::Restarted(end),
            )
        }
        Err(refused) => {
            let fault = refused.fault;
            (
                down(config, slots, refused.disks),
                WorldReply::Refused(fault),
            )
        }
    }
}

/// One step over a standby that is up.
fn step_up<R: Wait, D: Restart>(
    alloc: Global,
    rt: &R,
    config: Config,
    slots: Slots,
    standby: Standby<D>,
    step: &WorldStep,
) -> (World<D>, WorldReply)
    ensures steps { IsMadeWith config standby.machine → IsWarm standby.machine
        → StepsTo D.slot D.block_count config (Up standby.machine slots) step.now result.1
        result.0 }
    ensures same { result.0.config ≡ config }
{
    let mut standby = standby;
    let mut slots = slots;
    // For the prover alone: what always holds of the engine.
    let _ = standby.engine().status();
    let _ = standby.engine().history();
    if let WorldStep::Crash(picks) = step {
        let engine = standby.into_engine();
        let (disks, _) = engine.crash(rt, picks);
        slots.clear();
        return open(alloc, rt, config, slots, disks);
    }
    let reply = standby.act(rt, &mut slots, step);
    // For the prover alone: what always holds of the engine afterwards.
    let _ = standby.engine().status();
    (up(config, slots, standby), reply)
}

/// What a crash leaves of devices that a standby left.
fn crash<D: Restart>(disks: Disks<D>, picks: &[u8]) -> Disks<D>
    ensures left { (config : AnyConfig) (n : Node)
        → StillHolds config (D.block_count disks.log) (D.block_count disks.control)
        (D.block_count disks.pages)
        (D.slot disks.log) (D.slot disks.control) (D.slot disks.pages) n
        → Holds config (D.block_count result.log) (D.block_count result.control)
        (D.block_count result.pages)
        (D.slot result.log) (D.slot result.control) (D.slot result.pages) n }
{
    let (left, _) = crash_disks(disks, picks);
    left
}

/// One step over devices that a standby left.
fn step_down<R: Wait, D: Restart>(
    alloc: Global,
    rt: &R,
    config: Config,
    slots: Slots,
    disks: Disks<D>,
    step: &WorldStep,
) -> (World<D>, WorldReply)
    ensures steps { (n : Node) (workers : ℕ) → StillHolds config (D.block_count disks.log)
        (D.block_count disks.control) (D.block_count disks.pages)
        (D.slot disks.log) (D.slot disks.control) (D.slot disks.pages) n
        → slots ≡ no_leases workers
        → StepsTo D.slot D.block_count config (Down n workers) step.now result.1 result.0 }
    ensures same { result.0.config ≡ config }
{
    if let WorldStep::Crash(picks) = step {
        return open(alloc, rt, config, slots, crash(disks, picks));
    }
    (
        down(config, slots, disks),
        WorldReply::Refused(Fault::Stopped),
    )
}

/// One step.
pub(crate) fn step_over<R: Wait, D: Restart>(
    alloc: Global,
    rt: &R,
    world: World<D>,
    step: &WorldStep,
) -> (World<D>, WorldReply)
    ensures steps { (old : Standing) → Shows D.slot D.block_count world old
        → StepsTo D.slot D.block_count world.config old step.now result.1 result.0 }
    ensures same { result.0.config ≡ world.config }
{
    let (config, slots, place) = world.into_parts();
    match place {
        Place::Up(standby) => step_up(alloc, rt, config, slots, standby, step),
        Place::Down(disks) => step_down(alloc, rt, config, slots, disks, step),
    }
}
