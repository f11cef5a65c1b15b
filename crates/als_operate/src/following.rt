ghost use Rattle.std.specs.Prelude.{ℕ, Option, List, IfErr, OnOk};
ghost use Rattle.als_ship.specs.Sessions.{KeepsFront};
ghost use Rattle.als_operate.specs.Following.{FollowsAll, FollowsPart};

use crate::fault::Fault;
use crate::settling::settle;
use crate::upkeep::StandbyUpkeep;
use als_engine::Events;
use als_record::LogHeader;
use als_ship::{Direct, Follower};
use std::alloc::Global;
use std::io::{Read, Write};
use std::sync::Wait;

/// Follows one session with pages that are kept warm and a checkpoint each so many bytes of log (0:
/// none), and then settles, however the session ended. `Inline` does this with an engine that nobody
/// else drives.
///
/// The refusal of the session, or else that of settling.
pub fn follow<R: Wait, E: Events, I: Read, O: Write>(
    rt: &R,
    alloc: Global,
    events: &mut E,
    each: u64,
    reader: &mut I,
    writer: &mut O,
) -> Result<(), Fault>
    // Each frame was fed, forced and answered in order, by what its force acknowledged.
    ensures done { OnOk result (FollowsAll E.alone (E.machine events.old) (E.machine events.new)
        (I.remaining reader.old)
        (I.remaining reader.new) (O.contents writer.old) (O.contents writer.new)) }
    // So it is of the frames that were answered in a session that fails.
    ensures fails { IfErr result (λ f. FollowsPart E.alone f (E.machine events.old)
        (E.machine events.new) (I.remaining reader.old)
        (I.remaining reader.new) (O.contents writer.old) (O.contents writer.new)) }
    // Over true frames the held text stays a front of the source's.
    ensures front { (behind : Option (List ℕ))
        × KeepsFront E.alone (I.remaining reader.old) behind (E.machine events.old)
        (E.machine events.new) }
{
    let header = LogHeader {
        pages: events.pages(),
    };
    let mut upkeep = StandbyUpkeep::new(rt, each, events.status().end);
    let follower = Follower::new(header);
    let mut direct = Direct::new();
    let followed = follower.follow_keeping(alloc, events, &mut direct, &mut upkeep, reader, writer);
    let settled = settle(events);
    match followed {
        Ok(()) => settled,
        Err(fault) => Err(Fault::Session(fault)),
    }
}
