ghost use Rattle.std.specs.Prelude.{◌≡◌, ◌+◌, ◌<◌, ◌≤◌, false, IfOk, IfErr, Some, vec_len};
ghost use Rattle.std.specs.List.{fold};
ghost use Rattle.als_store.specs.Stored.{acknowledged};
ghost use Rattle.als_share.specs.Reaching.{ReachesFrom, FollowsFrom};
ghost use Rattle.als_share.specs.Ledgers.{AreNamed, AreNew, CountsNoTakeover, plus};

use crate::acknowledger::Acknowledger;
use crate::blanks::Blanks;
use crate::counts::Counts;
use crate::ledgers::Ledgers;
use crate::locked::Locked;
use crate::settled::Settled;
use crate::thread_share::Share;
use als_engine::Events;
use std::alloc::Global;
use std::sync::Mutex;

/// An engine that threads share.
pub struct Shared<L: Ledgers, E: Events> {
    pub(crate) lock: Mutex<Locked<L, E>>,
}

// Written out, as an engine's.
impl<L: Ledgers, E: Events + Drop> Drop for Shared<L, E> {
    fn drop(self) {
        let Shared { lock } = self;
        drop(lock);
    }
}

impl<L: Ledgers, E: Events> Shared<L, E> {
    /// What is under the lock, once no thread shares it.
    fn into_locked(self) -> Locked<L, E> {
        let Shared { lock } = self;
        lock.into_inner()
    }
}

/// Shares an engine among this many threads, which may take the database over or may not: where they
/// may not, seal, undo, finish and resolve are refused as NothingToDo, and no event is made. Its tally
/// starts, and each share begins with nothing done. For a session the log is acknowledged by the
/// acknowledger. Where allocation fails the engine comes back.
pub fn share<L: Ledgers, E: Counts>(
    alloc: Global,
    mut engine: E,
    count: usize,
    blanks: Blanks,
    takes_over: bool,
) -> Result<(Shared<L, E>, Vec<Share<L>>, Acknowledger<L>), E>
    requires start { L.start ≡ Some (E.machine engine) }
    requires book { L.book ≡ E.book engine }
    requires names { AreNamed L.names blanks.names }
    requires parts { (blanks.parts ≡ L.shares) × (count ≡ L.shares) }
    requires some { 0 < count }
    requires takes_over { takes_over ≡ L.takes_over }
    ensures shares { IfOk result (λ made. (vec_len made.1 ≡ count) × AreNew made.1.items) }
    ensures acknowledger { IfOk result (λ made. made.2 ≡ 0) }
    ensures back { IfErr result (λ back. back ≡ engine) }
{
    let mut shares = Vec::new(alloc);
    if shares.reserve(count).is_err() {
        return Err(engine);
    }
    engine.start_tally();
    let (books, mut rest, floor, acknowledger) = blanks.open::<L>();
    for _ in 1..count {
        shares.push_reserved(Share { part: rest.split() });
    }
    shares.push_reserved(Share { part: rest });
    let lock = Mutex::new(Locked::new(engine, books, floor, takes_over));
    Ok((Shared { lock }, shares, acknowledger))
}

/// The engine, once no thread shares it any more. Its tally is what all threads did, its machine is
/// reached from the one that was shared, and its readers are those of that one. It has what was
/// acknowledged for a session.
pub fn settle<L: Ledgers, E: Events>(
    shared: Shared<L, E>,
    first: Share<L>,
    others: Vec<Share<L>>,
    acknowledger: Acknowledger<L>,
) -> Settled<E>
    requires { vec_len others + 1 ≡ L.shares }
    ensures tally { E.tally result.engine ≡ fold plus first others.items }
    ensures reached { E.alone → ReachesFrom L.start (E.machine result.engine) }
    ensures book { E.book result.engine ≡ L.book }
    ensures floor { E.alone → acknowledger ≤ acknowledged (E.machine result.engine).held }
    // Where threads may not take the database over, no event of a takeover was made.
    ensures follows { L.takes_over ≡ false → E.alone
        → FollowsFrom L.start (E.machine result.engine) }
    ensures none { L.takes_over ≡ false → CountsNoTakeover (E.tally result.engine) }
    // Where it was not touched, the machine is the one that was shared.
    ensures untouched { result.touched ≡ false → L.start ≡ Some (E.machine result.engine) }
{
    let (engine, mut books, mut floor, touched) = shared.into_locked().into_parts();
    let mut acknowledger = acknowledger;
    acknowledger.audit(&mut floor);
    let mut all = first.into_part();
    for share in others {
        all.merge(share.into_part());
    }
    books.audit(&mut all);
    Settled { engine, touched }
}
