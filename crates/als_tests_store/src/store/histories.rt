// A store goes on with the history of another node.
ghost use Rattle.std.specs.Prelude.{◌≤◌, IfSome};

use super::*;
use als_epochs::{Fault as Refusal, History, Step, judge};
use als_store::OpenFault;

/// The history with these seals.
fn history_of(rt: &impl Abort, seals: &[Lsn]) -> History {
    match History::of(seals) {
        Some(history) => history,
        None => panic!(rt; "no history"),
    }
}

/// Goes on with the history that has these seals.
pub(super) fn adopt<D: BlockDisk + Drop>(
    rt: &impl Abort,
    store: &mut Store<D>,
    seals: &[Lsn],
) -> Result<(), Fault> {
    let own = store.history();
    let offered = history_of(rt, seals);
    let end = store.end();
    assert!(rt; !store.is_broken());
    assert!(rt; store.is_following());
    assert!(rt; matches!(judge(&own, &offered, end), Ok(Step::Adopt)));
    store.adopt(offered)
}

/// The node has these seals, and its log ends here.
pub(super) fn expect_seals<D: BlockDisk + Drop>(
    rt: &impl Abort,
    store: &Store<D>,
    seals: &[u64],
    end: u64,
) {
    let history = store.history();
    assert!(rt; history.seals() == seals);
    assert!(rt; store.end().0 == end);
}

/// The devices that a crash leaves.
pub(super) fn crashed(rt: &impl Abort, store: Store<MemDisk>) -> Disks<MemDisk>
    ensures some { 1 ≤ ⟦<MemDisk as BlockDisk>⟧.block_count result.log }
    ensures few { ⟦<MemDisk as BlockDisk>⟧.block_count result.log ≤ 4194304 }
    ensures control { 321 ≤ ⟦<MemDisk as BlockDisk>⟧.block_count result.control }
    ensures pages { 4 ≤ ⟦<MemDisk as BlockDisk>⟧.block_count result.pages }
{
    assert!(rt; store.pages() == 4);
    let (disks, used) = store.crash(&[]);
    assert!(rt; used == 0);
    disks
}

/// The store over such devices. None: memory was refused.
pub(super) fn opened(
    rt: &impl Abort,
    alloc: Global,
    disks: Disks<MemDisk>,
) -> Option<Store<MemDisk>>
    requires some { 1 ≤ ⟦<MemDisk as BlockDisk>⟧.block_count disks.log }
    requires few { ⟦<MemDisk as BlockDisk>⟧.block_count disks.log ≤ 4194304 }
    requires control { 321 ≤ ⟦<MemDisk as BlockDisk>⟧.block_count disks.control }
    requires pages { 4 ≤ ⟦<MemDisk as BlockDisk>⟧.block_count disks.pages }
{
    match Store::open(alloc, disks, 4, 2) {
        Ok(opened) => {
            let (store, _) = opened.into_parts();
            Some(store)
        }
        Err(refused) => {
            assert!(rt; refused.fault == OpenFault::Memory);
            None
        }
    }
}

/// A log that ends at 44 has parted from one that was sealed at 43. The own history changes nothing.
fn expect_judgements<D: BlockDisk + Drop>(rt: &impl Abort, store: &Store<D>) {
    let own = store.history();
    let past = history_of(rt, &[Lsn(43)]);
    let end = store.end();
    assert!(rt; judge(&own, &past, end) == Err(Refusal::Diverged { seal: Lsn(43) }));
    assert!(rt; judge(&own, &own, end) == Ok(Step::Stay));
}

/// The first commit is acknowledged, and the store goes on with these seals. False: a call has
/// failed.
fn goes_on<D: BlockDisk + Drop>(rt: &impl Abort, store: &mut Store<D>, seals: &[Lsn]) -> bool {
    expect_seals(rt, store, &[], 44);
    expect_judgements(rt, store);
    if !acknowledges_all(rt, store) || adopt(rt, store, seals).is_err() {
        return false;
    }
    assert!(rt; !store.is_broken());
    store.ctl_sync().is_ok()
}

/// The log of a store that went on with a seal at its end is sealed there once more. False: memory
/// was refused.
fn seals_once_more(rt: &impl Abort, alloc: Global) -> bool {
    let Ok(mut store) = Store::format(alloc, devices(alloc), 4, 2) else {
        return false;
    };
    hold_first(rt, alloc, &mut store);
    if !goes_on(rt, &mut store, &[Lsn(44)]) || seal(rt, &mut store).is_err() {
        assert!(rt; store.is_broken());
        return false;
    }
    expect_seals(rt, &store, &[44, 44], 44);
    expect_phase(rt, &store, Phase::Sealed);
    true
}

// An allocation fails once at most: the second try meets none.
#[test]
fn a_log_is_sealed_at_the_seal_before_it(rt: HostRuntime) {
    assert!(rt; seals_once_more(&rt, rt.alloc()) || seals_once_more(&rt, rt.alloc()));
}

/// A store goes on with a seal behind its log's end, and so can't be sealed there. The devices that
/// a crash leaves then. None: memory was refused.
fn stopped(rt: &impl Abort, alloc: Global) -> Option<Disks<MemDisk>>
    ensures some { IfSome result (λ d. 1 ≤ ⟦<MemDisk as BlockDisk>⟧.block_count d.log) }
    ensures few { IfSome result (λ d. ⟦<MemDisk as BlockDisk>⟧.block_count d.log ≤ 4194304) }
    ensures control { IfSome result (λ d. 321 ≤ ⟦<MemDisk as BlockDisk>⟧.block_count d.control) }
    ensures pages { IfSome result (λ d. 4 ≤ ⟦<MemDisk as BlockDisk>⟧.block_count d.pages) }
{
    let mut store = Store::format(alloc, devices(alloc), 4, 2).ok()?;
    hold_first(rt, alloc, &mut store);
    if !goes_on(rt, &mut store, &[Lsn(44), Lsn(60)]) {
        return None;
    }
    let history = store.history();
    assert!(rt; !history.takes(store.end()));
    Some(crashed(rt, store))
}

/// What was adopted stands after a crash. None: memory was refused.
fn stands(rt: &impl Abort, alloc: Global) -> Option<()> {
    let disks = stopped(rt, alloc)?;
    let store = opened(rt, alloc, disks)?;
    expect_seals(rt, &store, &[44, 60], 44);
    expect_phase(rt, &store, Phase::Following);
    Some(())
}

#[test]
fn an_adopted_history_stands_after_a_crash(rt: HostRuntime) {
    assert!(rt; stands(&rt, rt.alloc()).is_some() || stands(&rt, rt.alloc()).is_some());
}
