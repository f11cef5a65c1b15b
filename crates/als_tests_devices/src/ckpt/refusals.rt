ghost use Rattle.std.specs.Prelude.{◌≡◌, true, IfSome};

use super::checkpoints::{
    begun, checkpoint, marked, named, published, publishes_it, syncs, writes_next, written,
};
use als_ckpt::{Control, Fault};
use als_disk::{BlockDisk, MemDisk};
use als_record::Lsn;
use std::alloc::Global;
use std::process::Abort;

/// A checkpoint can't be begun: 28. `None`: it was, or allocation failed.
fn is_busy<D: BlockDisk>(control: &mut Control<D>, alloc: Global) -> Option<()>
    requires { control.old.pages ≡ 64 }
    ensures { IfSome result (λ _. control.new ≡ control.old) }
{
    match control.begin(alloc, checkpoint(alloc, 100)?) {
        Err(Fault::CkptBusy) => Some(()),
        _ => None,
    }
}

/// No block can be written: 27. `None`: one was, or the device failed.
fn has_no_next<D: BlockDisk>(control: &mut Control<D>) -> Option<()>
    ensures { IfSome result (λ _. control.new ≡ control.old) }
{
    match control.write_next() {
        Err(Fault::NothingToDo) => Some(()),
        _ => None,
    }
}

/// Why nothing can be published. `None`: a checkpoint was, or the device failed.
fn why_unpublished<D: BlockDisk>(control: &mut Control<D>) -> Option<Fault>
    ensures { IfSome result (λ _. control.new ≡ control.old) }
{
    match control.publish() {
        Err(Fault::NothingToDo) => Some(Fault::NothingToDo),
        Err(Fault::CkptBusy) => Some(Fault::CkptBusy),
        Err(Fault::LogBehind) => Some(Fault::LogBehind),
        _ => None,
    }
}

/// Nothing can be published, for that reason. `None`: a checkpoint was, or the device failed.
fn expect_unpublished<D: BlockDisk>(
    rt: &impl Abort,
    control: &mut Control<D>,
    wanted: Fault,
) -> Option<()>
    ensures { IfSome result (λ _. control.new ≡ control.old) }
{
    let why = why_unpublished(control)?;
    assert!(rt; why == wanted);
    Some(())
}

/// Nothing is begun: 27. `None`: allocation failed.
fn nothing_is_begun(rt: &impl Abort, alloc: Global) -> Option<()> {
    let mut control = marked(MemDisk::new(alloc, 321))?;
    has_no_next(&mut control)?;
    expect_unpublished(rt, &mut control, Fault::NothingToDo)
}

#[test]
fn nothing_to_do_before_a_checkpoint(rt: HostRuntime) {
    let alloc = rt.alloc();
    assert!(rt; nothing_is_begun(&rt, alloc).is_some() || nothing_is_begun(&rt, alloc).is_some());
}

/// While a checkpoint is begun: 28. `None`: allocation failed.
fn is_busy_once_begun<D: BlockDisk>(
    rt: &impl Abort,
    control: &mut Control<D>,
    alloc: Global,
) -> Option<()>
    requires { control.old.pages ≡ 64 }
    ensures pages { IfSome result (λ _. control.new.pages ≡ control.old.pages) }
    ensures sure { IfSome result (λ _. control.new.sure ≡ control.old.sure) }
{
    begun(control, alloc, 108)?;
    expect_unpublished(rt, control, Fault::CkptBusy)?;
    writes_next(control)?;
    is_busy(control, alloc)
}

/// And 28 until its blocks are synced. `None`: allocation failed.
fn is_busy_until_the_sync<D: BlockDisk>(
    rt: &impl Abort,
    control: &mut Control<D>,
    alloc: Global,
) -> Option<()>
    requires pages { control.old.pages ≡ 64 }
    requires sure { control.old.sure ≡ true }
{
    writes_next(control)?;
    has_no_next(control)?;
    expect_unpublished(rt, control, Fault::CkptBusy)?;
    syncs(control)?;
    is_busy(control, alloc)?;
    publishes_it(control)
}

/// Both, over a device in memory.
fn waits_for_the_sync(rt: &impl Abort, alloc: Global) -> Option<()> {
    let mut control = marked(MemDisk::new(alloc, 321))?;
    is_busy_once_begun(rt, &mut control, alloc)?;
    is_busy_until_the_sync(rt, &mut control, alloc)
}

#[test]
fn a_checkpoint_waits_for_its_sync(rt: HostRuntime) {
    let alloc = rt.alloc();
    assert!(rt;
        waits_for_the_sync(&rt, alloc).is_some() || waits_for_the_sync(&rt, alloc).is_some()
    );
}

/// A position above the acknowledged LSN: 22. `None`: allocation failed.
fn waits_for_the_mark(rt: &impl Abort, alloc: Global) -> Option<()> {
    let mut control = marked(MemDisk::new(alloc, 321))?;
    written(&mut control, alloc, 201)?;
    syncs(&mut control)?;
    expect_unpublished(rt, &mut control, Fault::LogBehind)?;
    match control.newest().mark {
        Lsn(200) => {}
        _ => return None,
    }
    Some(())
}

#[test]
fn a_checkpoint_waits_for_the_mark(rt: HostRuntime) {
    let alloc = rt.alloc();
    assert!(rt;
        waits_for_the_mark(&rt, alloc).is_some() || waits_for_the_mark(&rt, alloc).is_some()
    );
}

/// After a publish: 27, and 28 until it is synced. `None`: allocation failed.
fn is_busy_until_the_last<D: BlockDisk>(
    rt: &impl Abort,
    control: &mut Control<D>,
    alloc: Global,
) -> Option<()>
    requires pages { control.old.pages ≡ 64 }
    requires sure { control.old.sure ≡ true }
{
    named(control, alloc, 108)?;
    has_no_next(control)?;
    expect_unpublished(rt, control, Fault::NothingToDo)?;
    is_busy(control, alloc)?;
    syncs(control)?;
    published(control, alloc, 116)
}

/// The same over a device in memory.
fn waits_for_the_last(rt: &impl Abort, alloc: Global) -> Option<()> {
    let mut control = marked(MemDisk::new(alloc, 321))?;
    is_busy_until_the_last(rt, &mut control, alloc)
}

#[test]
fn the_next_checkpoint_waits_for_the_last(rt: HostRuntime) {
    let alloc = rt.alloc();
    assert!(rt;
        waits_for_the_last(&rt, alloc).is_some() || waits_for_the_last(&rt, alloc).is_some()
    );
}
