ghost use Rattle.std.specs.Prelude.{◌≡◌, true};
ghost use Rattle.als_validator.specs.Validated.{HasRoom, judges};

use crate::made::{Said, record, undo, update};
use als_commits::Commit;
use als_record::{Body, Cause, Lsn, PageRows, Record, TransId, TransactionRows};
use als_validator::{Fault, Validator};
use std::alloc::Global;
use std::process::Abort;

fn end_of_checkpoint(alloc: Global, lsn: u64, prev: u64, trans: u32) -> Record {
    let transactions = TransactionRows::new(alloc);
    let pages = PageRows::new(alloc);
    Record {
        lsn: Lsn(lsn),
        prev: Lsn(prev),
        trans: TransId(trans),
        body: Body::EndCheckpoint {
            transactions,
            pages,
        },
    }
}

// A validator of no record. A refused growth is met once at most: it is made at the next try.
fn fresh(rt: &impl Abort, alloc: Global) -> Validator
    ensures { judges result ≡ true }
{
    match Validator::new(alloc, 4) {
        Ok(validator) => validator,
        Err(fault) => {
            assert!(rt; fault == Fault::Memory);
            assert!(rt; fault.number() == 32);
            assert!(rt; fault.name() == "Memory");
            match Validator::new(alloc, 4) {
                Ok(validator) => validator,
                Err(_) => panic!(rt; "refused twice"),
            }
        }
    }
}

// Makes room for one more record. A refused growth changes nothing, and is met once at most.
fn make_room(rt: &impl Abort, validator: &mut Validator)
    ensures room { HasRoom validator.new }
    ensures judging { judges validator.new ≡ judges validator.old }
{
    let rows = validator.rows().len();
    match validator.reserve() {
        Ok(()) => {}
        Err(fault) => {
            assert!(rt; fault == Fault::Memory);
            assert!(rt; validator.rows().len() == rows);
            match validator.reserve() {
                Ok(()) => {}
                Err(_) => panic!(rt; "refused twice"),
            }
        }
    }
}

// Takes a record that says this and may follow.
fn admit(rt: &impl Abort, one: &mut Validator, lsn: u64, prev: u64, trans: u32, said: Said)
    requires { judges one.old ≡ true }
    ensures { judges one.new ≡ true }
{
    admit_record(rt, one, &record(lsn, prev, trans, said));
}

// Takes a record that may follow. What a takeover would append then was told before.
fn admit_record(rt: &impl Abort, validator: &mut Validator, logged: &Record)
    requires { judges validator.old ≡ true }
    ensures { judges validator.new ≡ true }
{
    assert!(rt; validator.check(&logged.view()) == Ok(()));
    make_room(rt, validator);
    assert!(rt; validator.check(&logged.view()) == Ok(()));
    let after = validator.reserve_after(&logged.view());
    validator.admit(&logged.view());
    assert!(rt; validator.reserve_bytes() == after);
}

// A record that is refused: its LSN, PrevLSN and TransID, what it says, and the cause.
type Refused = (u64, u64, u32, Said, Cause);

// Refuses each record.
fn refuse(rt: &impl Abort, one: &Validator, records: &[Refused])
    requires { judges one.now ≡ true }
{
    for (lsn, prev, trans, said, cause) in records {
        refuse_record(rt, one, &record(*lsn, *prev, *trans, *said), *cause);
    }
}

// Refuses a record, and again.
fn refuse_record(rt: &impl Abort, validator: &Validator, logged: &Record, cause: Cause)
    requires { judges validator.now ≡ true }
{
    assert!(rt; validator.check(&logged.view()) == Err(Fault::Invalid(cause)));
    assert!(rt; validator.check(&logged.view()) == Err(Fault::Invalid(cause)));
}

#[test]
fn records_that_may_not_follow(rt: HostRuntime) {
    let mut one = fresh(&rt, rt.alloc());
    admit(&rt, &mut one, 16, 0, 1, update(0, None, 0xaa));
    refuse(
        &rt,
        &one,
        &[
            (52, 0, 1, Said::Commit, Cause::BadPrev),
            (52, 16, 1, Said::End, Cause::WrongState),
            (52, 16, 1, undo(0, None, 16), Cause::WrongUndoNext),
            (52, 16, 1, undo(0, Some(0x22), 0), Cause::WrongCompensation),
            (
                52,
                0,
                2,
                update(0, Some(0xaa), 0x22),
                Cause::RecordHeld { by: TransId(1) },
            ),
        ],
    );
    admit(&rt, &mut one, 52, 16, 1, Said::Commit);
    refuse(
        &rt,
        &one,
        &[
            (80, 0, 2, update(0, Some(0xab), 0xcc), Cause::BeforeImage),
            (80, 0, 0, update(0, Some(0xaa), 0xcc), Cause::OldTransaction),
        ],
    );
    admit(&rt, &mut one, 80, 0, 2, update(0, Some(0xaa), 0xcc));
}

#[test]
fn transactions_rise(rt: HostRuntime) {
    let mut one = fresh(&rt, rt.alloc());
    admit(&rt, &mut one, 16, 0, 2, update(0, None, 0xaa));
    refuse(
        &rt,
        &one,
        &[(52, 0, 1, update(1, None, 0xbb), Cause::OldTransaction)],
    );
    assert!(rt; Fault::Invalid(Cause::OldTransaction).number() == 9);
    assert!(rt; Fault::Invalid(Cause::OldTransaction).name() == "OldTransaction");
}

#[test]
fn a_transaction_too_many(rt: HostRuntime) {
    let mut one = fresh(&rt, rt.alloc());
    for k in 0..256u32 {
        admit(&rt, &mut one, 16 + 28 * k as u64, 0, k + 1, Said::Rollback);
    }
    refuse(
        &rt,
        &one,
        &[(7184, 0, 257, Said::Rollback, Cause::TooManyTransactions)],
    );
    assert!(rt; one.rows().len() == 256);
    assert!(rt; one.reserve_bytes() == 256 * 28);
}

#[test]
fn checkpoints_come_in_pairs(rt: HostRuntime) {
    let mut one = fresh(&rt, rt.alloc());
    refuse_record(
        &rt,
        &one,
        &end_of_checkpoint(rt.alloc(), 16, 0, 0),
        Cause::BadCheckpoint,
    );
    admit(&rt, &mut one, 16, 0, 0, Said::BeginCheckpoint);
    admit_record(&rt, &mut one, &end_of_checkpoint(rt.alloc(), 44, 16, 0));
    refuse_record(
        &rt,
        &one,
        &end_of_checkpoint(rt.alloc(), 76, 16, 0),
        Cause::BadCheckpoint,
    );
    admit(&rt, &mut one, 76, 0, 1, Said::Commit);
    admit(&rt, &mut one, 104, 76, 1, Said::End);
    refuse(
        &rt,
        &one,
        &[
            (132, 0, 1, Said::BeginCheckpoint, Cause::WrongState),
            (132, 0, 2, Said::BeginCheckpoint, Cause::BadCheckpoint),
        ],
    );
}

#[test]
fn a_partial_rollback_goes_on(rt: HostRuntime) {
    let mut one = fresh(&rt, rt.alloc());
    admit(&rt, &mut one, 16, 0, 1, update(0, None, 0x11));
    admit(&rt, &mut one, 52, 16, 1, update(0, Some(0x11), 0x22));
    admit(&rt, &mut one, 89, 52, 1, undo(0, Some(0x11), 16));
    refuse(
        &rt,
        &one,
        &[(
            132,
            0,
            2,
            update(0, Some(0x11), 0x33),
            Cause::RecordHeld { by: TransId(1) },
        )],
    );
    admit(&rt, &mut one, 132, 89, 1, undo(0, None, 0));
    admit(&rt, &mut one, 174, 132, 1, update(1, None, 0xbb));
    admit(&rt, &mut one, 210, 0, 2, update(0, None, 0x33));
    refuse(
        &rt,
        &one,
        &[(
            246,
            174,
            1,
            update(0, Some(0x33), 0x44),
            Cause::RecordHeld { by: TransId(2) },
        )],
    );
    assert!(rt; one.survivors_of(TransId(1)).len() == 1);
    let commit = record(246, 174, 1, Said::Commit);
    assert!(rt; one.check(&commit.view()) == Ok(()));
    assert!(rt; one.reserve_after(&commit.view()) == 28 + 28 + 42);
}

#[test]
fn a_transaction_in_doubt_goes_on_by_its_decision(rt: HostRuntime) {
    let mut one = fresh(&rt, rt.alloc());
    admit(&rt, &mut one, 16, 0, 1, update(0, None, 0x11));
    admit(&rt, &mut one, 52, 16, 1, Said::Prepare);
    refuse(
        &rt,
        &mut one,
        &[
            (80, 52, 1, update(1, None, 0x22), Cause::WrongState),
            (80, 52, 1, undo(0, None, 0), Cause::WrongState),
            (80, 52, 1, Said::End, Cause::WrongState),
            (80, 52, 1, Said::Prepare, Cause::WrongState),
            (80, 0, 1, Said::BeginCheckpoint, Cause::WrongState),
            (
                80,
                0,
                2,
                update(0, Some(0x11), 0x22),
                Cause::RecordHeld { by: TransId(1) },
            ),
        ],
    );
    assert!(rt; one.reserve_bytes() == 56 + 42);
    let commit = record(80, 52, 1, Said::Commit);
    assert!(rt; one.check(&commit.view()) == Ok(()));
    admit(&rt, &mut one, 80, 52, 1, Said::Rollback);
    refuse(
        &rt,
        &mut one,
        &[(108, 80, 1, Said::Prepare, Cause::WrongState)],
    );
    admit(&rt, &mut one, 108, 80, 1, undo(0, None, 0));
}

fn has_two_writes(rt: &impl Abort, made: &Commit) {
    assert!(rt; (made.trans.0, made.lsn.0, made.writes.len()) == (1, 168, 2));
}

// T1 writes (0,0), (0,1) and (0,0) again, and undoes the last write: its commit has the first two.
fn commits(rt: &impl Abort, alloc: Global) -> Option<()> {
    let mut validator = fresh(rt, alloc);
    admit(rt, &mut validator, 16, 0, 1, update(0, None, 1));
    admit(rt, &mut validator, 52, 16, 1, update(1, None, 0xbb));
    admit(rt, &mut validator, 88, 52, 1, update(0, Some(1), 2));
    admit(rt, &mut validator, 125, 88, 1, undo(0, Some(1), 52));
    let commit = record(168, 125, 1, Said::Commit);
    has_two_writes(rt, &validator.commit_of(alloc, &commit.view()).ok()??);
    Some(())
}

#[test]
fn a_commit_has_what_survives(rt: HostRuntime) {
    let alloc = rt.alloc();
    assert!(rt; commits(&rt, alloc).is_some() || commits(&rt, alloc).is_some());
}

// Takes a record of the tail of a log that was sealed.
fn admit_sealed(rt: &impl Abort, one: &mut Validator, lsn: u64, prev: u64, trans: u32, said: Said) {
    make_room(rt, one);
    one.admit(&record(lsn, prev, trans, said).view());
}

// A sealed log takes its tail, with no record judged any more: the table goes on, and what a
// checkpoint names.
#[test]
fn a_sealed_log_is_judged_no_more(rt: HostRuntime) {
    let mut one = fresh(&rt, rt.alloc());
    admit(&rt, &mut one, 16, 0, 1, update(0, None, 0x11));
    admit(&rt, &mut one, 52, 0, 0, Said::BeginCheckpoint);
    assert!(rt; one.is_judging());
    one.seal();
    assert!(rt; !one.is_judging());
    assert!(rt; one.reserve_bytes() == 42 + 28);
    assert!(rt; one.reserve().is_ok());
    assert!(rt; one.look_ahead(&[0; 64]) == 0);
    admit_sealed(&rt, &mut one, 80, 16, 1, undo(0, None, 0));
    assert!(rt; one.rows().iter().all(|open| open.row().undo_next.0 == 0));
    assert!(rt; one.rows().len() == 1);
    assert!(rt; one.reserve_bytes() == 28);
    admit_sealed(&rt, &mut one, 122, 80, 1, Said::End);
    assert!(rt; one.rows().is_empty());
    assert!(rt; (one.greatest().0, one.open_checkpoint().0) == (1, 52));
    one.seal();
    assert!(rt; !one.is_judging());
}
