ghost use Rattle.std.specs.Prelude.{◌≡◌, ◌++◌, [], OnOk, IsOk};
ghost use Rattle.std.specs.List.{AllByRecursion};
ghost use Rattle.als_lead.specs.declared.forced.Forced.TheVariants.{Confirmed, Unconfirmed, Failed};
ghost use Rattle.als_lead.specs.Answers.{asked_of};
ghost use Rattle.als_lead.specs.Groups.{done_by, answer_after, all_after};

use crate::answer::Answer;
use crate::clients::Clients;
use crate::forced::Forced;
use crate::told::Told;
use als_engine::Fault as EngineFault;
use als_operate::Fault;
use als_record::Lsn;
use als_writer::{NotDecided, Refusal, Work, Written};
use std::collections::VecDeque;

/// Answers all of a group, in order, after its force. Each work is answered, even if an earlier answer
/// failed; the first failure is returned.
pub(crate) fn tell_all<C: Clients>(
    clients: &mut C,
    queue: &mut VecDeque<Told>,
    forced: Forced,
) -> Result<(), Fault>
    requires owed { AllByRecursion (λ x. C.may_tell x.asked
        (answer_after forced x.asked.work x.answer)) queue.old.items }
    requires waiting { C.taken clients.old ≡ asked_of (C.told clients.old)
        ++ asked_of queue.old.items }
    ensures told { C.told clients.new ≡ C.told clients.old ++ all_after forced queue.old.items }
    ensures taken { C.taken clients.new ≡ C.taken clients.old }
    ensures emptied { queue.new.items ≡ [] }
{
    let mut ended = Ok(());
    'tell: while let Some(told) = queue.pop_front() {
        let Told { asked, answer } = told;
        let answer = answer_after(&asked.work, answer, forced);
        let result = clients.tell(asked, answer);
        ended = first(ended, result);
    }
    ended
}

/// The answer after a force and its confirmation.
fn answer_after(work: &Work, answer: Answer, forced: Forced) -> Answer
    ensures { result ≡ answer_after forced work.now answer }
{
    match forced {
        Forced::Confirmed(lsn) => confirmed(work, answer, lsn),
        Forced::Unconfirmed => unconfirmed(work, answer),
        Forced::Failed(fault) => failed(work, answer, fault),
    }
}

/// The answer if enough others hold the log up to an LSN.
fn confirmed(work: &Work, answer: Answer, lsn: Lsn) -> Answer
    ensures { result ≡ answer_after (Confirmed lsn) work.now answer }
{
    match answer {
        Answer::Committed(written)
        | Answer::Prepared(written)
        | Answer::Decided(written)
        | Answer::Unknown(written) => {
            // The end of the transaction may still be owed.
            if written.end.0 <= lsn.0 {
                done(work, written)
            } else {
                Answer::Unknown(written)
            }
        }
        Answer::Refused(refusal) => Answer::Refused(refusal),
        Answer::NotDecided(reason) => Answer::NotDecided(reason),
        Answer::Withheld => Answer::Withheld,
    }
}

/// The answer to work that is done.
fn done(work: &Work, written: Written) -> Answer
    ensures { result ≡ done_by work.now written }
{
    match work {
        Work::Commit(_) => Answer::Committed(written),
        Work::Prepare(_) => Answer::Prepared(written),
        Work::Decide { .. } => Answer::Decided(written),
    }
}

/// The answer if too few others hold the log: a takeover may take back what refused it.
fn unconfirmed(work: &Work, answer: Answer) -> Answer
    ensures { result ≡ answer_after Unconfirmed work.now answer }
{
    match answer {
        Answer::Committed(written)
        | Answer::Prepared(written)
        | Answer::Decided(written)
        | Answer::Unknown(written) => Answer::Unknown(written),
        Answer::Refused(_) | Answer::Withheld => Answer::Withheld,
        Answer::NotDecided(_) => Answer::Withheld,
    }
}

/// The answer if the force or its confirmation failed. The leader ends, so that failure is the reason of
/// each refusal.
fn failed(work: &Work, answer: Answer, fault: EngineFault) -> Answer
    ensures { result ≡ answer_after (Failed fault) work.now answer }
{
    match answer {
        Answer::Committed(written)
        | Answer::Prepared(written)
        | Answer::Decided(written)
        | Answer::Unknown(written) => Answer::Unknown(written),
        Answer::Refused(_) => Answer::Refused(Refusal::State(fault)),
        Answer::NotDecided(_) => Answer::NotDecided(NotDecided::State(fault)),
        Answer::Withheld => Answer::Withheld,
    }
}

/// The first failure of two results.
pub(crate) fn first(earlier: Result<(), Fault>, later: Result<(), Fault>) -> Result<(), Fault>
    ensures earlier { OnOk result (IsOk earlier) }
    ensures later { OnOk result (IsOk later) }
{
    match earlier {
        Ok(()) => later,
        Err(fault) => Err(fault),
    }
}
