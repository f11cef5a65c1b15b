// Laws of the answers.
ghost use Rattle.std.specs.Prelude.{◌≡◌, true, List};
ghost use Rattle.als_record.specs.declared.record.Record.{Record as AnyRecord};
ghost use Rattle.als_record.specs.Validity.{is_valid, IsValidLog};
ghost use Rattle.als_engine.specs.Machine.{Machine, Keeps};
ghost use Rattle.als_lead.specs.declared.told.Told.{Told as AnyTold};
ghost use Rattle.als_store.specs.declared.decision.Decision.TheVariants as decision;
ghost use Rattle.als_writer.specs.declared.transaction.Transaction.{Transaction as AnyTransaction};
ghost use Rattle.als_writer.specs.declared.work.Work.TheVariants as work;
ghost use Rattle.als_writer.specs.declared.written.Written.{Written as AnyWritten};
ghost use Rattle.als_lead.specs.Answers.{IsWritten, IsDurable, IsTrueOf, HasCommit, commit_by};
ghost use Rattle.als_lead.specs.Placed.{IsCommitOf};

/// A law: an answer that is true of a machine is true of each one that keeps what each event keeps,
/// whose log is valid, as that of an engine always is.
pub fn a_true_answer_stays_true()
    ensures { (old new : Machine) (told : AnyTold) → Keeps old new → is_valid new.held.log ≡ true
        → IsTrueOf old told → IsTrueOf new told }
{}

/// A law: what was prepared and then decided to commit is a commit with exactly the writes that were
/// prepared, at the LSN of the record that decides it, whatever was written between and behind.
pub fn a_decision_commits_what_was_prepared()
    ensures { (m : Machine) → (t : AnyTransaction) → (prepared decided : AnyWritten)
        → is_valid m.held.log ≡ true → IsWritten m (work.Prepare t) prepared
        → IsWritten m (work.Decide prepared.trans decision.Commit) decided
        → HasCommit m.held.log (commit_by t decided) }
{}

/// A law: a commit that was answered is that of a record of the log, which ends at or below the end that
/// was answered and is acknowledged. Each text that begins with what is acknowledged of the log's has it,
/// as als_deposed asks of a commit that a standby acknowledged.
pub fn an_answered_commit_is_in_the_log()
    ensures { (m : Machine) → (t : AnyTransaction) → (w : AnyWritten)
        → IsValidLog m.held.pages m.held.log → IsDurable m (work.Commit t) w
        → (front : List AnyRecord) × (r : AnyRecord) × IsCommitOf m t w front r }
{}
