ghost use Rattle.std.specs.Prelude.{◌≡◌, ℕ, List, [], ◌∷◌, ◌++◌, None, option_to_list, true, false};
ghost use Rattle.std.specs.Prelude.{IsOk, IfOk, IfErr};
ghost use Rattle.als_record.specs.declared.record.Record.{Record};
ghost use Rattle.als_record.specs.Spelling.{IsRecord};
ghost use Rattle.als_record.specs.Shown.{shown, shown_body};
ghost use Rattle.als_record.specs.LogText.{end_of};
ghost use Rattle.als_record.specs.Transactions.{is_commit};
ghost use Rattle.als_record.specs.Commits.{commits_of};
ghost use Rattle.als_record.specs.Validity.{first_bad, IsValidLog};
ghost use Rattle.als_validator.specs.declared.fault.Fault.TheVariants.{Memory};
ghost use Rattle.als_validator.specs.Validated.{IsValidatorOf, judges};

use crate::fault::Fault;
use crate::validator::Validator;
use als_commits::Commit;
use als_record::{BodyView, RecordView};
use std::alloc::Global;

/// Whether a record commits its transaction.
fn is_commit_record(body: &BodyView<'_>) -> bool
    ensures { result ≡ is_commit (shown_body body.now) }
{
    matches!(body, BodyView::Commit)
}

impl Validator {
    /// The commit that a record makes, with what survives of its transaction: asked before the
    /// record is admitted. `None`: it is no commit record, or may not follow the log. Memory: a
    /// growth was refused, for what a commit writes alone.
    pub fn commit_of(&self, alloc: Global, logged: &RecordView<'_>) -> Result<Option<Commit>, Fault>
        requires { judges self.now ≡ true }
        // Of a record that may follow: the commits of the log with it are those of the log and this
        // one, if there is one.
        ensures ok { IfOk result (λ found. (pages : ℕ) (log : List Record)
            → IsValidatorOf pages self.now log → IsValidLog pages log
            → IsRecord pages (shown logged.now) → logged.now.lsn.0 ≡ end_of log
            → first_bad log (shown logged.now) ≡ None
            → commits_of (log ++ (shown logged.now) ∷ [])
            ≡ commits_of log ++ option_to_list found) }
        ensures err { IfErr result (λ e. e ≡ Memory) }
        ensures reserved { is_commit (shown_body logged.now.body) ≡ false → IsOk result }
        ensures wanted { IfErr result (λ e. (pages : ℕ) (log : List Record)
            → IsValidatorOf pages self.now log → IsValidLog pages log
            → IsRecord pages (shown logged.now) → first_bad log (shown logged.now) ≡ None) }
    {
        if !is_commit_record(&logged.body) {
            return Ok(None);
        }
        if self.check(logged).is_err() {
            return Ok(None);
        }
        let survivors = self.survivors_of(logged.trans);
        match Commit::of(alloc, logged.trans, logged.lsn, survivors) {
            Ok(commit) => Ok(Some(commit)),
            Err(_) => Err(Fault::Memory),
        }
    }
}
