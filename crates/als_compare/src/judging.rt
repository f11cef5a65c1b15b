ghost use Rattle.std.specs.Prelude.{◌≡◌, ◌↔◌, ℕ, List, take, IsTrue, IfSome, IfNone};
ghost use Rattle.als_compare.specs.Summaries.{Sums};
ghost use Rattle.als_compare.specs.Verdicts.{parts, IsOfDigest, NeedsText, IsVerdict};

use crate::summary::Summary;
use crate::summing::Summing;
use crate::verdict::Verdict;
use als_epochs::History;

/// Whether the follower's history parts from the own one: it is of a later epoch, or its log ends above the
/// seal that ended its epoch.
#[tactic(auto, unfolding(crate::specs::Verdicts::parts))]
fn parts(own: &History, question: &Summary) -> bool
    ensures { result ≡ parts own.now question.now }
{
    if own.epoch() < question.epoch {
        return true;
    }
    match own.seals().get(question.epoch as usize).copied() {
        Some(seal) => seal < question.end,
        None => false,
    }
}

/// What a source with this history, whose log ends there, answers without a look at its text. None: its text
/// up to the follower's end says it.
#[tactic(auto, unfolding(crate::specs::Verdicts::judged_sooner, crate::specs::Verdicts::IsVerdict))]
pub fn judge_history(own: &History, end: u64, question: &Summary) -> Option<Verdict>
    ensures sooner { IfSome result (λ verdict. (text : List ℕ)
        → IsVerdict text end own.now question.now verdict) }
    ensures needs { IfNone result (NeedsText own.now end question.now) }
{
    if parts(own, question) {
        Some(Verdict::Parted)
    } else if end < question.end {
        Some(Verdict::Shorter)
    } else {
        None
    }
}

/// Whether two digests are one.
fn is_same(one: &[u8; 32], other: &[u8; 32]) -> bool
    ensures { IsTrue result ↔ (one.now ≡ other.now) }
{
    one.as_slice() == other.as_slice()
}

/// What a source answers whose text up to the follower's end has this digest.
fn judge_digest(digest: &[u8; 32], question: &Summary) -> Verdict
    ensures { IsOfDigest digest.now question.now result }
{
    if is_same(digest, &question.digest) {
        Verdict::Same
    } else {
        Verdict::Other
    }
}

/// What a source with this history, whose log ends there, answers by its text up to the follower's end, which
/// was summed.
pub fn judge_text(own: &History, end: u64, summing: &Summing, question: &Summary) -> Verdict
    requires { NeedsText own.now end question.now }
    ensures { (text : List ℕ) → Sums summing.now (take question.now.end text)
        → IsVerdict text end own.now question.now result }
{
    let summary = summing.summary(question.epoch);
    judge_digest(&summary.digest, question)
}
