ghost use Rattle.std.specs.Prelude.{◌≡◌};
ghost use Rattle.als_epochs.specs.Histories.{next_seal};
ghost use Rattle.als_epochs.specs.Judging.{judged, Judges};

use crate::fault::Fault;
use crate::history::History;
use crate::step::Step;
use als_record::Lsn;

/// The seal of an offered history behind as many as the own one has.
fn next(own: &History, offered: &History) -> Option<u64>
    ensures { result ≡ next_seal own.now offered.now }
{
    offered.seals().get(own.epoch() as usize).copied()
}

/// The judgement.
#[tactic(auto, unfolding(crate::specs::Judging::judged))]
fn judgement(own: &History, offered: &History, end: Lsn) -> Result<Step, Fault>
    ensures { result ≡ judged own.now offered.now end.0 }
{
    if !offered.starts_with(own) {
        return Err(Fault::OtherEpoch {
            epoch: offered.epoch(),
        });
    }
    match next(own, offered) {
        None => Ok(Step::Stay),
        Some(seal) if seal < end.0 => Err(Fault::Diverged { seal: Lsn(seal) }),
        Some(_) => Ok(Step::Adopt),
    }
}

/// Whether a node with this history, whose log ends there, goes on with an offered one.
///
/// `OtherEpoch`: the own history is not a front of the offered one. `Diverged`: the log ends above
/// the offered seal that follows the own ones.
pub fn judge(own: &History, offered: &History, end: Lsn) -> Result<Step, Fault>
    ensures exact { result ≡ judged own.now offered.now end.0 }
    // The same in words.
    ensures words { Judges own.now offered.now end.0 result }
{
    judgement(own, offered, end)
}
