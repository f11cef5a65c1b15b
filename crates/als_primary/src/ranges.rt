ghost use Rattle.std.specs.Prelude.{◌≡◌, ◌↔◌, IsTrue, OnOk, IfErr};
ghost use Rattle.als_primary.specs.Ranges.{AreInRange};
ghost use Rattle.als_operate.specs.declared.fault.Fault.TheVariants.{Refused};
ghost use Rattle.als_engine.specs.declared.fault.Fault.TheVariants.{BadConfig};

use crate::beginning::CONNECTIONS;
use crate::serving::Serving;
use als_engine::Fault as EngineFault;
use als_operate::Fault;
use als_quorum::SEATS;
use als_sending::WINDOW_LIMIT;

/// The most seconds that a transaction may wait to begin, a frame of a follower may take, or a primary reads unheard.
const PATIENCE: u64 = 3_600;

/// Refuses numbers that are out of range: BadConfig.
pub fn check_numbers(serving: Serving<'_>) -> Result<(), Fault>
    ensures within { OnOk result (AreInRange serving.entry) }
    ensures beyond { IfErr result (λ fault. (fault ≡ Refused BadConfig)
        × ¬ (AreInRange serving.entry)) }
{
    if are_in_range(serving) {
        Ok(())
    } else {
        Err(Fault::Refused(EngineFault::BadConfig))
    }
}

/// Whether each number is in its range.
fn are_in_range(serving: Serving<'_>) -> bool
    ensures { IsTrue result ↔ AreInRange serving.entry }
{
    if serving.connections < 1 || serving.connections > CONNECTIONS {
        return false;
    }
    if serving.commit_timeout < 1 || serving.commit_timeout > PATIENCE {
        return false;
    }
    if serving.read_for < 1 || serving.read_for > PATIENCE {
        return false;
    }
    if serving.window < 1 || serving.window > WINDOW_LIMIT {
        return false;
    }
    if serving.timeout > PATIENCE || serving.sync > SEATS {
        return false;
    }
    serving.listen.is_some() || (serving.sync == 0 && serving.followers.is_empty())
}
