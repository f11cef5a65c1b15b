ghost use Rattle.std.specs.Prelude.{◌≡◌};
ghost use Rattle.als_primary.specs.declared.refusal.Refusal.TheVariants.{Ended};

use crate::bad_token::BadToken;
use als_engine::Fault as EngineFault;
use als_operate::Fault;
use std::alloc::AllocError;
use std::io;

/// Why a primary did not serve, or stopped.
#[derive(Clone, Copy, Debug, PartialEq, Eq)]
pub enum Refusal {
    /// The address is not a loopback one, and there is no token.
    Unguarded,
    /// The token's file is refused.
    BadToken(BadToken),
    /// It could not start, or something failed.
    Ended(Fault),
}

impl From<Fault> for Refusal {
    ghost from_gives = { λ cause refusal. refusal ≡ Ended cause };

    fn from(fault: Fault) -> Refusal {
        Refusal::Ended(fault)
    }
}

impl From<EngineFault> for Refusal {
    fn from(fault: EngineFault) -> Refusal {
        Refusal::Ended(Fault::Refused(fault))
    }
}

impl From<AllocError> for Refusal {
    fn from(_e: AllocError) -> Refusal {
        Refusal::Ended(Fault::Memory)
    }
}

impl From<io::Error> for Refusal {
    fn from(e: io::Error) -> Refusal {
        Refusal::Ended(Fault::from(e))
    }
}
